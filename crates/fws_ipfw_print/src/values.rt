//! Ports, ICMP types and flags as they are printed.

ghost use Rattle.std.specs.Prelude.{◌≡◌, ◌≤◌, ◌∷◌, ◌++◌, [], OnOk, IfOk};
ghost use Rattle.std.specs.Fmt.{decimal};
ghost use Rattle.std.specs.List.{flat_map, join_by};
ghost use Rattle.fws_print.specs.Words.{behind_blanks};
ghost use Rattle.fws_ipfw_print.specs.PrintedText.{flag_text, flag_words, flags_word, numbers_of, numbers_word, ranges_word};

use fws_iv::Iv;
use fws_num::{Memory, Text, put_dec};
use fws_print::{put_ranges, put_word};
use std::alloc::Global;

/// Appends ports behind an option.
pub fn put_ports(out: &mut Text, option: &[u8], parts: &[Iv]) -> Result<(), Memory>
    ensures { OnOk result (out.new ≡ out.old ++ behind_blanks (option.now ∷ ranges_word parts.now ∷ [])) }
{
    put_word(out, option)?;
    out.put(b" ")?;
    put_ranges(out, b'-', parts)?;
    Ok(())
}

/// Appends the numbers of a range to others.
fn add_numbers(numbers: &mut Vec<u64>, iv: Iv) -> Result<(), Memory>
    ensures { OnOk result (numbers.new.items ≡ numbers.old.items ++ numbers_of iv) }
{
    for n in u64::from(iv.lo)..u64::from(iv.hi) + 1 {
        numbers.push(n)?;
    }
    Ok(())
}

/// The numbers of the ranges, each alone.
fn all_numbers(alloc: Global, parts: &[Iv]) -> Result<Vec<u64>, Memory>
    ensures { IfOk result (λ numbers. numbers.items ≡ flat_map numbers_of parts.now) }
{
    let mut numbers = Vec::new(alloc);
    for iv in parts {
        add_numbers(&mut numbers, *iv)?;
    }
    Ok(numbers)
}

/// Appends the numbers joined by commas.
fn put_joined(out: &mut Text, numbers: &[u64]) -> Result<(), Memory>
    ensures { OnOk result (out.new ≡ out.old ++ join_by decimal (44 ∷ []) numbers.now) }
{
    if let [first, rest @ ..] = numbers {
        put_dec(out, *first)?;
        for n in rest {
            out.put(b",")?;
            put_dec(out, *n)?;
        }
    }
    Ok(())
}

/// Appends the numbers of the ranges, each alone, behind an option.
pub fn put_types(out: &mut Text, alloc: Global, option: &[u8], parts: &[Iv]) -> Result<(), Memory>
    ensures { OnOk result (out.new ≡ out.old ++ behind_blanks (option.now ∷ numbers_word parts.now ∷ [])) }
{
    let numbers = all_numbers(alloc, parts)?;
    put_word(out, option)?;
    out.put(b" ")?;
    put_joined(out, numbers.as_slice())?;
    Ok(())
}

/// Appends the flag with this bit if it is tested: behind a comma where one of a lower bit is tested too,
/// and with `!` before it where it is to be clear.
fn put_flag(out: &mut Text, mask: u8, want: u8, bit: u8, name: &[u8]) -> Result<(), Memory>
    requires { 1 ≤ bit }
    ensures { OnOk result (out.new ≡ out.old ++ flag_text mask want bit name.now) }
{
    if mask / bit % 2 == 1 {
        if mask % bit != 0 {
            out.put(b",")?;
        }
        if want / bit % 2 != 1 {
            out.put(b"!")?;
        }
        out.put(name)?;
    }
    Ok(())
}

/// Appends the flags that are tested, joined by commas.
#[tactic(auto, unfolding(crate::specs::PrintedText::flags_word))]
fn put_flags(out: &mut Text, mask: u8, want: u8) -> Result<(), Memory>
    ensures { OnOk result (out.new ≡ out.old ++ flags_word mask want) }
{
    put_flag(out, mask, want, 1, b"fin")?;
    put_flag(out, mask, want, 2, b"syn")?;
    put_flag(out, mask, want, 4, b"rst")?;
    put_flag(out, mask, want, 8, b"psh")?;
    put_flag(out, mask, want, 16, b"ack")?;
    put_flag(out, mask, want, 32, b"urg")?;
    Ok(())
}

/// Appends a test of flags: that SYN is set and ACK is clear has a word of its own.
pub fn put_flag_test(out: &mut Text, mask: u8, want: u8) -> Result<(), Memory>
    ensures { OnOk result (out.new ≡ out.old ++ behind_blanks (flag_words mask want)) }
{
    if mask == 18 && want == 2 {
        put_word(out, b"setup")?;
    } else {
        out.put(b" tcpflags ")?;
        put_flags(out, mask, want)?;
    }
    Ok(())
}
