//! Flags as they are printed.

ghost use Rattle.std.specs.Prelude.{◌≡◌, ◌≤◌, ◌/◌, ◌%◌, ◌∷◌, ◌++◌, [], nat_eq, if◌then◌else◌, codes, OnOk};
ghost use Rattle.fws_print.specs.Words.{behind_blanks};
ghost use Rattle.fws_pf_print.specs.PrintedText.{flags_word, letters_of};

use fws_num::{Memory, Text};

/// Appends the letter of a flag with this bit, if it is among the flags.
fn put_letter(out: &mut Text, flags: u8, bit: u8, letter: &[u8]) -> Result<(), Memory>
    requires { 1 ≤ bit }
    ensures { OnOk result (out.new ≡ out.old ++ (if nat_eq (flags / bit % 2) 1 then letter.now else [])) }
{
    if flags / bit % 2 == 1 {
        out.put(letter)?;
    }
    Ok(())
}

/// Appends the letters of flags.
#[tactic(auto, unfolding(crate::specs::PrintedText::letters_of))]
fn put_letters(out: &mut Text, flags: u8) -> Result<(), Memory>
    ensures { OnOk result (out.new ≡ out.old ++ letters_of flags) }
{
    put_letter(out, flags, 1, b"F")?;
    put_letter(out, flags, 2, b"S")?;
    put_letter(out, flags, 4, b"R")?;
    put_letter(out, flags, 8, b"P")?;
    put_letter(out, flags, 16, b"A")?;
    put_letter(out, flags, 32, b"U")?;
    Ok(())
}

/// Appends the flags that are wanted, and behind a slash those that are looked at.
fn put_flags(out: &mut Text, mask: u8, want: u8) -> Result<(), Memory>
    ensures { OnOk result (out.new ≡ out.old ++ flags_word mask want) }
{
    put_letters(out, want)?;
    out.put(b"/")?;
    put_letters(out, mask)?;
    Ok(())
}

/// Appends a test of flags.
pub fn put_flag_test(out: &mut Text, mask: u8, want: u8) -> Result<(), Memory>
    ensures { OnOk result (out.new ≡ out.old ++ behind_blanks (codes "flags" ∷ flags_word mask want ∷ [])) }
{
    out.put(b" flags ")?;
    put_flags(out, mask, want)?;
    Ok(())
}
