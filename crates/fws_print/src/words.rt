//! Words behind blanks.

ghost use Rattle.std.specs.Prelude.{◌≡◌, ◌∷◌, ◌++◌, [], codes, OnOk};
ghost use Rattle.std.specs.Fmt.{decimal};
ghost use Rattle.fws_num.specs.Numbers.{dotted};
ghost use Rattle.fws_net.specs.SiteSpelling.{net_word};
ghost use Rattle.fws_print.specs.Words.{protocol_name};

use fws_num::{Memory, Text, put_dec, put_quad};

/// Appends a blank and a word. Fails if memory runs out, here and in all of this crate.
pub fn put_word(out: &mut Text, word: &[u8]) -> Result<(), Memory>
    ensures { OnOk result (out.new ≡ out.old ++ 32 ∷ word.now) }
{
    out.put(b" ")?;
    out.put(word)?;
    Ok(())
}

/// Appends a blank and a number.
pub fn put_number(out: &mut Text, n: u32) -> Result<(), Memory>
    ensures { OnOk result (out.new ≡ out.old ++ 32 ∷ decimal n) }
{
    out.put(b" ")?;
    put_dec(out, u64::from(n))?;
    Ok(())
}

/// Appends a protocol, behind a blank: by its name where it has ports or ICMP types, and else by its number.
pub fn put_protocol(out: &mut Text, n: u32) -> Result<(), Memory>
    ensures { OnOk result (out.new ≡ out.old ++ 32 ∷ protocol_name n) }
{
    match n {
        1 => put_word(out, b"icmp"),
        6 => put_word(out, b"tcp"),
        17 => put_word(out, b"udp"),
        _ => put_number(out, n),
    }
}

/// Appends an address, behind a blank.
pub fn put_address(out: &mut Text, addr: u32) -> Result<(), Memory>
    ensures { OnOk result (out.new ≡ out.old ++ 32 ∷ dotted addr) }
{
    out.put(b" ")?;
    put_quad(out, addr)?;
    Ok(())
}

/// Appends an address and, behind a slash, the length of a network, behind a blank.
pub fn put_network(out: &mut Text, addr: u32, len: u8) -> Result<(), Memory>
    ensures { OnOk result (out.new ≡ out.old ++ 32 ∷ net_word addr len) }
{
    put_address(out, addr)?;
    out.put(b"/")?;
    put_dec(out, u64::from(len))?;
    Ok(())
}
