//! Names of chains.

ghost use Rattle.std.specs.Prelude.{◌≡◌, ℕ, ◌≤◌, List, ◌++◌, true, length, IfOk, OnOk};
ghost use Rattle.fws_ipt_print.specs.Printable.{is_chain_name};
ghost use Rattle.fws_ipt_put_chains.specs.Blocks.{EndsInNumber, IsNamePart};

use fws_num::{Memory, Text, numbers_are_digits, put_dec};
use std::alloc::Global;

// Appends the word of a field of a point.
fn put_word(name: &mut Text, f: u8) -> Result<(), Memory>
    ensures { OnOk result ((word : List ℕ) × (name.new ≡ name.old ++ word) × IsNamePart word) }
{
    match f {
        1 => name.put(b"proto"),
        2 | 8 => name.put(b"dst"),
        3 | 9 => name.put(b"dport"),
        4 | 10 => name.put(b"src"),
        5 | 11 => name.put(b"sport"),
        6 => name.put(b"flags"),
        _ => name.put(b"icmp"),
    }
}

/// The name of the chain with this number, which tests a field of a point.
pub(crate) fn chain_name(alloc: Global, front: &[u8], f: u8, number: u32) -> Result<Text, Memory>
    requires plain { is_chain_name front.now ≡ true }
    requires short { length front.now ≤ 8 }
    ensures plain { IfOk result (λ name. is_chain_name name ≡ true) }
    ensures named { IfOk result (λ name. EndsInNumber number name) }
{
    numbers_are_digits();
    let mut name = Text::of(alloc, front)?;
    name.put(b"-")?;
    put_word(&mut name, f)?;
    name.put(b"-")?;
    put_dec(&mut name, u64::from(number))?;
    Ok(name)
}
