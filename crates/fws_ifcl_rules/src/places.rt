//! Numbers of rules and chains.

ghost use Rattle.std.specs.Prelude.{◌≡◌, ◌+◌, IfOk};

use fws_num::Memory;

/// The sum. Fails if memory runs out, or at a sum past all numbers.
pub fn sum(a: usize, b: usize) -> Result<usize, Memory>
    ensures { IfOk result (λ n. n ≡ a + b) }
{
    a.checked_add(b).ok_or(Memory)
}

/// The place `more` rules behind another one. Fails if memory runs out.
pub fn place_behind(at: usize, more: usize) -> Result<u32, Memory>
    ensures { IfOk result (λ n. n ≡ at + more) }
{
    let place = sum(at, more)?;
    u32::try_from(place).map_err(|_| Memory)
}
