//! Numbers of chains.

ghost use Rattle.std.specs.Prelude.{◌≡◌, ◌+◌, IfOk};

use fws_ifcl_rules::place_behind;
use fws_num::Memory;

/// How many chains of its own stand ahead of the file's chains.
pub(crate) const OWN_CHAINS: usize = 3;

/// The number of the file's chain with this number. Fails if memory runs out.
pub(crate) fn file_chain(c: u32) -> Result<u32, Memory>
    ensures { IfOk result (λ n. n ≡ c + 3) }
{
    place_behind(c as usize, OWN_CHAINS)
}
