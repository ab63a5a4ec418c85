//! The flags with ACK or RST, and those without.

ghost use Rattle.std.specs.Prelude.{◌≡◌, ◌≤◌, ℕ, IfOk};
ghost use Rattle.fws_iv.specs.Ivs.{has};
ghost use Rattle.fws_place.specs.ByAck.{acknowledges, acknowledges_as};

use fws_iv::{Iv, Ivs, one};
use fws_num::Memory;
use std::alloc::Global;

// The flags with ACK, whose value is 16, or RST, whose value is 4.
fn with_ack(alloc: Global) -> Result<Ivs, Memory>
    ensures { IfOk result (λ s. (v : ℕ) → v ≤ 63 → has s v ≡ acknowledges v) }
{
    Ivs::of_ranges(
        alloc,
        &[
            Iv { lo: 4, hi: 7 },
            Iv { lo: 12, hi: 31 },
            Iv { lo: 36, hi: 39 },
            Iv { lo: 44, hi: 63 },
        ],
    )
}

/// The flags with ACK or RST, or those without, as it is asked. Fails if memory runs out.
pub(crate) fn ack_flags(alloc: Global, asked: bool) -> Result<Ivs, Memory>
    ensures { IfOk result (λ s. (v : ℕ) → v ≤ 63 → has s v ≡ acknowledges_as asked v) }
{
    let with = with_ack(alloc)?;
    if asked {
        return Ok(with);
    }
    one(alloc, 0, 63)?.minus(alloc, &with)
}
