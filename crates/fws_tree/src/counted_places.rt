//! Lists of places.

ghost use Rattle.std.specs.Prelude.{◌≡◌, IfOk};
ghost use Rattle.std.specs.List.{range_with_len};

use fws_num::Memory;
use std::alloc::Global;

/// The places from 0 on, as many as are asked for. Fails at one past 2^32 - 1, as if memory ran out.
pub(crate) fn counted(alloc: Global, count: usize) -> Result<Vec<u32>, Memory>
    ensures { IfOk result (λ places. places.items ≡ range_with_len 0 count) }
{
    let mut places = Vec::new(alloc);
    for n in 0..count {
        match u32::try_from(n) {
            Ok(place) => places.push(place)?,
            Err(_) => return Err(Memory),
        }
    }
    Ok(places)
}
