//! Addresses that one network has.

ghost use Rattle.std.specs.Prelude.{◌≡◌, ◌&&◌, IfOk};
ghost use Rattle.std.specs.List.{list_all};
ghost use Rattle.fws_iv.specs.Prefixes.{agree};
ghost use Rattle.fws_pf.specs.Drawn.{are_one_block, is_one_block, maps_blocks};

use crate::known::Tables;
use crate::lists::ItemList;
use crate::tables::part_set;
use fws_iv::Iv;
use fws_num::Memory;
use fws_pf::Item;
use std::alloc::Global;

/// Whether two addresses agree in their first `n` bits, of which 32 is all.
fn agree(n: u8, a: u32, b: u32) -> bool
    ensures { result ≡ agree n a b }
{
    let low = 32u8.saturating_sub(n);
    // 64 bits, since nothing of 32 bits may be shifted by 32
    u64::from(a) >> low == u64::from(b) >> low
}

/// Whether a range ends where the address is in the first `n` bits.
fn is_in_block(n: u8, addr: u32, range: &Iv) -> bool
    ensures { result ≡ (agree n addr range.now.lo && agree n addr range.now.hi) }
{
    agree(n, addr, range.lo) && agree(n, addr, range.hi)
}

/// Whether all ranges do.
fn are_in_block(n: u8, addr: u32, ranges: &[Iv]) -> bool
    ensures { result ≡ list_all (λ y. agree n addr y.lo && agree n addr y.hi) ranges.now }
{
    ranges.iter().all(|range| is_in_block(n, addr, range))
}

/// Whether the addresses agree in their first `n` bits.
fn are_one_block(n: u8, ranges: &[Iv]) -> bool
    ensures { result ≡ are_one_block n ranges.now }
{
    match ranges.first() {
        Some(first) => are_in_block(n, first.lo, ranges),
        None => true,
    }
}

/// Whether a value has addresses that agree in their first `n` bits, and isn't negated.
fn is_one_block(alloc: Global, tables: &Tables, n: u8, item: &Item) -> Result<bool, Memory>
    ensures { IfOk result (λ b. b ≡ is_one_block tables.now n item.now) }
{
    if item.negated {
        return Ok(false);
    }
    match part_set(alloc, tables, &item.part)? {
        Some(set) => Ok(are_one_block(n, set.parts())),
        None => Ok(false),
    }
}

/// Whether none of the values is negated, and the addresses of each agree in their first `n` bits.
fn are_all_blocks(alloc: Global, tables: &Tables, n: u8, items: &[Item]) -> Result<bool, Memory>
    ensures { IfOk result (λ b. b ≡ list_all (is_one_block tables.now n) items.now) }
{
    for item in items {
        if !is_one_block(alloc, tables, n, item)? {
            return Ok(false);
        }
    }
    Ok(true)
}

/// Whether there are values, none of them is negated, and the addresses of each agree in their first `n` bits. Fails if memory runs
/// out.
pub fn maps_blocks(alloc: Global, tables: &Tables, n: u8, items: &ItemList) -> Result<bool, Memory>
    ensures { IfOk result (λ b. b ≡ maps_blocks tables.now n items.now) }
{
    if items.len() == 0 {
        return Ok(false);
    }
    let all = are_all_blocks(alloc, tables, n, items.kept())?;
    Ok(all)
}
