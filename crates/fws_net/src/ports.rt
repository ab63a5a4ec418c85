//! Lists of ports and ranges of addresses, as the systems write them.

ghost use Rattle.std.specs.Prelude.{◌≡◌, ◌≤◌, IfOk, IfSome};
ghost use Rattle.fws_net.specs.Ports.{address_range, addresses_between, port_range, ports_of};

use fws_iv::Ivs;
use fws_num::{Memory, pieces, read_port, read_ports_between, read_quad, split_once};
use std::alloc::Global;

/// The ends of a port, or of a range of ports with the divider between. There are none where the
/// first end is past the second.
pub fn read_port_range(divider: u8, text: &[u8]) -> Option<(u16, u16)>
    ensures value { result ≡ port_range divider text.now }
    ensures in_order { IfSome result (λ r. r.0 ≤ r.1) }
{
    if let Some(port) = read_port(text) {
        return Some((port, port));
    }
    let (lo, hi) = read_ports_between(divider, text)?;
    if lo <= hi { Some((lo, hi)) } else { None }
}

/// The ports of a list: ports and ranges of ports with the divider between, joined by commas. There are none where an item is
/// neither. Fails if memory runs out.
pub fn read_ports(alloc: Global, divider: u8, text: &[u8]) -> Result<Option<Ivs>, Memory>
    ensures { IfOk result (λ o. o ≡ ports_of divider text.now) }
{
    let items = pieces(alloc, b',', text)?;
    let mut set = Ivs::none(alloc);
    for item in items.as_slice() {
        match read_port_range(divider, item.as_slice()) {
            Some((lo, hi)) => set = set.with_range(alloc, u32::from(lo), u32::from(hi))?,
            None => return Ok(None),
        }
    }
    Ok(Some(set))
}

/// Two addresses with a dash between.
pub fn read_addresses_between(text: &[u8]) -> Option<(u32, u32)>
    ensures { result ≡ addresses_between text.now }
{
    let (lo, hi) = split_once(text, b'-')?;
    let lo = read_quad(lo)?;
    let hi = read_quad(hi)?;
    Some((lo, hi))
}

/// The ends of a range of addresses with a dash between. There are none where the first is past the
/// second.
pub fn read_address_range(text: &[u8]) -> Option<(u32, u32)>
    ensures value { result ≡ address_range text.now }
    ensures in_order { IfSome result (λ r. r.0 ≤ r.1) }
{
    let (lo, hi) = read_addresses_between(text)?;
    if lo <= hi { Some((lo, hi)) } else { None }
}
