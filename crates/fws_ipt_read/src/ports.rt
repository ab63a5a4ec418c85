//! Ports as `--sport`, `--dport`, `--sports` and `--dports` have them.

ghost use Rattle.std.specs.Prelude.{◌≡◌, ◌≤◌, IfSome};
ghost use Rattle.fws_net.specs.Ports.{in_order, ports_of};
ghost use Rattle.fws_ipt.specs.Values.{end_of_range, open_range, range_meaning, set_meaning};
ghost use Rattle.fws_ipt_read.specs.Sets.{SetGiven};

use fws_iv::{Ivs, one};
use fws_net::{ReadFault, read_ports};
use fws_num::{read_port, split_once};
use fws_rules::demand;
use std::alloc::Global;

/// An end of a range; one that is left empty is the given one.
fn end_of_range(empty: u16, text: &[u8]) -> Option<u16>
    ensures { result ≡ end_of_range empty text.now }
{
    if text.is_empty() {
        Some(empty)
    } else {
        read_port(text)
    }
}

/// The range, if its first end is at most the second.
fn in_order(lo: u16, hi: u16) -> Option<(u16, u16)>
    ensures value { result ≡ in_order (lo, hi) }
    ensures in_order { IfSome result (λ r. r.0 ≤ r.1) }
{
    if lo <= hi { Some((lo, hi)) } else { None }
}

/// The ends of a port, or of a range with a colon whose ends may be left empty.
fn read_open_range(text: &[u8]) -> Option<(u16, u16)>
    ensures value { result ≡ open_range text.now }
    ensures in_order { IfSome result (λ r. r.0 ≤ r.1) }
{
    match split_once(text, b':') {
        Some((lo, hi)) => {
            let lo = end_of_range(0, lo)?;
            let hi = end_of_range(u16::MAX, hi)?;
            in_order(lo, hi)
        }
        None => {
            let port = read_port(text)?;
            Some((port, port))
        }
    }
}

/// The ports of a port, or of a range with a colon whose ends may be left empty.
pub(crate) fn read_port_set(alloc: Global, text: &[u8]) -> Result<Ivs, ReadFault>
    ensures { SetGiven result (λ test. range_meaning test (open_range text.now)) }
{
    let (lo, hi) = demand(read_open_range(text))?;
    Ok(one(alloc, u32::from(lo), u32::from(hi))?)
}

/// The ports of a list: ports and ranges with a colon, joined by commas.
pub(crate) fn read_port_list(alloc: Global, text: &[u8]) -> Result<Ivs, ReadFault>
    ensures { SetGiven result (λ test. set_meaning test (ports_of 58 text.now)) }
{
    demand(read_ports(alloc, b':', text)?)
}
