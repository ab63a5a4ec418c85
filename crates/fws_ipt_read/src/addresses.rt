//! Addresses as `--src-range`, `--dst-range`, `--src-type` and `--dst-type` have them.

ghost use Rattle.std.specs.Prelude.{◌≡◌};
ghost use Rattle.std.specs.List.{list_all};
ghost use Rattle.fws_net.specs.Ports.{address_range};
ghost use Rattle.fws_ipt.specs.Values.{range_meaning, is_address_type, type_meaning};
ghost use Rattle.fws_ipt_read.specs.Sets.{SetGiven};

use fws_iv::{Ivs, one};
use fws_net::{Cause, ReadFault, Site, local_set, read_address_range};
use fws_num::{Text, pieces};
use fws_rules::{demand, is, is_one_of};
use std::alloc::Global;

/// The addresses of a range with a dash.
pub(crate) fn read_range_set(alloc: Global, text: &[u8]) -> Result<Ivs, ReadFault>
    ensures { SetGiven result (λ test. range_meaning test (address_range text.now)) }
{
    let (lo, hi) = demand(read_address_range(text))?;
    Ok(one(alloc, lo, hi)?)
}

/// Types of addresses.
const ADDRESS_TYPES: [&[u8]; 12] = [
    b"UNSPEC",
    b"UNICAST",
    b"LOCAL",
    b"BROADCAST",
    b"ANYCAST",
    b"MULTICAST",
    b"BLACKHOLE",
    b"UNREACHABLE",
    b"PROHIBIT",
    b"THROW",
    b"NAT",
    b"XRESOLVE",
];

/// Whether it is a type of addresses.
#[tactic(auto, unfolding(fws_ipt::specs::Values::is_address_type))]
fn is_address_type(text: &[u8]) -> bool
    ensures { result ≡ is_address_type text.now }
{
    is_one_of(&ADDRESS_TYPES, text)
}

fn are_address_types(items: &[Text]) -> bool
    ensures { result ≡ list_all is_address_type items.now }
{
    items.iter().all(|item| is_address_type(item.as_slice()))
}

/// The addresses of the type LOCAL: those of the host. Other types, and several, are left out.
pub(crate) fn read_type_set(alloc: Global, site: &Site, text: &[u8]) -> Result<Ivs, ReadFault>
    ensures { SetGiven result (λ test. type_meaning site.now test text.now) }
{
    if is(text, b"LOCAL") {
        return Ok(local_set(alloc, site)?);
    }
    let items = pieces(alloc, b',', text)?;
    if are_address_types(items.as_slice()) {
        Err(ReadFault::Bad(Cause::LeftOut))
    } else {
        Err(ReadFault::Bad(Cause::Syntax))
    }
}
