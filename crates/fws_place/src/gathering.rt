//! Redirects that are gathered from the sides of a row.

ghost use Rattle.std.specs.Prelude.{◌≡◌, ◌<◌, ◌≤◌, OnOk};
ghost use Rattle.fws_place.specs.Gathered.{IsGathered, IsOfAddress, IsOfEnd, IsOfPort, IsOfService};

use crate::exact::put_new;
use crate::redirect::{PublicEnd, Redirect};
use crate::values::next_value;
use fws_iv::Ivs;
use fws_net::End;
use fws_num::Memory;
use indexmap::IndexSet;

/// How many redirects there may be.
pub(crate) const MOST_REDIRECTS: usize = 4096;

// Gathers the redirects of an address and a protocol, until there are too many. Fails if memory runs out.
fn gather_ports(
    met: &mut IndexSet<Redirect>,
    local: End,
    ports: &Ivs,
    addr: u32,
    proto: u8,
) -> Result<(), Memory>
    ensures { OnOk result (IsGathered (IsOfPort local ports.now addr proto) met.old.keys met.new.keys) }
{
    let mut from = 0;
    while let Some(port) = next_value(ports, from, 65535) {
        let service = Some((proto, port as u16));
        let public = PublicEnd { addr, service };
        put_new(met, Redirect { local, public })?;
        if met.len() > MOST_REDIRECTS {
            return Ok(());
        }
        from = u64::from(port) + 1;
    }
    Ok(())
}

// Gathers the redirects of an address to which a port is written, until there are too many. Fails if memory runs out.
fn gather_services(
    met: &mut IndexSet<Redirect>,
    local: End,
    protos: &Ivs,
    ports: &Ivs,
    addr: u32,
) -> Result<(), Memory>
    ensures { OnOk result (IsGathered (IsOfService local protos.now ports.now addr) met.old.keys met.new.keys) }
{
    let mut from = 0;
    while let Some(proto) = next_value(protos, from, 255) {
        gather_ports(met, local, ports, addr, proto as u8)?;
        if met.len() > MOST_REDIRECTS {
            return Ok(());
        }
        from = u64::from(proto) + 1;
    }
    Ok(())
}

// Gathers the redirects of an address, until there are too many. Fails if memory runs out.
fn gather_address(
    met: &mut IndexSet<Redirect>,
    local: End,
    protos: &Ivs,
    ports: &Ivs,
    addr: u32,
) -> Result<(), Memory>
    ensures { OnOk result (IsGathered (IsOfAddress local.port local protos.now ports.now addr) met.old.keys met.new.keys) }
{
    match local.port {
        None => {
            let public = PublicEnd {
                addr,
                service: None,
            };
            put_new(met, Redirect { local, public })
        }
        Some(_) => gather_services(met, local, protos, ports, addr),
    }
}

/// Gathers the redirects of an end by the sides of the packets that get it: their addresses, protocols and ports. It ends as soon
/// as there are more than may be. Fails if memory runs out.
pub(crate) fn gather(
    met: &mut IndexSet<Redirect>,
    local: End,
    addrs: &Ivs,
    protos: &Ivs,
    ports: &Ivs,
) -> Result<(), Memory>
    ensures { OnOk result (IsGathered (IsOfEnd local addrs.now protos.now ports.now) met.old.keys met.new.keys) }
{
    let mut from = 0;
    while let Some(addr) = next_value(addrs, from, u32::MAX) {
        gather_address(met, local, protos, ports, addr)?;
        if met.len() > MOST_REDIRECTS {
            return Ok(());
        }
        from = u64::from(addr) + 1;
    }
    Ok(())
}
