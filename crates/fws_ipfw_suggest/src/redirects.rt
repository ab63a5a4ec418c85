//! The redirects of an instance.

use crate::diagrams::colour_of;
use fws_iv::Iv;
use fws_net::End;
use fws_num::{Memory, Text, put_dec, put_quad};
use fws_suggest::{DPORT, DST, Diagram, Mask, PROTO, Policy, Region, Stop};
use std::alloc::Global;

/// How many redirects there may be.
const MOST_REDIRECTS: usize = 4096;

/// Redirects while they are written.
#[derive(Drop)]
pub(crate) struct Redirects {
    text: Text,
    first: Option<u32>,
    count: usize,
}

/// A service to which ports are redirected.
#[derive(Clone, Copy)]
struct Service {
    end: End,
    port: u16,
    protocol: u32,
}

impl Redirects {
    /// No redirect.
    pub(crate) fn new(alloc: Global) -> Redirects {
        Redirects {
            text: Text::new(alloc),
            first: None,
            count: 0,
        }
    }

    /// How an instance with these redirects is configured, behind `config `.
    pub(crate) fn config(&self, alloc: Global) -> Result<Text, Memory> {
        let mut config = Text::of(alloc, b"ip ")?;
        put_quad(&mut config, self.first.unwrap_or(0))?;
        config.put(self.text.as_slice())?;
        Ok(config)
    }

    /// The redirects, with a blank ahead of each.
    pub(crate) fn text(&self, alloc: Global) -> Result<Text, Memory> {
        self.text.copy(alloc)
    }

    /// Counts a redirect of an address.
    fn begin(&mut self, public: u32) -> Result<(), Stop> {
        if self.first.is_none() {
            self.first = Some(public);
        }
        self.count = self.count.saturating_add(1);
        if self.count > MOST_REDIRECTS {
            return Err(Stop::Late);
        }
        Ok(())
    }

    /// Appends an address to which packets are redirected.
    fn put_address(&mut self, end: End, public: u32) -> Result<(), Stop> {
        self.begin(public)?;
        self.text.put(b" redirect_addr ")?;
        put_quad(&mut self.text, end.addr)?;
        self.text.put(b" ")?;
        put_quad(&mut self.text, public)?;
        Ok(())
    }

    /// Appends a port to which packets are redirected.
    fn put_port(&mut self, service: Service, public: u32, public_port: u32) -> Result<(), Stop> {
        self.begin(public)?;
        self.text.put(if service.protocol == 6 {
            b" redirect_port tcp "
        } else {
            b" redirect_port udp "
        })?;
        put_quad(&mut self.text, service.end.addr)?;
        self.text.put(b":")?;
        put_dec(&mut self.text, u64::from(service.port))?;
        self.text.put(b" ")?;
        put_quad(&mut self.text, public)?;
        self.text.put(b":")?;
        put_dec(&mut self.text, u64::from(public_port))?;
        Ok(())
    }
}

/// The last value of a range that may be named one by one.
fn last_of(range: Iv) -> u32 {
    range.hi.min(range.lo.saturating_add(5000))
}

/// The diagram with 0 where no colour is allowed.
pub(crate) fn totalled(policy: &mut Policy, diagram: Diagram) -> Result<Diagram, Stop> {
    let none = policy.space.only(0)?;
    policy.replaced(diagram, Mask::NONE, none)
}

/// Appends the redirects of addresses to an end.
fn put_addresses(
    policy: &mut Policy,
    out: &mut Redirects,
    here: Diagram,
    end: End,
) -> Result<(), Stop> {
    let everywhere = policy.everything();
    let side = policy.space.asked(here, &everywhere, DST)?;
    let parts = policy.space.parts(DST, side)?;
    for part in &parts {
        for public in part.lo..=last_of(*part) {
            out.put_address(end, public)?;
        }
    }
    Ok(())
}

/// Appends the redirects of the ports of an address.
fn put_ports_of(
    policy: &mut Policy,
    out: &mut Redirects,
    here: Diagram,
    region: &Region,
    service: Service,
    public: u32,
) -> Result<(), Stop> {
    let side = policy.space.range(DST, public, public)?;
    let ports = policy.space.asked(here, &region.with(DST, side), DPORT)?;
    let parts = policy.space.parts(DPORT, ports)?;
    for part in &parts {
        for port in part.lo..=last_of(*part) {
            out.put_port(service, public, port)?;
        }
    }
    Ok(())
}

/// Appends the redirects of ports to a service.
fn put_ports(
    policy: &mut Policy,
    out: &mut Redirects,
    here: Diagram,
    service: Service,
) -> Result<(), Stop> {
    let side = policy
        .space
        .range(PROTO, service.protocol, service.protocol)?;
    let region = policy.everything().with(PROTO, side);
    let addresses = policy.space.asked(here, &region, DST)?;
    let parts = policy.space.parts(DST, addresses)?;
    for part in &parts {
        for public in part.lo..=last_of(*part) {
            put_ports_of(policy, out, here, &region, service, public)?;
        }
    }
    Ok(())
}

/// Appends the redirects to an end, which is the destination at a place.
pub(crate) fn put_redirects(
    policy: &mut Policy,
    out: &mut Redirects,
    publics: Diagram,
    place: usize,
    end: End,
) -> Result<(), Stop> {
    let whole = totalled(policy, publics)?;
    let here = policy.where_it_is(whole, colour_of(place))?;
    let Some(port) = end.port else {
        return put_addresses(policy, out, here, end);
    };
    for protocol in [6u32, 17] {
        let service = Service {
            end,
            port,
            protocol,
        };
        put_ports(policy, out, here, service)?;
    }
    Ok(())
}
