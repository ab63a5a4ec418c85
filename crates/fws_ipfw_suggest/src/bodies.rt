//! What lines say of whole regions.

use crate::ports::{PortTest, port_test};
use crate::words::put_addresses;
use crate::writer::{Way, Writer};
use fws_num::Text;
use fws_suggest::{
    Address, DPORT, DST, ENTRY, FLAGS, ICMP, PROTO, Phrases, Policy, Region, SPORT, SRC, Stop,
    Style, TAG,
};
use std::alloc::Global;

/// What is asked of both ports.
#[derive(Drop)]
struct PortTests {
    from: PortTest,
    to: PortTest,
}

/// What a region asks of both ports.
fn port_tests(policy: &mut Policy, style: &Style, region: &Region) -> Result<PortTests, Stop> {
    let from = port_test(policy, style, SPORT, region.side(SPORT))?;
    let to = port_test(policy, style, DPORT, region.side(DPORT))?;
    Ok(PortTests { from, to })
}

/// The address and, where they stand behind addresses, the ports of an end.
fn end_text(
    alloc: Global,
    style: &Style,
    word: &[u8],
    address: &Address,
    ports: &PortTest,
    is_any: bool,
) -> Result<Text, Stop> {
    let mut text = Text::of(alloc, word)?;
    put_addresses(&mut text, style, address)?;
    if !is_any {
        ports.put_behind(&mut text)?;
    }
    Ok(text)
}

/// The pass of a rule.
fn pass_of(way: Way) -> &'static [u8] {
    match way {
        Way::Both => b"",
        Way::Coming => b"in",
        Way::Leaving => b"out",
    }
}

/// Appends the test of the tag. It gives up where another one is asked for.
fn put_tag(out: &mut Phrases, policy: &Policy, region: &Region, way: Way) -> Result<(), Stop> {
    let tag = region.side(TAG);
    if tag == policy.space.full(TAG) {
        return Ok(());
    }
    let entry = region.side(ENTRY);
    let asks_host = entry == policy.host || entry == policy.arriving;
    if way == Way::Leaving && asks_host {
        // a rule asks for one tag
        return Err(Stop::Late);
    }
    let values = policy.space.values(TAG, tag)?;
    out.put(if values.has(1) {
        b"tagged 2"
    } else {
        b"not tagged 2"
    })?;
    Ok(())
}

impl Writer<'_> {
    /// Appends the source, with its ports where rules of `ip` don't ask for them.
    fn put_source(
        &self,
        out: &mut Phrases,
        policy: &mut Policy,
        style: &mut Style,
        region: &Region,
        ports: &PortTest,
        is_any: bool,
    ) -> Result<(), Stop> {
        let source = style.source(&mut policy.space, region.side(SRC))?;
        let text = end_text(self.alloc, style, b"from ", &source, ports, is_any)?;
        out.put(text.as_slice())?;
        Ok(())
    }

    /// Appends the destination, with its ports where rules of `ip` don't ask for them.
    fn put_destination(
        &self,
        out: &mut Phrases,
        policy: &mut Policy,
        style: &mut Style,
        region: &Region,
        ports: &PortTest,
        is_any: bool,
    ) -> Result<(), Stop> {
        let destination = style.destination(&mut policy.space, region.side(DST))?;
        let text = end_text(
            self.alloc,
            style,
            b"to ",
            &destination.address,
            ports,
            is_any,
        )?;
        out.put(text.as_slice())?;
        Ok(())
    }

    /// Appends where packets come in and leave.
    fn put_way(
        &self,
        out: &mut Phrases,
        policy: &mut Policy,
        style: &mut Style,
        region: &Region,
        way: Way,
    ) -> Result<(), Stop> {
        out.put(pass_of(way))?;
        self.put_entries(out, &policy.space, region.side(ENTRY), way)?;
        if way == Way::Leaving {
            self.put_exits(out, policy, style, region.side(DST))?;
        }
        Ok(())
    }

    /// Appends what is said of the packets of a region.
    fn put_region(
        &self,
        out: &mut Phrases,
        policy: &mut Policy,
        style: &mut Style,
        region: &Region,
        way: Way,
        ports: &PortTests,
    ) -> Result<(), Stop> {
        let has_ports = ports.from.is_asked || ports.to.is_asked;
        let is_any = self.put_protocols(out, &policy.space, region.side(PROTO), has_ports)?;
        self.put_source(out, policy, style, region, &ports.from, is_any)?;
        self.put_destination(out, policy, style, region, &ports.to, is_any)?;
        self.put_way(out, policy, style, region, way)?;
        put_tag(out, policy, region, way)?;
        self.put_flags(out, &policy.space, style, region.side(FLAGS))?;
        if is_any {
            ports.from.put_option(self.alloc, out, b"src-port ")?;
            ports.to.put_option(self.alloc, out, b"dst-port ")?;
        }
        self.put_types(out, &mut policy.space, region.side(ICMP))
    }

    /// Appends what a rule says of the packets of a region, behind its action.
    fn put_body(
        &self,
        out: &mut Phrases,
        policy: &mut Policy,
        style: &mut Style,
        region: &Region,
        way: Way,
    ) -> Result<(), Stop> {
        let ports = port_tests(policy, style, region)?;
        self.put_region(out, policy, style, region, way, &ports)
    }

    /// What a rule says of the packets of a region, behind its action.
    pub(crate) fn body(
        &self,
        policy: &mut Policy,
        style: &mut Style,
        region: &Region,
        way: Way,
    ) -> Result<Phrases, Stop> {
        let mut out = Phrases::new(self.alloc)?;
        self.put_body(&mut out, policy, style, region, way)?;
        Ok(out)
    }
}
