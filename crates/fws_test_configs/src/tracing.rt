//! Traces by the slow model and by tables.

ghost use Rattle.std.specs.Prelude.{◌≡◌, IfOk};
ghost use Rattle.fws_net.specs.Points.{tops_of};
ghost use Rattle.fws_net.specs.Routes.{IsSound};

use crate::forms::Forms;
use crate::judging::verdict;
use crate::stop::Stop;
use crate::trees::read_tree;
use fws_net::{Conn, Fate, Kind, Packet, Site, State, class};
use fws_num::{Memory, Text, put_dec, put_quad};
use fws_trace::{read_conns, read_packets, trace};
use fws_tree::Tables;
use std::alloc::Global;

/// The texts of a trace.
#[derive(Clone, Copy)]
pub struct Traced<'a> {
    /// The tracked connections.
    pub connections: &'a [u8],
    /// The packets.
    pub packets: &'a [u8],
    /// What becomes of them.
    pub expected: &'a [u8],
}

/// Adds an address, and for TCP and UDP a port.
fn put_end(text: &mut Text, proto: u8, a: u32, port: u16) -> Result<(), Memory> {
    put_quad(text, a)?;
    if proto == 6 || proto == 17 {
        text.put(b":")?;
        put_dec(text, u64::from(port))?;
    }
    Ok(())
}

/// Adds the line of a packet's fate.
fn put_fate(text: &mut Text, packet: &Packet, kind: &Kind, fate: &Fate) -> Result<(), Memory> {
    text.put(if kind.is_est() { b"est " } else { b"new " })?;
    match fate {
        Fate::Dropped => text.put(b"drop")?,
        Fate::Sent {
            dst,
            dport,
            src,
            sport,
        } => {
            text.put(b"accept src=")?;
            put_end(text, packet.proto, *src, *sport)?;
            text.put(b" dst=")?;
            put_end(text, packet.proto, *dst, *dport)?;
        }
    }
    text.put(b"\n")
}

/// Adds a line for each packet; says whether the forms agree.
fn put_trace(
    alloc: Global,
    site: &Site,
    forms: &Forms,
    text: &mut Text,
    connections: &[Conn],
    packets: &[Packet],
) -> Result<bool, Memory>
    requires { IsSound site.now }
{
    for packet in packets {
        let kind = class(connections, packet);
        let Some(outcome) = forms.walk(alloc, site, packet, &kind)? else {
            return Ok(false);
        };
        put_fate(text, packet, &kind, &outcome.fate(packet, &kind))?;
    }
    Ok(true)
}

/// Says whether the trace of packets against connections is the expected one.
fn judge_listed(
    alloc: Global,
    site: &Site,
    forms: &Forms,
    connections: &[Conn],
    packets: &[Packet],
    expected: &[u8],
) -> Result<Text, Memory>
    requires { IsSound site.now }
{
    let mut trace = Text::new(alloc);
    if put_trace(alloc, site, forms, &mut trace, connections, packets)? {
        verdict(alloc, trace.as_slice() == expected)
    } else {
        Text::of(alloc, b"the forms differ")
    }
}

/// Walks packets against these connections, and says whether the trace is the expected one.
fn judge_tracked(
    alloc: Global,
    site: &Site,
    forms: &Forms,
    connections: &[Conn],
    traced: &Traced,
) -> Result<Text, Stop>
    requires { IsSound site.now }
{
    let packets = read_packets(alloc, traced.packets, site)?;
    Ok(judge_listed(
        alloc,
        site,
        forms,
        connections,
        packets.as_slice(),
        traced.expected,
    )?)
}

/// Walks packets against connections, and says whether the trace is the expected one.
pub fn judge_trace(alloc: Global, site: &Site, forms: &Forms, traced: &Traced) -> Result<Text, Stop>
    requires { IsSound site.now }
{
    let connections = read_conns(alloc, traced.connections)?;
    judge_tracked(alloc, site, forms, connections.as_slice(), traced)
}

/// Looks the packets of a text up in the trees of tables against connections, and gives their trace.
fn trace_of(
    alloc: Global,
    site: &Site,
    tables: &Tables,
    connections: &[Conn],
    packets: &[u8],
) -> Result<Text, Stop>
    requires sound { IsSound site.now }
    requires fresh { tables.now.fresh.0 ≡ tops_of site.now }
    requires est { tables.now.est.0 ≡ tops_of site.now }
{
    let packets = read_packets(alloc, packets, site)?;
    Ok(trace(alloc, site, tables, connections, packets.as_slice())?)
}

/// Looks packets up in the trees of tables against these connections, and says whether the trace is the expected one.
fn judge_listed_found(
    alloc: Global,
    site: &Site,
    tables: &Tables,
    connections: &[Conn],
    traced: &Traced,
) -> Result<Text, Stop>
    requires sound { IsSound site.now }
    requires fresh { tables.now.fresh.0 ≡ tops_of site.now }
    requires est { tables.now.est.0 ≡ tops_of site.now }
{
    let found = trace_of(alloc, site, tables, connections, traced.packets)?;
    Ok(verdict(alloc, found.as_slice() == traced.expected)?)
}

/// Looks packets up in the trees of tables, and says whether the trace is the expected one.
fn judge_found(alloc: Global, site: &Site, tables: &Tables, traced: &Traced) -> Result<Text, Stop>
    requires sound { IsSound site.now }
    requires fresh { tables.now.fresh.0 ≡ tops_of site.now }
    requires est { tables.now.est.0 ≡ tops_of site.now }
{
    let connections = read_conns(alloc, traced.connections)?;
    judge_listed_found(alloc, site, tables, connections.as_slice(), traced)
}

/// The trees of the texts of two tables.
fn read_tables(alloc: Global, site: &Site, fresh: &[u8], est: &[u8]) -> Result<Tables, Stop>
    requires { IsSound site.now }
    ensures fresh { IfOk result (λ t. t.fresh.0 ≡ tops_of site.now) }
    ensures est { IfOk result (λ t. t.est.0 ≡ tops_of site.now) }
{
    let fresh = read_tree(alloc, site, State::Fresh, fresh)?;
    let est = read_tree(alloc, site, State::Est, est)?;
    Ok(Tables { fresh, est })
}

/// Looks the packets of a text up in the trees of two tables, and says whether the trace is the expected one.
pub fn judge_looked_up(
    alloc: Global,
    site: &Site,
    fresh: &[u8],
    est: &[u8],
    traced: &Traced,
) -> Result<Text, Stop>
    requires { IsSound site.now }
{
    let tables = read_tables(alloc, site, fresh, est)?;
    judge_found(alloc, site, &tables, traced)
}
