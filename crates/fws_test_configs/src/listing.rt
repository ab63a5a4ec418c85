//! Calls that read texts of connections and packets.

ghost use Rattle.fws_net.specs.Routes.{IsSound};

use crate::calls::Call;
use crate::found::Found;
use crate::stop::Stop;
use fws_net::{Conn, Packet, Site, Tuple};
use fws_num::{Memory, Text, put_dec, put_quad};
use fws_trace::{LineAnswer, read_conns, read_packets};

/// Adds a number behind a blank.
fn put_number(text: &mut Text, n: u64) -> Result<(), Memory> {
    text.put(b" ")?;
    put_dec(text, n)
}

/// Adds an address and a port, each behind a blank.
fn put_end(text: &mut Text, addr: u32, port: u16) -> Result<(), Memory> {
    text.put(b" ")?;
    put_quad(text, addr)?;
    put_number(text, u64::from(port))
}

/// Adds both ends of a tuple.
fn put_ends(text: &mut Text, tuple: &Tuple) -> Result<(), Memory> {
    put_end(text, tuple.dst, tuple.dport)?;
    put_end(text, tuple.src, tuple.sport)
}

/// Spells a connection: both protocols, and the ends of both tuples.
fn put_connection(text: &mut Text, conn: &Conn) -> Result<(), Memory> {
    put_dec(text, u64::from(conn.orig.proto))?;
    put_number(text, u64::from(conn.reply.proto))?;
    put_ends(text, &conn.orig)?;
    put_ends(text, &conn.reply)
}

/// Spells a packet, with the number of its entry.
fn put_packet(text: &mut Text, packet: &Packet) -> Result<(), Memory> {
    put_dec(text, u64::from(packet.entry))?;
    put_number(text, u64::from(packet.proto))?;
    put_ends(text, &packet.tuple())?;
    put_number(text, u64::from(packet.flags))?;
    put_number(text, u64::from(packet.icmp))
}

/// Adds connections.
fn put_connections(found: &mut Found, connections: &[Conn]) -> Result<(), Memory> {
    for connection in connections {
        let mut text = Text::new(found.alloc);
        put_connection(&mut text, connection)?;
        found.values.put(text)?;
    }
    Ok(())
}

/// Adds packets.
fn put_packets(found: &mut Found, packets: &[Packet]) -> Result<(), Memory> {
    for packet in packets {
        let mut text = Text::new(found.alloc);
        put_packet(&mut text, packet)?;
        found.values.put(text)?;
    }
    Ok(())
}

/// Adds `refused` and the number of the line.
fn put_refusal(found: &mut Found, answer: LineAnswer) -> Result<(), Stop> {
    match answer {
        LineAnswer::Memory => Err(Stop::Memory),
        LineAnswer::Refused { line } => {
            found.put(b"refused")?;
            Ok(found.put_number(u64::from(line))?)
        }
    }
}

/// Adds the connections of a text, or the line at which it is refused.
fn list_connections(found: &mut Found, text: &[u8]) -> Result<(), Stop> {
    match read_conns(found.alloc, text) {
        Ok(connections) => Ok(put_connections(found, connections.as_slice())?),
        Err(answer) => put_refusal(found, answer),
    }
}

/// Adds the packets of a text, or the line at which it is refused.
fn list_packets(found: &mut Found, site: &Site, text: &[u8]) -> Result<(), Stop>
    requires { IsSound site.now }
{
    match read_packets(found.alloc, text, site) {
        Ok(packets) => Ok(put_packets(found, packets.as_slice())?),
        Err(answer) => put_refusal(found, answer),
    }
}

/// Adds what a call gives: `connections` or `packets`.
pub fn call_listing(found: &mut Found, site: &Site, call: &Call) -> Result<(), Stop>
    requires { IsSound site.now }
{
    if call.name == b"connections".as_slice() {
        list_connections(found, call.text)
    } else if call.name == b"packets".as_slice() {
        list_packets(found, site, call.text)
    } else {
        Err(Stop::Malformed)
    }
}
