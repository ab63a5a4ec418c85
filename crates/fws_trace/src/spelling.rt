//! The lines of a trace.

ghost use Rattle.std.specs.Prelude.{◌≡◌, ◌++◌, OnOk};
ghost use Rattle.fws_trace.specs.TraceText.{kind_text, port_text, end_text, sent_text, fate_text, line_text};

use crate::classes::has_ports;
use fws_net::{Fate, Kind, Packet};
use fws_num::{Memory, Text, put_dec, put_quad};

fn put_kind(out: &mut Text, kind: &Kind) -> Result<(), Memory>
    ensures { OnOk result (out.new ≡ out.old ++ kind_text kind.now) }
{
    match kind {
        Kind::New => out.put(b"new"),
        Kind::Est(_) => out.put(b"est"),
    }
}

/// Appends a port, for TCP and UDP.
fn put_port(out: &mut Text, proto: u8, port: u16) -> Result<(), Memory>
    ensures { OnOk result (out.new ≡ out.old ++ port_text proto port) }
{
    if !has_ports(proto) {
        return Ok(());
    }
    out.put(b":")?;
    put_dec(out, u64::from(port))
}

/// Appends an end behind its front.
#[tactic(auto, unfolding(crate::specs::TraceText::end_text))]
fn put_end(out: &mut Text, front: &[u8], proto: u8, addr: u32, port: u16) -> Result<(), Memory>
    ensures { OnOk result (out.new ≡ out.old ++ end_text front.now proto addr port) }
{
    out.put(front)?;
    put_quad(out, addr)?;
    put_port(out, proto, port)
}

/// Appends that a packet is sent on with these ends.
fn put_sent(
    out: &mut Text,
    proto: u8,
    dst: u32,
    dport: u16,
    src: u32,
    sport: u16,
) -> Result<(), Memory>
    ensures { OnOk result (out.new ≡ out.old ++ sent_text proto dst dport src sport) }
{
    out.put(b"accept")?;
    put_end(out, b" src=", proto, src, sport)?;
    put_end(out, b" dst=", proto, dst, dport)
}

/// Appends the fate of a packet of this protocol, as `drop` or, with the ends with which it is sent on, `accept
/// src=198.51.100.9:443 dst=10.0.0.7:40001`. Ports are written for TCP and UDP alone. Fails if memory runs out.
pub fn put_fate(out: &mut Text, proto: u8, fate: &Fate) -> Result<(), Memory>
    ensures { OnOk result (out.new ≡ out.old ++ fate_text proto fate.now) }
{
    match fate {
        Fate::Dropped => out.put(b"drop"),
        Fate::Sent {
            dst,
            dport,
            src,
            sport,
        } => put_sent(out, proto, *dst, *dport, *src, *sport),
    }
}

/// Appends the line of a packet of this class and fate.
pub(crate) fn put_line(out: &mut Text, p: &Packet, kind: &Kind, fate: &Fate) -> Result<(), Memory>
    ensures { OnOk result (out.new ≡ out.old ++ line_text p.now kind.now fate.now) }
{
    put_kind(out, kind)?;
    out.put(b" ")?;
    put_fate(out, p.proto, fate)?;
    out.put(b"\n")
}
