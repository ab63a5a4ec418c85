//! What a rule writes over a packet, and what becomes of an established one (iptables-extensions(8)).

ghost use Rattle.std.specs.Prelude.{◌≡◌};
ghost use Rattle.fws_ipt.specs.Walk.{with_wrote, with_src, with_dst, with_mark, redirect_addr, masqueraded, tracked_at};

use crate::hook::Hook;
use crate::passage::{ChainEnd, Passage};
use fws_net::{End, LOOPBACK_ADDR, Packet, Rec, Rewrite, Site, face_addr};

/// The passage of the packet that entered as `p`, with these ends over its fields.
fn with_wrote(p: &Packet, w: Rewrite, m: &Passage) -> Passage
    ensures { result ≡ with_wrote p.now w m.now }
{
    Passage {
        packet: p.rewritten(&w),
        wrote: w,
        ..*m
    }
}

/// The passage with this end over the source.
pub(crate) fn with_src(p: &Packet, end: End, m: &Passage) -> Passage
    ensures { result ≡ with_src p.now end m.now }
{
    let wrote = Rewrite {
        src: Some(end),
        ..m.wrote
    };
    with_wrote(p, wrote, m)
}

/// The passage with this end over the destination.
pub(crate) fn with_dst(p: &Packet, end: End, m: &Passage) -> Passage
    ensures { result ≡ with_dst p.now end m.now }
{
    let wrote = Rewrite {
        dst: Some(end),
        ..m.wrote
    };
    with_wrote(p, wrote, m)
}

/// The passage with this mark.
pub(crate) fn with_mark(mark: u32, m: &Passage) -> Passage
    ensures { result ≡ with_mark mark m.now }
{
    Passage { mark, ..*m }
}

/// The address that REDIRECT writes for the packet that entered as `p`.
pub(crate) fn redirect_addr(site: &Site, p: &Packet) -> u32
    ensures { result ≡ redirect_addr site.now p.now }
{
    if p.entry == 0 {
        LOOPBACK_ADDR
    } else {
        face_addr(site, p.entry)
    }
}

/// What MASQUERADE does to a packet that is sent to this interface.
pub(crate) fn masqueraded(site: &Site, p: &Packet, xmit: Option<u8>, m: &Passage) -> ChainEnd
    ensures { result ≡ masqueraded site.now p.now xmit m.now }
{
    match xmit {
        None => ChainEnd::Through(*m),
        Some(entry) => {
            let end = End::host(face_addr(site, entry), None);
            ChainEnd::Accepted(with_src(p, end, m))
        }
    }
}

/// The passage with these fields of the packet.
fn with_packet(packet: Packet, m: &Passage) -> Passage
    ensures { result ≡ record m.now { packet = packet } }
{
    Passage { packet, ..*m }
}

/// What becomes of an established packet where a chain of nat stands.
pub(crate) fn tracked_at(r: &Rec, hook: Hook, m: &Passage) -> Passage
    ensures { result ≡ tracked_at r.now hook m.now }
{
    match hook {
        Hook::Prerouting | Hook::Output => with_packet(m.packet.with_rec_dst(r), m),
        Hook::Input | Hook::Postrouting => with_packet(m.packet.with_rec_src(r), m),
        Hook::Forward => *m,
    }
}
