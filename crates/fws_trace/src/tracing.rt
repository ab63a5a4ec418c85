//! Traces.

ghost use Rattle.std.specs.Prelude.{◌≡◌, ◌++◌, Some, All, IfOk, OnOk};
ghost use Rattle.fws_box.specs.Sides.{IsWithin};
ghost use Rattle.fws_net.specs.declared.connection.Kind.{Kind};
ghost use Rattle.fws_net.specs.declared.outcome.Outcome.{Outcome};
ghost use Rattle.fws_net.specs.declared.packet.Packet.{Packet};
ghost use Rattle.fws_net.specs.declared.packet.State.{State};
ghost use Rattle.fws_net.specs.Points.{tops_of};
ghost use Rattle.fws_tree.specs.Plain.{value};
ghost use Rattle.fws_trace.specs.Outcomes.{point_with, point_of, table_of, outcome_by, IsWalked};
ghost use Rattle.fws_trace.specs.PacketText.{IsOfSite};
ghost use Rattle.fws_trace.specs.TraceText.{line_of, trace_text};

use crate::classes::Classes;
use crate::spelling::put_line;
use fws_box::Point;
use fws_net::{Conn, Kind, Outcome, Packet, Rec, Site, State};
use fws_num::{Memory, Text};
use fws_tree::Tables;
use std::alloc::Global;

/// What stands in place of the ends of a new packet. Its table doesn't look at them.
const NO_ENDS: Rec = Rec {
    rdst: 0,
    rdport: 0,
    rsrc: 0,
    rsport: 0,
};

/// A packet of the site, with the ends with which it leaves, as a point.
fn point_with(site: &Site, p: Packet, ends: Rec) -> Point
    requires { IsOfSite site.now p }
    ensures value { result ≡ point_with p ends }
    ensures within { IsWithin (tops_of site.now) (point_with p ends) }
{
    [
        u32::from(p.entry),
        u32::from(p.proto),
        p.dst,
        u32::from(p.dport),
        p.src,
        u32::from(p.sport),
        u32::from(p.flags),
        u32::from(p.icmp),
        ends.rdst,
        u32::from(ends.rdport),
        ends.rsrc,
        u32::from(ends.rsport),
    ]
}

/// The outcome that the table of its class has for a packet of the site: the value at the packet's point, which
/// lies within the tops.
pub fn outcome_by(site: &Site, t: &Tables, p: &Packet, kind: &Kind) -> Outcome
    requires fresh_tops { t.now.fresh.0 ≡ tops_of site.now }
    requires est_tops { t.now.est.0 ≡ tops_of site.now }
    requires of_site { IsOfSite site.now p.now }
    ensures value { value (table_of t.now kind.now) (point_of p.now kind.now) ≡ Some result }
    ensures within { IsWithin (tops_of site.now) (point_of p.now kind.now) }
{
    match kind {
        Kind::New => *t.fresh.lookup(&point_with(site, *p, NO_ENDS)),
        Kind::Est(ends) => *t.est.lookup(&point_with(site, *p, *ends)),
    }
}

/// Appends the line of a packet of this class.
fn put_packet(
    out: &mut Text,
    site: &Site,
    t: &Tables,
    p: &Packet,
    kind: &Kind,
) -> Result<(), Memory>
    requires fresh_tops { t.now.fresh.0 ≡ tops_of site.now }
    requires est_tops { t.now.est.0 ≡ tops_of site.now }
    requires of_site { IsOfSite site.now p.now }
    ensures text { OnOk result (out.new ≡ out.old ++ line_of (outcome_by t.now) p.now kind.now) }
    ensures walked { OnOk result ((walk : Packet → Kind → Outcome) → IsWalked site.now State.Fresh walk t.now.fresh.1 → IsWalked site.now State.Est walk t.now.est.1
        → out.new ≡ out.old ++ line_of walk p.now kind.now) }
{
    let outcome = outcome_by(site, t, p, kind);
    put_line(out, p, kind, &outcome.fate(p, kind))?;
    Ok(())
}

/// The trace of packets of the site: a line for each, with its class against the connections and what becomes of it by the table of
/// that class, as `new drop` or, with the ends with which it is sent on, `est accept src=198.51.100.9:443 dst=10.0.0.7:40001`.
/// Ports are written for TCP and UDP alone. No packet changes the connections. Fails if memory runs out.
///
/// Where the tables are those of a walk, the trace is that of the walk.
pub fn trace(
    alloc: Global,
    site: &Site,
    t: &Tables,
    conns: &[Conn],
    packets: &[Packet],
) -> Result<Text, Memory>
    requires fresh_tops { t.now.fresh.0 ≡ tops_of site.now }
    requires est_tops { t.now.est.0 ≡ tops_of site.now }
    requires of_site { All (IsOfSite site.now) packets.now }
    ensures text { IfOk result (λ text. text ≡ trace_text (outcome_by t.now) conns.now packets.now) }
    ensures walked { (walk : Packet → Kind → Outcome) → IsWalked site.now State.Fresh walk t.now.fresh.1 → IsWalked site.now State.Est walk t.now.est.1
        → IfOk result (λ text. text ≡ trace_text walk conns.now packets.now) }
{
    let classes = Classes::of(alloc, conns)?;
    let mut out = Text::new(alloc);
    for p in packets {
        put_packet(&mut out, site, t, p, &classes.class(p))?;
    }
    Ok(out)
}
