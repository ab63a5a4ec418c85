//! Runs of events.

ghost use Rattle.std.specs.Prelude.{◌≡◌, [], None, IfOk, OnOk, OnErr};
ghost use Rattle.std.specs.List.{remove};
ghost use Rattle.std.specs.Result.{IsOk};
ghost use Rattle.fws_events.specs.Runs.{turned, opened_by, tracked, with_conn, answer_of, answer_to, appended_by, conns_behind, GivesFates, IsEventOf, IsMet};
ghost use Rattle.fws_events.specs.declared.events.Event.TheVariants as events;
ghost use Rattle.fws_net.specs.declared.connection.Kind.{Kind};
ghost use Rattle.fws_net.specs.declared.outcome.Outcome.{Outcome};
ghost use Rattle.fws_net.specs.declared.packet.Packet.{Packet};
ghost use Rattle.fws_net.specs.declared.packet.State.{State};
ghost use Rattle.fws_net.specs.Connections.{tuple_of};
ghost use Rattle.fws_net.specs.Points.{tops_of};
ghost use Rattle.fws_trace.specs.Outcomes.{outcome_by, IsWalked};
ghost use Rattle.fws_trace.specs.PacketText.{IsOfSite};

use crate::events::{Answer, Event};
use crate::listing::Listed;
use fws_net::{Conn, Fate, Kind, Packet, Site, Tuple};
use fws_num::Memory;
use fws_trace::outcome_by;
use fws_tree::Tables;
use std::alloc::Global;

/// The connection that a packet of this fate opens: none where it is dropped.
fn opened_by(p: &Packet, fate: &Fate) -> Option<Conn>
    ensures { result ≡ opened_by p.now fate.now }
{
    match fate {
        Fate::Dropped => None,
        Fate::Sent {
            dst,
            dport,
            src,
            sport,
        } => Some(Conn {
            orig: p.tuple(),
            reply: Tuple {
                proto: p.proto,
                dst: *src,
                dport: *sport,
                src: *dst,
                sport: *dport,
            },
        }),
    }
}

/// The connection that a configuration lists for a packet of this class and fate.
fn tracked(tracks: bool, p: &Packet, kind: &Kind, fate: &Fate) -> Option<Conn>
    ensures { result ≡ tracked tracks p.now kind.now fate.now }
{
    match kind {
        Kind::New => { if tracks { opened_by(p, fate) } else { None } }
        Kind::Est(_) => None,
    }
}

/// The answer for a packet of this class and fate.
fn answer_of(kind: &Kind, fate: Fate) -> Answer
    ensures { result ≡ answer_of kind.now fate }
{
    match kind {
        Kind::New => Answer::New(fate),
        Kind::Est(_) => Answer::Est(fate),
    }
}

/// Puts a connection behind the others, where there is one.
fn put_conn(conns: &mut Listed, conn: Option<Conn>) -> Result<(), Memory>
    ensures put { OnOk result (conns.new ≡ with_conn conns.old conn) }
    ensures kept { OnErr result (conns.new ≡ conns.old) }
    ensures succeeds { conn ≡ None → IsOk result }
{
    match conn {
        Some(conn) => conns.append(conn),
        None => Ok(()),
    }
}

/// The answer to a packet, and the connection that it appends.
fn judged(
    site: &Site,
    t: &Tables,
    tracks: bool,
    conns: &Listed,
    p: &Packet,
) -> (Answer, Option<Conn>)
    requires fresh_tops { t.now.fresh.0 ≡ tops_of site.now }
    requires est_tops { t.now.est.0 ≡ tops_of site.now }
    requires of_site { IsOfSite site.now p.now }
    ensures met { IsMet site.now conns.now (events.Packet p.now) }
    ensures given { (walk : Packet → Kind → Outcome) → GivesFates site.now t.now walk
        → (result.0 ≡ answer_to walk conns.now (events.Packet p.now)) × (result.1 ≡ appended_by tracks walk conns.now (events.Packet p.now)) }
{
    let kind = conns.class(p);
    let fate = outcome_by(site, t, p, &kind).fate(p, &kind);
    (answer_of(&kind, fate), tracked(tracks, p, &kind, &fate))
}

/// Answers a packet, and lists the connection that it appends.
fn packet_step(
    site: &Site,
    t: &Tables,
    tracks: bool,
    conns: &mut Listed,
    p: &Packet,
) -> Result<Answer, Memory>
    requires fresh_tops { t.now.fresh.0 ≡ tops_of site.now }
    requires est_tops { t.now.est.0 ≡ tops_of site.now }
    requires of_site { IsOfSite site.now p.now }
    ensures met { IsMet site.now conns.old (events.Packet p.now) }
    ensures given { (walk : Packet → Kind → Outcome) → GivesFates site.now t.now walk
        → IfOk result (λ answer. (answer ≡ answer_to walk conns.old (events.Packet p.now)) × (conns.new ≡ conns_behind tracks walk conns.old (events.Packet p.now))) }
    ensures kept { OnErr result (conns.new ≡ conns.old) }
    ensures succeeds { appended_by tracks (outcome_by t.now) conns.old (events.Packet p.now) ≡ None → IsOk result }
{
    let (answer, conn) = judged(site, t, tracks, conns, p);
    put_conn(conns, conn)?;
    Ok(answer)
}

/// Answers an expiry, and takes out the entry.
fn expiry_step(conns: &mut Listed, entry: u32) -> Answer
    ensures answer { (walk : Packet → Kind → Outcome) → result ≡ answer_to walk conns.old (events.Expire entry) }
    ensures taken { conns.new ≡ remove conns.old entry }
{
    if conns.take_out(entry) {
        Answer::Expired
    } else {
        Answer::NoEntry
    }
}

/// Answers an event, and leaves the list that is behind it.
pub(crate) fn event_step(
    site: &Site,
    t: &Tables,
    tracks: bool,
    conns: &mut Listed,
    e: &Event,
) -> Result<Answer, Memory>
    requires fresh_tops { t.now.fresh.0 ≡ tops_of site.now }
    requires est_tops { t.now.est.0 ≡ tops_of site.now }
    requires of_site { IsEventOf site.now e.now }
    ensures met { IsMet site.now conns.old e.now }
    ensures given { (walk : Packet → Kind → Outcome) → GivesFates site.now t.now walk
        → IfOk result (λ answer. (answer ≡ answer_to walk conns.old e.now) × (conns.new ≡ conns_behind tracks walk conns.old e.now)) }
    ensures kept { OnErr result (conns.new ≡ conns.old) }
    ensures succeeds { appended_by tracks (outcome_by t.now) conns.old e.now ≡ None → IsOk result }
{
    match e {
        Event::Packet(p) => packet_step(site, t, tracks, conns, p),
        Event::Expire(entry) => Ok(expiry_step(conns, *entry)),
    }
}

/// A run of events under the tables of a configuration: which connections are listed now.
#[derive(Drop)]
pub struct Run<'a> {
    /// The site of the packets.
    pub site: &'a Site,
    /// What becomes of new and of established packets.
    pub t: &'a Tables,
    /// Whether the configuration lists a connection for each new packet that it accepts.
    pub tracks: bool,
    /// The connections that are listed now, in the order in which they were opened.
    pub conns: Listed,
}

impl<'a> Run<'a> {
    /// A run that begins with no connections. It takes no memory.
    pub fn new(alloc: Global, site: &'a Site, t: &'a Tables, tracks: bool) -> Run<'a>
        ensures site { result.site.now ≡ site.now }
        ensures t { result.t.now ≡ t.now }
        ensures tracks { result.tracks ≡ tracks }
        ensures conns { result.conns ≡ [] }
    {
        Run {
            site,
            t,
            tracks,
            conns: Listed::none(alloc),
        }
    }

    /// Answers an event by the tables, and leaves the list of connections that is behind it. A packet is met as one of the site,
    /// with ends for which there is room. Site, tables and `tracks` stay. Fails if memory runs out, which comes only where a
    /// connection is to be appended; the list is then as before.
    ///
    /// Where a walk gives each packet of the site and each class the fate of the tables, answer and list are
    /// those of the walk; and so where the tables are those of the walk.
    pub fn step(&mut self, e: &Event) -> Result<Answer, Memory>
        requires fresh_tops { self.old.t.now.fresh.0 ≡ tops_of self.old.site.now }
        requires est_tops { self.old.t.now.est.0 ≡ tops_of self.old.site.now }
        requires of_site { IsEventOf self.old.site.now e.now }
        ensures met { IsMet self.old.site.now self.old.conns e.now }
        ensures answer { IfOk result (λ answer. answer ≡ answer_to (outcome_by self.old.t.now) self.old.conns e.now) }
        ensures conns { OnOk result (self.new.conns ≡ conns_behind self.old.tracks (outcome_by self.old.t.now) self.old.conns e.now) }
        ensures fated { (walk : Packet → Kind → Outcome) → GivesFates self.old.site.now self.old.t.now walk
            → IfOk result (λ answer. (answer ≡ answer_to walk self.old.conns e.now) × (self.new.conns ≡ conns_behind self.old.tracks walk self.old.conns e.now)) }
        ensures walked { (walk : Packet → Kind → Outcome) → IsWalked self.old.site.now State.Fresh walk self.old.t.now.fresh.1 → IsWalked self.old.site.now State.Est walk self.old.t.now.est.1
            → IfOk result (λ answer. (answer ≡ answer_to walk self.old.conns e.now) × (self.new.conns ≡ conns_behind self.old.tracks walk self.old.conns e.now)) }
        ensures kept { OnErr result (self.new.conns ≡ self.old.conns) }
        ensures succeeds { appended_by self.old.tracks (outcome_by self.old.t.now) self.old.conns e.now ≡ None → IsOk result }
        ensures site { self.new.site.now ≡ self.old.site.now }
        ensures t { self.new.t.now ≡ self.old.t.now }
        ensures tracks { self.new.tracks ≡ self.old.tracks }
    {
        event_step(self.site, self.t, self.tracks, &mut self.conns, e)
    }
}
