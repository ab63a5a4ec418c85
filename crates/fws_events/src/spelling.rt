//! The text of a run.

ghost use Rattle.std.specs.Prelude.{◌≡◌, ◌∷◌, ◌++◌, [], All, IfOk, OnOk};
ghost use Rattle.std.specs.Fmt.{decimal};
ghost use Rattle.std.specs.List.{flat_map};
ghost use Rattle.fws_events.specs.Listing.{joined};
ghost use Rattle.fws_events.specs.Runs.{answers_to, conns_behind_all, AreMet, GivesFates, IsEventOf};
ghost use Rattle.fws_events.specs.RunText.{packet_text, expiry_text, answer_text, answers_text, tuple_text, conn_text, conns_text, run_text};
ghost use Rattle.fws_net.specs.declared.connection.Kind.{Kind};
ghost use Rattle.fws_net.specs.declared.outcome.Outcome.{Outcome};
ghost use Rattle.fws_net.specs.declared.packet.Packet.{Packet};
ghost use Rattle.fws_net.specs.declared.packet.State.{State};
ghost use Rattle.fws_net.specs.Points.{tops_of};
ghost use Rattle.fws_num.specs.Numbers.{dotted};
ghost use Rattle.fws_trace.specs.Outcomes.{outcome_by, IsWalked};

use crate::chunks::Chunk;
use crate::events::{Answer, Event};
use crate::listing::Listed;
use crate::running::event_step;
use fws_net::{Conn, Fate, Site, Tuple};
use fws_num::{Memory, Text, put_dec, put_quad};
use fws_trace::put_fate;
use fws_tree::Tables;
use std::alloc::Global;

/// Appends the line of a packet, behind the word for its class.
fn put_packet(out: &mut Text, word: &[u8], proto: u8, fate: &Fate) -> Result<(), Memory>
    ensures { OnOk result (out.new ≡ out.old ++ packet_text word.now proto fate.now) }
{
    out.put(word)?;
    out.put(b" ")?;
    put_fate(out, proto, fate)?;
    out.put(b"\n")
}

/// Appends the line of an expiry, behind what is said of the entry.
fn put_expiry(out: &mut Text, said: &[u8], entry: u32) -> Result<(), Memory>
    ensures { OnOk result (out.new ≡ out.old ++ expiry_text said.now entry) }
{
    out.put(said)?;
    out.put(b" ")?;
    put_dec(out, u64::from(entry))?;
    out.put(b"\n")
}

/// Appends the line of an event and its answer.
fn put_answer(out: &mut Text, e: &Event, answer: &Answer) -> Result<(), Memory>
    ensures { OnOk result (out.new ≡ out.old ++ answer_text e.now answer.now) }
{
    match (e, answer) {
        (Event::Packet(p), Answer::New(fate)) => put_packet(out, b"new", p.proto, fate),
        (Event::Packet(p), Answer::Est(fate)) => put_packet(out, b"est", p.proto, fate),
        (Event::Packet(_), Answer::Expired) => Ok(()),
        (Event::Packet(_), Answer::NoEntry) => Ok(()),
        (Event::Expire(_), Answer::New(_)) => Ok(()),
        (Event::Expire(_), Answer::Est(_)) => Ok(()),
        (Event::Expire(k), Answer::Expired) => put_expiry(out, b"expired", *k),
        (Event::Expire(k), Answer::NoEntry) => put_expiry(out, b"no entry", *k),
    }
}

/// Appends a blank and a number.
fn put_number(out: &mut Text, n: u64) -> Result<(), Memory>
    ensures { OnOk result (out.new ≡ out.old ++ 32 ∷ decimal n) }
{
    out.put(b" ")?;
    put_dec(out, n)
}

/// Appends a blank and an address.
fn put_address(out: &mut Text, addr: u32) -> Result<(), Memory>
    ensures { OnOk result (out.new ≡ out.old ++ 32 ∷ dotted addr) }
{
    out.put(b" ")?;
    put_quad(out, addr)
}

/// Appends the four words of a tuple behind its protocol.
#[tactic(auto, unfolding(crate::specs::RunText::tuple_text))]
fn put_tuple(out: &mut Text, tuple: &Tuple) -> Result<(), Memory>
    ensures { OnOk result (out.new ≡ out.old ++ tuple_text tuple.now) }
{
    put_address(out, tuple.dst)?;
    put_number(out, u64::from(tuple.dport))?;
    put_address(out, tuple.src)?;
    put_number(out, u64::from(tuple.sport))
}

/// Appends the line of a connection.
fn put_conn(out: &mut Text, conn: &Conn) -> Result<(), Memory>
    ensures { OnOk result (out.new ≡ out.old ++ conn_text conn.now) }
{
    put_dec(out, u64::from(conn.orig.proto))?;
    put_tuple(out, &conn.orig)?;
    put_tuple(out, &conn.reply)?;
    out.put(b"\n")
}

/// Appends the lines of connections.
fn put_each(out: &mut Text, conns: &[Conn]) -> Result<(), Memory>
    ensures { OnOk result (out.new ≡ out.old ++ flat_map conn_text conns.now) }
{
    for conn in conns {
        put_conn(out, conn)?;
    }
    Ok(())
}

/// Appends the lines of connections that stand in chunks.
fn put_chunks(out: &mut Text, chunks: &[Chunk]) -> Result<(), Memory>
    ensures { OnOk result (out.new ≡ out.old ++ flat_map conn_text (joined chunks.now)) }
{
    for chunk in chunks {
        put_each(out, chunk.as_slice())?;
    }
    Ok(())
}

/// Appends how many connections are listed, and their lines.
fn put_conns(out: &mut Text, conns: &Listed) -> Result<(), Memory>
    ensures { OnOk result (out.new ≡ out.old ++ conns_text conns.now) }
{
    out.put(b"conns ")?;
    put_dec(out, conns.len() as u64)?;
    out.put(b"\n")?;
    put_chunks(out, conns.chunks())
}

/// Appends the lines of events as they are answered in turn, and leaves the list of connections behind them.
fn put_answers(
    out: &mut Text,
    site: &Site,
    t: &Tables,
    tracks: bool,
    conns: &mut Listed,
    events: &[Event],
) -> Result<(), Memory>
    requires fresh_tops { t.now.fresh.0 ≡ tops_of site.now }
    requires est_tops { t.now.est.0 ≡ tops_of site.now }
    requires of_site { All (IsEventOf site.now) events.now }
    ensures met { OnOk result (AreMet site.now tracks (outcome_by t.now) conns.old events.now) }
    ensures given { (walk : Packet → Kind → Outcome) → GivesFates site.now t.now walk
        → OnOk result ((out.new ≡ out.old ++ answers_text events.now (answers_to tracks walk conns.old events.now)) × (conns.new ≡ conns_behind_all tracks walk conns.old events.now)) }
{
    for e in events {
        let answer = event_step(site, t, tracks, conns, e)?;
        put_answer(out, e, &answer)?;
    }
    Ok(())
}

/// The text of a run of events of the site that begins with no connections: for each packet its trace line, as `new drop` or, with
/// the ends with which it is sent on, `est accept src=198.51.100.9:443 dst=10.0.0.7:40001`; for each expiry `expired k` or `no
/// entry k`; and then `conns N` and the connections that are listed at the end, each in nine words, as `fws_trace::read_conns`
/// reads them. Each packet is met as one of the site. Fails if memory runs out.
///
/// Where a walk gives each packet of the site and each class the fate of the tables, the text is that of the
/// walk; and so where the tables are those of the walk.
pub fn put_run(
    alloc: Global,
    site: &Site,
    events: &[Event],
    t: &Tables,
    tracks: bool,
) -> Result<Text, Memory>
    requires fresh_tops { t.now.fresh.0 ≡ tops_of site.now }
    requires est_tops { t.now.est.0 ≡ tops_of site.now }
    requires of_site { All (IsEventOf site.now) events.now }
    ensures met { OnOk result (AreMet site.now tracks (outcome_by t.now) [] events.now) }
    ensures text { IfOk result (λ text. text ≡ run_text tracks (outcome_by t.now) events.now) }
    ensures fated { (walk : Packet → Kind → Outcome) → GivesFates site.now t.now walk → IfOk result (λ text. text ≡ run_text tracks walk events.now) }
    ensures walked { (walk : Packet → Kind → Outcome) → IsWalked site.now State.Fresh walk t.now.fresh.1 → IsWalked site.now State.Est walk t.now.est.1
        → IfOk result (λ text. text ≡ run_text tracks walk events.now) }
{
    let mut conns = Listed::none(alloc);
    let mut out = Text::new(alloc);
    put_answers(&mut out, site, t, tracks, &mut conns, events)?;
    put_conns(&mut out, &conns)?;
    Ok(out)
}
