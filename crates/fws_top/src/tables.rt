//! The texts that show what code does.
//!
//! As in the commands, a function owns one tree or list where it ends early, which keeps its proof short.

ghost use Rattle.std.specs.Prelude.{◌≡◌, ℕ, List, Some, All, true, IfOk};
ghost use Rattle.fws_box.specs.Sides.{IsWithin, sides_have};
ghost use Rattle.fws_events.specs.Runs.{IsEventOf};
ghost use Rattle.fws_events.specs.RunText.{run_text};
ghost use Rattle.fws_flat.specs.Soundness.{flat_ok};
ghost use Rattle.fws_net.specs.Points.{tops_of};
ghost use Rattle.fws_net.specs.RegularWalks.{IsRegularWalk};
ghost use Rattle.fws_net.specs.Routes.{IsSound};
ghost use Rattle.fws_top.specs.Asks.{are_asks, asked_verdict, asks_have};
ghost use Rattle.fws_top.specs.Codes.{Does, DoesRegularly};
ghost use Rattle.fws_top.specs.Judged.{Policy};
ghost use Rattle.fws_top.specs.PlacedCodes.{IsToldBy};
ghost use Rattle.fws_top.specs.Tables.{IsAskedTable, IsCompared, IsTable};
ghost use Rattle.fws_top.specs.Walked.{AreTablesOf, Walk, walked_at};
ghost use Rattle.fws_trace.specs.PacketText.{IsOfSite};
ghost use Rattle.fws_trace.specs.TraceText.{trace_text};
ghost use Rattle.fws_tree.specs.Plain.{IsReduced, value};
ghost use Rattle.fws_tree.specs.Regular.{AreRegular};
ghost use Rattle.fws_why.specs.WhyText.{why_text};

use crate::ask_set::read_ask;
use crate::asked_sides::executed_sides;
use crate::laws::regular_walks_make_regular_tables;
use crate::placed::PlacedCode;
use crate::policy::PolicyCode;
use fws_dead::{put_comparison, same};
use fws_events::{Event, put_run};
use fws_exec::{execute_tree, execute_within};
use fws_flat::Flat;
use fws_net::{Conn, Outcome, Packet, Site, State};
use fws_num::{Memory, Text};
use fws_table::{Ask, put_table, query};
use fws_trace::trace;
use fws_tree::{Tables, Tree};
use fws_why::why;
use std::alloc::Global;

/// The tree of what code makes of the packets of a state.
fn tree_of(alloc: Global, site: &Site, code: &Flat, state: State) -> Result<Tree<Outcome>, Memory>
    requires sound { IsSound site.now }
    requires ok { flat_ok code.now ≡ true }
    ensures tops { IfOk result (λ t. t.0 ≡ tops_of site.now) }
    ensures reduced { IfOk result (λ t. IsReduced (tops_of site.now) t.1) }
    ensures walked { (walk : Walk) → Does code.now site.now walk
        → IfOk result (λ t. (p : List ℕ) → IsWithin (tops_of site.now) p → value t.1 p ≡ Some (walked_at walk state p)) }
{
    execute_tree(alloc, code, site, state)
}

/// The table of the packets of a state.
pub(crate) fn table(alloc: Global, site: &Site, code: &Flat, state: State) -> Result<Text, Memory>
    requires sound { IsSound site.now }
    requires ok { flat_ok code.now ≡ true }
    ensures { (walk : Walk) → Does code.now site.now walk → IfOk result (IsTable site.now state walk) }
{
    let tree = tree_of(alloc, site, code, state)?;
    put_table(alloc, site, state, &tree)
}

/// A tree of what code makes of the packets of a state that are asked for; what it has for others means nothing. Most others are left
/// out before the code is executed, so that the work is that of what is asked for.
fn asked_tree(
    alloc: Global,
    site: &Site,
    code: &Flat,
    state: State,
    ask: &Ask,
) -> Result<Tree<Outcome>, Memory>
    requires sound { IsSound site.now }
    requires ok { flat_ok code.now ≡ true }
    ensures tops { IfOk result (λ t. t.0 ≡ tops_of site.now) }
    ensures walked { (walk : Walk) → Does code.now site.now walk
        → IfOk result (λ t. (p : List ℕ) → IsWithin (tops_of site.now) p → sides_have ask.now.sides p ≡ true → value t.1 p ≡ Some (walked_at walk state p)) }
{
    let sides = executed_sides(alloc, site, code.code.as_slice(), &ask.sides)?;
    execute_within(alloc, code, site, state, &sides)
}

/// The part of the table that is asked for.
fn asked_text(
    alloc: Global,
    site: &Site,
    code: &Flat,
    state: State,
    ask: &Ask,
) -> Result<Text, Memory>
    requires sound { IsSound site.now }
    requires ok { flat_ok code.now ≡ true }
    ensures { (asks : List (List ℕ)) (walk : Walk)
        → ((p : List ℕ) → IsWithin (tops_of site.now) p → sides_have ask.now.sides p ≡ asks_have site.now asks p)
        → ask.now.verdict ≡ asked_verdict asks
        → Does code.now site.now walk
        → IfOk result (IsAskedTable site.now state asks walk) }
{
    let tree = asked_tree(alloc, site, code, state, ask)?;
    query(alloc, site, state, &tree, ask)
}

/// The part of that table for which the words ask.
pub(crate) fn asked_table(
    alloc: Global,
    site: &Site,
    code: &Flat,
    state: State,
    asks: &[Text],
) -> Result<Text, Memory>
    requires sound { IsSound site.now }
    requires ok { flat_ok code.now ≡ true }
    requires spelled { are_asks asks.now ≡ true }
    ensures { (walk : Walk) → Does code.now site.now walk → IfOk result (IsAskedTable site.now state asks.now walk) }
{
    let ask = read_ask(alloc, site, asks)?;
    asked_text(alloc, site, code, state, &ask)
}

/// The tables of what code makes of packets: of new ones, and of those of connections.
pub(crate) fn tables(alloc: Global, site: &Site, code: &Flat) -> Result<Tables, Memory>
    requires sound { IsSound site.now }
    requires ok { flat_ok code.now ≡ true }
    ensures fresh_tops { IfOk result (λ t. t.fresh.0 ≡ tops_of site.now) }
    ensures est_tops { IfOk result (λ t. t.est.0 ≡ tops_of site.now) }
    ensures walked { (walk : Walk) → Does code.now site.now walk → IfOk result (AreTablesOf site.now walk) }
    ensures regular { (walk : Walk) → Does code.now site.now walk → IsRegularWalk site.now walk → IfOk result (AreRegular site.now) }
{
    regular_walks_make_regular_tables();
    let fresh = tree_of(alloc, site, code, State::Fresh)?;
    let est = tree_of(alloc, site, code, State::Est)?;
    Ok(Tables { fresh, est })
}

/// What code makes of packets against tracked connections.
pub(crate) fn traced(
    alloc: Global,
    site: &Site,
    code: &Flat,
    conns: &[Conn],
    packets: &[Packet],
) -> Result<Text, Memory>
    requires sound { IsSound site.now }
    requires ok { flat_ok code.now ≡ true }
    requires of_site { All (IsOfSite site.now) packets.now }
    ensures { (walk : Walk) → Does code.now site.now walk → IfOk result (λ text. text ≡ trace_text walk conns.now packets.now) }
{
    let tables = tables(alloc, site, code)?;
    trace(alloc, site, &tables, conns, packets)
}

/// The same, and which rules decide it.
pub(crate) fn explained(
    alloc: Global,
    site: &Site,
    code: &PlacedCode,
    conns: &[Conn],
    packets: &[Packet],
) -> Result<Text, Memory>
    requires sound { IsSound site.now }
    requires of_site { All (IsOfSite site.now) packets.now }
    ensures { (policy : Policy) → IsToldBy policy site.now code.now
        → IfOk result (λ text. text ≡ why_text policy.walk policy.used policy.labels conns.now packets.now) }
{
    why(
        alloc,
        site,
        &code.flat,
        code.from.as_slice(),
        code.spots.as_slice(),
        code.labels.as_slice(),
        conns,
        packets,
    )
}

/// What code makes of events one after the other, in a run that begins with no connections.
pub(crate) fn replayed(
    alloc: Global,
    site: &Site,
    code: &PolicyCode,
    events: &[Event],
) -> Result<Text, Memory>
    requires sound { IsSound site.now }
    requires ok { flat_ok code.now.flat ≡ true }
    requires of_site { All (IsEventOf site.now) events.now }
    ensures { (walk : Walk) → Does code.now.flat site.now walk → IfOk result (λ text. text ≡ run_text code.now.tracks walk events.now) }
{
    let tables = tables(alloc, site, &code.flat)?;
    put_run(alloc, site, events, &tables, code.tracks)
}

/// Whether two codes do the same, or a packet with which they don't.
pub(crate) fn compared(
    alloc: Global,
    site: &Site,
    code: &Flat,
    other: &Flat,
) -> Result<Text, Memory>
    requires sound { IsSound site.now }
    requires ok { flat_ok code.now ≡ true }
    requires other_ok { flat_ok other.now ≡ true }
    requires regular { DoesRegularly code.now site.now }
    requires other_regular { DoesRegularly other.now site.now }
    ensures { (walk second : Walk) → Does code.now site.now walk → Does other.now site.now second → IfOk result (IsCompared site.now walk second) }
{
    let one = tables(alloc, site, code)?;
    let two = tables(alloc, site, other)?;
    let comparison = same(alloc, site, &one, &two)?;
    put_comparison(alloc, site, &comparison)
}
