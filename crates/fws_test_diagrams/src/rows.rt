//! The rows that execution gives for a flat code, against walks through the code: that of the packet at each choice of ends
//! of a row's intervals, and those of packets whose outcomes were worked out by hand.

ghost use Rattle.std.specs.Prelude.{◌≡◌, true};
ghost use Rattle.fws_flat.specs.Soundness.{flat_ok};
ghost use Rattle.fws_net.specs.Routes.{IsSound};

use crate::cases::{Compared, Scene, Tally, Walk};
use crate::codes::code_of;
use crate::points::{Ends, ends_of, holds_point, kind_at, packet_at, point_of, state_of};
use crate::stop::Stop;
use fws_box::Point;
use fws_exec::execute;
use fws_flat::model::walk_packet;
use fws_flat::{Flat, flat_ok};
use fws_net::{Outcome, Site, State};
use fws_num::Line;
use fws_tree::Row;
use std::alloc::Global;

/// What becomes of the packet of a point on its walk.
fn walk_at(
    alloc: Global,
    site: &Site,
    flat: &Flat,
    state: State,
    point: &Point,
) -> Result<Outcome, Stop>
    requires { IsSound site.now }
{
    Ok(walk_packet(alloc, flat, site, &packet_at(point), &kind_at(state, point))?)
}

/// Walks the points at the ends of the intervals of a row with this outcome.
fn compare_ends(
    alloc: Global,
    site: &Site,
    flat: &Flat,
    state: State,
    outcome: Outcome,
    ends: &Ends,
) -> Result<Compared, Stop>
    requires { IsSound site.now }
{
    let mut compared = Compared {
        row: 0,
        points: ends.count(),
        differing: 0,
        first: [0; 12],
    };
    for index in 0..ends.count() {
        let point = ends.point_at(index);
        if walk_at(alloc, site, flat, state, &point)? != outcome {
            if compared.differing == 0 {
                compared.first = point;
            }
            compared.differing = compared.differing.saturating_add(1);
        }
    }
    Ok(compared)
}

/// Walks the points at the ends of a row.
fn compare(
    alloc: Global,
    site: &Site,
    flat: &Flat,
    state: State,
    row: &Row<Outcome>,
) -> Result<Compared, Stop>
    requires { IsSound site.now }
{
    let ends = ends_of(alloc, state, row)?;
    compare_ends(alloc, site, flat, state, row.leaf, &ends)
}

/// Walks the points at the ends of the rows of a state.
fn judge_rows(
    alloc: Global,
    scene: &Scene,
    flat: &Flat,
    state: State,
    rows: &[Row<Outcome>],
    tally: &mut Tally,
    head: &Line,
) -> Result<(), Stop>
    requires { IsSound scene.now.site.now }
{
    let mut number: u64 = 0;
    for row in rows {
        number = number.saturating_add(1);
        let mut compared = compare(alloc, scene.site, flat, state, row)?;
        compared.row = number;
        tally.count_row(&compared, state_name(state), head)?;
    }
    Ok(())
}

/// The name of a state.
fn state_name(state: State) -> &'static [u8] {
    match state {
        State::Fresh => b"new",
        State::Est => b"est",
    }
}

/// Whether just one row holds the point, with this outcome.
fn is_held_so(rows: &[Row<Outcome>], point: &Point, wanted: Outcome) -> bool {
    let mut holding: u64 = 0;
    for row in rows {
        if holds_point(row, point) {
            holding = holding.saturating_add(1);
            if row.leaf != wanted {
                return false;
            }
        }
    }
    holding == 1
}

/// Whether the packet's walk comes to the outcome, and it lies in one row with this outcome.
fn comes_to(
    alloc: Global,
    site: &Site,
    flat: &Flat,
    rows: &[Row<Outcome>],
    walk: &Walk,
) -> Result<bool, Stop>
    requires { IsSound site.now }
{
    let walked = walk_packet(alloc, flat, site, &walk.packet, &walk.kind)?;
    if walked != walk.outcome {
        return Ok(false);
    }
    Ok(is_held_so(rows, &point_of(&walk.packet, &walk.kind), walk.outcome))
}

/// Tries what a line `walk PACKET CLASS : OUTCOME` says of a packet of the state. None for another line.
fn is_so(
    alloc: Global,
    scene: &Scene,
    flat: &Flat,
    state: State,
    rows: &[Row<Outcome>],
    line: &Line,
) -> Result<Option<bool>, Stop>
    requires { IsSound scene.now.site.now }
{
    match line.words.as_slice() {
        [kind, words @ ..] if kind.is(b"walk") => {
            let walk = scene.walk_of(words)?;
            if state_of(&walk.kind) != state {
                return Ok(None);
            }
            Ok(Some(comes_to(alloc, scene.site, flat, rows, &walk)?))
        }
        _ => Ok(None),
    }
}

/// Tries what the lines say of packets of the state.
fn judge_lines(
    alloc: Global,
    scene: &Scene,
    flat: &Flat,
    state: State,
    rows: &[Row<Outcome>],
    tally: &mut Tally,
    head: &Line,
    lines: &[Line],
) -> Result<(), Stop>
    requires { IsSound scene.now.site.now }
{
    for line in lines {
        if let Some(agrees) = is_so(alloc, scene, flat, state, rows, line)? {
            tally.count_line(agrees, head, line)?;
        }
    }
    Ok(())
}

/// Tries the rows of a state and what the lines say of its packets.
fn judge_executed(
    alloc: Global,
    scene: &Scene,
    flat: &Flat,
    state: State,
    rows: &[Row<Outcome>],
    tally: &mut Tally,
    head: &Line,
    lines: &[Line],
) -> Result<(), Stop>
    requires { IsSound scene.now.site.now }
{
    judge_lines(alloc, scene, flat, state, rows, tally, head, lines)?;
    judge_rows(alloc, scene, flat, state, rows, tally, head)
}

/// Executes a code for packets of the state, and tries its rows and what the lines say.
fn judge_state(
    alloc: Global,
    scene: &Scene,
    flat: &Flat,
    state: State,
    tally: &mut Tally,
    head: &Line,
    lines: &[Line],
) -> Result<(), Stop>
    requires sound { IsSound scene.now.site.now }
    requires ok { flat_ok flat.now ≡ true }
{
    let rows = execute(alloc, flat, scene.site, state)?;
    judge_executed(
        alloc,
        scene,
        flat,
        state,
        rows.as_slice(),
        tally,
        head,
        lines,
    )
}

/// Tries what the lines say of a code, for new packets and for established ones.
fn judge_flat(
    alloc: Global,
    scene: &Scene,
    flat: &Flat,
    tally: &mut Tally,
    head: &Line,
    lines: &[Line],
) -> Result<(), Stop>
    requires { IsSound scene.now.site.now }
{
    if !flat_ok(flat) {
        return Err(Stop::Malformed);
    }
    judge_state(alloc, scene, flat, State::Fresh, tally, head, lines)?;
    judge_state(alloc, scene, flat, State::Est, tally, head, lines)
}

/// Tries a code: the lines behind its first one, `code NAME ..`.
pub fn judge_code(
    alloc: Global,
    scene: &Scene,
    tally: &mut Tally,
    head: &Line,
    lines: &[Line],
) -> Result<(), Stop>
    requires { IsSound scene.now.site.now }
{
    let flat = code_of(alloc, scene.site, lines)?;
    judge_flat(alloc, scene, &flat, tally, head, lines)
}
