//! Calls on boxes: all packets, those for the broadcast address, and what they share and leave.

use crate::stop::Stop;
use crate::tally::Tally;
use bumpalo::Bump;
use fws_box::{Field, PBox, Point, cut, full, meet, narrow};
use fws_iv::{Ivs, one};
use fws_num::{Memory, Text};
use std::alloc::Global;

/// The greatest value of every field.
const TOPS: Point = [u32::MAX; 12];

/// The box of every point, and that of the points with the broadcast address as their destination.
#[derive(Clone, Copy)]
struct Boxes<'b> {
    all: PBox<'b>,
    broadcast: PBox<'b>,
}

/// A box that must be there.
fn some<'b>(part: Option<PBox<'b>>) -> Result<PBox<'b>, Stop> {
    part.ok_or(Stop::Malformed)
}

/// The points of a box with the broadcast address as their destination.
fn broadcast_in<'b>(
    alloc: Global,
    bump: &'b Bump,
    all: &PBox<'b>,
) -> Result<Option<PBox<'b>>, Memory> {
    let last = one(alloc, u32::MAX, u32::MAX)?;
    narrow(bump, all, Field::Dst, &last)
}

/// Both boxes.
fn boxes_in<'b>(alloc: Global, bump: &'b Bump) -> Result<Boxes<'b>, Stop> {
    let all = full(bump, &TOPS)?;
    let broadcast = some(broadcast_in(alloc, bump, &all)?)?;
    Ok(Boxes { all, broadcast })
}

/// Tries what the broadcast box leaves of all points.
fn judge_piece(bump: &Bump, boxes: &Boxes, piece: &PBox, tally: &mut Tally) -> Result<(), Memory> {
    let mut point = [7; 12];
    point[2] = u32::MAX - 1;
    tally.count(piece.has(&point) && !boxes.broadcast.has(&point));
    point[2] = u32::MAX;
    tally.count(!piece.has(&point) && boxes.broadcast.has(&point) && boxes.all.has(&point));
    tally.count(piece.pick() == [0; 12]);
    tally.count(meet(bump, piece, &boxes.broadcast)?.is_none());
    tally.count(meet(bump, piece, &boxes.all)?.is_some());
    Ok(())
}

/// Tries each of the pieces that the broadcast box leaves of all points.
fn judge_pieces(
    bump: &Bump,
    boxes: &Boxes,
    pieces: &[PBox<'_>],
    tally: &mut Tally,
) -> Result<(), Memory> {
    for piece in pieces {
        judge_piece(bump, boxes, piece, tally)?;
    }
    Ok(())
}

/// Tries to cut the broadcast box out of all points.
fn judge_left(alloc: Global, bump: &Bump, boxes: &Boxes, tally: &mut Tally) -> Result<(), Memory> {
    let pieces = cut(alloc, bump, &boxes.all, &boxes.broadcast)?;
    tally.count(pieces.len() == 1);
    judge_pieces(bump, boxes, pieces.as_slice(), tally)
}

/// Tries to cut all points out of the broadcast box.
fn judge_none_left(
    alloc: Global,
    bump: &Bump,
    boxes: &Boxes,
    tally: &mut Tally,
) -> Result<(), Memory> {
    let pieces = cut(alloc, bump, &boxes.broadcast, &boxes.all)?;
    tally.count(pieces.is_empty());
    Ok(())
}

/// Tries that nothing is placed where one of two boxes lies within the other.
fn judge_met(bump: &Bump, boxes: &Boxes, tally: &mut Tally) -> Result<(), Stop> {
    let room = bump.chunk_capacity();
    let same = some(meet(bump, &boxes.all, &boxes.all)?)?;
    tally.count(same.has(&[7; 12]) && bump.chunk_capacity() == room);
    let met = some(meet(bump, &boxes.all, &boxes.broadcast)?)?;
    tally.count(met.pick()[2] == u32::MAX && bump.chunk_capacity() == room);
    Ok(())
}

/// The points of a box with any source.
fn from_anywhere<'b>(
    alloc: Global,
    bump: &'b Bump,
    within: &PBox<'b>,
) -> Result<Option<PBox<'b>>, Memory> {
    let every = one(alloc, 0, u32::MAX)?;
    narrow(bump, within, Field::Src, &every)
}

/// Tries that nothing is placed where a side lies within the set to which it is narrowed.
fn judge_narrowed(
    alloc: Global,
    bump: &Bump,
    boxes: &Boxes,
    tally: &mut Tally,
) -> Result<(), Stop> {
    let room = bump.chunk_capacity();
    let narrowed = some(from_anywhere(alloc, bump, &boxes.broadcast)?)?;
    tally.count(narrowed.has(&[u32::MAX; 12]) && bump.chunk_capacity() == room);
    let none = Ivs::none(alloc);
    tally.count(narrow(bump, &boxes.all, Field::Proto, &none)?.is_none());
    Ok(())
}

/// Tries sides that outlive the arena.
fn judge_sides(alloc: Global, boxes: &Boxes, tally: &mut Tally) -> Result<(), Memory> {
    let sides = boxes.broadcast.to_sides(alloc)?;
    tally.count(sides[2].has(u32::MAX) && !sides[2].has(0) && sides[4].has(0));
    Ok(())
}

/// Tries the places and bits of the fields.
fn judge_fields(tally: &mut Tally) {
    let mut bits = 0;
    for field in &Field::ALL {
        bits |= field.bit();
        tally.count(Field::at(field.place()) == *field);
    }
    tally.count(bits == 4095 && Field::SentSport.bit() == 2048);
}

/// Tries all calls on boxes in an arena.
fn judge_in(alloc: Global, bump: &Bump, tally: &mut Tally) -> Result<(), Stop> {
    let boxes = boxes_in(alloc, bump)?;
    judge_left(alloc, bump, &boxes, tally)?;
    judge_none_left(alloc, bump, &boxes, tally)?;
    judge_met(bump, &boxes, tally)?;
    judge_narrowed(alloc, bump, &boxes, tally)?;
    judge_sides(alloc, &boxes, tally)?;
    judge_fields(tally);
    Ok(())
}

/// Tries all calls.
fn judge_all(alloc: Global, tally: &mut Tally) -> Result<(), Stop> {
    let bump = Bump::new(alloc);
    judge_in(alloc, &bump, tally)
}

/// Says how many calls on boxes give what they must.
pub fn judge_boxes(alloc: Global) -> Result<Text, Stop> {
    let mut tally = Tally::new();
    judge_all(alloc, &mut tally)?;
    Ok(tally.said(alloc)?)
}
