//! The pieces of a node, parted by a side.

use crate::cursor::{Cursor, Piece};
use crate::sides::Side;
use crate::space::Space;

/// Atoms of a node that have one kid, and are all within the side or all outside.
#[derive(Clone, Copy)]
pub(crate) struct Part {
    /// The first of them.
    pub(crate) from: u32,
    /// The kid.
    pub(crate) kid: u32,
    /// Whether they are within the side.
    pub(crate) is_inside: bool,
}

/// Where a search through parts stands.
#[derive(Clone, Copy)]
pub(crate) struct Parting {
    cursor: Cursor,
    // What is left of the last piece.
    rest: Option<Piece>,
    // Where the side's bounds stand that are left.
    bound: usize,
    end: usize,
}

impl Parting {
    /// No fewer than the parts that are left.
    pub(crate) fn most(&self) -> usize {
        self.cursor
            .most()
            .saturating_add(self.end.saturating_sub(self.bound))
            .saturating_add(2)
    }
}

impl Space {
    /// Ahead of the pieces of a node within a side, as one that cuts the field: a node that cuts another one has one piece.
    pub(crate) fn pieces_within(
        &self,
        node: u32,
        field: u32,
        side: Side,
    ) -> (Cursor, Option<Piece>) {
        if self.head(node).field == field {
            return (self.cursor(node, side), None);
        }
        let piece = Piece {
            from: 0,
            until: self.atoms(field as usize),
            kid: node,
        };
        (self.cursor(node, Side::EMPTY), Some(piece))
    }

    /// Ahead of all pieces of a node, as one that cuts the field.
    pub(crate) fn pieces_at(&self, node: u32, field: u32) -> (Cursor, Option<Piece>) {
        self.pieces_within(node, field, self.full(field as usize))
    }

    /// Goes to the next piece, if there is one.
    pub(crate) fn advance(&mut self, cursor: &mut Cursor, piece: &mut Option<Piece>) {
        *piece = self.next_piece(cursor);
    }

    /// Ahead of the parts of a node, as one that cuts the field.
    pub(crate) fn parting(&self, node: u32, field: u32, side: Side) -> Parting {
        let (cursor, rest) = self.pieces_at(node, field);
        let bound = self.sides.place(side);
        Parting {
            cursor,
            rest,
            bound,
            end: bound.saturating_add(self.sides.count_of_bounds(side)),
        }
    }

    /// The next part, if there is one.
    pub(crate) fn next_part(&mut self, parting: &mut Parting) -> Option<Part> {
        let piece = match parting.rest {
            Some(piece) => piece,
            None => self.next_piece(&mut parting.cursor)?,
        };
        for _ in 0..parting.end.saturating_sub(parting.bound) {
            if parting.bound >= parting.end
                || self.sides.word(parting.bound.saturating_add(1)) > piece.from
            {
                break;
            }
            parting.bound = parting.bound.saturating_add(2);
        }
        let low = self.sides.word(parting.bound);
        if parting.bound >= parting.end || low >= piece.until {
            parting.rest = None;
            return Some(Part {
                from: piece.from,
                kid: piece.kid,
                is_inside: false,
            });
        }
        if low > piece.from {
            parting.rest = Some(Piece {
                from: low,
                until: piece.until,
                kid: piece.kid,
            });
            return Some(Part {
                from: piece.from,
                kid: piece.kid,
                is_inside: false,
            });
        }
        let high = self.sides.word(parting.bound.saturating_add(1));
        parting.rest = if high < piece.until {
            Some(Piece {
                from: high,
                until: piece.until,
                kid: piece.kid,
            })
        } else {
            None
        };
        Some(Part {
            from: piece.from,
            kid: piece.kid,
            is_inside: true,
        })
    }
}
