//! The pieces of a node within a side.

use crate::sides::Side;
use crate::space::Space;

/// Atoms of a node that have one kid.
#[derive(Clone, Copy)]
pub(crate) struct Piece {
    /// The first of them.
    pub(crate) from: u32,
    /// The one behind the last of them.
    pub(crate) until: u32,
    /// The kid.
    pub(crate) kid: u32,
}

/// Where a search through the pieces of a node within a side stands.
#[derive(Clone, Copy)]
pub(crate) struct Cursor {
    // Where the node's first run begins among the words of nodes, how many runs there are, and at which it is.
    first: usize,
    runs: usize,
    run: usize,
    // Where the side's bounds stand among the words of sides, and where they end.
    bound: usize,
    end: usize,
    // The first atom that is left.
    next: u32,
    atoms: u32,
}

impl Cursor {
    /// No fewer than the pieces that are left.
    pub(crate) fn most(&self) -> usize {
        self.runs
            .saturating_add(self.end.saturating_sub(self.bound))
    }
}

impl Space {
    /// Ahead of the pieces of a node within a side.
    pub(crate) fn cursor(&self, node: u32, side: Side) -> Cursor {
        let field = self.head(node).field as usize;
        let bound = self.sides.place(side);
        Cursor {
            first: self.nodes.place(node).saturating_add(1),
            runs: self.nodes.len(node) / 2,
            run: 0,
            bound,
            end: bound.saturating_add(self.sides.count_of_bounds(side)),
            next: 0,
            atoms: self.atoms(field),
        }
    }

    /// The first atom of a run.
    fn run_start(&self, cursor: &Cursor, run: usize) -> u32 {
        self.nodes
            .word(cursor.first.wrapping_add(run.wrapping_mul(2)))
    }

    /// The last run that begins at an atom or before it, from the cursor's own run on.
    fn seek(&self, cursor: &Cursor, atom: u32) -> usize {
        let mut low = cursor.run;
        let mut high = cursor.runs;
        let mut width: usize = 1;
        for _ in 0..64 {
            let at = low.saturating_add(width);
            if at >= cursor.runs {
                break;
            }
            if self.run_start(cursor, at) > atom {
                high = at;
                break;
            }
            low = at;
            width = width.saturating_mul(2);
        }
        for _ in 0..64 {
            if high.saturating_sub(low) <= 1 {
                break;
            }
            let middle = low.wrapping_add(high) / 2;
            if self.run_start(cursor, middle) <= atom {
                low = middle;
            } else {
                high = middle;
            }
        }
        low
    }

    /// The next piece, if there is one.
    pub(crate) fn next_piece(&mut self, cursor: &mut Cursor) -> Option<Piece> {
        if cursor.bound >= cursor.end {
            return None;
        }
        let mut until = self.sides.word(cursor.bound.saturating_add(1));
        if cursor.next >= until {
            cursor.bound = cursor.bound.saturating_add(2);
            if cursor.bound >= cursor.end {
                return None;
            }
            until = self.sides.word(cursor.bound.saturating_add(1));
        }
        let from = self.sides.word(cursor.bound).max(cursor.next);
        let run = self.seek(cursor, from);
        cursor.run = run;
        let behind = run.saturating_add(1);
        let end = if behind < cursor.runs {
            self.run_start(cursor, behind)
        } else {
            cursor.atoms
        };
        let until = until.min(end);
        cursor.next = until;
        if until == end && behind < cursor.runs {
            cursor.run = behind;
        }
        self.steps = self.steps.saturating_add(1);
        let place = cursor
            .first
            .wrapping_add(run.wrapping_mul(2))
            .wrapping_add(1);
        Some(Piece {
            from,
            until,
            kid: self.nodes.word(place),
        })
    }
}
