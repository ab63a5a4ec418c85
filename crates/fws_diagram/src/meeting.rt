//! Diagrams that are met point by point, projected and relabelled.

use crate::fields::FIELDS;
use crate::masks::Mask;
use crate::space::{Diagram, LEAF, Space};
use crate::stop::Stop;
use crate::walks::LEVELS;
use fws_num::Memory;

/// How two masks become one.
#[derive(Clone, Copy, Debug, PartialEq, Eq)]
pub enum Meeting {
    /// What both allow.
    Both,
    /// What either allows.
    Either,
}

impl Space {
    /// What the masks of both diagrams allow, at each point.
    pub fn meet(&mut self, first: Diagram, second: Diagram) -> Result<Diagram, Stop> {
        self.met(first, second, Meeting::Both)
    }

    /// What both diagrams, or either of them, allow at each point.
    pub fn met(
        &mut self,
        first: Diagram,
        second: Diagram,
        meeting: Meeting,
    ) -> Result<Diagram, Stop> {
        self.pairs.clear(self.alloc);
        let node = self.met_below(first.0, second.0, meeting, LEVELS)?;
        Ok(Diagram(node))
    }

    /// The mask of a meeting that leaves the other mask as it is, and the one that it always gives.
    fn ends_of(meeting: Meeting) -> (Mask, Mask) {
        match meeting {
            Meeting::Both => (Mask::ALL, Mask::NONE),
            Meeting::Either => (Mask::NONE, Mask::ALL),
        }
    }

    fn joined_masks(
        &mut self,
        meeting: Meeting,
        first: Mask,
        second: Mask,
    ) -> Result<Mask, Memory> {
        self.masks
            .joined(self.alloc, meeting == Meeting::Both, first, second)
    }

    fn met_below(
        &mut self,
        first: u32,
        second: u32,
        meeting: Meeting,
        left: u32,
    ) -> Result<u32, Stop> {
        if left == 0 || first == second {
            return Ok(first);
        }
        let one = self.head(first);
        let two = self.head(second);
        let (neutral, always) = Self::ends_of(meeting);
        if one.field >= LEAF && two.field >= LEAF {
            let mask = self.joined_masks(meeting, one.mask, two.mask)?;
            let leaf = self.leaf(mask)?;
            return Ok(leaf.0);
        }
        if one.field >= LEAF {
            if one.mask == neutral {
                return Ok(second);
            }
            if one.mask == always {
                return Ok(first);
            }
        }
        if two.field >= LEAF {
            if two.mask == neutral {
                return Ok(first);
            }
            if two.mask == always {
                return Ok(second);
            }
        }
        let low = first.min(second);
        let high = first.max(second);
        if let Some(known) = self.pairs.get(low, high) {
            return Ok(known);
        }
        self.visit()?;
        let field = one.field.min(two.field);
        let place = self.begin_cut(field)?;
        let (mut cursor, mut piece) = self.pieces_at(first, field);
        let (mut other, mut other_piece) = self.pieces_at(second, field);
        if piece.is_none() {
            self.advance(&mut cursor, &mut piece);
        }
        if other_piece.is_none() {
            self.advance(&mut other, &mut other_piece);
        }
        let most = cursor.most().saturating_add(other.most());
        for _ in 0..most.saturating_add(4) {
            let (Some(here), Some(there)) = (piece, other_piece) else {
                break;
            };
            let from = here.from.max(there.from);
            if from < here.until.min(there.until) {
                let kid = self.met_below(here.kid, there.kid, meeting, left - 1)?;
                self.put_run(place, from, kid)?;
            }
            if here.until <= there.until {
                self.advance(&mut cursor, &mut piece);
            } else {
                self.advance(&mut other, &mut other_piece);
            }
        }
        let made = self.end_cut(place)?;
        self.pairs.set(self.alloc, low, high, made)?;
        Ok(made)
    }

    /// The diagram that doesn't ask for a field: what is allowed at all of its atoms, or at any of them.
    pub fn project(
        &mut self,
        diagram: Diagram,
        field: usize,
        meeting: Meeting,
    ) -> Result<Diagram, Stop> {
        self.memo.clear();
        self.pairs.clear(self.alloc);
        let node = self.projected_below(diagram.0, field, meeting, LEVELS)?;
        Ok(Diagram(node))
    }

    fn projected_below(
        &mut self,
        node: u32,
        field: usize,
        meeting: Meeting,
        left: u32,
    ) -> Result<u32, Stop> {
        let head = self.head(node);
        let here = head.field as usize;
        if here > field || here >= FIELDS || left == 0 {
            return Ok(node);
        }
        if let Some(known) = self.memo.get(node) {
            return Ok(known);
        }
        self.visit()?;
        let full = self.full(here);
        let mut cursor = self.cursor(node, full);
        let made = if here == field {
            let mut made: Option<u32> = None;
            for _ in 0..cursor.most() {
                let Some(piece) = self.next_piece(&mut cursor) else {
                    break;
                };
                let next = match made {
                    Some(so_far) => self.met_below(so_far, piece.kid, meeting, LEVELS)?,
                    None => piece.kid,
                };
                made = Some(next);
            }
            made.unwrap_or(node)
        } else {
            let place = self.begin_cut(head.field)?;
            for _ in 0..cursor.most() {
                let Some(piece) = self.next_piece(&mut cursor) else {
                    break;
                };
                let kid = self.projected_below(piece.kid, field, meeting, left - 1)?;
                self.put_run(place, piece.from, kid)?;
            }
            self.end_cut(place)?
        };
        self.memo.set(node, made)?;
        Ok(made)
    }

    /// The masks of the leaves of a diagram, each once.
    pub fn leaves(&mut self, diagram: Diagram) -> Result<Vec<Mask>, Stop> {
        let mut masks = Vec::new(self.alloc);
        self.memo.clear();
        self.leaves_below(diagram.0, &mut masks, LEVELS)?;
        Ok(masks)
    }

    fn leaves_below(&mut self, node: u32, masks: &mut Vec<Mask>, left: u32) -> Result<(), Stop> {
        if left == 0 || self.memo.get(node).is_some() {
            return Ok(());
        }
        self.memo.set(node, 1)?;
        self.visit()?;
        let head = self.head(node);
        if head.field >= LEAF {
            masks.push(head.mask)?;
            return Ok(());
        }
        let full = self.full(head.field as usize);
        let mut cursor = self.cursor(node, full);
        for _ in 0..cursor.most() {
            let Some(piece) = self.next_piece(&mut cursor) else {
                break;
            };
            self.leaves_below(piece.kid, masks, left - 1)?;
        }
        Ok(())
    }

    /// The diagram whose leaves have other masks: where a leaf has one of `old`, the mask at the same place of `new`.
    pub fn relabel(
        &mut self,
        diagram: Diagram,
        old: &[Mask],
        new: &[Mask],
    ) -> Result<Diagram, Stop> {
        self.memo.clear();
        for (before, after) in old.iter().zip(new) {
            let from = self.leaf(*before)?;
            let to = self.leaf(*after)?;
            self.memo.set(from.0, to.0)?;
        }
        let node = self.relabelled_below(diagram.0, LEVELS)?;
        Ok(Diagram(node))
    }

    fn relabelled_below(&mut self, node: u32, left: u32) -> Result<u32, Stop> {
        if let Some(known) = self.memo.get(node) {
            return Ok(known);
        }
        let head = self.head(node);
        if head.field >= LEAF || left == 0 {
            return Ok(node);
        }
        self.visit()?;
        let full = self.full(head.field as usize);
        let place = self.begin_cut(head.field)?;
        let mut cursor = self.cursor(node, full);
        for _ in 0..cursor.most() {
            let Some(piece) = self.next_piece(&mut cursor) else {
                break;
            };
            let kid = self.relabelled_below(piece.kid, left - 1)?;
            self.put_run(place, piece.from, kid)?;
        }
        let made = self.end_cut(place)?;
        self.memo.set(node, made)?;
        Ok(made)
    }
}
