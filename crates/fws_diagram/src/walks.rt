//! Walks over diagrams: what is allowed in a region, what is left to decide there, and how much.

use crate::masks::Mask;
use crate::region::Region;
use crate::sides::Side;
use crate::space::{Diagram, LEAF, Space};
use crate::stop::Stop;

/// More levels than a diagram has.
pub(crate) const LEVELS: u32 = 12;

/// What is looked for in leaves.
#[derive(Clone, Copy, Debug, PartialEq, Eq)]
pub(crate) enum Lacking {
    /// Leaves that lack a colour.
    Colour(u32),
    /// Leaves that lack some colour.
    Any,
}

impl Space {
    /// Whether no leaf lacks what is looked for, if all of them have at least the mask.
    pub(crate) fn has_all(&self, mask: Mask, lacking: Lacking) -> bool {
        match lacking {
            Lacking::Colour(colour) => self.masks.has(mask, colour),
            Lacking::Any => mask == Mask::ALL,
        }
    }

    /// What is allowed at every point of the region.
    pub fn allow(&mut self, diagram: Diagram, region: &Region) -> Result<Mask, Stop> {
        self.memo.clear();
        self.allow_below(diagram.0, region, LEVELS)
    }

    fn allow_below(&mut self, node: u32, region: &Region, left: u32) -> Result<Mask, Stop> {
        let head = self.head(node);
        if head.field >= LEAF || left == 0 {
            return Ok(head.mask);
        }
        if let Some(number) = self.memo.get(node) {
            return Ok(Mask(number));
        }
        self.visit()?;
        let mut cursor = self.cursor(node, region.side(head.field as usize));
        let mut mask = Mask::ALL;
        for _ in 0..cursor.most() {
            let Some(piece) = self.next_piece(&mut cursor) else {
                break;
            };
            let below = self.allow_below(piece.kid, region, left - 1)?;
            mask = self.both_masks(mask, below)?;
            if mask == Mask::NONE {
                break;
            }
        }
        self.memo.set(node, mask.0)?;
        Ok(mask)
    }

    /// Whether the colour is allowed at every point of the region.
    pub fn is_allowed(
        &mut self,
        diagram: Diagram,
        region: &Region,
        colour: u32,
    ) -> Result<bool, Stop> {
        let some = self.has_lacking(diagram, region, Lacking::Colour(colour))?;
        Ok(!some)
    }

    /// Whether some point of the region has a leaf that lacks what is looked for.
    pub(crate) fn has_lacking(
        &mut self,
        diagram: Diagram,
        region: &Region,
        lacking: Lacking,
    ) -> Result<bool, Stop> {
        self.below.clear();
        self.some_below(diagram.0, region, lacking, LEVELS)
    }

    /// Whether some point of the region, below a node, has a leaf that lacks what is looked for.
    fn some_below(
        &mut self,
        node: u32,
        region: &Region,
        lacking: Lacking,
        left: u32,
    ) -> Result<bool, Stop> {
        let head = self.head(node);
        if self.has_all(head.mask, lacking) {
            return Ok(false);
        }
        if head.field >= LEAF || left == 0 {
            return Ok(true);
        }
        if let Some(number) = self.below.get(node) {
            return Ok(number == 1);
        }
        self.visit()?;
        let mut cursor = self.cursor(node, region.side(head.field as usize));
        let mut some = false;
        for _ in 0..cursor.most() {
            let Some(piece) = self.next_piece(&mut cursor) else {
                break;
            };
            some = self.some_below(piece.kid, region, lacking, left - 1)?;
            if some {
                break;
            }
        }
        self.below.set(node, u32::from(some))?;
        Ok(some)
    }

    /// The atoms of a field at which the colour is allowed at every point of the region, whatever the region says of the field.
    pub fn allowed(
        &mut self,
        diagram: Diagram,
        region: &Region,
        field: usize,
        colour: u32,
    ) -> Result<Side, Stop> {
        self.memo.clear();
        self.below.clear();
        self.allowed_below(diagram.0, region, field, colour, LEVELS)
    }

    fn allowed_below(
        &mut self,
        node: u32,
        region: &Region,
        field: usize,
        colour: u32,
        left: u32,
    ) -> Result<Side, Stop> {
        let head = self.head(node);
        let full = self.full(field);
        if self.masks.has(head.mask, colour) {
            return Ok(full);
        }
        if left == 0 {
            return Ok(Side::EMPTY);
        }
        let lacking = Lacking::Colour(colour);
        let here = head.field as usize;
        if here > field {
            let some = self.some_below(node, region, lacking, LEVELS)?;
            return Ok(if some { Side::EMPTY } else { full });
        }
        if let Some(number) = self.memo.get(node) {
            return Ok(Side(number));
        }
        self.visit()?;
        let side = if here == field {
            self.atoms_by_kid(node, full, region, lacking, false)?
        } else {
            let mut cursor = self.cursor(node, region.side(here));
            let mut side = full;
            for _ in 0..cursor.most() {
                let Some(piece) = self.next_piece(&mut cursor) else {
                    break;
                };
                let below = self.allowed_below(piece.kid, region, field, colour, left - 1)?;
                side = self.both(side, below)?;
                if side.is_empty() {
                    break;
                }
            }
            side
        };
        self.memo.set(node, side.0)?;
        Ok(side)
    }

    /// The atoms within a side of the field that a node cuts, below which some point of the region lacks what is looked for, or
    /// none does.
    fn atoms_by_kid(
        &mut self,
        node: u32,
        within: Side,
        region: &Region,
        lacking: Lacking,
        wanted: bool,
    ) -> Result<Side, Stop> {
        let place = self.sides.begin();
        let mut cursor = self.cursor(node, within);
        for _ in 0..cursor.most() {
            let Some(piece) = self.next_piece(&mut cursor) else {
                break;
            };
            let some = self.some_below(piece.kid, region, lacking, LEVELS)?;
            if some == wanted {
                self.sides.put(place, piece.from, piece.until)?;
            }
        }
        let side = self.sides.end(self.alloc, place)?;
        Ok(side)
    }

    /// The atoms within a side of a field for which some point of the region lacks the colour, whatever the region says of the
    /// field.
    pub fn useful(
        &mut self,
        diagram: Diagram,
        region: &Region,
        field: usize,
        colour: u32,
        within: Side,
    ) -> Result<Side, Stop> {
        self.lacking_atoms(diagram, region, field, Lacking::Colour(colour), within)
    }

    /// The atoms of a field for which something is asked at some point of the region, whatever the region says of the field.
    pub fn asked(&mut self, diagram: Diagram, region: &Region, field: usize) -> Result<Side, Stop> {
        let full = self.full(field);
        self.lacking_atoms(diagram, region, field, Lacking::Any, full)
    }

    /// The atoms within a side of a field for which some point of the region lacks what is looked for.
    pub(crate) fn lacking_atoms(
        &mut self,
        diagram: Diagram,
        region: &Region,
        field: usize,
        lacking: Lacking,
        within: Side,
    ) -> Result<Side, Stop> {
        self.memo.clear();
        self.below.clear();
        self.lacking_below(diagram.0, region, field, lacking, within, LEVELS)
    }

    fn lacking_below(
        &mut self,
        node: u32,
        region: &Region,
        field: usize,
        lacking: Lacking,
        within: Side,
        left: u32,
    ) -> Result<Side, Stop> {
        let head = self.head(node);
        if self.has_all(head.mask, lacking) || left == 0 {
            return Ok(Side::EMPTY);
        }
        let here = head.field as usize;
        if here > field {
            let some = self.some_below(node, region, lacking, LEVELS)?;
            return Ok(if some { within } else { Side::EMPTY });
        }
        if let Some(number) = self.memo.get(node) {
            return Ok(Side(number));
        }
        self.visit()?;
        let side = if here == field {
            self.atoms_by_kid(node, within, region, lacking, true)?
        } else {
            let mut cursor = self.cursor(node, region.side(here));
            let mut side = Side::EMPTY;
            for _ in 0..cursor.most() {
                let Some(piece) = self.next_piece(&mut cursor) else {
                    break;
                };
                let below = self.lacking_below(
                    piece.kid,
                    region,
                    field,
                    lacking,
                    within,
                    left - 1,
                )?;
                side = self.either(side, below)?;
                if side == within {
                    break;
                }
            }
            side
        };
        self.memo.set(node, side.0)?;
        Ok(side)
    }

    /// How many paths of the diagram in the region lack the colour, or more than `most` where it is more than that. A path goes
    /// to each kid of a node once.
    pub fn paths(
        &mut self,
        diagram: Diagram,
        colour: u32,
        region: &Region,
        most: u32,
    ) -> Result<u32, Stop> {
        self.memo.clear();
        self.below.clear();
        self.paths_below(diagram.0, colour, region, most, LEVELS)
    }

    fn paths_below(
        &mut self,
        node: u32,
        colour: u32,
        region: &Region,
        most: u32,
        left: u32,
    ) -> Result<u32, Stop> {
        let head = self.head(node);
        if self.masks.has(head.mask, colour) {
            return Ok(0);
        }
        if head.field >= LEAF || left == 0 {
            return Ok(1);
        }
        if let Some(number) = self.memo.get(node) {
            return Ok(number);
        }
        self.visit()?;
        let mut cursor = self.cursor(node, region.side(head.field as usize));
        let mut count: u32 = 0;
        for _ in 0..cursor.most() {
            let Some(piece) = self.next_piece(&mut cursor) else {
                break;
            };
            // A kid that this node met already counts no more: nodes are told apart by their number.
            if self.below.get(piece.kid) == Some(node) {
                continue;
            }
            let below = self.paths_below(piece.kid, colour, region, most, left - 1)?;
            self.below.set(piece.kid, node)?;
            count = count.saturating_add(below);
            if count > most {
                break;
            }
        }
        self.memo.set(node, count)?;
        Ok(count)
    }

    /// The first path of the diagram in the region that lacks the colour, as a region, and what is allowed there. Nodes below
    /// which there is none are noted at the depth of the search, until `forget` is called.
    pub fn seed(
        &mut self,
        diagram: Diagram,
        colour: u32,
        region: &Region,
        depth: usize,
    ) -> Result<Option<(Region, Mask)>, Stop> {
        let mut found = *region;
        match self.seed_below(diagram.0, colour, region, depth, &mut found, LEVELS)? {
            Some(mask) => Ok(Some((found, mask))),
            None => Ok(None),
        }
    }

    /// Forgets which nodes have nothing left to decide, at the depth of a search.
    pub fn forget(&mut self, depth: usize) {
        if let Some(done) = self.done.get_mut(depth) {
            done.clear();
        }
    }

    /// Whether a node is noted as one that has nothing left to decide.
    fn is_done(&self, depth: usize, node: u32) -> bool {
        match self.done.get(depth) {
            Some(done) => done.get(node).is_some(),
            None => false,
        }
    }

    /// Notes that a node has nothing left to decide.
    fn note_done(&mut self, depth: usize, node: u32) -> Result<(), Stop> {
        if let Some(done) = self.done.get_mut(depth) {
            done.set(node, 1)?;
        }
        Ok(())
    }

    fn seed_below(
        &mut self,
        node: u32,
        colour: u32,
        region: &Region,
        depth: usize,
        found: &mut Region,
        left: u32,
    ) -> Result<Option<Mask>, Stop> {
        let head = self.head(node);
        if self.masks.has(head.mask, colour) || self.is_done(depth, node) {
            return Ok(None);
        }
        if head.field >= LEAF || left == 0 {
            return Ok(Some(head.mask));
        }
        self.visit()?;
        let field = head.field as usize;
        let side = region.side(field);
        let mut cursor = self.cursor(node, side);
        for _ in 0..cursor.most() {
            let Some(piece) = self.next_piece(&mut cursor) else {
                break;
            };
            let below = self.seed_below(piece.kid, colour, region, depth, found, left - 1)?;
            if let Some(mask) = below {
                let atoms = self.atoms_of_kid(node, side, piece.kid)?;
                *found = found.with(field, atoms);
                return Ok(Some(mask));
            }
        }
        self.note_done(depth, node)?;
        Ok(None)
    }

    /// The atoms within a side at which a node has a kid.
    fn atoms_of_kid(&mut self, node: u32, within: Side, kid: u32) -> Result<Side, Stop> {
        let place = self.sides.begin();
        let mut cursor = self.cursor(node, within);
        for _ in 0..cursor.most() {
            let Some(piece) = self.next_piece(&mut cursor) else {
                break;
            };
            if piece.kid == kid {
                self.sides.put(place, piece.from, piece.until)?;
            }
        }
        let side = self.sides.end(self.alloc, place)?;
        Ok(side)
    }

    /// Whether some point of the region has a colour in the second diagram that the first one doesn't allow. The second has one
    /// colour at each point.
    pub fn conflicts(
        &mut self,
        allowed: Diagram,
        given: Diagram,
        region: &Region,
    ) -> Result<bool, Stop> {
        self.pairs.clear(self.alloc);
        self.conflicts_below(allowed.0, given.0, region, LEVELS)
    }

    fn conflicts_below(
        &mut self,
        first: u32,
        second: u32,
        region: &Region,
        left: u32,
    ) -> Result<bool, Stop> {
        let allowed = self.head(first);
        let given = self.head(second);
        if left == 0 || allowed.mask == Mask::ALL {
            return Ok(false);
        }
        if given.field >= LEAF {
            let both = self.both_masks(allowed.mask, given.mask)?;
            if both != Mask::NONE {
                return Ok(false);
            }
            if allowed.field >= LEAF {
                return Ok(true);
            }
        }
        if self.pairs.get(first, second).is_some() {
            return Ok(false);
        }
        self.visit()?;
        let field = allowed.field.min(given.field);
        let side = region.side(field as usize);
        let (mut cursor, mut piece) = self.pieces_within(first, field, side);
        let (mut other, mut other_piece) = self.pieces_within(second, field, side);
        if piece.is_none() {
            self.advance(&mut cursor, &mut piece);
        }
        if other_piece.is_none() {
            self.advance(&mut other, &mut other_piece);
        }
        let most = cursor.most().saturating_add(other.most());
        for _ in 0..most.saturating_add(4) {
            let (Some(here), Some(there)) = (piece, other_piece) else {
                break;
            };
            if here.from.max(there.from) < here.until.min(there.until) {
                let bad = self.conflicts_below(here.kid, there.kid, region, left - 1)?;
                if bad {
                    return Ok(true);
                }
            }
            if here.until <= there.until {
                self.advance(&mut cursor, &mut piece);
            } else {
                self.advance(&mut other, &mut other_piece);
            }
        }
        self.pairs.set(self.alloc, first, second, 1)?;
        Ok(false)
    }
}
