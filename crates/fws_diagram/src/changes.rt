//! Diagrams that are others within a region.

use crate::fields::FIELDS;
use crate::masks::Mask;
use crate::region::Region;
use crate::sides::Side;
use crate::space::{Diagram, LEAF, Space};
use crate::stop::Stop;
use crate::walks::LEVELS;

/// What becomes of the leaves of a diagram.
#[derive(Clone, Copy, Debug, PartialEq, Eq)]
enum Change {
    /// Those within the region become the leaf with this number.
    Put(u32),
    /// Of those within the region only what the mask has is left.
    Limit(Mask),
    /// Outside of the region anything is right.
    Keep,
}

/// A change, where it is made, and the first field from which on the region has all atoms.
#[derive(Clone, Copy)]
struct Changing {
    region: Region,
    change: Change,
    behind: usize,
}

/// The lowest 32 bits of a number.
fn low_word(number: u64) -> u32 {
    u32::try_from(number & 0xffff_ffff).unwrap_or(0)
}

impl Space {
    /// The diagram in which anything is right within the region.
    pub fn paint(&mut self, diagram: Diagram, region: &Region) -> Result<Diagram, Stop> {
        let leaf = self.leaf(Mask::ALL)?;
        self.changed(diagram, region, Change::Put(leaf.0))
    }

    /// The diagram that has the mask at each point of the region.
    pub fn put(&mut self, diagram: Diagram, region: &Region, mask: Mask) -> Result<Diagram, Stop> {
        let leaf = self.leaf(mask)?;
        self.changed(diagram, region, Change::Put(leaf.0))
    }

    /// The diagram in which of what is allowed in the region only what the mask has is left.
    pub fn limit(
        &mut self,
        diagram: Diagram,
        region: &Region,
        mask: Mask,
    ) -> Result<Diagram, Stop> {
        self.changed(diagram, region, Change::Limit(mask))
    }

    /// The diagram in which anything is right outside of the region.
    pub fn keep(&mut self, diagram: Diagram, region: &Region) -> Result<Diagram, Stop> {
        self.changed(diagram, region, Change::Keep)
    }

    /// The diagram that cuts a field, with a diagram for each of the sides, of which no two have an atom together. Where no side
    /// has an atom anything is right.
    pub fn cut(&mut self, field: usize, kids: &[(Side, Diagram)]) -> Result<Diagram, Stop> {
        let mut is_plain = field < FIELDS;
        for (_, kid) in kids {
            if self.head(kid.0).field as usize <= field {
                is_plain = false;
            }
        }
        if is_plain {
            return self.cut_above(field, kids);
        }
        let mut whole = self.leaf(Mask::ALL)?;
        for (side, kid) in kids {
            let region = self.everything().with(field, *side);
            let kept = self.keep(*kid, &region)?;
            whole = self.meet(whole, kept)?;
        }
        Ok(whole)
    }

    /// The diagram that cuts a field above all fields that the kids cut.
    fn cut_above(&mut self, field: usize, kids: &[(Side, Diagram)]) -> Result<Diagram, Stop> {
        // The first atom of each run with its kid, and the atom behind it with a leaf that allows anything.
        let mut runs = Vec::new(self.alloc);
        let last = self.atoms(field);
        runs.push(0u64)?;
        for (side, kid) in kids {
            for place in 0..self.runs(*side) {
                let (from, until) = self.run(*side, place);
                runs.push((u64::from(from) << 33) | (1u64 << 32) | u64::from(kid.0))?;
                runs.push(u64::from(until) << 33)?;
            }
        }
        runs.sort_unstable();
        let place = self.begin_cut(u32::try_from(field).unwrap_or(LEAF))?;
        let mut at: usize = 0;
        for run in &runs {
            at = at.saturating_add(1);
            let from = low_word(run >> 33);
            let is_last = match runs.get(at) {
                Some(next) => (next >> 33) != (run >> 33),
                None => true,
            };
            if is_last && from < last {
                self.put_run(place, from, low_word(*run))?;
            }
        }
        let node = self.end_cut(place)?;
        Ok(Diagram(node))
    }

    fn changed(
        &mut self,
        diagram: Diagram,
        region: &Region,
        change: Change,
    ) -> Result<Diagram, Stop> {
        let mut behind: usize = 0;
        for field in 0..FIELDS {
            let side = region.side(field);
            if side.is_empty() {
                return match change {
                    Change::Keep => Ok(self.leaf(Mask::ALL)?),
                    _ => Ok(diagram),
                };
            }
            if side != self.full(field) {
                behind = field.saturating_add(1);
            }
        }
        let changing = Changing {
            region: *region,
            change,
            behind,
        };
        self.pairs.clear(self.alloc);
        let node = self.changed_below(diagram.0, 0, &changing, LEVELS)?;
        Ok(Diagram(node))
    }

    /// What a leaf that lies within the region becomes.
    fn changed_leaf(&mut self, node: u32, change: Change) -> Result<u32, Stop> {
        match change {
            Change::Put(leaf) => Ok(leaf),
            Change::Keep => Ok(node),
            Change::Limit(mask) => {
                let now = self.mask_of(node);
                let both = self.both_masks(now, mask)?;
                let leaf = self.leaf(both)?;
                Ok(leaf.0)
            }
        }
    }

    /// Whether nothing changes below a node.
    fn stays(&self, node: u32, change: Change) -> bool {
        match change {
            Change::Put(leaf) => node == leaf,
            Change::Keep => self.mask_of(node) == Mask::ALL,
            Change::Limit(_) => {
                let head = self.head(node);
                head.field >= LEAF && head.mask == Mask::NONE
            }
        }
    }

    fn changed_below(
        &mut self,
        node: u32,
        from: usize,
        changing: &Changing,
        left: u32,
    ) -> Result<u32, Stop> {
        if left == 0 || self.stays(node, changing.change) {
            return Ok(node);
        }
        let head = self.head(node);
        let mut field = from;
        for _ in 0..FIELDS {
            if field >= head.field as usize || changing.region.side(field) != self.full(field) {
                break;
            }
            field = field.saturating_add(1);
        }
        let is_limit = matches!(changing.change, Change::Limit(_));
        if field >= FIELDS || (field >= changing.behind && !is_limit) {
            return self.changed_leaf(node, changing.change);
        }
        let key = field as u32;
        if let Some(known) = self.pairs.get(node, key) {
            return Ok(known);
        }
        self.visit()?;
        let outside = if changing.change == Change::Keep {
            Some(self.leaf(Mask::ALL)?.0)
        } else {
            None
        };
        let place = self.begin_cut(key)?;
        let mut parting = self.parting(node, key, changing.region.side(field));
        for _ in 0..parting.most() {
            let Some(part) = self.next_part(&mut parting) else {
                break;
            };
            let kid = if part.is_inside {
                self.changed_below(part.kid, field.saturating_add(1), changing, left - 1)?
            } else {
                outside.unwrap_or(part.kid)
            };
            self.put_run(place, part.from, kid)?;
        }
        let made = self.end_cut(place)?;
        self.pairs.set(self.alloc, node, key, made)?;
        Ok(made)
    }
}
