//! A space: atoms of the fields, sides, masks and diagrams.

use crate::cuts::Cuts;
use crate::fields::FIELDS;
use crate::masks::{Mask, Masks};
use crate::memo::{Memo, Pairs};
use crate::region::Region;
use crate::sides::{Joint, Side, Sides, bounds_up_to};
use crate::stop::Stop;
use crate::words::{Lists, word_at};
use fws_iv::{Iv, Ivs};
use fws_num::Memory;
use std::alloc::Global;

/// A diagram: at each point of its space a mask of the colours that are right there. Diagrams of one space are equal where
/// their numbers are.
#[derive(Clone, Copy, Debug, PartialEq, Eq)]
pub struct Diagram(pub(crate) u32);

impl Diagram {
    /// Whatever is done is right, in any space.
    pub const ANYTHING: Diagram = Diagram(0);
}

/// The number that a leaf has for a field.
pub(crate) const LEAF: u32 = FIELDS as u32;

/// What is known of a node.
#[derive(Clone, Copy)]
pub(crate) struct Head {
    /// The field that it cuts, or `LEAF`.
    pub(crate) field: u32,
    /// What all leaves below it have.
    pub(crate) mask: Mask,
}

/// Atoms of the fields, sides, masks and diagrams, and what walks over diagrams remember.
#[derive(Drop)]
pub struct Space {
    /// Where its memory comes from.
    pub alloc: Global,
    tops: [u32; 10],
    // Where the atoms of each field begin.
    starts: Vec<Vec<u32>>,
    full: Region,
    pub(crate) sides: Sides,
    pub(crate) masks: Masks,
    // A node's list: its field, and the first atom and the kid of each run. A leaf's list: `LEAF` and its mask.
    pub(crate) nodes: Lists,
    heads: Vec<Head>,
    pub(crate) memo: Memo,
    pub(crate) below: Memo,
    pub(crate) pairs: Pairs,
    // Nodes in which nothing is left to decide, by the depth of the search.
    pub(crate) done: Vec<Memo>,
    pub(crate) steps: u64,
    pub(crate) limit: u64,
}

/// The least of so many atoms as a number of 32 bits.
fn atoms_of(starts: &[u32]) -> u32 {
    match u32::try_from(starts.len()) {
        Ok(count) => count,
        Err(_) => u32::MAX,
    }
}

/// How many words a space may take, of 32 bits each: searches that would take more end.
const MOST_WORDS: usize = 100_000_000;

/// How many bounds of sides are gone through in a step.
const BOUNDS: u64 = 8;

/// How deep searches within searches go.
pub(crate) const DEEP: usize = 4;

/// Sorts where atoms begin: 0 first, and each once.
fn sort_starts(starts: &mut Vec<u32>) -> Result<(), Memory> {
    starts.push(0)?;
    starts.sort_unstable();
    let mut kept: usize = 0;
    let mut last: Option<u32> = None;
    for at in 0..starts.len() {
        let start = word_at(starts, at);
        if last != Some(start) {
            if let Some(slot) = starts.get_mut(kept) {
                *slot = start;
            }
            kept = kept.saturating_add(1);
            last = Some(start);
        }
    }
    starts.truncate(kept);
    Ok(())
}

impl Space {
    /// The space of the atoms that the cuts make. It may take any number of steps until a limit is set.
    pub fn new(alloc: Global, cuts: Cuts) -> Result<Space, Memory> {
        let tops = cuts.tops;
        let sides = [Side::EMPTY; 10];
        let mut space = Space {
            alloc,
            tops,
            starts: cuts.starts,
            full: Region { sides },
            sides: Sides::new(alloc),
            masks: Masks::new(alloc),
            nodes: Lists::new(alloc),
            heads: Vec::new(alloc),
            memo: Memo::new(alloc),
            below: Memo::new(alloc),
            pairs: Pairs::new(alloc),
            done: Vec::new(alloc),
            steps: 0,
            limit: u64::MAX,
        };
        space.prepare()?;
        Ok(space)
    }

    /// Sorts the atoms, and makes what every space has.
    fn prepare(&mut self) -> Result<(), Memory> {
        self.sides.prepare(self.alloc)?;
        self.masks.prepare(self.alloc)?;
        for field in 0..FIELDS {
            if let Some(starts) = self.starts.get_mut(field) {
                sort_starts(starts)?;
            }
            let count = self.atoms(field);
            let side = self.sides.range(self.alloc, 0, count)?;
            self.full = self.full.with(field, side);
        }
        for _ in 0..DEEP {
            self.done.push(Memo::new(self.alloc))?;
        }
        let _all = self.leaf(Mask::ALL)?;
        Ok(())
    }

    // Steps

    /// Counts steps.
    pub(crate) fn step(&mut self, count: u64) {
        self.steps = self.steps.saturating_add(count);
    }

    /// Counts the step of a walk that comes to a node. An error is that there are no more.
    pub fn visit(&mut self) -> Result<(), Stop> {
        self.steps = self.steps.saturating_add(1);
        if self.steps > self.limit || self.size() > MOST_WORDS {
            return Err(Stop::Late);
        }
        Ok(())
    }

    /// How many steps were taken.
    pub fn steps(&self) -> u64 {
        self.steps
    }

    /// The number of the last step that searches and walks may take.
    pub fn last_step(&self) -> u64 {
        self.limit
    }

    /// Lets searches and walks take steps up to this number, counted from the beginning of the space.
    pub fn set_limit(&mut self, limit: u64) {
        self.limit = limit;
    }

    // Atoms

    /// How many atoms a field has.
    pub fn atoms(&self, field: usize) -> u32 {
        match self.starts.get(field) {
            Some(starts) => atoms_of(starts),
            None => 0,
        }
    }

    /// Where the atoms of a field begin.
    pub fn starts(&self, field: usize) -> &[u32] {
        match self.starts.get(field) {
            Some(starts) => starts,
            None => &[],
        }
    }

    /// The least value of an atom.
    pub fn least(&self, field: usize, atom: u32) -> u32 {
        word_at(self.starts(field), atom as usize)
    }

    /// The greatest value of an atom.
    pub fn greatest(&self, field: usize, atom: u32) -> u32 {
        let next = (atom as usize).saturating_add(1);
        match self.starts(field).get(next) {
            Some(start) => start.saturating_sub(1),
            None => word_at(&self.tops, field),
        }
    }

    /// The atom in which a value lies.
    pub fn atom(&self, field: usize, value: u32) -> u32 {
        let place = bounds_up_to(self.starts(field), value).saturating_sub(1);
        match u32::try_from(place) {
            Ok(atom) => atom,
            Err(_) => 0,
        }
    }

    /// The greatest value of a field.
    pub fn top(&self, field: usize) -> u32 {
        word_at(&self.tops, field)
    }

    // Sides

    /// The side of all atoms of a field.
    pub fn full(&self, field: usize) -> Side {
        self.full.side(field)
    }

    /// The region of all points.
    pub fn everything(&self) -> Region {
        self.full
    }

    /// The atoms in which the values from one to another lie.
    pub fn range(&mut self, field: usize, low: u32, high: u32) -> Result<Side, Memory> {
        let from = self.atom(field, low);
        let until = self.atom(field, high).saturating_add(1);
        self.sides.range(self.alloc, from, until)
    }

    /// The atoms from one up to another, without that.
    pub fn atoms_between(&mut self, from: u32, until: u32) -> Result<Side, Memory> {
        self.sides.range(self.alloc, from, until)
    }

    /// The atoms in which a value of the set lies.
    pub fn side(&mut self, field: usize, set: &Ivs) -> Result<Side, Memory> {
        self.side_of(field, set.parts())
    }

    /// The atoms in which a value of the intervals lies, which rise.
    pub fn side_of(&mut self, field: usize, parts: &[Iv]) -> Result<Side, Memory> {
        let place = self.sides.begin();
        let top = self.top(field);
        let mut next = 0;
        for part in parts {
            if part.lo > top {
                break;
            }
            let from = self.atom(field, part.lo).max(next);
            let until = self.atom(field, part.hi).saturating_add(1);
            self.sides.put(place, from, until)?;
            next = until.max(next);
        }
        self.sides.end(self.alloc, place)
    }

    /// The intervals of values of a side, rising.
    pub fn parts(&self, field: usize, side: Side) -> Result<Vec<Iv>, Memory> {
        let mut parts = Vec::new(self.alloc);
        let mut from: Option<u32> = None;
        for bound in self.sides.bounds(side) {
            match from {
                None => from = Some(*bound),
                Some(low) => {
                    parts.push(Iv {
                        lo: self.least(field, low),
                        hi: self.greatest(field, bound.saturating_sub(1)),
                    })?;
                    from = None;
                }
            }
        }
        Ok(parts)
    }

    /// The set of values of a side.
    pub fn values(&self, field: usize, side: Side) -> Result<Ivs, Memory> {
        let parts = self.parts(field, side)?;
        let mut set = Ivs::none(self.alloc);
        for part in &parts {
            if part.lo <= part.hi {
                set = set.with_range(self.alloc, part.lo, part.hi)?;
            }
        }
        Ok(set)
    }

    /// How many values a side has.
    pub fn count_values(&self, field: usize, side: Side) -> u64 {
        let mut count: u64 = 0;
        let mut from: Option<u32> = None;
        for bound in self.sides.bounds(side) {
            match from {
                None => from = Some(*bound),
                Some(low) => {
                    let high = u64::from(self.greatest(field, bound.saturating_sub(1)));
                    let low = u64::from(self.least(field, low));
                    count = count.saturating_add(high.saturating_sub(low).saturating_add(1));
                    from = None;
                }
            }
        }
        count
    }

    /// What two sides have, joined: a step, and one for each few bounds that are gone through.
    fn joined(&mut self, joint: Joint, first: Side, second: Side) -> Result<Side, Memory> {
        let side = self.sides.joined(self.alloc, joint, first, second)?;
        let work = self.sides.take_work() / BOUNDS;
        self.step(work.saturating_add(1));
        Ok(side)
    }

    /// What two sides both have.
    pub fn both(&mut self, first: Side, second: Side) -> Result<Side, Memory> {
        self.joined(Joint::And, first, second)
    }

    /// What either of two sides has.
    pub fn either(&mut self, first: Side, second: Side) -> Result<Side, Memory> {
        self.joined(Joint::Or, first, second)
    }

    /// What the first of two sides has and the second doesn't.
    pub fn minus(&mut self, first: Side, second: Side) -> Result<Side, Memory> {
        self.joined(Joint::Minus, first, second)
    }

    /// What a side of a field doesn't have.
    pub fn others(&mut self, field: usize, side: Side) -> Result<Side, Memory> {
        let full = self.full(field);
        self.minus(full, side)
    }

    /// Whether the second side has all that the first has.
    pub fn is_within(&mut self, first: Side, second: Side) -> Result<bool, Memory> {
        let rest = self.minus(first, second)?;
        Ok(rest.is_empty())
    }

    /// Whether two sides have something together.
    pub fn meets(&mut self, first: Side, second: Side) -> Result<bool, Memory> {
        let both = self.both(first, second)?;
        Ok(!both.is_empty())
    }

    // Masks

    /// The mask of one colour.
    pub fn only(&mut self, colour: u32) -> Result<Mask, Memory> {
        self.masks.of(self.alloc, &[colour])
    }

    /// The mask of some colours, which rise.
    pub fn mask(&mut self, colours: &[u32]) -> Result<Mask, Memory> {
        self.masks.of(self.alloc, colours)
    }

    /// Whether a mask has a colour.
    pub fn has(&self, mask: Mask, colour: u32) -> bool {
        self.masks.has(mask, colour)
    }

    /// The colours of a mask, rising; none for that of all colours.
    pub fn colours(&self, mask: Mask) -> &[u32] {
        self.masks.colours(mask)
    }

    /// What both masks have.
    pub fn both_masks(&mut self, first: Mask, second: Mask) -> Result<Mask, Memory> {
        self.masks.joined(self.alloc, true, first, second)
    }

    /// What either mask has.
    pub fn either_mask(&mut self, first: Mask, second: Mask) -> Result<Mask, Memory> {
        self.masks.joined(self.alloc, false, first, second)
    }

    // Nodes

    /// How much memory the space takes, in words.
    pub fn size(&self) -> usize {
        self.nodes.size().saturating_add(self.sides.size())
    }

    /// The field of a node and what all its leaves have.
    pub(crate) fn head(&self, node: u32) -> Head {
        match self.heads.get(node as usize) {
            Some(head) => *head,
            None => Head {
                field: LEAF,
                mask: Mask::ALL,
            },
        }
    }

    /// What all leaves below a node have.
    pub(crate) fn mask_of(&self, node: u32) -> Mask {
        self.head(node).mask
    }

    /// What is allowed at every point of a diagram.
    pub fn least_mask(&self, diagram: Diagram) -> Mask {
        self.mask_of(diagram.0)
    }

    /// The diagram that has the mask at every point.
    pub fn leaf(&mut self, mask: Mask) -> Result<Diagram, Memory> {
        let from = self.nodes.begin();
        self.nodes.put(LEAF)?;
        self.nodes.put(mask.0)?;
        let number = self.ended(from, LEAF, mask)?;
        Ok(Diagram(number))
    }

    /// The diagram in which whatever is done is right.
    pub fn anything(&mut self) -> Result<Diagram, Memory> {
        self.leaf(Mask::ALL)
    }

    /// Ends a node, and keeps its head if it is new.
    fn ended(&mut self, from: usize, field: u32, mask: Mask) -> Result<u32, Memory> {
        let number = self.nodes.end(self.alloc, from)?;
        if number as usize >= self.heads.len() {
            self.heads.push(Head { field, mask })?;
        }
        Ok(number)
    }

    /// Begins a node that cuts a field.
    pub(crate) fn begin_cut(&mut self, field: u32) -> Result<usize, Memory> {
        let from = self.nodes.begin();
        self.nodes.put(field)?;
        Ok(from)
    }

    /// Puts a run of the node that was begun at `place`: its atoms begin behind those of the run before.
    pub(crate) fn put_run(&mut self, place: usize, from: u32, kid: u32) -> Result<(), Memory> {
        if self.nodes.drafted(place) > 1 && self.nodes.last(place) == Some(kid) {
            return Ok(());
        }
        self.nodes.put(from)?;
        self.nodes.put(kid)
    }

    /// What all leaves have below the runs of the node that was begun at `place`.
    fn drafted_mask(&mut self, place: usize) -> Result<Mask, Memory> {
        let count = self.nodes.drafted(place) / 2;
        self.step(count as u64);
        let mut mask = Mask::ALL;
        let mut at: usize = 2;
        for _ in 0..count {
            let kid = self.nodes.draft_word(place, at);
            let below = self.mask_of(kid);
            mask = self.both_masks(mask, below)?;
            if mask == Mask::NONE {
                break;
            }
            at = at.saturating_add(2);
        }
        Ok(mask)
    }

    /// Ends the node that was begun at `place`: its one kid, if there is no more.
    pub(crate) fn end_cut(&mut self, place: usize) -> Result<u32, Memory> {
        if self.nodes.drafted(place) <= 3 {
            let kid = self.nodes.last(place);
            self.nodes.drop_draft(place);
            return match kid {
                Some(kid) => Ok(kid),
                None => Ok(0),
            };
        }
        let field = self.nodes.draft_word(place, 0);
        let mask = self.drafted_mask(place)?;
        self.ended(place, field, mask)
    }
}
