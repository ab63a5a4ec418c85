//! Numbers for chains that tell which may reach which: a depth-first search, with a stack of its own,
//! numbers the groups of chains that reach one another, those first that others lead to. Nothing hangs
//! on the numbers but time: who uses them tests them first.

use crate::calls::{Shape, named};
use fws_num::Memory;
use std::alloc::Global;

/// What the search knows of a chain.
#[derive(Clone, Copy)]
struct Mark {
    /// When it was found, counted from 1; 0 before.
    found: u32,
    /// The earliest found chain that it is known to reach, of those whose group is open.
    low: u32,
    /// The place of the name that is next to be followed.
    next: usize,
    /// The number of its group; 0 while that is open.
    group: u32,
}

/// A search through the chains.
#[derive(Drop)]
struct Search<'a> {
    shapes: &'a [Shape],
    marks: Vec<Mark>,
    /// The chains from where the search began to where it is.
    way: Vec<u32>,
    /// The chains of open groups, in the order in which they were found.
    open: Vec<u32>,
    found: u32,
    groups: u32,
}

impl<'a> Search<'a> {
    /// What is known of the chain.
    fn mark(&self, c: u32) -> Option<Mark> {
        self.marks.get(c as usize).copied()
    }

    /// Goes on to a chain that wasn't found before.
    fn enter(&mut self, c: u32) -> Result<(), Memory> {
        self.found = self.found.saturating_add(1);
        if let Some(mark) = self.marks.get_mut(c as usize) {
            mark.found = self.found;
            mark.low = self.found;
        }
        self.open.push(c)?;
        self.way.push(c)?;
        Ok(())
    }

    /// The chain reaches what was found as early as this.
    fn lower(&mut self, c: u32, low: u32) {
        if let Some(mark) = self.marks.get_mut(c as usize) {
            mark.low = mark.low.min(low);
        }
    }

    /// The next chain that the chain names and that wasn't followed yet.
    fn next_named(&mut self, c: u32) -> Option<u32> {
        let mark = self.marks.get_mut(c as usize)?;
        let next = named(self.shapes, c as usize).get(mark.next).copied()?;
        mark.next = mark.next.saturating_add(1);
        Some(next)
    }

    /// Follows a call of chain `c` to chain `d`.
    fn follow(&mut self, c: u32, d: u32) -> Result<(), Memory> {
        let Some(mark) = self.mark(d) else {
            return Ok(());
        };
        if mark.found == 0 {
            return self.enter(d);
        }
        if mark.group == 0 {
            self.lower(c, mark.found);
        }
        Ok(())
    }

    /// Closes the group that was found with the chain.
    fn close(&mut self, c: u32) {
        self.groups = self.groups.saturating_add(1);
        for _k in 0..self.open.len() {
            let Some(d) = self.open.pop() else {
                return;
            };
            if let Some(mark) = self.marks.get_mut(d as usize) {
                mark.group = self.groups;
            }
            if c == d {
                return;
            }
        }
    }

    /// Goes back from the chain to the one that led to it.
    fn leave(&mut self, c: u32) {
        let _left = self.way.pop();
        let Some(mark) = self.mark(c) else {
            return;
        };
        if mark.low == mark.found {
            self.close(c);
        }
        if let Some(back) = self.way.last().copied() {
            self.lower(back, mark.low);
        }
    }

    /// One step of the search; false where it is done.
    fn step(&mut self) -> Result<bool, Memory> {
        let Some(c) = self.way.last().copied() else {
            return Ok(false);
        };
        match self.next_named(c) {
            Some(d) => self.follow(c, d)?,
            None => self.leave(c),
        }
        Ok(true)
    }

    /// Searches from the chain on, in at most so many steps.
    fn search_from(&mut self, c: u32, steps: usize) -> Result<(), Memory> {
        self.follow(c, c)?;
        for _k in 0..steps {
            if !self.step()? {
                return Ok(());
            }
        }
        Ok(())
    }
}

/// More than the steps of a search: each chain is entered and left once, and each call followed once.
fn step_bound(shapes: &[Shape]) -> usize {
    let mut steps = 0usize;
    for shape in shapes {
        steps = steps.saturating_add(2).saturating_add(shape.names.len());
    }
    steps
}

/// A mark for each chain.
fn no_marks(alloc: Global, shapes: &[Shape]) -> Result<Vec<Mark>, Memory> {
    let mut marks = Vec::new(alloc);
    for _shape in shapes {
        marks.push(Mark {
            found: 0,
            low: 0,
            next: 0,
            group: 0,
        })?;
    }
    Ok(marks)
}

/// The numbers of marked groups, chain by chain.
fn groups_of(alloc: Global, marks: &[Mark]) -> Result<Vec<u32>, Memory> {
    let mut groups = Vec::new(alloc);
    for mark in marks {
        groups.push(mark.group)?;
    }
    Ok(groups)
}

/// A number for each chain. Linear in the rules.
pub(crate) fn number_chains(alloc: Global, shapes: &[Shape]) -> Result<Vec<u32>, Memory> {
    let mut search = Search {
        shapes,
        marks: no_marks(alloc, shapes)?,
        way: Vec::new(alloc),
        open: Vec::new(alloc),
        found: 0,
        groups: 0,
    };
    let steps = step_bound(shapes);
    for c in 0..shapes.len() {
        let Ok(c) = u32::try_from(c) else {
            return Err(Memory);
        };
        search.search_from(c, steps)?;
    }
    groups_of(alloc, search.marks.as_slice())
}
