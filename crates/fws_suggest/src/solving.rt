//! The shortest list that was found for a diagram.

use crate::best::Offers;
use crate::large::{fewest_paths, solve_large};
use crate::rules::{List, Rule};
use crate::small::{penalty, solve_by_hints, solve_small};
use crate::style::Style;
use fws_diagram::{Diagram, Space, Stop};
use fws_num::Memory;
use std::alloc::Global;

/// A colour that rules may have.
#[derive(Clone, Copy)]
pub struct Colour {
    /// The colour.
    pub number: u32,
    /// What a rule of this colour costs besides, in thousandths of a line.
    pub penalty: u64,
    /// Whether a rule of this colour has to be within the protocols that have ports.
    pub writes_ports: bool,
}

/// What a list is sought for.
#[derive(Drop)]
pub struct Task {
    /// What is right at each point.
    pub diagram: Diagram,
    /// The colours that rules may have.
    pub colours: Vec<Colour>,
    /// The colours that may be the default, the one that is wanted most first.
    pub defaults: Vec<u32>,
    /// Rules of the source, in its order: each counts only where it is right.
    pub hints: Vec<Rule>,
}

/// How many steps a search may take.
#[derive(Clone, Copy)]
pub struct Budget {
    /// Until there is a list.
    pub most: u64,
    /// For shorter ones, once there is one.
    pub enough: u64,
}

/// The shortest list that was found in so many steps: what it decides is right at each point of the diagram. None where the
/// search gave up. The space's limit of steps is then as it was before.
pub(crate) fn solve(
    alloc: Global,
    space: &mut Space,
    style: &mut Style,
    task: &Task,
    budget: Budget,
) -> Result<Option<List>, Memory> {
    let before = space.last_step();
    let limit = space.steps().saturating_add(budget.most).min(before);
    space.set_limit(limit);
    let found = search(alloc, space, style, task, budget);
    space.set_limit(before);
    found
}

/// The most paths of a diagram for which several ways are tried.
const FEW_PATHS: u32 = 150;

/// Offers lists, until the steps come to an end.
fn offer_lists(
    space: &mut Space,
    style: &mut Style,
    task: &Task,
    budget: Budget,
    offers: &mut Offers,
) -> Result<(), Stop> {
    let allowed = space.least_mask(task.diagram);
    for default in &task.defaults {
        if space.has(allowed, *default) {
            let cost = penalty(style, task, *default);
            offers.begin();
            offers.offer(*default, cost);
            return Ok(());
        }
    }
    if style.follows_source && !task.hints.is_empty() {
        return solve_by_hints(space, style, task, budget.enough, offers);
    }
    let paths = fewest_paths(space, task)?;
    if paths <= FEW_PATHS {
        solve_small(space, style, task, budget.enough, offers)
    } else {
        solve_large(space, style, task, budget, offers)
    }
}

fn search(
    alloc: Global,
    space: &mut Space,
    style: &mut Style,
    task: &Task,
    budget: Budget,
) -> Result<Option<List>, Memory> {
    let mut offers = Offers::none(alloc);
    let ended = offer_lists(space, style, task, budget, &mut offers);
    if lacks_memory(&ended) {
        return Err(Memory);
    }
    Ok(offers.cheapest())
}

/// Whether a search ended because memory ran out.
fn lacks_memory(ended: &Result<(), Stop>) -> bool {
    match ended {
        Ok(()) => false,
        Err(stop) => *stop == Stop::Memory,
    }
}
