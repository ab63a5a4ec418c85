//! What lists are sought for.

use crate::problems::{ACCEPT, DROP, Policy};
use crate::rules::List;
use crate::solving::{Colour, Task, solve};
use crate::style::Style;
use crate::tidying::tidied;
use fws_diagram::{Diagram, Stop};
use fws_net::End;
use fws_num::Memory;
use std::alloc::Global;

/// A colour that costs nothing besides.
pub fn plain_colour(number: u32) -> Colour {
    Colour {
        number,
        penalty: 0,
        writes_ports: false,
    }
}

/// What packets are dropped or accepted by, with the defaults in the order in which they are wanted.
pub fn verdict_task(alloc: Global, diagram: Diagram, defaults: &[u32]) -> Result<Task, Memory> {
    let mut colours = Vec::new(alloc);
    colours.push(plain_colour(ACCEPT))?;
    colours.push(plain_colour(DROP))?;
    task_for(alloc, diagram, colours, defaults)
}

/// What is sought for a diagram.
pub fn task_for(
    alloc: Global,
    diagram: Diagram,
    colours: Vec<Colour>,
    defaults: &[u32],
) -> Result<Task, Memory> {
    Ok(Task {
        diagram,
        colours,
        defaults: Vec::from_slice(alloc, defaults)?,
        hints: Vec::new(alloc),
    })
}

/// The list that is found, in an order in which a reader would look for its rules. It gives up where none is.
pub fn solved(policy: &mut Policy, style: &mut Style, task: &Task) -> Result<List, Stop> {
    let alloc = policy.alloc;
    let budget = policy.steps_for_list();
    let Some(list) = solve(alloc, &mut policy.space, style, task, budget)? else {
        return Err(Stop::Late);
    };
    let rules = tidied(alloc, &policy.space, &list.rules)?;
    Ok(List {
        rules,
        default: list.default,
        cost: list.cost,
    })
}

/// The colours of ends, with those that write something first.
pub fn end_colours(alloc: Global, ends: &[Option<End>]) -> Result<Vec<Colour>, Memory> {
    let mut colours = Vec::new(alloc);
    for (place, end) in ends.iter().enumerate().skip(1) {
        let writes_ports = match end {
            Some(end) => end.port.is_some(),
            None => false,
        };
        colours.push(Colour {
            number: u32::try_from(place).unwrap_or(u32::MAX),
            penalty: 0,
            writes_ports,
        })?;
    }
    colours.push(plain_colour(0))?;
    Ok(colours)
}
