//! Tries trees and what is made of them at each point within small tops, against what rows say of the point, and trees that were
//! worked out by hand. It prints a line for each group with how many cases agree and the first that doesn't, and ends with status 1
//! where one doesn't, with 6 because memory ran out, and with 5 where it can't write.
#![tactic(auto)]

mod agreeing;
mod canvases;
mod changes;
mod drawing;
mod hand;
mod hosts;
mod leaves;
mod meaning;
mod mover;
mod points;
mod projecting;
mod random;
mod recolourings;
mod tally;
mod trial;
mod views;

use crate::hand::try_by_hand;
use crate::hosts::try_hosts;
use crate::tally::Tally;
use crate::trial::{GROUPS, Group, agrees};
use fws_io::{StdSink, write_all};
use fws_num::{Memory, Text};
use std::alloc::Global;
use std::process::ExitCode;

/// Tries a group at each seed.
fn try_group(alloc: Global, group: Group) -> Result<Tally, Memory> {
    let mut tally = Tally::new();
    for seed in 0..group.seeds() {
        tally.count(agrees(alloc, group, seed)?);
    }
    Ok(tally)
}

/// Tries all groups, and says whether all cases agree.
fn try_groups(alloc: Global, said: &mut Text) -> Result<bool, Memory> {
    let mut clean = true;
    for group in GROUPS {
        let tally = try_group(alloc, group)?;
        tally.put_line(said, group.name())?;
        clean = clean && tally.is_clean();
    }
    Ok(clean)
}

/// Tries what was worked out by hand, and says whether all cases agree.
fn try_worked_out(alloc: Global, said: &mut Text) -> Result<bool, Memory> {
    let by_hand = try_by_hand(alloc)?;
    by_hand.put_line(said, b"trees by hand")?;
    let hosts = try_hosts(alloc)?;
    hosts.put_line(said, b"one host")?;
    Ok(by_hand.is_clean() && hosts.is_clean())
}

/// Tries what was worked out by hand and all groups, and says whether all cases agree.
fn try_all(alloc: Global, said: &mut Text) -> Result<bool, Memory> {
    let worked_out = try_worked_out(alloc, said)?;
    let drawn = try_groups(alloc, said)?;
    Ok(worked_out && drawn)
}

fn main(rt: HostRuntime) -> ExitCode {
    let mut said = Text::new(rt.alloc());
    let Ok(clean) = try_all(rt.alloc(), &mut said) else {
        return ExitCode::from(6);
    };
    let mut sink = StdSink::new(&rt);
    if write_all(&mut sink, said.as_slice()).is_err() {
        return ExitCode::from(5);
    }
    if clean {
        ExitCode::SUCCESS
    } else {
        ExitCode::FAILURE
    }
}
