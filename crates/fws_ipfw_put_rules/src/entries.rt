//! The turns of a cut of the entry.

ghost use Rattle.std.specs.Prelude.{◌+◌, ◌<◌, ◌≤◌, length, IfOk, OnOk};
ghost use Rattle.fws_ipfw_put_rules.specs.Turns.{AreEntries, AreKidTurns, AreTurns};
ghost use Rattle.fws_ipfw_put_rules.specs.declared.turn.Turn.{Turn};
ghost use Rattle.fws_print.specs.Appended.{Appends};

use crate::turn::Turn;
use crate::turns::put_literals;
use fws_iv::{Ivs, one};
use fws_net::{Lit, Test};
use fws_num::{Items, Memory};
use fws_tree::Kid;
use std::alloc::Global;

// For each entry of the set from 1 to the greatest one, that the interface received the packet.
fn entries(alloc: Global, top: u32, set: &Ivs) -> Result<Items<Lit>, Memory>
    requires { top ≤ 65535 }
    ensures { IfOk result (λ lits. AreEntries top set.now lits) }
{
    let mut lits = Items::new(alloc);
    for e in 1..top + 1 {
        if set.has(e) {
            lits.put(Lit {
                not: false,
                test: Test::Recv(one(alloc, e, e)?),
            })?;
        }
    }
    Ok(lits)
}

// Appends the turns to the nodes of kids for packets that their entries receive.
fn put_kids(alloc: Global, turns: &mut Items<Turn>, top: u32, kids: &[Kid]) -> Result<(), Memory>
    requires { top ≤ 65535 }
    ensures { OnOk result (Appends turns.old turns.new (AreKidTurns (AreEntries top) kids.now)) }
{
    for kid in kids {
        let lits = entries(alloc, top, &kid.set)?;
        put_literals(turns, lits, kid.node)?;
    }
    Ok(())
}

// How many entries from 1 to the greatest one a set has.
fn count(top: u32, set: &Ivs) -> usize {
    let mut sum: usize = 0;
    for e in 1..top.saturating_add(1) {
        if set.has(e) {
            sum = sum.saturating_add(1);
        }
    }
    sum
}

// The place of the first kid of those with most entries from 1 on.
fn widest(top: u32, kids: &[Kid]) -> usize
    requires { 0 < length kids.now }
    ensures { result < length kids.now }
{
    let mut best = 0;
    let mut most = 0;
    for (i, kid) in kids.iter().enumerate() {
        let own = count(top, &kid.set);
        if own > most {
            best = i;
            most = own;
        }
    }
    best
}

/// The turns of packets that arrive, at a cut of the entry up to the greatest one. Fails if memory runs out.
pub(crate) fn entry_turns(alloc: Global, top: u32, kids: &[Kid]) -> Result<Items<Turn>, Memory>
    requires some { 0 < length kids.now }
    requires top { top ≤ 65535 }
    ensures { IfOk result (λ turns. AreTurns (AreKidTurns (AreEntries top)) kids.now turns) }
{
    let at = widest(top, kids);
    let mut turns = Items::new(alloc);
    put_kids(alloc, &mut turns, top, &kids[..at])?;
    put_kids(alloc, &mut turns, top, &kids[at + 1..])?;
    turns.put(Turn {
        lit: None,
        node: kids[at].node,
    })?;
    Ok(turns)
}
