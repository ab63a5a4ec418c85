//! Rules of built-in chains that send packets into the chains of a tree.

ghost use Rattle.std.specs.Prelude.{◌≡◌, ◌+◌, ◌≤◌, ◌<◌, [], ◌∷◌, ◌++◌, IfOk, OnOk};
ghost use Rattle.fws_ipt_put.specs.Roots.{arriving_rules, class_rule, entry_rules, go_at, is_same_go, own_rules, sending_rules};

use crate::rules::{class_rule, entry_rule};
use fws_ipt::{IptGo, IptRule};
use fws_ipt_put_chains::Branch;
use fws_num::{Items, Memory};
use std::alloc::Global;

/// What is done by the first branch that has the entry.
fn go_at(branches: &[Branch], entry: u8) -> IptGo
    ensures { result ≡ go_at branches.now entry }
{
    for branch in branches {
        if branch.entries.has(u32::from(entry)) {
            return branch.go;
        }
    }
    IptGo::Accept
}

/// Whether both accept, both drop, or both go to one chain.
fn is_same_go(a: IptGo, b: IptGo) -> bool
    ensures { result ≡ is_same_go a b }
{
    match (a, b) {
        (IptGo::Accept, IptGo::Accept) | (IptGo::Drop, IptGo::Drop) => true,
        (IptGo::Goto(c), IptGo::Goto(d)) => c == d,
        _ => false,
    }
}

/// How many of the entries 1 to `last` are treated like this one.
fn alike(branches: &[Branch], entry: u8, last: u8) -> usize {
    let go = go_at(branches, entry);
    (1..u16::from(last) + 1)
        .filter(|other| is_same_go(go_at(branches, *other as u8), go))
        .count()
}

/// One of the entries 1 to `last` that most others are treated like.
fn usual_entry(branches: &[Branch], last: u8) -> u8
    requires { 1 ≤ last }
    ensures low { 1 ≤ result }
    ensures high { result ≤ last }
{
    let mut usual = 1;
    let mut most = 0;
    for entry in 1..last {
        let count = alike(branches, entry, last);
        if count > most {
            usual = entry;
            most = count;
        }
    }
    usual
}

/// Puts the rule of an entry, if it is treated otherwise than is usual. Fails if memory runs out.
fn put_own(
    alloc: Global,
    rules: &mut Items<IptRule>,
    est: bool,
    branches: &[Branch],
    usual: IptGo,
    entry: u8,
) -> Result<(), Memory>
    ensures { OnOk result (rules.new ≡ rules.old ++ own_rules est branches.now usual entry) }
{
    let go = go_at(branches, entry);
    if !is_same_go(go, usual) {
        rules.put(entry_rule(alloc, est, entry, go)?)?;
    }
    Ok(())
}

/// Puts the rules of the entries 1 to `last` that are treated otherwise than is usual. Fails if memory runs out.
fn put_entries(
    alloc: Global,
    rules: &mut Items<IptRule>,
    est: bool,
    branches: &[Branch],
    usual: IptGo,
    last: u8,
) -> Result<(), Memory>
    requires { last < 255 }
    ensures { OnOk result (rules.new ≡ rules.old ++ entry_rules est branches.now usual last) }
{
    for before in 0..last {
        put_own(alloc, rules, est, branches, usual, before + 1)?;
    }
    Ok(())
}

/// Puts the rules for the packets of a class that arrive by one of the entries 1 to `last`, and gives the entry that is treated as
/// is usual. Fails if memory runs out.
pub(crate) fn put_arriving(
    alloc: Global,
    rules: &mut Items<IptRule>,
    est: bool,
    branches: &[Branch],
    last: u8,
) -> Result<u8, Memory>
    requires low { 1 ≤ last }
    requires high { last < 255 }
    ensures low { IfOk result (λ usual. 1 ≤ usual) }
    ensures high { IfOk result (λ usual. usual ≤ last) }
    ensures rules { IfOk result (λ usual. rules.new ≡ rules.old ++ arriving_rules est branches.now usual last) }
{
    let usual = usual_entry(branches, last);
    let go = go_at(branches, usual);
    put_entries(alloc, rules, est, branches, go, last)?;
    rules.put(class_rule(alloc, est, go)?)?;
    Ok(usual)
}

/// Puts the rule for the host's own packets of a class. Fails if memory runs out.
pub(crate) fn put_sending(
    alloc: Global,
    rules: &mut Items<IptRule>,
    est: bool,
    branches: &[Branch],
) -> Result<(), Memory>
    ensures { OnOk result (rules.new ≡ rules.old ++ sending_rules est branches.now) }
{
    let go = go_at(branches, 0);
    rules.put(class_rule(alloc, est, go)?)?;
    Ok(())
}
