//! The chains that stand besides those of trees.

ghost use Rattle.std.specs.Prelude.{◌≡◌, ◌+◌, ◌<◌, ◌^◌, None, true, [], ◌∷◌, ◌++◌, codes, length, IfOk, OnOk, All};
ghost use Rattle.std.specs.Fmt.{decimal};
ghost use Rattle.fws_ipt_put_chains.specs.Branches.{mark_rules};
ghost use Rattle.fws_ipt_put.specs.Builtin.{builtin, filter_chains, mangle_chains, nat_chains};
ghost use Rattle.fws_ipt_put.specs.NatRules.{nat_rules as rules_at_hook};
ghost use Rattle.fws_ipt.specs.declared.config.IptTable.TheVariants as tables;
ghost use Rattle.fws_ipt_put.specs.Marks.{HaveBlocks, mark_chain, mark_chains, mark_name};

use crate::marks::Mark;
use crate::nat::nat_rules;
use fws_ipt::{Hook, IptChain, IptGo, IptRule, IptTable};
use fws_net::Cond;
use fws_num::{Items, Memory, Text, put_dec};
use std::alloc::Global;

/// The built-in chain of a table at a hook. Fails if memory runs out.
pub(crate) fn builtin(
    alloc: Global,
    table: IptTable,
    hook: Hook,
    accepts: bool,
    rules: Items<IptRule>,
) -> Result<IptChain, Memory>
    ensures { IfOk result (λ chain. chain ≡ builtin table hook accepts rules) }
{
    Ok(IptChain {
        table,
        name: Text::of(alloc, hook.name())?,
        policy: Some(accepts),
        rules,
    })
}

/// Puts a built-in chain without rules. Fails if memory runs out.
fn put_empty(
    alloc: Global,
    chains: &mut Items<IptChain>,
    table: IptTable,
    hook: Hook,
    accepts: bool,
) -> Result<(), Memory>
    ensures { OnOk result (chains.new ≡ chains.old ++ builtin table hook accepts [] ∷ []) }
{
    chains.put(builtin(alloc, table, hook, accepts, Items::new(alloc))?)?;
    Ok(())
}

/// The built-in chains of mangle, without rules. Fails if memory runs out.
pub(crate) fn mangle_chains(alloc: Global) -> Result<Items<IptChain>, Memory>
    ensures { IfOk result (λ chains. chains ≡ mangle_chains [] []) }
{
    let mut chains = Items::new(alloc);
    put_empty(
        alloc,
        &mut chains,
        IptTable::Mangle,
        Hook::Prerouting,
        false,
    )?;
    put_empty(alloc, &mut chains, IptTable::Mangle, Hook::Input, true)?;
    put_empty(alloc, &mut chains, IptTable::Mangle, Hook::Forward, true)?;
    put_empty(alloc, &mut chains, IptTable::Mangle, Hook::Output, false)?;
    put_empty(
        alloc,
        &mut chains,
        IptTable::Mangle,
        Hook::Postrouting,
        true,
    )?;
    Ok(chains)
}

/// Puts the built-in chains of filter, without rules. Fails if memory runs out.
pub(crate) fn put_filter(alloc: Global, chains: &mut Items<IptChain>) -> Result<(), Memory>
    ensures { OnOk result (chains.new ≡ chains.old ++ filter_chains [] [] []) }
{
    put_empty(alloc, chains, IptTable::Filter, Hook::Input, true)?;
    put_empty(alloc, chains, IptTable::Filter, Hook::Forward, true)?;
    put_empty(alloc, chains, IptTable::Filter, Hook::Output, true)?;
    Ok(())
}

/// Puts the built-in chain of nat at a hook. Fails if memory runs out.
fn put_nat_chain(
    alloc: Global,
    chains: &mut Items<IptChain>,
    hook: Hook,
    marks: &[Mark],
) -> Result<(), Memory>
    requires blocks { All HaveBlocks marks.now }
    requires few { length marks.now + 5 < 2 ^ 32 }
    ensures { OnOk result (chains.new ≡ chains.old ++ builtin tables.Nat hook true (rules_at_hook hook 5 marks.now) ∷ []) }
{
    let rules = nat_rules(alloc, hook, marks)?;
    chains.put(builtin(alloc, IptTable::Nat, hook, true, rules)?)?;
    Ok(())
}

/// Puts the built-in chains of nat. Fails if memory runs out.
pub(crate) fn put_nat(
    alloc: Global,
    chains: &mut Items<IptChain>,
    marks: &[Mark],
) -> Result<(), Memory>
    requires blocks { All HaveBlocks marks.now }
    requires few { length marks.now + 5 < 2 ^ 32 }
    ensures { OnOk result (chains.new ≡ chains.old ++ nat_chains marks.now) }
{
    put_nat_chain(alloc, chains, Hook::Prerouting, marks)?;
    put_nat_chain(alloc, chains, Hook::Input, marks)?;
    put_nat_chain(alloc, chains, Hook::Output, marks)?;
    put_nat_chain(alloc, chains, Hook::Postrouting, marks)?;
    Ok(())
}

/// The rules of the chain that sets a mark. Fails if memory runs out.
fn mark_rules(alloc: Global, mark: u32) -> Result<Items<IptRule>, Memory>
    ensures { IfOk result (λ rules. rules ≡ mark_rules mark) }
{
    let mut rules = Items::new(alloc);
    rules.put(IptRule {
        cond: Cond::new(alloc),
        go: IptGo::Mark(mark),
    })?;
    rules.put(IptRule {
        cond: Cond::new(alloc),
        go: IptGo::Accept,
    })?;
    Ok(rules)
}

/// The name of the chain that sets a mark. Fails if memory runs out.
fn mark_name(alloc: Global, mark: u32) -> Result<Text, Memory>
    ensures { IfOk result (λ name. name ≡ mark_name mark) }
{
    let mut name = Text::of(alloc, b"mark-")?;
    put_dec(&mut name, u64::from(mark))?;
    Ok(name)
}

/// The chain that sets a mark. Fails if memory runs out.
fn mark_chain(alloc: Global, mark: u32) -> Result<IptChain, Memory>
    ensures { IfOk result (λ chain. chain ≡ mark_chain mark) }
{
    Ok(IptChain {
        table: IptTable::Mangle,
        name: mark_name(alloc, mark)?,
        policy: None,
        rules: mark_rules(alloc, mark)?,
    })
}

/// Puts the chains of the marks, of which the first has the number 5. Fails if memory runs out.
pub(crate) fn put_marks(
    alloc: Global,
    chains: &mut Items<IptChain>,
    marks: &[Mark],
) -> Result<(), Memory>
    requires { length marks.now + 5 < 2 ^ 32 }
    ensures { OnOk result (chains.new ≡ chains.old ++ mark_chains 5 marks.now) }
{
    for (place, _) in marks.iter().enumerate() {
        chains.put(mark_chain(alloc, place as u32 + 5)?)?;
    }
    Ok(())
}
