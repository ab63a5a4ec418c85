//! Rules and their literals.

ghost use Rattle.std.specs.Prelude.{◌≡◌, [], ◌∷◌, ◌++◌, ◌-◌, ◌+◌, ◌^◌, ◌≤◌, ◌<◌, IfOk, OnOk};
ghost use Rattle.fws_ipt_put.specs.NatRules.{addresses, asked, one_if};
ghost use Rattle.fws_ipt_put.specs.Roots.{class_rule, entry_rule, of_class, of_entry};

use fws_ipt::{IptGo, IptRule};
use fws_iv::one;
use fws_net::{Cond, Lit, Test};
use fws_num::{Items, Memory};
use std::alloc::Global;

/// A literal that isn't negated.
pub(crate) fn asked(test: Test) -> Lit
    ensures { result ≡ asked test }
{
    Lit { not: false, test }
}

/// The rule with one literal. Fails if memory runs out.
pub(crate) fn rule_of_one(alloc: Global, lit: Lit, go: IptGo) -> Result<IptRule, Memory>
    ensures { IfOk result (λ rule. rule ≡ record { cond = lit ∷ []; go = go }) }
{
    let mut cond = Cond::new(alloc);
    cond.put(lit)?;
    Ok(IptRule { cond, go })
}

/// The rule with two literals. Fails if memory runs out.
pub(crate) fn rule_of_two(
    alloc: Global,
    first: Lit,
    second: Lit,
    go: IptGo,
) -> Result<IptRule, Memory>
    ensures { IfOk result (λ rule. rule ≡ record { cond = first ∷ second ∷ []; go = go }) }
{
    let mut cond = Cond::new(alloc);
    cond.put(first)?;
    cond.put(second)?;
    Ok(IptRule { cond, go })
}

/// The literal of a class: established packets, or new ones.
pub(crate) fn of_class(est: bool) -> Lit
    ensures { result ≡ of_class est }
{
    Lit {
        not: !est,
        test: Test::Est,
    }
}

/// A rule for the packets of a class. Fails if memory runs out.
pub(crate) fn class_rule(alloc: Global, est: bool, go: IptGo) -> Result<IptRule, Memory>
    ensures { IfOk result (λ rule. rule ≡ class_rule est go) }
{
    rule_of_one(alloc, of_class(est), go)
}

/// A rule for the packets of a class that come from an entry. Fails if memory runs out.
pub(crate) fn entry_rule(alloc: Global, est: bool, entry: u8, go: IptGo) -> Result<IptRule, Memory>
    ensures { IfOk result (λ rule. rule ≡ entry_rule est entry go) }
{
    let entries = one(alloc, u32::from(entry), u32::from(entry))?;
    rule_of_two(alloc, of_class(est), asked(Test::Recv(entries)), go)
}

/// Puts the rule behind the others where it is wanted. Fails if memory runs out.
pub(crate) fn put_if(rules: &mut Items<IptRule>, wanted: bool, rule: IptRule) -> Result<(), Memory>
    ensures { OnOk result (rules.new ≡ rules.old ++ one_if wanted rule) }
{
    if wanted {
        rules.put(rule)?;
    }
    Ok(())
}
