//! Rules.

ghost use Rattle.std.specs.Prelude.{◌≡◌, ◌++◌, [], ◌∷◌, length, IfOk, OnOk};
ghost use Rattle.fws_ifcl_rules.specs.Rules.{always, guard, ruled};

use crate::places::{place_behind, sum};
use fws_ifcl::{Act, Rule};
use fws_net::{Cond, Lit};
use fws_num::Memory;
use std::alloc::Global;

/// The rule that acts everywhere.
pub fn always(alloc: Global, act: Act) -> Rule
    ensures { result ≡ always act }
{
    Rule {
        cond: Cond::new(alloc),
        act,
    }
}

/// The rule that acts where the literal holds. Fails if memory runs out.
pub fn ruled_by(alloc: Global, lit: Lit, act: Act) -> Result<Rule, Memory>
    ensures { IfOk result (λ rule. rule ≡ ruled (lit ∷ []) act) }
{
    let mut cond = Cond::new(alloc);
    cond.put(lit)?;
    Ok(Rule { cond, act })
}

/// Puts a rule behind the others. Fails if memory runs out.
pub fn put_rule(rules: &mut Vec<Rule>, cond: Cond, act: Act) -> Result<(), Memory>
    ensures { OnOk result (rules.new.items ≡ rules.old.items ++ ruled cond act ∷ []) }
{
    rules.push(Rule { cond, act })?;
    Ok(())
}

/// Puts a rule that acts everywhere behind the others. Fails if memory runs out.
pub fn put_always(alloc: Global, rules: &mut Vec<Rule>, act: Act) -> Result<(), Memory>
    ensures { OnOk result (rules.new.items ≡ rules.old.items ++ always act ∷ []) }
{
    rules.push(always(alloc, act))?;
    Ok(())
}

/// Puts the two rules ahead of so many inner ones: where the condition holds the walk comes to them, else it goes on behind them.
/// Fails if memory runs out.
pub fn put_guard(
    alloc: Global,
    rules: &mut Vec<Rule>,
    cond: Cond,
    inner: usize,
) -> Result<(), Memory>
    ensures { OnOk result (rules.new.items ≡ rules.old.items ++ guard (length rules.old.items) cond inner) }
{
    let first = place_behind(rules.len(), 2)?;
    let past = place_behind(rules.len(), sum(2, inner)?)?;
    put_rule(rules, cond, Act::Skip(first))?;
    put_always(alloc, rules, Act::Skip(past))
}

/// The condition with the literal behind the others. Fails if memory runs out.
pub fn narrowed(mut cond: Cond, lit: Lit) -> Result<Cond, Memory>
    ensures { IfOk result (λ c. c ≡ cond ++ lit ∷ []) }
{
    cond.put(lit)?;
    Ok(cond)
}
