//! Entries of interfaces, and rules that write ends where a condition holds.

ghost use Rattle.std.specs.Prelude.{◌≡◌, ◌≤◌, ◌++◌, ◌∷◌, [], length, IfOk, OnOk};
ghost use Rattle.fws_ifcl_rules.specs.Rules.{always};
ghost use Rattle.fws_rules.specs.Literals.{one};
ghost use Rattle.fws_ipt_ifcl.specs.Blocks.{all_entries, guarded_writes};

use fws_ifcl::{Act, Rule};
use fws_ifcl_rules::{put_always, put_guard};
use fws_iv::{Ivs, one};
use fws_net::{Cond, Site};
use fws_num::Memory;
use std::alloc::Global;

/// The entry by itself. Fails if memory runs out.
pub(crate) fn one_entry(alloc: Global, entry: u8) -> Result<Ivs, Memory>
    ensures { IfOk result (λ set. set ≡ one entry entry) }
{
    one(alloc, u32::from(entry), u32::from(entry))
}

/// The entries of loopback and of the interfaces. Fails if memory runs out.
pub(crate) fn all_entries(alloc: Global, site: &Site) -> Result<Ivs, Memory>
    requires { length site.now.faces ≤ 62 }
    ensures { IfOk result (λ set. set ≡ all_entries site.now) }
{
    one(alloc, 1, site.faces.len() as u32 + 1)
}

/// Puts the rules behind the others that write where the condition holds, and end the stage there. Fails if memory runs out.
pub(crate) fn put_guarded(
    alloc: Global,
    rules: &mut Vec<Rule>,
    cond: Cond,
    writes: &mut Vec<Rule>,
) -> Result<(), Memory>
    ensures { OnOk result (rules.new.items ≡ rules.old.items ++ guarded_writes (length rules.old.items) cond writes.old.items) }
{
    put_always(alloc, writes, Act::Accept)?;
    put_guard(alloc, rules, cond, writes.len())?;
    rules.append(writes)?;
    Ok(())
}

/// Puts a rule behind the others that writes an end where the condition holds, and ends the stage there. Fails if memory runs out.
pub(crate) fn put_write(
    alloc: Global,
    rules: &mut Vec<Rule>,
    cond: Cond,
    act: Act,
) -> Result<(), Memory>
    ensures { OnOk result (rules.new.items ≡ rules.old.items ++ guarded_writes (length rules.old.items) cond (always act ∷ [])) }
{
    put_guard(alloc, rules, cond, 2)?;
    put_always(alloc, rules, act)?;
    put_always(alloc, rules, Act::Accept)?;
    Ok(())
}
