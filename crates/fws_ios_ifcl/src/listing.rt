//! The rules to which an access list is unfolded.

ghost use Rattle.std.specs.Prelude.{◌≡◌, ◌++◌, ◌∷◌, [], OnOk};
ghost use Rattle.fws_ios_ifcl.specs.Blocks.{entry_rule, listing};

use fws_ifcl::{Act, Rule};
use fws_ifcl_rules::{put_always, put_rule};
use fws_ios::IosEntry;
use fws_num::Memory;
use std::alloc::Global;

/// Puts the rule of an entry behind the others, by what is done where the list permits and where it denies. Fails if memory runs
/// out.
fn put_entry(
    alloc: Global,
    rules: &mut Vec<Rule>,
    permitted: Act,
    denied: Act,
    entry: &IosEntry,
) -> Result<(), Memory>
    ensures { OnOk result (rules.new.items ≡ rules.old.items ++ entry_rule permitted denied entry.now ∷ []) }
{
    let cond = entry.cond.copy(alloc)?;
    put_rule(rules, cond, if entry.permit { permitted } else { denied })?;
    Ok(())
}

/// Puts the rules of a list behind the others, which denies behind its entries. Fails if memory runs out.
pub(crate) fn put_listing(
    alloc: Global,
    rules: &mut Vec<Rule>,
    permitted: Act,
    denied: Act,
    entries: &[IosEntry],
) -> Result<(), Memory>
    ensures { OnOk result (rules.new.items ≡ rules.old.items ++ listing permitted denied entries.now) }
{
    for entry in entries {
        put_entry(alloc, rules, permitted, denied, entry)?;
    }
    put_always(alloc, rules, denied)?;
    Ok(())
}
