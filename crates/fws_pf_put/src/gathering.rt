//! The tags of a configuration, each once, in the order in which they are printed.

ghost use Rattle.std.specs.Prelude.{◌≡◌, option_map, map, IfOk, OnOk};
ghost use Rattle.fws_pf_print.specs.Printable.{behind_cond, behind_put, behind_rule, behind_rules, behind_tag, behind_test, behind_translation, behind_translations};
ghost use Rattle.fws_pf_put.specs.Renumbered.{Gathers, HasAllTags, renamed_cond, renamed_nat, renamed_rule, renamed_test};

use fws_net::{Lit, Test};
use fws_num::Memory;
use fws_pf::{PfConfig, PfNat, PfRule};
use indexmap::IndexSet;
use std::alloc::Global;

/// Puts the tag behind the others, unless it is among them. Fails if memory runs out, or at a place past 2^32 - 1.
fn gather_tag(tags: &mut IndexSet<u32>, tag: u32) -> Result<(), Memory>
    ensures { OnOk result (Gathers tags.old.keys tags.new.keys (λ f known. behind_tag (f tag) known)) }
{
    if tags.len() > 4_000_000_000 {
        return Err(Memory);
    }
    tags.insert(tag)?;
    Ok(())
}

/// Gathers the tag that a rule puts, if it does. Fails if memory runs out.
fn gather_put(tags: &mut IndexSet<u32>, tag: Option<u32>) -> Result<(), Memory>
    ensures { OnOk result (Gathers tags.old.keys tags.new.keys (λ f known. behind_put (option_map f tag) known)) }
{
    match tag {
        None => Ok(()),
        Some(tag) => gather_tag(tags, tag),
    }
}

/// Gathers the tag of a test, if it asks for one. Fails if memory runs out.
fn gather_test(tags: &mut IndexSet<u32>, test: &Test) -> Result<(), Memory>
    ensures { OnOk result (Gathers tags.old.keys tags.new.keys (λ f known. behind_test (renamed_test f test.now) known)) }
{
    match test {
        Test::Tag(tag) => gather_tag(tags, *tag),
        _ => Ok(()),
    }
}

/// Gathers the tags of a condition. Fails if memory runs out.
fn gather_cond(tags: &mut IndexSet<u32>, cond: &[Lit]) -> Result<(), Memory>
    ensures { OnOk result (Gathers tags.old.keys tags.new.keys (λ f known. behind_cond (renamed_cond f cond.now) known)) }
{
    for lit in cond {
        gather_test(tags, &lit.test)?;
    }
    Ok(())
}

/// Gathers the tags of a filter rule. Fails if memory runs out.
fn gather_rule(tags: &mut IndexSet<u32>, rule: &PfRule) -> Result<(), Memory>
    ensures { OnOk result (Gathers tags.old.keys tags.new.keys (λ f known. behind_rule (renamed_rule f rule.now) known)) }
{
    gather_cond(tags, rule.cond.lits())?;
    gather_put(tags, rule.tag)?;
    Ok(())
}

/// Gathers the tags of filter rules. Fails if memory runs out.
fn gather_rules(tags: &mut IndexSet<u32>, rules: &[PfRule]) -> Result<(), Memory>
    ensures { OnOk result (Gathers tags.old.keys tags.new.keys (λ f known. behind_rules (map (renamed_rule f) rules.now) known)) }
{
    for rule in rules {
        gather_rule(tags, rule)?;
    }
    Ok(())
}

/// Gathers the tags of a translation. Fails if memory runs out.
fn gather_nat(tags: &mut IndexSet<u32>, nat: &PfNat) -> Result<(), Memory>
    ensures { OnOk result (Gathers tags.old.keys tags.new.keys (λ f known. behind_translation (renamed_nat f nat.now) known)) }
{
    gather_put(tags, nat.tag)?;
    gather_cond(tags, nat.cond.lits())?;
    Ok(())
}

/// Gathers the tags of translations. Fails if memory runs out.
fn gather_nats(tags: &mut IndexSet<u32>, nats: &[PfNat]) -> Result<(), Memory>
    ensures { OnOk result (Gathers tags.old.keys tags.new.keys (λ f known. behind_translations (map (renamed_nat f) nats.now) known)) }
{
    for nat in nats {
        gather_nat(tags, nat)?;
    }
    Ok(())
}

/// The tags of a configuration, in the order in which they are printed. Fails if memory runs out.
pub(crate) fn tags_of(alloc: Global, c: &PfConfig) -> Result<IndexSet<u32>, Memory>
    ensures { IfOk result (λ tags. HasAllTags c.now tags.keys) }
{
    let mut tags = IndexSet::new(alloc);
    gather_nats(&mut tags, c.rdr.as_slice())?;
    gather_nats(&mut tags, c.nat.as_slice())?;
    gather_rules(&mut tags, c.filter.as_slice())?;
    Ok(tags)
}
