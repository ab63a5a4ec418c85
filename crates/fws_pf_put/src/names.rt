//! Rules whose tags have other numbers.

ghost use Rattle.std.specs.Prelude.{◌≡◌, true, option_map, length, map, IfOk};
ghost use Rattle.fws_pf_print.specs.Printable.{are_named, tag_name};
ghost use Rattle.fws_pf_put.specs.Renumbered.{place_in, renamed_cond, renamed_lit, renamed_nat, renamed_rule, renamed_test};

use fws_net::{Cond, Lit, Test};
use fws_num::{Items, Memory, Text, put_dec};
use fws_pf::{PfNat, PfRule};
use indexmap::IndexSet;
use std::alloc::Global;

/// The place of the tag among the others. Each tag of a configuration has one among those that were gathered from it.
fn number_of(tags: &IndexSet<u32>, tag: u32) -> Result<u32, Memory>
    ensures { IfOk result (λ n. n ≡ place_in tags.now.keys tag) }
{
    match tags.get_index_of(&tag) {
        None => Err(Memory),
        Some(place) => match u32::try_from(place) {
            Ok(number) => Ok(number),
            Err(_) => Err(Memory),
        },
    }
}

/// The test with its tag's number. Fails if memory runs out.
fn renamed_test(alloc: Global, tags: &IndexSet<u32>, test: &Test) -> Result<Test, Memory>
    ensures { IfOk result (λ t. t ≡ renamed_test (place_in tags.now.keys) test.now) }
{
    match test {
        Test::Tag(tag) => Ok(Test::Tag(number_of(tags, *tag)?)),
        _ => test.copy(alloc),
    }
}

/// The condition with its tags' numbers. Fails if memory runs out.
fn renamed_cond(alloc: Global, tags: &IndexSet<u32>, lits: &[Lit]) -> Result<Cond, Memory>
    ensures { IfOk result (λ c. c ≡ renamed_cond (place_in tags.now.keys) lits.now) }
{
    let mut cond = Cond::new(alloc);
    for lit in lits {
        cond.put(Lit {
            not: lit.not,
            test: renamed_test(alloc, tags, &lit.test)?,
        })?;
    }
    Ok(cond)
}

/// The number of the tag that a rule puts, if it does. Fails if memory runs out.
fn renamed_put(tags: &IndexSet<u32>, tag: Option<u32>) -> Result<Option<u32>, Memory>
    ensures { IfOk result (λ t. t ≡ option_map (place_in tags.now.keys) tag) }
{
    match tag {
        None => Ok(None),
        Some(tag) => Ok(Some(number_of(tags, tag)?)),
    }
}

/// The filter rule with its tags' numbers. Fails if memory runs out.
fn renamed_rule(alloc: Global, tags: &IndexSet<u32>, rule: &PfRule) -> Result<PfRule, Memory>
    ensures { IfOk result (λ r. r ≡ renamed_rule (place_in tags.now.keys) rule.now) }
{
    Ok(PfRule {
        pass: rule.pass,
        way: rule.way,
        quick: rule.quick,
        cond: renamed_cond(alloc, tags, rule.cond.lits())?,
        tag: renamed_put(tags, rule.tag)?,
        keep: rule.keep,
    })
}

/// The filter rules with their tags' numbers. Fails if memory runs out.
pub(crate) fn renamed_rules(
    alloc: Global,
    tags: &IndexSet<u32>,
    rules: &[PfRule],
) -> Result<Items<PfRule>, Memory>
    ensures { IfOk result (λ new. new ≡ map (renamed_rule (place_in tags.now.keys)) rules.now) }
{
    let mut renamed = Items::new(alloc);
    for rule in rules {
        renamed.put(renamed_rule(alloc, tags, rule)?)?;
    }
    Ok(renamed)
}

/// The translation with its tags' numbers. Fails if memory runs out.
fn renamed_nat(alloc: Global, tags: &IndexSet<u32>, nat: &PfNat) -> Result<PfNat, Memory>
    ensures { IfOk result (λ n. n ≡ renamed_nat (place_in tags.now.keys) nat.now) }
{
    Ok(PfNat {
        cond: renamed_cond(alloc, tags, nat.cond.lits())?,
        to: nat.to,
        past: nat.past,
        tag: renamed_put(tags, nat.tag)?,
    })
}

/// The translations with their tags' numbers. Fails if memory runs out.
pub(crate) fn renamed_nats(
    alloc: Global,
    tags: &IndexSet<u32>,
    nats: &[PfNat],
) -> Result<Items<PfNat>, Memory>
    ensures { IfOk result (λ new. new ≡ map (renamed_nat (place_in tags.now.keys)) nats.now) }
{
    let mut renamed = Items::new(alloc);
    for nat in nats {
        renamed.put(renamed_nat(alloc, tags, nat)?)?;
    }
    Ok(renamed)
}

/// The name of the tag with a number. Fails if memory runs out.
fn tag_name(alloc: Global, number: u64) -> Result<Text, Memory>
    ensures { IfOk result (λ name. name ≡ tag_name number) }
{
    let mut name = Text::new(alloc);
    name.put(b"n")?;
    put_dec(&mut name, number)?;
    Ok(name)
}

/// The names of so many tags. Fails if memory runs out.
pub(crate) fn tag_names(alloc: Global, count: usize) -> Result<Items<Text>, Memory>
    ensures named { IfOk result (λ names. are_named 0 names ≡ true) }
    ensures size { IfOk result (λ names. length names ≡ count) }
{
    let mut names = Items::new(alloc);
    for number in 0..count {
        names.put(tag_name(alloc, number as u64)?)?;
    }
    Ok(names)
}
