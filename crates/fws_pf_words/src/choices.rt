//! What values and lists ask for: a condition for each choice.

ghost use Rattle.std.specs.Prelude.{◌≡◌, ◌++◌, [], ◌∷◌, option_map, IfOk, IfSome, OnOk};
ghost use Rattle.fws_rules.specs.Literals.{positive};
ghost use Rattle.fws_pf.specs.Drawn.{conditions, crossed, implied_flags};
ghost use Rattle.fws_pf.specs.RuleText.{choice_of, item_literals, only};
ghost use Rattle.fws_pf_words.specs.Tests.{test_at};

use crate::known::Tables;
use crate::tables::part_set;
use fws_iv::Ivs;
use fws_net::{Cond, Lit, Test};
use fws_num::{Items, Memory};
use fws_pf::{Choice, Item, Place};
use fws_rules::{negative, positive, put_literals};
use std::alloc::Global;

/// The test of the numbers at a place.
fn test_at(place: Place, set: Ivs) -> Test
    ensures { result ≡ test_at place set }
{
    match place {
        Place::On => Test::Via(set),
        Place::Proto => Test::Proto(set),
        Place::Source => Test::Src(set),
        Place::SourcePort => Test::Sport(set),
        Place::Destination => Test::Dst(set),
        Place::DestinationPort => Test::Dport(set),
        Place::IcmpType => Test::Icmp(set),
    }
}

/// The literal of the numbers at a place, where they aren't all.
fn place_literal(place: Place, set: Option<Ivs>) -> Option<Lit>
    ensures { result ≡ option_map (λ s. positive (test_at place s)) set }
{
    match set {
        Some(set) => Some(positive(test_at(place, set))),
        None => None,
    }
}

/// Puts the literals of a value at a place behind those of a condition.
pub(crate) fn put_item(
    alloc: Global,
    tables: &Tables,
    place: Place,
    item: &Item,
    cond: &mut Cond,
) -> Result<(), Memory>
    ensures { OnOk result (cond.new ≡ cond.old ++ item_literals tables.now (test_at place) item.now) }
{
    let set = part_set(alloc, tables, &item.part)?;
    put_literals(cond, item.negated, place_literal(place, set))?;
    Ok(())
}

/// The condition of a value at a place.
fn item_cond(alloc: Global, tables: &Tables, place: Place, item: &Item) -> Result<Cond, Memory>
    ensures { IfOk result (λ c. c ≡ item_literals tables.now (test_at place) item.now) }
{
    let mut cond = Cond::new(alloc);
    put_item(alloc, tables, place, item, &mut cond)?;
    Ok(cond)
}

/// A condition for each value at a place. Fails if memory runs out.
pub fn choice_of(
    alloc: Global,
    tables: &Tables,
    place: Place,
    items: &[Item],
) -> Result<Choice, Memory>
    ensures { IfOk result (λ c. c ≡ choice_of tables.now (test_at place) items.now) }
{
    let mut conds = Items::new(alloc);
    for item in items {
        conds.put(item_cond(alloc, tables, place, item)?)?;
    }
    Ok(Choice { conds })
}

/// A choice among this condition alone. Fails if memory runs out.
pub(crate) fn only(alloc: Global, cond: Cond) -> Result<Choice, Memory>
    ensures { IfOk result (λ c. c ≡ only cond) }
{
    let mut conds = Items::new(alloc);
    conds.put(cond)?;
    Ok(Choice { conds })
}

/// The condition that of SYN and ACK a packet of TCP has SYN alone: not neither, not ACK alone and not both. Packets of other
/// protocols pass. Fails if memory runs out.
pub fn implied_flags(alloc: Global) -> Result<Cond, Memory>
    ensures { IfOk result (λ c. c ≡ implied_flags) }
{
    let mut cond = Cond::new(alloc);
    cond.put(negative(Test::Flags { mask: 18, want: 0 }))?;
    cond.put(negative(Test::Flags { mask: 18, want: 16 }))?;
    cond.put(negative(Test::Flags { mask: 18, want: 18 }))?;
    Ok(cond)
}

/// A condition and what another goes on with.
fn joined(alloc: Global, front: &Cond, rest: &Cond) -> Result<Cond, Memory>
    ensures { IfOk result (λ c. c ≡ front.now ++ rest.now) }
{
    let mut cond = front.copy(alloc)?;
    for lit in rest.lits() {
        cond.put(lit.copy(alloc)?)?;
    }
    Ok(cond)
}

/// The one condition of a choice, if it has just one.
fn one_cond(choice: &Choice) -> Option<&Cond>
    ensures { IfSome result (λ c. choice.now.conds ≡ c.now ∷ []) }
{
    match choice.conds.as_slice() {
        [cond] => Some(cond),
        _ => None,
    }
}

/// Puts literals behind those of a condition.
pub(crate) fn put_copies(alloc: Global, lits: &[Lit], cond: &mut Cond) -> Result<(), Memory>
    ensures { OnOk result (cond.new ≡ cond.old ++ lits.now) }
{
    for lit in lits {
        cond.put(lit.copy(alloc)?)?;
    }
    Ok(())
}

/// A condition that goes on with another.
fn extended(alloc: Global, front: Cond, rest: &Cond) -> Result<Cond, Memory>
    ensures { IfOk result (λ c. c ≡ front ++ rest.now) }
{
    let mut cond = front;
    put_copies(alloc, rest.lits(), &mut cond)?;
    Ok(cond)
}

/// Puts the conditions behind others that begin with this one and go on with one for each choice, the first choice varying slowest.
#[cycle(put_all)]
pub(crate) fn put_all(
    alloc: Global,
    front: Cond,
    choices: &[Choice],
    all: &mut Items<Cond>,
) -> Result<(), Memory>
    ensures { OnOk result (all.new ≡ all.old ++ crossed (front ∷ []) (conditions choices.now)) }
{
    match choices.split_first() {
        None => {
            all.put(front)?;
            Ok(())
        }
        Some((choice, rest)) => match one_cond(choice) {
            Some(one) => {
                put_all(alloc, extended(alloc, front, one)?, rest, all)?;
                Ok(())
            }
            None => {
                put_each(alloc, &front, choice.conds.as_slice(), rest, all)?;
                Ok(())
            }
        },
    }
}

/// Puts the conditions behind others that begin with this one, go on with one of those, and then with one for each choice.
#[cycle(put_all)]
fn put_each(
    alloc: Global,
    front: &Cond,
    conds: &[Cond],
    rest: &[Choice],
    all: &mut Items<Cond>,
) -> Result<(), Memory>
    ensures { OnOk result (all.new ≡ all.old ++ crossed (front.now ∷ []) (crossed conds.now (conditions rest.now))) }
{
    for cond in conds {
        put_all(alloc, joined(alloc, front, cond)?, rest, all)?;
    }
    Ok(())
}
