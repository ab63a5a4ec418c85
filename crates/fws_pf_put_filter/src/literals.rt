//! Conditions as lists of literals in the order in which they are printed.

ghost use Rattle.std.specs.Prelude.{◌≡◌, ℕ, ◌≤◌, ◌∷◌, [], ◌++◌, length, take, drop, IfOk, OnOk};
ghost use Rattle.fws_net.specs.declared.condition.Lit.{Lit};
ghost use Rattle.fws_net.specs.declared.condition.Test.TheVariants as tests;
ghost use Rattle.fws_pf_print.specs.Printable.{place_of};
ghost use Rattle.fws_pf_put_filter.specs.Literals.{inserted, with_lit};

use fws_net::{Cond, Lit, Test};
use fws_num::Memory;
use std::alloc::Global;

// The place of a test in a rule.
fn place_number(test: &Test) -> u8
    ensures { result ≡ place_of test.now }
{
    match test {
        Test::Via(_) => 0,
        Test::Proto(_) => 1,
        Test::Src(_) => 2,
        Test::Sport(_) => 3,
        Test::Dst(_) => 4,
        Test::Dport(_) => 5,
        Test::Flags { .. } => 6,
        Test::Icmp(_) => 7,
        Test::Tag(_) => 8,
        _ => 9,
    }
}

// How many literals stand before one with this place.
fn count_before(lits: &[Lit], place: u8) -> usize
    ensures within { result ≤ length lits.now }
    ensures stands { (lit : Lit) → place_of lit.test ≡ place → inserted lit lits.now ≡ take result lits.now ++ lit ∷ drop result lits.now }
{
    for (i, own) in lits.iter().enumerate() {
        if place < place_number(&own.test) {
            return i;
        }
    }
    lits.len()
}

// Appends equal literals.
fn put_copies(alloc: Global, cond: &mut Cond, lits: &[Lit]) -> Result<(), Memory>
    ensures { OnOk result (cond.new ≡ cond.old ++ lits.now) }
{
    for lit in lits {
        cond.put(lit.copy(alloc)?)?;
    }
    Ok(())
}

// The condition with an equal literal more, which stands at its place.
fn insert(alloc: Global, cond: &Cond, lit: &Lit) -> Result<Cond, Memory>
    ensures { IfOk result (λ next. next ≡ inserted lit.now cond.now) }
{
    let lits = cond.lits();
    let at = count_before(lits, place_number(&lit.test));
    let mut next = Cond::new(alloc);
    put_copies(alloc, &mut next, &lits[..at])?;
    next.put(lit.copy(alloc)?)?;
    put_copies(alloc, &mut next, &lits[at..])?;
    Ok(next)
}

/// The condition with a literal more, if there is one, at its place. Fails if memory runs out.
pub fn narrowed(alloc: Global, cond: &Cond, lit: &Option<Lit>) -> Result<Cond, Memory>
    ensures { IfOk result (λ next. next ≡ with_lit lit.now cond.now) }
{
    match lit {
        None => cond.copy(alloc),
        Some(own) => insert(alloc, cond, own),
    }
}
