//! Packets that go from the inside to the outside, and their sources.

ghost use Rattle.std.specs.Prelude.{◌≡◌, ◌^◌, ◌<◌, ℕ, true, false, if◌then◌else◌, IfOk};
ghost use Rattle.fws_iv.specs.Ivs.{has};
ghost use Rattle.fws_net.specs.declared.outcome.Outcome.{Outcome};
ghost use Rattle.fws_net.specs.Points.{tops_of};
ghost use Rattle.fws_net.specs.Routes.{IsSound};
ghost use Rattle.fws_place.specs.Outgoing.{ends_outside, AreInside, AreOutside, HasSources, AddsGoing, IsComingWith, IsGoingWith, TellsGoing};
ghost use Rattle.fws_tree.specs.Plain.{value};
ghost use Rattle.fws_tree.specs.Regular.{AreRegular};

use crate::crossing::{inside_entries, outside_set};
use crate::one_end::{Alone, Compared, end_alone};
use crate::written_into::written_into;
use fws_box::Field;
use fws_iv::Ivs;
use fws_net::{Outcome, Site};
use fws_num::Memory;
use fws_tree::{Relabelling, Tables, Tree};
use fws_truth::{either, kept_in};
use std::alloc::Global;

// The destinations with which packets of the outcome end with an address that is sent to the outside.
fn destinations(alloc: Global, site: &Site, outside: &Ivs, outcome: &Outcome) -> Result<Ivs, Memory>
    requires { AreOutside site.now outside.now }
    ensures { IfOk result (λ s. (d : ℕ) → d < 2 ^ 32 → has s d ≡ ends_outside site.now outcome.now d) }
{
    match outcome {
        Outcome::Drop => Ok(Ivs::none(alloc)),
        Outcome::Accept(rewrite) => written_into(alloc, outside, rewrite.dst),
    }
}

// The tree that is true where the outcome is this one and packets come by one of the entries.
fn coming_with(
    alloc: Global,
    outcomes: &Tree<Outcome>,
    outcome: &Outcome,
    entries: &Ivs,
) -> Result<Tree<bool>, Memory>
    ensures tops { IfOk result (λ t. t.0 ≡ outcomes.now.0) }
    ensures value { IfOk result (λ t. IsComingWith entries.now outcomes.now.0 outcomes.now.1 outcome.now t.1) }
{
    let such = outcomes.select(alloc, outcome)?;
    kept_in(alloc, &such, Field::Entry, entries.copy(alloc)?, false)
}

// The tree that is true where the outcome is this one and packets go from the inside to the outside.
fn going_with(
    alloc: Global,
    site: &Site,
    outcomes: &Tree<Outcome>,
    outcome: &Outcome,
    inside: &Ivs,
    outside: &Ivs,
) -> Result<Tree<bool>, Memory>
    requires tops { outcomes.now.0 ≡ tops_of site.now }
    requires inside { AreInside site.now inside.now }
    requires outside { AreOutside site.now outside.now }
    ensures tops { IfOk result (λ t. t.0 ≡ tops_of site.now) }
    ensures value { IfOk result (λ t. IsGoingWith site.now outcomes.now.1 outcome.now t.1) }
{
    let coming = coming_with(alloc, outcomes, outcome, inside)?;
    let set = destinations(alloc, site, outside, outcome)?;
    kept_in(alloc, &coming, Field::Dst, set, false)
}

/// No leaf.
struct Never;

impl Relabelling<Outcome, bool> for Never {
    ghost use Rattle.std.specs.Prelude.{false};

    ghost gives = { λ s o. false };

    fn leaf(&self, _alloc: Global, _leaf: &Outcome) -> Result<bool, Memory> {
        Ok(false)
    }
}

// The tree that is true where this one is, and where the outcome is this one and packets go from the inside to the outside.
fn with_going(
    alloc: Global,
    site: &Site,
    all: &Tree<bool>,
    outcomes: &Tree<Outcome>,
    outcome: &Outcome,
    inside: &Ivs,
    outside: &Ivs,
) -> Result<Tree<bool>, Memory>
    requires all { all.now.0 ≡ tops_of site.now }
    requires tops { outcomes.now.0 ≡ tops_of site.now }
    requires inside { AreInside site.now inside.now }
    requires outside { AreOutside site.now outside.now }
    ensures tops { IfOk result (λ t. t.0 ≡ tops_of site.now) }
    ensures value { IfOk result (λ t. AddsGoing site.now outcomes.now.1 outcome.now all.now.1 t.1) }
{
    let such = going_with(alloc, site, outcomes, outcome, inside, outside)?;
    either(alloc, all, &such)
}

// The tree that is true where packets of the outcomes go from the inside to the outside. The work is that of a few changes
// of the tree for each outcome.
fn going_out(
    alloc: Global,
    site: &Site,
    outcomes: &Tree<Outcome>,
    inside: &Ivs,
    outside: &Ivs,
) -> Result<Tree<bool>, Memory>
    requires tops { outcomes.now.0 ≡ tops_of site.now }
    requires inside { AreInside site.now inside.now }
    requires outside { AreOutside site.now outside.now }
    ensures tops { IfOk result (λ t. t.0 ≡ tops_of site.now) }
    ensures value { IfOk result (λ t. TellsGoing site.now outcomes.now.1 t.1) }
{
    let shared = outcomes.shared();
    let mut all = outcomes.relabel(alloc, &Never)?;
    for outcome in shared.leaves {
        all = with_going(alloc, site, &all, outcomes, outcome, inside, outside)?;
    }
    Ok(all)
}

// The tree that is true where new packets go from the inside to the outside.
fn outgoing(alloc: Global, site: &Site, tables: &Tables) -> Result<Tree<bool>, Memory>
    requires sound { IsSound site.now }
    requires regular { AreRegular site.now tables.now }
    ensures tops { IfOk result (λ t. t.0 ≡ tops_of site.now) }
    ensures value { IfOk result (λ t. TellsGoing site.now tables.now.fresh.1 t.1) }
{
    let inside = inside_entries(alloc, site)?;
    let outside = outside_set(alloc, site)?;
    let ends = tables.fresh.relabel(alloc, &Alone(Compared::Destinations))?;
    going_out(alloc, site, &ends, &inside, &outside)
}

/// The outcome with its source alone, where that counts, and else a drop.
struct SourceWhere;

impl Relabelling<(Outcome, bool), Outcome> for SourceWhere {
    ghost use Rattle.std.specs.Prelude.{if◌then◌else◌};
    ghost use Rattle.fws_net.specs.declared.outcome.Outcome.TheVariants.{Drop};
    ghost use Rattle.fws_place.specs.declared.one_end.Compared.TheVariants.{HostSources};
    ghost use Rattle.fws_place.specs.OneEnd.{alone};

    ghost gives = { λ s leaf. if leaf.1 then alone HostSources leaf.0 else Drop };

    fn leaf(&self, _alloc: Global, leaf: &(Outcome, bool)) -> Result<Outcome, Memory> {
        if !leaf.1 {
            return Ok(Outcome::Drop);
        }
        match &leaf.0 {
            Outcome::Drop => Ok(Outcome::Drop),
            Outcome::Accept(rewrite) => Ok(Outcome::Accept(end_alone(
                Compared::HostSources,
                *rewrite,
            ))),
        }
    }
}

/// The tree of the sources of new packets that go from the inside to the outside; the others are dropped. Fails if memory runs out.
/// The work is that of a few changes of the tree for each destination that is written.
pub(crate) fn outgoing_sources(
    alloc: Global,
    site: &Site,
    tables: &Tables,
) -> Result<Tree<Outcome>, Memory>
    requires sound { IsSound site.now }
    requires regular { AreRegular site.now tables.now }
    ensures tops { IfOk result (λ t. t.0 ≡ tops_of site.now) }
    ensures value { IfOk result (λ t. HasSources site.now tables.now t.1) }
{
    let out = outgoing(alloc, site, tables)?;
    let both = tables.fresh.pair(alloc, &out)?;
    both.relabel(alloc, &SourceWhere)
}
