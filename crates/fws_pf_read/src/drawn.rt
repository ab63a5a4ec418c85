//! What a rule asks for.

ghost use Rattle.std.specs.Prelude.{◌≡◌, List, [], ◌∷◌, ◌++◌, min, IfOk, OnOk, if◌then◌else◌};
ghost use Rattle.fws_pf.specs.declared.rule_draft.Choice.{Choice as AnyChoice};
ghost use Rattle.fws_pf.specs.Drawn.{choices, conditions, implied_flags, implies_flags, value_choices};
ghost use Rattle.fws_pf.specs.RuleText.{only};
ghost use Rattle.fws_pf_words.specs.Drawings.{drawn};
ghost use Rattle.fws_pf_words.specs.Tests.{test_at};
ghost use Rattle.fws_pf_read.specs.Places.{draft_count, with_places};
ghost use Rattle.fws_pf_read.specs.Views.{draft_of};

use crate::draft::{Draft, passes};
use fws_net::Cond;
use fws_num::{Items, Memory};
use fws_pf::Place;
use fws_pf_words::{Drawing, ItemList, Tables, implied_flags, place_size, times};
use std::alloc::Global;

/// Whether a rule is, of TCP, for the first packets of connections alone, since it keeps state and has no flags.
fn implies_flags(d: &Draft) -> bool
    ensures { result ≡ implies_flags (draft_of d.now) }
{
    passes(d.verb) && !d.stateless && !d.has_flags
}

/// Puts what a place asks for behind the rest, where stretches of its list come again.
fn put_unfolded(
    alloc: Global,
    tables: &Tables,
    place: Place,
    list: &ItemList,
    all: &mut Drawing,
) -> Result<(), Memory>
    ensures { OnOk result ((rest : List AnyChoice) → drawn all.new rest ≡ drawn all.old (value_choices tables.now (test_at place) list.now ++ rest)) }
{
    let items = list.to_items(alloc)?;
    all.put_values(alloc, tables, place, items.as_slice())
}

/// Puts what a place asks for behind the rest, if values stand at it.
fn put_place(
    alloc: Global,
    tables: &Tables,
    place: Place,
    list: &ItemList,
    all: &mut Drawing,
) -> Result<(), Memory>
    ensures { OnOk result ((rest : List AnyChoice) → drawn all.new rest ≡ drawn all.old (value_choices tables.now (test_at place) list.now ++ rest)) }
{
    match list.once() {
        Some(items) => all.put_values(alloc, tables, place, items),
        None => put_unfolded(alloc, tables, place, list, all),
    }
}

/// Puts the values of its places behind the rest.
fn put_places(alloc: Global, tables: &Tables, d: &Draft, all: &mut Drawing) -> Result<(), Memory>
    ensures { OnOk result ((rest : List AnyChoice) → drawn all.new rest ≡ drawn all.old (with_places tables.now (draft_of d.now) rest)) }
{
    put_place(alloc, tables, Place::On, &d.faces, all)?;
    put_place(alloc, tables, Place::Proto, &d.protocols, all)?;
    put_place(alloc, tables, Place::Source, &d.sources, all)?;
    put_place(alloc, tables, Place::SourcePort, &d.source_ports, all)?;
    put_place(alloc, tables, Place::Destination, &d.destinations, all)?;
    put_place(
        alloc,
        tables,
        Place::DestinationPort,
        &d.destination_ports,
        all,
    )?;
    Ok(())
}

/// Puts what a rule implies behind the rest.
fn put_implied(alloc: Global, d: &Draft, all: &mut Drawing) -> Result<(), Memory>
    ensures { OnOk result ((rest : List AnyChoice) → drawn all.new rest ≡ drawn all.old ((if implies_flags (draft_of d.now) then only implied_flags ∷ [] else []) ++ rest)) }
{
    if implies_flags(d) {
        all.put_cond(alloc, &implied_flags(alloc)?)?;
    }
    Ok(())
}

/// Puts what a rule asks for behind the rest, in the order of its words, and last what it implies.
fn put_choices(alloc: Global, tables: &Tables, d: &Draft, all: &mut Drawing) -> Result<(), Memory>
    ensures { OnOk result (drawn all.new [] ≡ drawn all.old (choices tables.now (draft_of d.now))) }
{
    put_places(alloc, tables, d, all)?;
    d.options.put_to(alloc, all)?;
    put_implied(alloc, d, all)?;
    Ok(())
}

/// The conditions of the rules for which a rule stands.
pub(crate) fn draft_conditions(
    alloc: Global,
    tables: &Tables,
    d: &Draft,
) -> Result<Items<Cond>, Memory>
    ensures { IfOk result (λ conds. conds ≡ conditions (choices tables.now (draft_of d.now))) }
{
    let mut all = Drawing::new(alloc);
    put_choices(alloc, tables, d, &mut all)?;
    all.into_conditions(alloc)
}

/// How many conditions a rule has, where they are no more than 400,000, and else 400,000.
pub(crate) fn draft_count(d: &Draft) -> u64
    ensures { result ≡ min (draft_count (draft_of d.now)) 400000 }
{
    let count = place_size(&d.faces);
    let count = times(count, place_size(&d.protocols));
    let count = times(count, place_size(&d.sources));
    let count = times(count, place_size(&d.source_ports));
    let count = times(count, place_size(&d.destinations));
    let count = times(count, place_size(&d.destination_ports));
    times(count, d.options.count())
}
