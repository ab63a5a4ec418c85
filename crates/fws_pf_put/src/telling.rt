//! The sources that the rows of the table of new packets write, and the addresses over which they are written.

ghost use Rattle.std.specs.Prelude.{◌≡◌, Some, length, IfOk, OnOk};
ghost use Rattle.fws_pf_put.specs.Gathered.{AreSets, Covers, Extends, HaveSources, IsAmong, IsAmongIf, IsWithinSet, PutsRow, TellSources, source_of};

use crate::ends::Sources;
use fws_box::Field;
use fws_iv::Ivs;
use fws_net::{End, Outcome};
use fws_num::Memory;
use fws_tree::{Row, Tree};
use indexmap::IndexSet;
use std::alloc::Global;

/// The source that an outcome writes, if it does.
fn source_of(outcome: Outcome) -> Option<End>
    ensures { result ≡ source_of outcome }
{
    match outcome {
        Outcome::Drop => None,
        Outcome::Accept(rewrite) => rewrite.src,
    }
}

/// Puts the end among the others, unless it is there. Fails if memory runs out.
fn put_end(ends: &mut IndexSet<End>, end: End) -> Result<(), Memory>
    ensures there { OnOk result (IsAmong ends.new.keys end) }
    ensures extends { Extends ends.old.keys ends.new.keys }
{
    ends.insert_full(end)?;
    Ok(())
}

/// Puts the source of an outcome among the others, if it writes one. Fails if memory runs out.
fn put_source(ends: &mut IndexSet<End>, outcome: Outcome) -> Result<(), Memory>
    ensures there { OnOk result (IsAmongIf ends.new.keys (source_of outcome)) }
    ensures extends { Extends ends.old.keys ends.new.keys }
{
    match outcome {
        Outcome::Drop => Ok(()),
        Outcome::Accept(rewrite) => match rewrite.src {
            None => Ok(()),
            Some(end) => put_end(ends, end),
        },
    }
}

/// The sources that rows write, each once. Fails if memory runs out.
fn sources_in(alloc: Global, rows: &[Row<Outcome>]) -> Result<IndexSet<End>, Memory>
    ensures { IfOk result (λ ends. HaveSources ends.keys rows.now) }
{
    let mut ends = IndexSet::new(alloc);
    for row in rows {
        put_source(&mut ends, row.leaf)?;
    }
    Ok(ends)
}

/// The set with the sources of the row. Fails if memory runs out.
fn with_row(alloc: Global, set: &Ivs, row: &Row<Outcome>) -> Result<Ivs, Memory>
    ensures row { IfOk result (λ more. Covers more row.now) }
    ensures grows { IfOk result (λ more. IsWithinSet set.now more) }
{
    let sides = &row.sides[..];
    prove_eq!(sides.len(), 12);
    Ok(set.union(alloc, &row.sides[Field::Src as usize])?)
}

/// Puts the sources of a row to those over which its source is written, if it writes one among these. Fails if memory runs out.
fn put_row(
    alloc: Global,
    sets: &mut Vec<Ivs>,
    ends: &IndexSet<End>,
    row: &Row<Outcome>,
) -> Result<(), Memory>
    requires { length sets.old.items ≡ length ends.now.keys }
    ensures size { length sets.new.items ≡ length sets.old.items }
    ensures row { OnOk result (PutsRow ends.now.keys row.now sets.old.items sets.new.items) }
{
    let Some(end) = source_of(row.leaf) else {
        return Ok(());
    };
    let Some(place) = ends.get_index_of(&end) else {
        return Ok(());
    };
    sets[place] = with_row(alloc, &sets[place], row)?;
    Ok(())
}

/// So many empty sets. Fails if memory runs out.
fn no_sets(alloc: Global, count: usize) -> Result<Vec<Ivs>, Memory>
    ensures { IfOk result (λ sets. length sets.items ≡ count) }
{
    let mut sets = Vec::new(alloc);
    for _ in 0..count {
        sets.push(Ivs::none(alloc))?;
    }
    Ok(sets)
}

/// The addresses over which each of the sources is written, by the rows of a table. Fails if memory runs out.
fn sets_of(alloc: Global, rows: &[Row<Outcome>], ends: &IndexSet<End>) -> Result<Vec<Ivs>, Memory>
    ensures size { IfOk result (λ sets. length sets.items ≡ length ends.now.keys) }
    ensures sets { IfOk result (λ sets. AreSets ends.now.keys sets.items rows.now) }
{
    let mut sets = no_sets(alloc, ends.len())?;
    for row in rows {
        put_row(alloc, &mut sets, ends, row)?;
    }
    Ok(sets)
}

/// The sources that new packets get, and the addresses over which they are written. Fails if memory runs out.
pub(crate) fn sources_of(alloc: Global, fresh: &Tree<Outcome>) -> Result<Sources, Memory>
    ensures { IfOk result (λ s. TellSources fresh.now.0 fresh.now.1 s.ends.keys s.sets.items) }
{
    let rows = fresh.paths(alloc)?;
    let ends = sources_in(alloc, rows.as_slice())?;
    let sets = sets_of(alloc, rows.as_slice(), &ends)?;
    Ok(Sources { ends, sets })
}
