//! The ends that new packets get, each once.

ghost use Rattle.std.specs.Prelude.{◌≡◌, ◌+◌, ◌≤◌, ℕ, Some, length, IfOk, OnOk, All, slice_get};
ghost use Rattle.std.specs.List.{IsDistinct};
ghost use Rattle.fws_ipfw_put.specs.Layout.{same_end};
ghost use Rattle.fws_ipfw_put.specs.Ends.{Extends, FitsEnd, HasSources, HaveDestinations, HaveSources, IsAmong, IsSourceOf};

use fws_net::{End, Outcome};
use fws_num::Memory;
use fws_place::Redirect;
use fws_tree::{Row, Tree};
use indexmap::IndexSet;
use std::alloc::Global;

/// Puts the end among the others, unless it is there. Fails if memory runs out.
fn put_end(ends: &mut IndexSet<End>, end: End) -> Result<(), Memory>
    ensures there { OnOk result (IsAmong ends.new.keys end) }
    ensures extends { Extends ends.old.keys ends.new.keys }
    ensures few { length ends.new.keys ≤ length ends.old.keys + 1 }
    ensures fits { FitsEnd end }
{
    ends.insert_full(end)?;
    Ok(())
}

/// Puts the source of an outcome among the others, if it writes one. Fails if memory runs out.
fn put_source(ends: &mut IndexSet<End>, outcome: Outcome) -> Result<(), Memory>
    ensures there { OnOk result (IsSourceOf ends.new.keys outcome) }
    ensures extends { Extends ends.old.keys ends.new.keys }
{
    match outcome {
        Outcome::Drop => Ok(()),
        Outcome::Accept(rewrite) => match rewrite.src {
            None => Ok(()),
            Some(end) => put_end(ends, end),
        },
    }
}

/// The sources that rows write. Fails if memory runs out.
fn sources_in(alloc: Global, rows: &[Row<Outcome>]) -> Result<IndexSet<End>, Memory>
    ensures { IfOk result (λ ends. HaveSources ends.keys rows.now) }
{
    let mut ends = IndexSet::new(alloc);
    for row in rows {
        put_source(&mut ends, row.leaf)?;
    }
    Ok(ends)
}

/// The sources that new packets get. Fails if memory runs out.
pub(crate) fn sources_of(alloc: Global, fresh: &Tree<Outcome>) -> Result<IndexSet<End>, Memory>
    ensures { IfOk result (λ ends. HasSources fresh.now.0 fresh.now.1 ends.keys) }
{
    let rows = fresh.paths(alloc)?;
    let ends = sources_in(alloc, rows.as_slice())?;
    Ok(ends)
}

/// The destinations of redirects. Fails if memory runs out.
pub(crate) fn destinations_of(
    alloc: Global,
    redirects: &[Redirect],
) -> Result<IndexSet<End>, Memory>
    ensures have { IfOk result (λ ends. HaveDestinations ends.keys redirects.now) }
    ensures few { IfOk result (λ ends. length ends.keys ≤ length redirects.now) }
    ensures fit { IfOk result (λ ends. All (λ r. FitsEnd r.local) redirects.now) }
    ensures different { IfOk result (λ ends. IsDistinct same_end ends.keys) }
{
    let mut ends = IndexSet::new(alloc);
    for redirect in redirects {
        put_end(&mut ends, redirect.local)?;
    }
    let _count = ends.len();
    Ok(ends)
}
