//! What the rows of the table of new packets tell of the packets that get a rewriting.

ghost use Rattle.std.specs.Prelude.{◌≡◌, length, IfOk, OnOk};
ghost use Rattle.fws_ipt_put.specs.Gathered.{AreUses, Covers, IsWithinSet, PutsRow};

use fws_box::Field;
use fws_iv::Ivs;
use fws_net::{Outcome, Rewrite};
use fws_num::Memory;
use fws_tree::Row;
use indexmap::IndexSet;
use std::alloc::Global;

/// Which entries, protocols, destinations and sources some packets have.
#[derive(Drop)]
pub struct Uses {
    /// The entries.
    pub entries: Ivs,
    /// The protocols.
    pub protos: Ivs,
    /// The destination addresses.
    pub dsts: Ivs,
    /// The source addresses.
    pub srcs: Ivs,
}

/// The sets with those of the row's sides. Fails if memory runs out.
fn with_row(alloc: Global, uses: &Uses, row: &Row<Outcome>) -> Result<Uses, Memory>
    ensures row { IfOk result (λ more. Covers more row.now) }
    ensures entries { IfOk result (λ more. IsWithinSet uses.now.entries more.entries) }
    ensures protos { IfOk result (λ more. IsWithinSet uses.now.protos more.protos) }
    ensures dsts { IfOk result (λ more. IsWithinSet uses.now.dsts more.dsts) }
    ensures srcs { IfOk result (λ more. IsWithinSet uses.now.srcs more.srcs) }
{
    let sides = &row.sides[..];
    prove_eq!(sides.len(), 12);
    Ok(Uses {
        entries: uses
            .entries
            .union(alloc, &row.sides[Field::Entry as usize])?,
        protos: uses.protos.union(alloc, &row.sides[Field::Proto as usize])?,
        dsts: uses.dsts.union(alloc, &row.sides[Field::Dst as usize])?,
        srcs: uses.srcs.union(alloc, &row.sides[Field::Src as usize])?,
    })
}

/// Puts what the row's packets have to what those of its rewriting have, if that is among the rewritings. Fails if memory runs out.
fn put_row(
    alloc: Global,
    uses: &mut Vec<Uses>,
    rewrites: &IndexSet<Rewrite>,
    row: &Row<Outcome>,
) -> Result<(), Memory>
    requires { length uses.old.items ≡ length rewrites.now.keys }
    ensures size { length uses.new.items ≡ length uses.old.items }
    ensures row { OnOk result (PutsRow rewrites.now.keys row.now uses.old.items uses.new.items) }
{
    let Outcome::Accept(rewrite) = row.leaf else {
        return Ok(());
    };
    let Some(place) = rewrites.get_index_of(&rewrite) else {
        return Ok(());
    };
    uses[place] = with_row(alloc, &uses[place], row)?;
    Ok(())
}

/// So many empty sets. Fails if memory runs out.
fn no_uses(alloc: Global, count: usize) -> Result<Vec<Uses>, Memory>
    ensures { IfOk result (λ uses. length uses.items ≡ count) }
{
    let mut uses = Vec::new(alloc);
    for _ in 0..count {
        uses.push(Uses {
            entries: Ivs::none(alloc),
            protos: Ivs::none(alloc),
            dsts: Ivs::none(alloc),
            srcs: Ivs::none(alloc),
        })?;
    }
    Ok(uses)
}

/// What the packets have that get each of the rewritings, by the rows of a table. Fails if memory runs out.
pub(crate) fn uses_of(
    alloc: Global,
    rows: &[Row<Outcome>],
    rewrites: &IndexSet<Rewrite>,
) -> Result<Vec<Uses>, Memory>
    ensures size { IfOk result (λ uses. length uses.items ≡ length rewrites.now.keys) }
    ensures uses { IfOk result (λ uses. AreUses rewrites.now.keys uses.items rows.now) }
{
    let mut uses = no_uses(alloc, rewrites.len())?;
    for row in rows {
        put_row(alloc, &mut uses, rewrites, row)?;
    }
    Ok(uses)
}
