//! The marks of a table of new packets.

ghost use Rattle.std.specs.Prelude.{◌≡◌, ℕ, true, Some, List, length, map, position, slice_get, IfOk, OnOk, All, nat_lt};
ghost use Rattle.std.specs.List.{list_any};
ghost use Rattle.fws_iv.specs.Ivs.{has};
ghost use Rattle.fws_iv.specs.Prefixes.{IsBlock, some_prefix_has};
ghost use Rattle.fws_ipt_put.specs.Gathered.{CoversAll, Extends, HaveRewrites, IsAmong, IsAmongThem, IsRewriteOf, TellsOfAll};
ghost use Rattle.fws_ipt_put.specs.Marks.{AreBlocks, AreMarks, FitsEnd, is_network, same_rewrite, writes};

use crate::blocks::blocks_of;
use crate::choices::writes;
use crate::marks::Mark;
use crate::telling::{Uses, uses_of};
use fws_iv::{Iv, Ivs};
use fws_net::{End, Outcome, Rewrite};
use fws_num::{Items, Memory, Prefix};
use fws_tree::{Row, Tree};
use indexmap::IndexSet;
use std::alloc::Global;

/// Puts the rewriting among the others, unless it is there. Fails if memory runs out.
fn put_rewrite(rewrites: &mut IndexSet<Rewrite>, rewrite: Rewrite) -> Result<(), Memory>
    ensures there { OnOk result (IsAmongThem rewrites.new.keys rewrite) }
    ensures extends { Extends rewrites.old.keys rewrites.new.keys }
{
    rewrites.insert_full(rewrite)?;
    Ok(())
}

/// Puts the rewriting of an outcome among the others, if it writes an end. Fails if memory runs out.
fn put_outcome(rewrites: &mut IndexSet<Rewrite>, outcome: Outcome) -> Result<(), Memory>
    ensures there { OnOk result (IsRewriteOf rewrites.new.keys outcome) }
    ensures extends { Extends rewrites.old.keys rewrites.new.keys }
{
    match outcome {
        Outcome::Drop => Ok(()),
        Outcome::Accept(rewrite) => {
            if writes(rewrite) {
                return put_rewrite(rewrites, rewrite);
            }
            Ok(())
        }
    }
}

/// The rewritings of the rows that write an end, each once. Fails if memory runs out.
pub(crate) fn rewrites_of(alloc: Global, rows: &[Row<Outcome>]) -> Result<IndexSet<Rewrite>, Memory>
    ensures { IfOk result (λ rewrites. HaveRewrites rewrites.keys rows.now) }
{
    let mut rewrites = IndexSet::new(alloc);
    for row in rows {
        put_outcome(&mut rewrites, row.leaf)?;
    }
    Ok(rewrites)
}

/// Whether there is another entry than the host's.
fn has_other(entries: &[Iv]) -> bool
    ensures { result ≡ list_any (λ part. nat_lt 0 part.hi) entries.now }
{
    entries.iter().any(|part| 0 < part.hi)
}

/// Blocks with all addresses of the set, if a network is written over these. Fails if memory runs out.
fn network_blocks(alloc: Global, end: Option<End>, set: &Ivs) -> Result<Items<Prefix>, Memory>
    ensures blocks { IfOk result (AreBlocks end) }
    ensures sound { IfOk result (All IsBlock) }
    ensures members { IfOk result (λ blocks. is_network end ≡ true → (v : ℕ) → has set.now v ≡ true → some_prefix_has blocks v ≡ true) }
    ensures fits { FitsEnd end }
{
    match end {
        None => Ok(Items::new(alloc)),
        Some(end) => {
            if end.len < 32 {
                return blocks_of(alloc, set, end.len);
            }
            Ok(Items::new(alloc))
        }
    }
}

/// What is known of the packets that get the rewriting, by what they have. Fails if memory runs out.
fn mark_of(alloc: Global, uses: &Uses, rewrite: Rewrite) -> Result<Mark, Memory>
    ensures rewrite { IfOk result (λ mark. mark.rewrite ≡ rewrite) }
    ensures tells { (rows : List (Row Outcome)) → CoversAll rewrite uses.now rows → IfOk result (TellsOfAll rows) }
{
    Ok(Mark {
        rewrite,
        tcp: uses.protos.has(6),
        udp: uses.protos.has(17),
        arrives: has_other(uses.entries.parts()),
        sends: uses.entries.has(0),
        dst_blocks: network_blocks(alloc, rewrite.dst, &uses.dsts)?,
        src_blocks: network_blocks(alloc, rewrite.src, &uses.srcs)?,
    })
}

/// What the packets have that get a rewriting among those.
fn uses_for<'a>(uses: &'a [Uses], rewrites: &IndexSet<Rewrite>, rewrite: Rewrite) -> &'a Uses
    requires size { length uses.now ≡ length rewrites.now.keys }
    requires there { IsAmong rewrites.now.keys rewrite }
    ensures { (i : ℕ) × (position (same_rewrite rewrite) rewrites.now.keys ≡ Some i) × (slice_get uses.now i ≡ Some result.now) }
{
    match rewrites.get_index_of(&rewrite) {
        Some(place) => &uses[place],
        None => unreachable!(),
    }
}

/// A mark for each of the rewritings, in their order. Fails if memory runs out.
pub(crate) fn marks_of(
    alloc: Global,
    rows: &[Row<Outcome>],
    rewrites: &IndexSet<Rewrite>,
) -> Result<Vec<Mark>, Memory>
    ensures rewrites { IfOk result (λ marks. map (λ mark. mark.rewrite) marks.items ≡ rewrites.now.keys) }
    ensures tell { IfOk result (λ marks. All (TellsOfAll rows.now) marks.items) }
{
    let uses = uses_of(alloc, rows, rewrites)?;
    let mut marks = Vec::new(alloc);
    for rewrite in rewrites.as_slice() {
        let used = uses_for(uses.as_slice(), rewrites, *rewrite);
        marks.push(mark_of(alloc, used, *rewrite)?)?;
    }
    Ok(marks)
}

/// Rewritings, and a mark for each of them.
#[derive(Drop)]
pub(crate) struct Marks {
    /// The rewritings.
    pub(crate) rewrites: IndexSet<Rewrite>,
    /// What is known of each.
    pub(crate) marks: Vec<Mark>,
}

/// The marks of the rewritings of a tree. Fails if memory runs out.
pub(crate) fn marks_for(alloc: Global, fresh: &Tree<Outcome>) -> Result<Marks, Memory>
    ensures { IfOk result (λ m. AreMarks fresh.now.0 fresh.now.1 m.rewrites.keys m.marks.items) }
{
    let rows = fresh.paths(alloc)?;
    let rewrites = rewrites_of(alloc, rows.as_slice())?;
    let marks = marks_of(alloc, rows.as_slice(), &rewrites)?;
    Ok(Marks { rewrites, marks })
}
