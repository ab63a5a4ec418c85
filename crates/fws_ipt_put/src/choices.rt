//! What is decided in place of what trees hold.

ghost use Rattle.std.specs.Prelude.{◌≡◌, ◌+◌, ◌<◌, ◌^◌, ℕ, Bool, true, List, Some, length, slice_get, IfOk, OnOk, All};
ghost use Rattle.fws_box.specs.Sides.{IsWithin};
ghost use Rattle.fws_tree.specs.Plain.{value};
ghost use Rattle.fws_tree_seen.specs.SightLaws.{HasImages};
ghost use Rattle.fws_ipt_put.specs.Marks.{mark_at, marked, passing, verdict_of, writes};

use fws_ipt_put_chains::Verdict;
use fws_net::{Outcome, Rewrite};
use fws_num::Memory;
use fws_place::Views;
use fws_tree::{Relabelling, Tree};
use indexmap::IndexSet;
use std::alloc::Global;

/// Whether an end is written.
pub(crate) fn writes(rewrite: Rewrite) -> bool
    ensures { result ≡ writes rewrite }
{
    rewrite.src.is_some() || rewrite.dst.is_some()
}

/// What is true passes, and what is false is dropped.
#[derive(Drop)]
pub(crate) struct ByTruth;

impl Relabelling<bool, Verdict> for ByTruth {
    ghost use Rattle.fws_ipt_put.specs.Marks.{passing};

    ghost gives = { λ s b. passing b };

    fn leaf(&self, _alloc: Global, leaf: &bool) -> Result<Verdict, Memory> {
        Ok(if *leaf {
            Verdict::Accept
        } else {
            Verdict::Drop
        })
    }
}

/// The mark of the rewriting at a place. An error is a number too large for a mark.
fn numbered(place: usize) -> Result<Verdict, Memory>
    ensures { IfOk result (λ verdict. verdict ≡ Verdict.Mark (mark_at place)) }
{
    match u32::try_from(place) {
        Err(_) => Err(Memory),
        Ok(place) => match place.checked_add(5) {
            Some(mark) => Ok(Verdict::Mark(mark)),
            None => Err(Memory),
        },
    }
}

/// The mark of a rewriting among those that have one; what has none is dropped. An error is a number too
/// large for a mark.
fn marked(rewrites: &IndexSet<Rewrite>, rewrite: Rewrite) -> Result<Verdict, Memory>
    ensures { IfOk result (λ verdict. verdict ≡ marked rewrites.now.keys rewrite) }
{
    match rewrites.get_index_of(&rewrite) {
        None => Ok(Verdict::Drop),
        Some(place) => numbered(place),
    }
}

/// What is dropped is dropped, and what is rewritten gets the mark of its rewriting.
#[derive(Drop)]
pub(crate) struct ByMark<'a> {
    /// The rewritings that have a mark.
    pub(crate) rewrites: &'a IndexSet<Rewrite>,
}

impl Relabelling<Outcome, Verdict> for ByMark<'_> {
    ghost use Rattle.fws_ipt_put.specs.Marks.{verdict_of};

    ghost gives = { λ s o. verdict_of s.rewrites.now.keys o };

    fn leaf(&self, _alloc: Global, leaf: &Outcome) -> Result<Verdict, Memory> {
        match leaf {
            Outcome::Drop => Ok(Verdict::Drop),
            Outcome::Accept(rewrite) => {
                if writes(*rewrite) {
                    marked(self.rewrites, *rewrite)
                } else {
                    Ok(Verdict::Accept)
                }
            }
        }
    }
}

/// Trees that hold what is decided.
#[derive(Drop)]
pub(crate) struct Decisions {
    /// On packets of connections as they enter.
    pub(crate) entering: Tree<Verdict>,
    /// On new packets.
    pub(crate) news: Tree<Verdict>,
    /// On packets of connections behind routing.
    pub(crate) routed: Tree<Verdict>,
}

/// The trees of what is decided on packets of connections: as they enter, and behind routing. Fails if memory runs out.
fn seen_labelled(alloc: Global, views: &Views) -> Result<(Tree<Verdict>, Tree<Verdict>), Memory>
    ensures entering_tops { IfOk result (λ l. l.0.0 ≡ views.now.packet.0) }
    ensures routed_tops { IfOk result (λ l. l.1.0 ≡ views.now.behind.0) }
    ensures entering { IfOk result (λ l. HasImages views.now.packet.0 passing views.now.packet.1 l.0.1) }
    ensures routed { IfOk result (λ l. HasImages views.now.behind.0 passing views.now.behind.1 l.1.1) }
{
    let entering = views.packet.relabel(alloc, &ByTruth)?;
    let routed = views.behind.relabel(alloc, &ByTruth)?;
    Ok((entering, routed))
}

/// A tree that isn't wanted any more.
fn dismiss(_tree: Tree<Verdict>) {}

/// The trees of what is decided, by what rules see of established packets and by the table of new ones. Fails if memory runs out.
pub(crate) fn labelled(
    alloc: Global,
    fresh: &Tree<Outcome>,
    views: &Views,
    rewrites: &IndexSet<Rewrite>,
) -> Result<Decisions, Memory>
    ensures entering_tops { IfOk result (λ l. l.entering.0 ≡ views.now.packet.0) }
    ensures news_tops { IfOk result (λ l. l.news.0 ≡ fresh.now.0) }
    ensures routed_tops { IfOk result (λ l. l.routed.0 ≡ views.now.behind.0) }
    ensures entering { IfOk result (λ l. HasImages views.now.packet.0 passing views.now.packet.1 l.entering.1) }
    ensures news { IfOk result (λ l. HasImages fresh.now.0 (verdict_of rewrites.now.keys) fresh.now.1 l.news.1) }
    ensures routed { IfOk result (λ l. HasImages views.now.behind.0 passing views.now.behind.1 l.routed.1) }
{
    let by_mark = ByMark { rewrites };
    let news = fresh.relabel(alloc, &by_mark)?;
    match seen_labelled(alloc, views) {
        Ok((entering, routed)) => Ok(Decisions {
            entering,
            news,
            routed,
        }),
        Err(fault) => {
            dismiss(news);
            Err(fault)
        }
    }
}
