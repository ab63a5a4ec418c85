//! The code of the chains of stages: each of them is put into the code once.

ghost use Rattle.std.specs.Prelude.{◌≡◌, ◌<◌, true, false, [], length, map, IfOk, OnOk};
ghost use Rattle.std.specs.List.{list_all};
ghost use Rattle.fws_ifcl.specs.Loops.{NoLoop, NamesChains};
ghost use Rattle.fws_ifcl.specs.Refusals.{is_staged};
ghost use Rattle.fws_ifcl.specs.Soundness.{chain_ok};
ghost use Rattle.fws_unfold.specs.Blocks.{IsBlock, IsLonger, AreBlocks, part_of, parts_of, span_at};
ghost use Rattle.fws_unfold.specs.Told.{AreMore, IsToldBlock, AreToldBlocks};

use crate::placing::{Span, place_all};
use crate::refusing::is_staged;
use crate::stacking::put_chain;
use fws_flat::{Ins, Part};
use fws_ifcl::{Chain, Ifcl, Place, Stage};
use fws_num::{Items, Memory};
use std::alloc::Global;

/// A place of the code.
fn place(n: usize) -> Result<u32, Memory>
    ensures { IfOk result (λ k. k ≡ n) }
{
    u32::try_from(n).map_err(|_| Memory)
}

/// Appends the code of chain `c`, and the rules that its instructions stand for.
fn put_block(
    alloc: Global,
    chains: &[Chain],
    c: u32,
    code: &mut Vec<Ins>,
    rules: &mut Vec<Option<Place>>,
) -> Result<Span, Memory>
    requires named { NamesChains chains.now }
    requires acyclic { NoLoop chains.now }
    requires sound { list_all (chain_ok (length chains.now)) chains.now ≡ true }
    requires chain { c < length chains.now }
    requires even { length rules.old.items ≡ length code.old.items }
    ensures block { IfOk result (λ span. IsBlock chains.now code.new.items c span) }
    ensures tells { IfOk result (λ span. IsToldBlock chains.now code.new.items rules.new.items c span) }
    ensures longer { OnOk result (IsLonger code.old.items code.new.items) }
    ensures more { OnOk result (AreMore rules.old.items rules.new.items) }
    ensures even { OnOk result (length rules.new.items ≡ length code.new.items) }
{
    let mut drafts = Vec::new(alloc);
    put_chain(alloc, chains, &mut drafts, c, 0)?;
    let first = place(code.len())?;
    let size = place(drafts.len())?;
    let Some(past) = first.checked_add(size) else {
        return Err(Memory);
    };
    place_all(code, rules, drafts, past)?;
    Ok(Span { first, past })
}

/// Appends the code of chain `c`, if it is one of a stage.
#[tactic(auto, using(crate::proofs::Flattened::longer_same, crate::proofs::FlattenedUsed::more_same))]
fn put_staged(
    alloc: Global,
    f: &Ifcl,
    c: usize,
    code: &mut Vec<Ins>,
    rules: &mut Vec<Option<Place>>,
) -> Result<Span, Memory>
    requires named { NamesChains f.now.chains }
    requires acyclic { NoLoop f.now.chains }
    requires sound { list_all (chain_ok (length f.now.chains)) f.now.chains ≡ true }
    requires chain { c < length f.now.chains }
    requires even { length rules.old.items ≡ length code.old.items }
    ensures block { IfOk result (λ span. is_staged f.now c ≡ true → IsBlock f.now.chains code.new.items c span) }
    ensures tells { IfOk result (λ span. is_staged f.now c ≡ true → IsToldBlock f.now.chains code.new.items rules.new.items c span) }
    ensures longer { OnOk result (IsLonger code.old.items code.new.items) }
    ensures more { OnOk result (AreMore rules.old.items rules.new.items) }
    ensures even { OnOk result (length rules.new.items ≡ length code.new.items) }
{
    if !is_staged(f, c) {
        return Ok(Span { first: 0, past: 0 });
    }
    let chain = place(c)?;
    let span = put_block(alloc, f.chains.as_slice(), chain, code, rules)?;
    Ok(span)
}

/// Appends the code of each chain of a stage, and gives the spans of the chains.
pub(crate) fn put_blocks(
    alloc: Global,
    f: &Ifcl,
    code: &mut Vec<Ins>,
    rules: &mut Vec<Option<Place>>,
) -> Result<Vec<Span>, Memory>
    requires named { NamesChains f.now.chains }
    requires acyclic { NoLoop f.now.chains }
    requires sound { list_all (chain_ok (length f.now.chains)) f.now.chains ≡ true }
    requires none { code.old.items ≡ [] }
    requires none_told { rules.old.items ≡ [] }
    ensures tells { IfOk result (λ spans. AreToldBlocks f.now code.new.items rules.new.items spans.items) }
    ensures even { OnOk result (length rules.new.items ≡ length code.new.items) }
    ensures blocks { IfOk result (λ spans. AreBlocks f.now code.new.items spans.items) }
    ensures all { IfOk result (λ spans. length spans.items ≡ length f.now.chains) }
{
    let mut spans = Vec::new(alloc);
    for c in 0..f.chains.len() {
        let span = put_staged(alloc, f, c, code, rules)?;
        spans.push(span)?;
    }
    Ok(spans)
}

/// The span of a chain's code; none of the code past the end.
fn span_at(spans: &[Span], c: usize) -> Span
    ensures { result ≡ span_at spans.now c }
{
    spans.get(c).copied().unwrap_or(Span { first: 0, past: 0 })
}

/// The part of a stage whose chain's code has this span.
fn part_of(span: Span, stage: &Stage) -> Part
    ensures { result ≡ part_of span stage.now }
{
    Part {
        first: span.first,
        past: span.past,
        shows_recv: stage.shows_recv,
        shows_xmit: stage.shows_xmit,
        outward: stage.outward,
        end: stage.end,
    }
}

/// The parts of stages.
pub(crate) fn parts_of(
    alloc: Global,
    spans: &[Span],
    stages: &[Stage],
) -> Result<Items<Part>, Memory>
    ensures { IfOk result (λ parts. parts ≡ parts_of spans.now stages.now) }
{
    let mut parts = Items::new(alloc);
    for stage in stages {
        parts.put(part_of(span_at(spans, stage.chain as usize), stage))?;
    }
    Ok(parts)
}
