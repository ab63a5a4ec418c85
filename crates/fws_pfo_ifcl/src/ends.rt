//! The ends that rules hold, and their numbers.

ghost use Rattle.std.specs.Prelude.{◌≡◌, [], IfOk, OnOk};
ghost use Rattle.std.specs.List.{list_any};
ghost use Rattle.fws_pf.specs.Walk.{is_met};
ghost use Rattle.fws_pfo_ifcl.specs.Ends.{end_held, end_of, gathered, number_of, place_of, same_end, with_end};

use fws_net::End;
use fws_num::{Items, Memory};
use fws_pfo::{PfoKind, PfoRule, Way};
use std::alloc::Global;

/// Whether a rule is met on the pass.
pub(crate) fn is_met(way: Way, outward: bool) -> bool
    ensures { result ≡ is_met way outward }
{
    match way {
        Way::Both => true,
        Way::Inward => !outward,
        Way::Outward => outward,
    }
}

/// The end that a rule of the kind holds for the packets that it passes.
fn end_held(kind: PfoKind, to: Option<End>) -> Option<End>
    ensures { result ≡ end_held kind to }
{
    match kind {
        PfoKind::Pass => to,
        PfoKind::Block => None,
        PfoKind::Match => None,
    }
}

/// The end that a rule holds on the pass for the rules behind it.
pub(crate) fn end_of(outward: bool, rule: &PfoRule) -> Option<End>
    ensures { result ≡ end_of outward rule.now }
{
    if is_met(rule.way, outward) && !rule.quick {
        end_held(rule.kind, rule.to)
    } else {
        None
    }
}

/// Whether both ends are the same.
pub(crate) fn is_same_end(a: End, b: End) -> bool
    ensures { result ≡ same_end a b }
{
    a == b
}

/// Whether the end is among others.
fn is_among(ends: &[End], end: End) -> bool
    ensures { result ≡ list_any (same_end end) ends.now }
{
    ends.iter().any(|each| is_same_end(end, *each))
}

/// Puts the end behind the others, if there is one that isn't among them. Fails if memory runs out.
fn put_end(ends: &mut Items<End>, end: Option<End>) -> Result<(), Memory>
    ensures { OnOk result (ends.new ≡ with_end ends.old end) }
{
    match end {
        None => Ok(()),
        Some(end) => {
            if is_among(ends.as_slice(), end) {
                return Ok(());
            }
            ends.put(end)
        }
    }
}

/// The ends that rules hold on the pass, each once. Fails if memory runs out.
pub(crate) fn gathered(
    alloc: Global,
    outward: bool,
    rules: &[PfoRule],
) -> Result<Items<End>, Memory>
    ensures { IfOk result (λ ends. ends ≡ gathered outward [] rules.now) }
{
    let mut ends = Items::new(alloc);
    for rule in rules {
        put_end(&mut ends, end_of(outward, rule))?;
    }
    Ok(ends)
}

/// The place of an end among others, or the one behind them.
fn place_of(ends: &[End], end: End) -> usize
    ensures { result ≡ place_of ends.now end }
{
    for i in 0..ends.len() {
        if is_same_end(end, ends[i]) {
            return i;
        }
    }
    ends.len()
}

/// The number of an end, counted from 1, or of none, which is 0. Fails if memory runs out.
pub(crate) fn number_of(ends: &[End], end: Option<End>) -> Result<usize, Memory>
    ensures { IfOk result (λ n. n ≡ number_of ends.now end) }
{
    match end {
        None => Ok(0),
        Some(end) => place_of(ends, end).checked_add(1).ok_or(Memory),
    }
}
