//! Checks of a whole rule (pf.conf(5) of OpenBSD).

ghost use Rattle.std.specs.Prelude.{◌≡◌, List, length, IfOk};
ghost use Rattle.std.specs.List.{list_any};
ghost use Rattle.fws_pf.specs.declared.tables.Table.{Table};
ghost use Rattle.fws_pfo.specs.Drawn.{ends_with, held_end, is_too_much, maps_too_many, rule_checks, same_end};
ghost use Rattle.fws_pfo_read.specs.Views.{draft_of};

use crate::draft::{Draft, is_outward};
use crate::made::held_end;
use fws_net::{Checks, End};
use fws_num::Memory;
use fws_pf_words::Tables;
use std::alloc::Global;

/// The most different ends of `pass` rules.
const MOST_ENDS: usize = 255;

/// Whether both are the same end.
fn is_same_end(a: End, b: End) -> bool
    ensures { result ≡ same_end a b }
{
    a == b
}

/// Whether the end is among others.
pub(crate) fn has_end(ends: &[End], end: End) -> bool
    ensures { result ≡ list_any (same_end end) ends.now }
{
    ends.iter().any(|each| is_same_end(end, *each))
}

/// How many different ends there are with the one that a rule holds.
fn end_count(ends: &[End], d: &Draft) -> usize
    ensures { result ≡ length (ends_with ends.now (draft_of d.now)) }
{
    match held_end(d) {
        Some(end) => {
            if has_end(ends, end) {
                ends.len()
            } else {
                ends.len() + 1
            }
        }
        None => ends.len(),
    }
}

/// Whether a network is mapped from other addresses than those of one network as large.
fn maps_too_many(alloc: Global, tables: &Tables, d: &Draft) -> Result<bool, Memory>
    ensures { IfOk result (λ b. b ≡ maps_too_many tables.now (draft_of d.now)) }
{
    match d.shared.target() {
        Some(target) => {
            if !target.is_mapped {
                return Ok(false);
            }
            let outward = is_outward(d.shared.way());
            let maps = d
                .shared
                .maps_blocks(alloc, tables, outward, target.net.len)?;
            Ok(!maps)
        }
        None => Ok(false),
    }
}

/// Whether there are too many rules of statements that make more than one, or too many different ends.
fn is_too_much(expanded: u64, ends: &[End], d: &Draft) -> bool
    ensures { (tables : List Table) → result ≡ is_too_much tables expanded ends.now (draft_of d.now) }
{
    d.shared.is_expanded(expanded) || end_count(ends, d) > MOST_ENDS
}

/// The checks of a whole rule, behind statements that made so many rules where they made more than one, and `pass` rules with these
/// ends. Fails if memory runs out.
pub(crate) fn rule_checks(
    alloc: Global,
    tables: &Tables,
    expanded: u64,
    ends: &[End],
    d: &Draft,
) -> Result<Checks, Memory>
    ensures { IfOk result (λ c. c ≡ rule_checks tables.now expanded ends.now (draft_of d.now)) }
{
    Ok(Checks {
        left_out: maps_too_many(alloc, tables, d)?,
        backward: false,
        shape: d.shared.lacks_protocol(),
        expand: is_too_much(expanded, ends, d),
    })
}
