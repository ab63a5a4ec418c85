//! Which packets are left out before code is executed for a query.
//!
//! It need not be all that aren't asked for, since the table is cut to these in the end. A side is worth a cut where rules test its
//! field: else the cut takes part in each step, and saves none. And each of its intervals takes part, so that a side of many is
//! taken whole from its least member to its greatest one.

ghost use Rattle.std.specs.Prelude.{◌≡◌, ℕ, List, true, IfOk};
ghost use Rattle.fws_box.specs.Sides.{sides_have};
ghost use Rattle.fws_iv.specs.Ivs.{has};
ghost use Rattle.fws_net.specs.Routes.{IsSound};

use fws_box::no_sides;
use fws_flat::Ins;
use fws_iv::Ivs;
use fws_net::{Site, Test, tops};
use fws_num::Memory;
use std::alloc::Global;

/// With how many intervals a side is kept at most.
const FEW: usize = 4;

/// Whether what becomes of packets may depend on the field with this number where the test is asked: one of an end sees it as it
/// entered, or as a connection sends it.
fn looks_at(test: &Test, field: usize) -> bool {
    match test {
        Test::Dport(_) => field == 3 || field == 9,
        Test::Src(_) => field == 4 || field == 10,
        Test::Sport(_) => field == 5 || field == 11,
        Test::Flags { .. } | Test::AnyFlag(_) => field == 6,
        Test::Icmp(_) => field == 7,
        _ => false,
    }
}

/// Whether a condition of the code may look at the field: each of the entry, the protocol and the destination counts, since packets are
/// routed.
fn code_looks_at(code: &[Ins], field: usize) -> bool {
    field < 3
        || field == 8
        || code.iter().any(|ins| ins.cond.lits().iter().any(|lit| looks_at(&lit.test, field)))
}

/// The members of the set and the numbers from `lo` to `hi`.
fn spanned(alloc: Global, set: &Ivs, lo: u32, hi: u32) -> Result<Ivs, Memory>
    ensures { IfOk result (λ s. (x : ℕ) → has set.now x ≡ true → has s x ≡ true) }
{
    if hi < lo {
        return set.copy(alloc);
    }
    set.with_range(alloc, lo, hi)
}

/// The set, or all numbers from its least to its greatest member where it has many intervals.
fn bounded(alloc: Global, set: &Ivs) -> Result<Ivs, Memory>
    ensures { IfOk result (λ s. (x : ℕ) → has set.now x ≡ true → has s x ≡ true) }
{
    let parts = set.parts();
    if parts.len() <= FEW {
        return set.copy(alloc);
    }
    spanned(alloc, set, parts[0].lo, parts[parts.len() - 1].hi)
}

/// What is executed of the side of a field, whose greatest value is `top`: all values where the code doesn't look at the field.
fn executed_side(alloc: Global, looks: bool, top: u32, set: &Ivs) -> Result<Ivs, Memory>
    ensures { IfOk result (λ s. (x : ℕ) → has set.now x ≡ true → has s x ≡ true) }
{
    if looks {
        bounded(alloc, set)
    } else {
        spanned(alloc, set, 0, top)
    }
}

/// Sides of the points that are executed for a query that asks for the points on these sides: all of these points, and others.
/// Fails if memory runs out.
pub(crate) fn executed_sides(
    alloc: Global,
    site: &Site,
    code: &[Ins],
    sides: &[Ivs; 12],
) -> Result<[Ivs; 12], Memory>
    requires { IsSound site.now }
    ensures { IfOk result (λ wider. (p : List ℕ) → sides_have sides.now p ≡ true → sides_have wider p ≡ true) }
{
    let tops = tops(site);
    let mut wider = no_sides(alloc);
    for k in 0..12 {
        let looks = code_looks_at(code, k);
        wider[k] = executed_side(alloc, looks, tops[k], &sides[k])?;
    }
    Ok(wider)
}
