//! How many rules statements make, and may make.

ghost use Rattle.std.specs.Prelude.{◌≡◌, ◌*◌, ℕ, min, IfOk};
ghost use Rattle.fws_pf.specs.Drawn.{expanded_with};
ghost use Rattle.fws_pf_words.specs.Limits.{place_size, within_limit};

use crate::lists::ItemList;
use fws_num::Memory;

/// How many conditions are told apart: 200,000 and more can still be counted.
const MOST_CONDITIONS: u64 = 400_000;

/// The product, where it is no more than 400,000, and else 400,000.
fn product(a: u64, b: u64) -> u64
    ensures { result ≡ min (a * b) 400000 }
{
    a.saturating_mul(b).min(MOST_CONDITIONS)
}

/// A product that is counted up to 400,000, as its factors may be.
pub fn times(a: u64, b: u64) -> u64
    ensures { (x y : ℕ) → min a 400000 ≡ min x 400000 → min b 400000 ≡ min y 400000 → result ≡ min (x * y) 400000 }
{
    product(a, b)
}

/// How many conditions the values of a place are.
pub fn place_size(items: &ItemList) -> u64
    ensures { result ≡ place_size items.now }
{
    (items.len() as u64).max(1)
}

/// The number, unless it is more than 200,000.
fn within_limit(count: u64) -> Option<u64>
    ensures { result ≡ within_limit count }
{
    if count > 200_000 { None } else { Some(count) }
}

/// How many rules statements make that make more than one, with one that makes so many, where these are counted up to
/// 400,000; none where they are more than 200,000.
#[tactic(auto, using(crate::proofs::Counts::sum_within, crate::proofs::Counts::alone_within))]
pub fn expanded_by(expanded: u64, count: u64) -> Option<u64>
    ensures { (n : ℕ) → count ≡ min n 400000 → result ≡ within_limit (expanded_with expanded n) }
{
    if count > 1 {
        within_limit(expanded.saturating_add(count))
    } else {
        within_limit(expanded)
    }
}

/// The rules of statements that make more than one, with those of this one. Where they pass 2^64 it fails as if memory ran out.
pub fn expanded_with(expanded: u64, count: usize) -> Result<u64, Memory>
    ensures { IfOk result (λ n. n ≡ expanded_with expanded count) }
{
    if count > 1 {
        expanded.checked_add(count as u64).ok_or(Memory)
    } else {
        Ok(expanded)
    }
}
