//! Lists of decisions, of which neighbours become one.

ghost use Rattle.std.specs.Prelude.{◌≡◌, List, ◌++◌, ◌∷◌, [], IfOk, IfSome, OnOk};
ghost use Rattle.fws_join.specs.declared.decision.Decision.{Decision as AnyDecision};
ghost use Rattle.fws_join.specs.Deciding.{StandsFor};
ghost use Rattle.fws_join.specs.Joined.{IsForLast};

use crate::decision::Decision;
use crate::two::joined_two;
use fws_num::Memory;
use std::alloc::Global;

// How often a list is gone through at most: each time a row of decisions that are joined is half as long.
const ROUNDS: u32 = 64;

/// One decision for the last one and this one, if there is one.
fn joined_with_last(
    alloc: Global,
    some: &[Decision],
    next: &Decision,
) -> Result<Option<Decision>, Memory>
    ensures { IfOk result (λ o. IfSome o (IsForLast some.now next.now)) }
{
    match some.split_last() {
        Some((last, _)) => joined_two(alloc, last, next),
        None => Ok(None),
    }
}

/// Puts a decision in the place of the last one.
fn put_last(all: &mut Vec<Decision>, one: Decision) -> Result<(), Memory>
    ensures { OnOk result ((ahead : List AnyDecision) (last : AnyDecision) → all.old.items ≡ ahead ++ last ∷ [] → all.new.items ≡ ahead ++ one ∷ []) }
{
    all.pop();
    all.push(one)?;
    Ok(())
}

/// Puts a decision behind the others, or one in the place of the last one that is for both, and tells whether it was put by itself.
fn put_next(
    alloc: Global,
    all: &mut Vec<Decision>,
    may_join: bool,
    next: Decision,
) -> Result<bool, Memory>
    ensures { OnOk result (StandsFor all.new.items (all.old.items ++ next ∷ [])) }
{
    if may_join {
        if let Some(one) = joined_with_last(alloc, all.as_slice(), &next)? {
            put_last(all, one)?;
            return Ok(false);
        }
    }
    all.push(next)?;
    Ok(true)
}

/// The decisions, of which two neighbours each are one where that can be.
fn joined_pairs(alloc: Global, all: Vec<Decision>) -> Result<Vec<Decision>, Memory>
    ensures { IfOk result (λ fewer. StandsFor fewer.items all.items) }
{
    let mut fewer = Vec::new(alloc);
    let mut is_single = false;
    for next in all {
        is_single = put_next(alloc, &mut fewer, is_single, next)?;
    }
    Ok(fewer)
}

/// Decisions that stand for these, fewer where neighbours can be joined. Fails if memory runs out.
pub(crate) fn joined(alloc: Global, all: Vec<Decision>) -> Result<Vec<Decision>, Memory>
    ensures { IfOk result (λ fewer. StandsFor fewer.items all.items) }
{
    let mut fewer = all;
    for _round in 0..ROUNDS {
        let count = fewer.len();
        fewer = joined_pairs(alloc, fewer)?;
        if fewer.len() == count {
            return Ok(fewer);
        }
    }
    Ok(fewer)
}
