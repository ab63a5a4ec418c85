//! How tags tell the number of the end that is held: one tag for each of its bits.

ghost use Rattle.std.specs.Prelude.{◌≡◌, suc, ◌++◌, IfOk, OnOk};
ghost use Rattle.fws_pfo_ifcl.specs.Held.{bit_count, bits_of, telling, told};

use fws_ifcl::Act;
use fws_ifcl_rules::sum;
use fws_net::{Cond, Lit, Test};
use fws_num::Memory;
use std::alloc::Global;

/// How many bits a number has. Fails if memory runs out.
pub(crate) fn bit_count(n: usize) -> Result<usize, Memory>
    ensures { IfOk result (λ count. count ≡ bit_count n) }
{
    let mut count = 0;
    let mut left = n;
    while left > 0 {
        count = sum(count, 1)?;
        left = left / 2;
    }
    Ok(count)
}

/// The lowest bits of a number, so many, the lowest one first. Fails if memory runs out.
pub(crate) fn bits_of(alloc: Global, count: usize, n: usize) -> Result<Vec<bool>, Memory>
    ensures { IfOk result (λ bits. bits.items ≡ bits_of count n) }
{
    let mut bits = Vec::new(alloc);
    let mut left = n;
    for _i in 0..count {
        bits.push(left % 2 == 1)?;
        left = left / 2;
    }
    Ok(bits)
}

/// The tag behind another one. Fails if memory runs out.
fn next_tag(tag: u32) -> Result<u32, Memory>
    ensures { IfOk result (λ next. next ≡ suc tag) }
{
    tag.checked_add(1).ok_or(Memory)
}

/// Puts acts behind the others that make tags, of which the first is given, tell bits. Fails if memory runs out.
pub(crate) fn put_telling(acts: &mut Vec<Act>, first: u32, bits: &[bool]) -> Result<(), Memory>
    ensures { OnOk result (acts.new.items ≡ acts.old.items ++ telling first bits.now) }
{
    let mut tag = first;
    for bit in bits {
        acts.push(if *bit {
            Act::AddTag(tag)
        } else {
            Act::DelTag(tag)
        })?;
        tag = next_tag(tag)?;
    }
    Ok(())
}

/// The condition that tags, of which the first is given, tell just these bits. Fails if memory runs out.
pub(crate) fn told(alloc: Global, first: u32, bits: &[bool]) -> Result<Cond, Memory>
    ensures { IfOk result (λ cond. cond ≡ told first bits.now) }
{
    let mut cond = Cond::new(alloc);
    let mut tag = first;
    for bit in bits {
        cond.put(Lit {
            not: !*bit,
            test: Test::Tag(tag),
        })?;
        tag = next_tag(tag)?;
    }
    Ok(cond)
}
