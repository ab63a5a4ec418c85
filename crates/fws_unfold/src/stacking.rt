//! The code of a chain and of those that it enters. Chains that wait for another one lie on a stack.

ghost use Rattle.std.specs.Prelude.{◌≡◌, ◌<◌, ◌≤◌, ℕ, List, true, reverse, length, vec_len, IfOk, OnOk};
ghost use Rattle.std.specs.List.{list_all};
ghost use Rattle.fws_ifcl.specs.Loops.{NoLoop, NamesChains};
ghost use Rattle.fws_ifcl.specs.Soundness.{chain_ok};
ghost use Rattle.fws_ifcl.specs.Walk.{rules_at};
ghost use Rattle.fws_unfold.specs.declared.draft.Draft.{Draft};
ghost use Rattle.fws_unfold.specs.Drafts.{Does, walk_of};
ghost use Rattle.fws_unfold.specs.Used.{Uses, used_of};
ghost use Rattle.fws_unfold.specs.Stacks.{frames_of, IsEven};
ghost use Rattle.fws_unfold.specs.Frames.{Begun, IsWhole, Waits, Waiting, StepIs, TurnIs, Somewhere};

use crate::draft::Draft;
use crate::emitting::{
    call_of, place_of, plain_act, put_end, put_guard, put_rule, rules_at, start_of,
};
use crate::frame::{Frame, Stepped};
use crate::stack::Stack;
use fws_ifcl::{Chain, uses_unfold, walks_unfold};
use fws_num::{Items, Memory};
use std::alloc::Global;

/// Begins chain `c` before the code. Behind its end the walk goes on where `back` instructions stand.
fn begin(
    alloc: Global,
    chains: &[Chain],
    out: &mut Vec<Draft>,
    c: u32,
    back: usize,
) -> Result<Frame, Memory>
    requires chain { c < length chains.now }
    requires low { back ≤ vec_len out.old }
    ensures { IfOk result (λ frame. Begun chains.now frame (reverse out.new.items) c back (reverse out.old.items)) }
{
    put_end(alloc, out, back)?;
    let rules = rules_at(chains, c as usize);
    Ok(Frame {
        chain: c,
        back,
        left: rules.len(),
        starts: Items::new(alloc),
        next: 0,
    })
}

/// Puts the last rule of a frame that isn't put yet before the code, or begins the chain that it enters.
fn step(
    alloc: Global,
    chains: &[Chain],
    out: &mut Vec<Draft>,
    mut frame: Frame,
) -> Result<Stepped, Memory>
    requires named { NamesChains chains.now }
    requires acyclic { NoLoop chains.now }
    requires sound { list_all (chain_ok (length chains.now)) chains.now ≡ true }
    requires within { frame.left ≤ length (rules_at chains.now frame.chain) }
    requires low { frame.back ≤ vec_len out.old }
    ensures { IfOk result (λ stepped. (c back : ℕ) (old : List Draft) → Begun chains.now frame (reverse out.old.items) c back old → StepIs chains.now stepped (reverse out.new.items) c back old) }
{
    walks_unfold();
    uses_unfold();
    if frame.left == 0 {
        return Ok(Stepped::Whole);
    }
    let rules = rules_at(chains, frame.chain as usize);
    let i = frame.left - 1;
    let rule = &rules[i];
    let next = out.len();
    match call_of(rule.act, next, frame.back) {
        None => {
            let at = place_of(frame.chain, i)?;
            frame.starts.put(next)?;
            let skip = start_of(frame.starts.as_slice(), rules.len(), rule.act);
            put_rule(alloc, out, rule, at, plain_act(rule.act, frame.back, skip))?;
            frame.left = i;
            Ok(Stepped::Onwards(frame))
        }
        Some((d, far)) => {
            let entered = begin(alloc, chains, out, d, far)?;
            frame.next = next;
            Ok(Stepped::Entered(frame, entered))
        }
    }
}

/// Puts the rule for which a frame waits: the chain that it enters is put before the code.
fn leave(
    alloc: Global,
    chains: &[Chain],
    out: &mut Vec<Draft>,
    mut frame: Frame,
) -> Result<Frame, Memory>
    requires some { 0 < frame.left }
    requires within { frame.left ≤ length (rules_at chains.now frame.chain) }
    ensures { IfOk result (λ f. (c back : ℕ) (old : List Draft) → Waits chains.now (IsWhole chains.now (reverse out.old.items)) frame c back old → Begun chains.now f (reverse out.new.items) c back old) }
{
    let rules = rules_at(chains, frame.chain as usize);
    let i = frame.left - 1;
    let rule = &rules[i];
    let at = place_of(frame.chain, i)?;
    put_guard(alloc, out, rule, at, frame.next)?;
    frame.starts.put(frame.next)?;
    frame.left = i;
    Ok(frame)
}

/// Goes one step on with a frame for which those of the stack wait, and gives the one that comes next; none where the
/// whole chain of the first one is put.
fn turn(
    alloc: Global,
    chains: &[Chain],
    out: &mut Vec<Draft>,
    stack: &mut Stack,
    frame: Frame,
) -> Result<Option<Frame>, Memory>
    requires named { NamesChains chains.now }
    requires acyclic { NoLoop chains.now }
    requires sound { list_all (chain_ok (length chains.now)) chains.now ≡ true }
    requires even { IsEven stack.old }
    requires waiting { Somewhere (Waiting chains.now (Begun chains.now frame (reverse out.old.items)) (frames_of stack.old)) }
    ensures even { OnOk result (IsEven stack.new) }
    ensures turned { IfOk result (λ next. (c back : ℕ) (old : List Draft) → Waiting chains.now (Begun chains.now frame (reverse out.old.items)) (frames_of stack.old) c back old → TurnIs chains.now next (frames_of stack.new) (reverse out.new.items) c back old) }
{
    match step(alloc, chains, out, frame)? {
        Stepped::Onwards(frame) => Ok(Some(frame)),
        Stepped::Entered(frame, entered) => {
            stack.push(frame)?;
            Ok(Some(entered))
        }
        Stepped::Whole => match stack.pop() {
            None => Ok(None),
            Some(frame) => {
                let next = leave(alloc, chains, out, frame)?;
                Ok(Some(next))
            }
        },
    }
}

/// Goes on from a frame for which those of the stack wait, until the whole chain of the first one is put.
fn put_frames(
    alloc: Global,
    chains: &[Chain],
    out: &mut Vec<Draft>,
    stack: &mut Stack,
    frame: Frame,
) -> Result<(), Memory>
    requires named { NamesChains chains.now }
    requires acyclic { NoLoop chains.now }
    requires sound { list_all (chain_ok (length chains.now)) chains.now ≡ true }
    requires even { IsEven stack.old }
    requires waiting { Somewhere (Waiting chains.now (Begun chains.now frame (reverse out.old.items)) (frames_of stack.old)) }
    ensures { OnOk result ((c back : ℕ) (old : List Draft) → Waiting chains.now (Begun chains.now frame (reverse out.old.items)) (frames_of stack.old) c back old → IsWhole chains.now (reverse out.new.items) c back old) }
{
    let mut now = frame;
    for _turn in 0..u64::MAX {
        match turn(alloc, chains, out, stack, now)? {
            Some(next) => now = next,
            None => return Ok(()),
        }
    }
    Err(Memory)
}

/// Puts the code of chain `c` before what is there. Behind its end the walk goes on where `back`
/// instructions stand.
pub(crate) fn put_chain(
    alloc: Global,
    chains: &[Chain],
    out: &mut Vec<Draft>,
    c: u32,
    back: usize,
) -> Result<(), Memory>
    requires named { NamesChains chains.now }
    requires acyclic { NoLoop chains.now }
    requires sound { list_all (chain_ok (length chains.now)) chains.now ≡ true }
    requires chain { c < length chains.now }
    requires low { back ≤ vec_len out.old }
    ensures does { OnOk result (Does (λ s. walk_of chains.now s c) back (reverse out.old.items) (reverse out.new.items)) }
    ensures uses { OnOk result (Uses (λ s. used_of chains.now s c) (λ s. walk_of chains.now s c) back (reverse out.old.items) (reverse out.new.items)) }
{
    let frame = begin(alloc, chains, out, c, back)?;
    let mut stack = Stack::new(alloc);
    put_frames(alloc, chains, out, &mut stack, frame)
}
