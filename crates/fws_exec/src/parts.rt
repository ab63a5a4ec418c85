//! Execution of packets in parts, by their sources.
//!
//! Where many instructions put a tag each by the source, and many others ask for a tag and for a destination, each destination has a
//! node of the canvas with a piece for each class that still waits until its tag is asked for: as many pieces as tags times
//! destinations. Packets of some of the sources stand in few classes. So the sources are cut into parts, each is executed by itself,
//! and the trees are joined by halves. Where the sources are cut is a hint: any cuts give the same tree.

ghost use Rattle.std.specs.Prelude.{◌≡◌, ◌&&◌, ℕ, List, true, not, Some, get_or, if◌then◌else◌, IfOk};
ghost use Rattle.fws_box.specs.Sides.{IsWithin, sides_have};
ghost use Rattle.fws_iv.specs.Ivs.{has};
ghost use Rattle.fws_net.specs.declared.outcome.Outcome.{Outcome as AnyOutcome};
ghost use Rattle.fws_net.specs.declared.outcome.Outcome.TheVariants.{Drop};
ghost use Rattle.fws_net.specs.Points.{packet_of, tops_of};
ghost use Rattle.fws_net.specs.Routes.{IsSound};
ghost use Rattle.fws_flat.specs.Soundness.{flat_ok};
ghost use Rattle.fws_flat.specs.Walk.{means};
ghost use Rattle.fws_tree.specs.Plain.{IsReduced, value};
ghost use Rattle.fws_exec.specs.Classes.{kind_of};
ghost use Rattle.fws_exec.specs.Parts.{either};

use crate::execution::execute_code;
use fws_box::copy_sides;
use fws_flat::{Flat, FlatAct, Ins};
use fws_iv::{Ivs, one};
use fws_net::{Lit, Outcome, Site, State, Test};
use fws_num::Memory;
use fws_tree::{Relabelling, Tree};
use std::alloc::Global;

/// Packets are executed in parts from this number of sources with a tag each on, where more instructions than this number ask for a tag
/// and for a destination.
const MANY: usize = 256;

/// How many sources with a tag each lie in a part.
const PART: usize = 48;

/// What is executed.
#[derive(Clone, Copy)]
pub(crate) struct Job<'a> {
    /// The code, which stands in the place of the code of `f`.
    pub code: &'a [Ins],
    /// The way on which packets meet it.
    pub f: &'a Flat,
    /// The site.
    pub site: &'a Site,
    /// Whether packets belong to tracked connections.
    pub state: State,
}

/// Of two outcomes the second where the first is to drop.
#[derive(Drop)]
struct Either;

impl Relabelling<(Outcome, Outcome), Outcome> for Either {
    ghost use Rattle.fws_exec.specs.Parts.{either};

    ghost gives = { λ s leaf. either leaf.0 leaf.1 };

    fn leaf(&self, _alloc: Global, leaf: &(Outcome, Outcome)) -> Result<Outcome, Memory> {
        match leaf.0 {
            Outcome::Drop => Ok(leaf.1),
            Outcome::Accept(rewrite) => Ok(Outcome::Accept(rewrite)),
        }
    }
}

/// Whether the act puts a tag. Nothing hangs on it but time.
fn puts_tag(act: FlatAct) -> bool {
    matches!(act, FlatAct::AddTag(_) | FlatAct::OnlyTag(_))
}

/// The least source for which the literals ask, if they ask for some. Nothing hangs on it but time.
fn first_source(lits: &[Lit]) -> Option<u32> {
    for lit in lits {
        if let Test::Src(set) = &lit.test {
            if !lit.not {
                return match set.parts().first() {
                    Some(part) => Some(part.lo),
                    None => None,
                };
            }
        }
    }
    None
}

/// Whether the literals ask for a tag, and for destinations. Nothing hangs on it but time.
fn asks_both(lits: &[Lit]) -> bool {
    let mut tag = false;
    let mut dst = false;
    for lit in lits {
        match &lit.test {
            Test::Tag(_) => tag = tag || !lit.not,
            Test::Dst(_) | Test::Dport(_) => dst = dst || !lit.not,
            _ => {}
        }
    }
    tag && dst
}

/// Whether many instructions ask for a tag and for destinations. Nothing hangs on it but time.
fn cross_often(code: &[Ins]) -> bool {
    let mut room = MANY;
    for ins in code {
        if asks_both(ins.cond.lits()) {
            if room == 0 {
                return true;
            }
            room -= 1;
        }
    }
    false
}

/// The least source of each instruction that puts a tag by the source. Nothing hangs on it but time.
fn tagged_sources(alloc: Global, code: &[Ins]) -> Result<Vec<u32>, Memory> {
    let mut found = Vec::new(alloc);
    for ins in code {
        if puts_tag(ins.act) {
            if let Some(source) = first_source(ins.cond.lits()) {
                found.push(source)?;
            }
        }
    }
    Ok(found)
}

/// Each so manyth of these numbers. Nothing hangs on it but time.
fn some_of(alloc: Global, numbers: &[u32]) -> Result<Vec<u32>, Memory> {
    let mut some = Vec::new(alloc);
    let mut room = PART;
    for number in numbers {
        if room == 0 {
            some.push(*number)?;
            room = PART;
        }
        room -= 1;
    }
    Ok(some)
}

/// Where the sources are cut. Packets of tracked connections stay together, since parts of them take longer than all of them. Nothing
/// hangs on it but time.
fn cuts_of(alloc: Global, job: &Job<'_>) -> Result<Vec<u32>, Memory> {
    if matches!(job.state, State::Est) || !cross_often(job.code) {
        return Ok(Vec::new(alloc));
    }
    let mut sources = tagged_sources(alloc, job.code)?;
    if sources.len() < MANY {
        return Ok(Vec::new(alloc));
    }
    sources.sort()?;
    some_of(alloc, sources.as_slice())
}

/// The sides of the packets on these sides whose source is in the set.
fn within(alloc: Global, sides: &[Ivs; 12], set: &Ivs) -> Result<[Ivs; 12], Memory>
    ensures { IfOk result (λ part. (p : List ℕ) → sides_have part p ≡ (sides_have sides.now p && has set.now (get_or p 4 0))) }
{
    let mut part = copy_sides(alloc, sides)?;
    part[4] = sides[4].inter(alloc, set)?;
    Ok(part)
}

/// The sides of the packets on these sides whose source isn't in the set.
fn without(alloc: Global, sides: &[Ivs; 12], set: &Ivs) -> Result<[Ivs; 12], Memory>
    ensures { IfOk result (λ part. (p : List ℕ) → sides_have part p ≡ (sides_have sides.now p && not (has set.now (get_or p 4 0)))) }
{
    let mut part = copy_sides(alloc, sides)?;
    part[4] = sides[4].minus(alloc, set)?;
    Ok(part)
}

/// The tree that has the outcome of the second tree where the first one drops.
fn joined(
    alloc: Global,
    first: &Tree<Outcome>,
    second: &Tree<Outcome>,
) -> Result<Tree<Outcome>, Memory>
    requires { second.now.0 ≡ first.now.0 }
    ensures tops { IfOk result (λ t. t.0 ≡ first.now.0) }
    ensures reduced { IfOk result (λ t. IsReduced t.0 t.1) }
    ensures value { IfOk result (λ t. (p : List ℕ) → IsWithin first.now.0 p → (a : AnyOutcome) (b : AnyOutcome) → value first.now.1 p ≡ Some a → value second.now.1 p ≡ Some b → value t.1 p ≡ Some (either a b)) }
{
    let pairs = first.pair(alloc, second)?;
    let tree = pairs.relabel(alloc, &Either)?;
    Ok(tree)
}

/// The tree of what becomes of each packet of the site on the sides; other packets are dropped. The packets are executed in parts: up
/// to each of these sources, and behind the last one.
fn execute_parts(
    alloc: Global,
    job: &Job<'_>,
    sides: &[Ivs; 12],
    cuts: &[u32],
) -> Result<Tree<Outcome>, Memory>
    requires sound { IsSound job.now.site.now }
    requires ok { flat_ok (record job.now.f.now { code = job.now.code.now }) ≡ true }
    ensures tops { IfOk result (λ t. t.0 ≡ tops_of job.now.site.now) }
    ensures reduced { IfOk result (λ t. IsReduced t.0 t.1) }
    ensures value { IfOk result (λ t. (p : List ℕ) → IsWithin (tops_of job.now.site.now) p → value t.1 p ≡ Some (if sides_have sides.now p then means (record job.now.f.now { code = job.now.code.now }) job.now.site.now (packet_of p) (kind_of job.now.state p) else Drop)) }
{
    if cuts.is_empty() {
        return execute_code(alloc, job.code, job.f, job.site, job.state, sides);
    }
    let (low, rest) = cuts.split_at(cuts.len() / 2);
    let (middle, high) = rest.split_at(1);
    let set = one(alloc, 0, middle[0])?;
    let below = within(alloc, sides, &set)?;
    let above = without(alloc, sides, &set)?;
    let first = execute_parts(alloc, job, &below, low)?;
    let second = execute_parts(alloc, job, &above, high)?;
    let tree = joined(alloc, &first, &second)?;
    Ok(tree)
}

/// The tree of what becomes of each packet of the site on the sides; other packets are dropped. Packets are executed in parts where
/// that takes less time.
pub(crate) fn execute_job(
    alloc: Global,
    job: &Job<'_>,
    sides: &[Ivs; 12],
) -> Result<Tree<Outcome>, Memory>
    requires sound { IsSound job.now.site.now }
    requires ok { flat_ok (record job.now.f.now { code = job.now.code.now }) ≡ true }
    ensures tops { IfOk result (λ t. t.0 ≡ tops_of job.now.site.now) }
    ensures reduced { IfOk result (λ t. IsReduced t.0 t.1) }
    ensures value { IfOk result (λ t. (p : List ℕ) → IsWithin (tops_of job.now.site.now) p → value t.1 p ≡ Some (if sides_have sides.now p then means (record job.now.f.now { code = job.now.code.now }) job.now.site.now (packet_of p) (kind_of job.now.state p) else Drop)) }
{
    let cuts = cuts_of(alloc, job)?;
    let tree = execute_parts(alloc, job, sides, cuts.as_slice())?;
    Ok(tree)
}
