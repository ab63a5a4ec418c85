//! What conditions tell classes apart by.

ghost use Rattle.std.specs.Prelude.{◌≡◌, ◌&&◌, ◌||◌, ℕ, List, true, false, None, Some, if◌then◌else◌, IfSome};
ghost use Rattle.std.specs.Option.{is_none};
ghost use Rattle.fws_iv.specs.Ivs.{has};
ghost use Rattle.fws_flat.specs.declared.code.Part.{Part};
ghost use Rattle.fws_flat.specs.Walk.{sees};
ghost use Rattle.fws_net.specs.declared.condition.Lit.{Lit as AnyLit};
ghost use Rattle.fws_net.specs.declared.connection.Kind.{Kind};
ghost use Rattle.fws_net.specs.declared.site.Site.{Site};
ghost use Rattle.fws_net.specs.Conditions.{holds, lit_holds};
ghost use Rattle.fws_box_conditions.specs.Scenes.{standing_addr};
ghost use Rattle.fws_exec.specs.Classes.{standing_by, transit_of};
ghost use Rattle.fws_exec.specs.Views.{is_of_src, is_of_dst, shows, shows_all, shows_code, end_if, is_of_network, seen_by, fits_tag, tags_fit};

use crate::progress::Progress;
use crate::spot::same_outcome;
use fws_flat::Ins;
use fws_iv::Ivs;
use fws_net::{Cond, End, Lit, Outcome, Rewrite, Test};

/// Which ends conditions look at.
#[derive(Clone, Copy)]
pub(crate) struct Sides {
    /// The source or its port.
    pub src: bool,
    /// The destination or its port, or where it is routed.
    pub dst: bool,
}

/// Whether one of the two holds.
fn either(a: bool, b: bool) -> bool
    ensures { result ≡ (a || b) }
{
    a || b
}

/// Whether the test looks at the source or its port.
fn is_of_src(test: &Test) -> bool
    ensures { result ≡ is_of_src test.now }
{
    match test {
        Test::Src(_) => true,
        Test::Sport(_) => true,
        _ => false,
    }
}

/// Whether the test looks at the destination or its port, or at where it is routed.
fn is_of_dst(test: &Test) -> bool
    ensures { result ≡ is_of_dst test.now }
{
    match test {
        Test::Dst(_) => true,
        Test::Dport(_) => true,
        Test::Xmit(_) => true,
        Test::Via(_) => true,
        _ => false,
    }
}

impl Sides {
    /// Neither.
    pub(crate) fn none() -> Sides {
        Sides {
            src: false,
            dst: false,
        }
    }

    /// These and what the test looks at.
    fn with_test(self, test: &Test) -> Sides
        ensures shown { shows result test.now ≡ true }
        ensures kept { (cond : List AnyLit) → shows_all self cond ≡ true → shows_all result cond ≡ true }
    {
        Sides {
            src: either(self.src, is_of_src(test)),
            dst: either(self.dst, is_of_dst(test)),
        }
    }

    /// These and what the condition looks at.
    pub(crate) fn with(self, cond: &Cond) -> Sides
        ensures shown { shows_all result cond.now ≡ true }
        ensures kept { (other : List AnyLit) → shows_all self other ≡ true → shows_all result other ≡ true }
    {
        let mut sides = self;
        for lit in cond.lits() {
            sides = sides.with_test(&lit.test);
        }
        sides
    }

    /// What the instructions look at.
    pub(crate) fn of_code(code: &[Ins]) -> Sides
        ensures { shows_code result code.now ≡ true }
    {
        let mut sides = Sides::none();
        for ins in code {
            sides = sides.with(&ins.cond);
        }
        sides
    }
}

/// Whether the end is that of a network: its later bits are kept, so that a set of addresses under it is one of each
/// network of its length.
pub(crate) fn is_of_network(end: Option<End>) -> bool
    ensures { result ≡ is_of_network end }
{
    match end {
        Some(end) => end.len < 32,
        None => false,
    }
}

/// What conditions that look at some sides tell classes apart by.
#[derive(Clone, Copy, PartialEq, Eq, Hash)]
pub(crate) struct View {
    /// The ends that rules wrote, as far as they are looked at.
    pub wrote: Rewrite,
    /// The source is looked at, and is that with which the connection sends the packet.
    pub src_tracked: bool,
    /// The destination is looked at, and is that with which the connection sends the packet.
    pub dst_tracked: bool,
    /// The class itself, if the end of a network is written over what is looked at.
    pub own: Option<u32>,
}

/// The end, if it is looked at.
fn end_if(looked: bool, end: Option<End>) -> Option<End>
    ensures { result ≡ end_if looked end }
{
    if looked { end } else { None }
}

/// Whether the numbers are the same.
fn same_numbers(a: Option<u32>, b: Option<u32>) -> bool
    ensures { result ≡ true → a ≡ b }
{
    a == b
}

impl View {
    /// The view of conditions that look at the sides, of the class with this number to which rules did this.
    pub(crate) fn of(progress: &Progress, sides: Sides, number: u32) -> View
        ensures { result ≡ seen_by progress.now sides number }
    {
        let src = end_if(sides.src, progress.wrote.src);
        let dst = end_if(sides.dst, progress.wrote.dst);
        View {
            wrote: Rewrite { src, dst },
            src_tracked: sides.src && progress.src_tracked,
            dst_tracked: sides.dst && progress.dst_tracked,
            own: own_if(is_of_network(src), is_of_network(dst), number),
        }
    }

    /// Whether the two are the same.
    pub(crate) fn same(self, other: View) -> bool
        ensures { result ≡ true → self ≡ other }
    {
        if !same_outcome(Outcome::Accept(self.wrote), Outcome::Accept(other.wrote)) {
            return false;
        }
        if self.src_tracked != other.src_tracked || self.dst_tracked != other.dst_tracked {
            return false;
        }
        same_numbers(self.own, other.own)
    }

    /// Whether rules wrote nothing of what is looked at.
    pub(crate) fn is_unwritten(self) -> bool
        ensures { result ≡ (is_none self.wrote.src && is_none self.wrote.dst) }
    {
        self.wrote.src.is_none() && self.wrote.dst.is_none()
    }
}

/// The number, if the end of a network is written over a side.
fn own_if(src: bool, dst: bool, number: u32) -> Option<u32>
    ensures { result ≡ (if src || dst then Some number else None) }
{
    if src || dst { Some(number) } else { None }
}

/// The address that stands for sure, if one is written and isn't that of a network.
pub(crate) fn whole_end(tracked: bool, end: Option<End>) -> Option<u32>
    ensures { IfSome result (λ addr. (x : ℕ) (r : ℕ) → standing_addr (standing_by tracked end) x r ≡ addr) }
{
    if tracked {
        return None;
    }
    match end {
        Some(end) => if end.len < 32 { None } else { Some(end.addr) },
        None => None,
    }
}

/// Whether a test of the set fails at the address, or its negation does.
fn fails_at(set: &Ivs, negated: bool, addr: Option<u32>) -> bool
    ensures { result ≡ true → (a : ℕ) × (addr ≡ Some a) × (has set.now a ≡ negated) }
{
    match addr {
        Some(addr) => set.has(addr) == negated,
        None => false,
    }
}

impl Progress {
    /// Whether the literal fails at all packets to which rules did this. False tells nothing, but of tags.
    fn fails_lit(&self, lit: &Lit) -> bool
        ensures never { result ≡ true → (site : Site) (kind : Kind) (part : Part) (p : List ℕ) → lit_holds (sees site kind part (transit_of self.now p)) lit.now ≡ false }
        ensures fits { result ≡ false → fits_tag self.now.tags lit.now.not lit.now.test ≡ true }
    {
        match &lit.test {
            Test::Tag(tag) => self.has_tag(*tag) == lit.not,
            Test::Src(set) => {
                fails_at(set, lit.not, whole_end(self.src_tracked, self.wrote.src))
            }
            Test::Dst(set) => {
                fails_at(set, lit.not, whole_end(self.dst_tracked, self.wrote.dst))
            }
            _ => false,
        }
    }

    /// Whether the condition fails at all packets to which rules did this. False tells nothing, but of tags.
    pub(crate) fn fails(&self, cond: &Cond) -> bool
        ensures never { result ≡ true → (site : Site) (kind : Kind) (part : Part) (p : List ℕ) → holds cond.now (sees site kind part (transit_of self.now p)) ≡ false }
        ensures fits { result ≡ false → tags_fit self.now.tags cond.now ≡ true }
    {
        for lit in cond.lits() {
            if self.fails_lit(lit) {
                return true;
            }
        }
        false
    }
}
