//! What is known of the packets of a class, wherever its points lie.

ghost use Rattle.std.specs.Prelude.{◌≡◌, ◌<◌, ◌≤◌, ◌&&◌, nat_eq, ℕ, List, Option, None, Some, true, false, slice_index, unwrap_or, if◌then◌else◌};
ghost use Rattle.fws_iv.specs.Ivs.{has};
ghost use Rattle.fws_net.specs.declared.view.View.{View};
ghost use Rattle.fws_net.specs.Conditions.{holds, lit_holds, test_holds, is_shown};
ghost use Rattle.fws_net.specs.Fates.{has_ports};
ghost use Rattle.fws_net.specs.Routes.{exit_at, IsSound};
ghost use Rattle.fws_net.specs.Showing.{out_of};
ghost use Rattle.fws_box_conditions.specs.Scenes.{standing_addr, standing_port};
ghost use Rattle.fws_box_conditions.specs.declared.scene.Standing.TheVariants.{Entered};
ghost use Rattle.fws_exec.specs.declared.progress.Progress.{Progress as AnyProgress};
ghost use Rattle.fws_exec.specs.Classes.{standing_by};
ghost use Rattle.fws_exec.specs.Divided.{seen_at};
ghost use Rattle.fws_exec.specs.Hulls.{HasPoint};
ghost use Rattle.fws_exec.specs.Looks.{Tells, InSpan, InAny, OnWay, Shows};

use crate::errand::Errand;
use crate::hull::{Hull, high_of, low_of};
use crate::progress::Progress;
use crate::truth::Truth;
use crate::views::whole_end;
use fws_iv::Ivs;
use fws_net::{Cond, End, Exit, Lit, Site, State, Test, exit_of};

/// The most intervals of a set that are looked at one by one.
const FEW: usize = 16;

/// The numbers from one to another.
#[derive(Clone, Copy)]
pub(crate) struct Span {
    /// The least one.
    pub lo: u32,
    /// The greatest one.
    pub hi: u32,
}

/// What is known of an interface that a rule is shown, or isn't.
#[derive(Clone, Copy)]
pub(crate) enum Way {
    /// Nothing.
    Unknown,
    /// None is shown.
    Hidden,
    /// This one is.
    To(u32),
}

/// What is known of what rules see of packets.
#[derive(Clone, Copy)]
pub(crate) struct Look {
    /// Where their protocols lie.
    pub proto: Span,
    /// Where their sources lie as they stand, if that is known.
    pub src: Option<Span>,
    /// Where the ports of these lie.
    pub sport: Option<Span>,
    /// Where their destinations lie as they stand.
    pub dst: Option<Span>,
    /// Where the ports of these lie.
    pub dport: Option<Span>,
    /// From which interface they come.
    pub recv: Way,
    /// To which interface they are sent.
    pub xmit: Way,
    /// They leave.
    pub outward: bool,
    /// They belong to tracked connections.
    pub est: bool,
}

/// Whether an address stands as it entered.
fn is_entered(tracked: bool, end: Option<End>) -> bool
    ensures { result ≡ true → standing_by tracked end ≡ Entered }
{
    if tracked {
        return false;
    }
    end.is_none()
}

impl Span {
    /// One number.
    fn one(number: u32) -> Span
        ensures { result ≡ record { lo = number; hi = number } }
    {
        Span {
            lo: number,
            hi: number,
        }
    }

    /// The values of the field with this number at the points of the hull.
    fn of_hull(hull: &Hull, k: usize) -> Span
        requires { k < 12 }
        ensures { (p : List ℕ) → HasPoint hull.now p → InSpan result (slice_index p k) }
    {
        Span {
            lo: hull.lo[k],
            hi: hull.hi[k],
        }
    }

    /// Whether no member of the set lies in the span. False tells nothing.
    fn is_beside(self, set: &Ivs) -> bool
        ensures { result ≡ true → (v : ℕ) → InSpan self v → has set.now v ≡ false }
    {
        let parts = set.parts();
        if parts.len() > FEW {
            return false;
        }
        self.hi < low_of(parts) || high_of(parts) < self.lo
    }

    /// Whether the numbers of the span are members of the set.
    fn are_in(self, set: &Ivs) -> Truth
        ensures { (v : ℕ) → InSpan self v → Tells result (has set.now v) }
    {
        if self.lo == self.hi {
            return Truth::of(set.has(self.lo));
        }
        if self.is_beside(set) {
            Truth::Fails
        } else {
            Truth::Open
        }
    }

    /// Whether each number of the span is that of a protocol with ports. False tells nothing.
    fn have_ports(self) -> bool
        ensures { result ≡ true → (v : ℕ) → InSpan self v → has_ports v ≡ true }
    {
        if self.lo != self.hi {
            return false;
        }
        self.lo == 6 || self.lo == 17
    }

    /// Where an address stands that lay in the span when the packet entered.
    fn of_addr(self, tracked: bool, end: Option<End>) -> Option<Span>
        ensures { (x r : ℕ) → InSpan self x → InAny result (standing_addr (standing_by tracked end) x r) }
    {
        if is_entered(tracked, end) {
            return Some(self);
        }
        match whole_end(tracked, end) {
            Some(addr) => Some(Span::one(addr)),
            None => None,
        }
    }

    /// Where a port stands that lay in the span when the packet entered, whose protocol is one of these, and over which this port
    /// is written.
    fn under(self, protos: Span, port: Option<u16>) -> Option<Span>
        ensures { (proto x : ℕ) → InSpan protos proto → InSpan self x → InAny result (if has_ports proto then unwrap_or port x else x) }
    {
        match port {
            None => Some(self),
            Some(port) => if protos.have_ports() {
                Some(Span::one(port as u32))
            } else {
                None
            },
        }
    }

    /// Where a port stands that lay in the span when the packet entered, whose protocol is one of these.
    fn of_port(self, protos: Span, tracked: bool, end: Option<End>) -> Option<Span>
        ensures { (proto x r : ℕ) → InSpan protos proto → InSpan self x → InAny result (standing_port (standing_by tracked end) proto x r) }
    {
        if tracked {
            return None;
        }
        match end {
            None => Some(self),
            Some(end) => self.under(protos, end.port),
        }
    }
}

/// Whether the numbers of the span are members of the set, if there is one.
fn are_any_in(span: Option<Span>, set: &Ivs) -> Truth
    ensures { (v : ℕ) → InAny span v → Tells result (has set.now v) }
{
    match span {
        Some(span) => span.are_in(set),
        None => Truth::Open,
    }
}

/// To which interface packets are sent that come from this entry number and have this destination.
fn way_from(site: &Site, entry: u8, dst: u32) -> Way
    requires { IsSound site.now }
    ensures { OnWay result (out_of (exit_at site.now entry dst)) }
{
    match exit_of(site, entry, dst) {
        Exit::Out(face) => Way::To(face as u32),
        Exit::Deliver => Way::Hidden,
        Exit::Lost => Way::Hidden,
    }
}

impl Way {
    /// To which interface packets are sent that come from an entry number in the span and have this destination.
    fn of(site: &Site, entries: Span, dst: u32) -> Way
        requires { IsSound site.now }
        ensures { (entry : ℕ) → InSpan entries entry → OnWay result (out_of (exit_at site.now entry dst)) }
    {
        if entries.lo == 0 && entries.hi != 0 {
            return Way::Unknown;
        }
        match u8::try_from(entries.lo) {
            Ok(entry) => way_from(site, entry, dst),
            Err(_) => Way::Unknown,
        }
    }

    /// From which interface packets come that have an entry number in the span.
    fn from(entries: Span) -> Way
        ensures { (entry : ℕ) → InSpan entries entry → OnWay result (if nat_eq entry 0 then None else Some entry) }
    {
        if entries.lo != entries.hi {
            return Way::Unknown;
        }
        if entries.lo == 0 {
            Way::Hidden
        } else {
            Way::To(entries.lo)
        }
    }

    /// Whether an interface is shown that is a member of the set.
    fn is_in(self, set: &Ivs) -> Truth
        ensures { (o : Option ℕ) → OnWay self o → Tells result (is_shown o set.now) }
    {
        match self {
            Way::Unknown => Truth::Open,
            Way::Hidden => Truth::Fails,
            Way::To(entry) => Truth::of(set.has(entry)),
        }
    }
}

impl Look {
    /// Whether a port that lies there is a member of the set, and the protocol has ports.
    fn port_is_in(&self, ports: Option<Span>, set: &Ivs) -> Truth
        ensures { (proto v : ℕ) → InSpan self.now.proto proto → InAny ports v → Tells result (has_ports proto && has set.now v) }
    {
        let member = are_any_in(ports, set);
        if self.proto.have_ports() {
            member
        } else {
            member.with_open()
        }
    }

    /// The interface of the pass.
    fn side(&self) -> Way
        ensures { (v : View) → Shows self.now v → OnWay result (if v.outward then v.xmit else v.recv) }
    {
        if self.outward { self.xmit } else { self.recv }
    }

    /// Whether the test holds at packets to which rules did this.
    fn test_holds(&self, progress: &Progress, test: &Test) -> Truth
        ensures { (v : View) → Shows self.now v → v.tags ≡ progress.now.tags → Tells result (test_holds v test.now) }
    {
        match test {
            Test::Src(set) => are_any_in(self.src, set),
            Test::Dst(set) => are_any_in(self.dst, set),
            Test::Sport(set) => self.port_is_in(self.sport, set),
            Test::Dport(set) => self.port_is_in(self.dport, set),
            Test::Proto(set) => self.proto.are_in(set),
            Test::Recv(set) => self.recv.is_in(set),
            Test::Xmit(set) => self.xmit.is_in(set),
            Test::Via(set) => self.side().is_in(set),
            Test::Outward => Truth::of(self.outward),
            Test::Est => Truth::of(self.est),
            Test::Tag(tag) => Truth::of(progress.has_tag(*tag)),
            _ => Truth::Open,
        }
    }

    /// Whether the literal holds at packets to which rules did this.
    fn lit_holds(&self, progress: &Progress, lit: &Lit) -> Truth
        ensures { (v : View) → Shows self.now v → v.tags ≡ progress.now.tags → Tells result (lit_holds v lit.now) }
    {
        self.test_holds(progress, &lit.test).negated_if(lit.not)
    }

    /// Whether the condition holds at packets to which rules did this.
    pub(crate) fn holds(&self, progress: &Progress, cond: &Cond) -> Truth
        ensures { (v : View) → Shows self.now v → v.tags ≡ progress.now.tags → Tells result (holds cond.now v) }
    {
        let mut all = Truth::Holds;
        for lit in cond.lits() {
            let own = self.lit_holds(progress, lit);
            if own.is_failed() {
                return Truth::Fails;
            }
            all = own.beside(all);
        }
        all
    }
}

impl Errand<'_, '_> {
    /// To which interface packets are sent to which rules did this and whose points lie in the hull.
    fn xmit(&self, progress: &Progress, hull: &Hull) -> Way
        requires { IsSound self.now.ground.site.now }
        ensures { (p : List ℕ) → HasPoint hull.now p → OnWay result (seen_at self.now.ground.site.now self.now.ground.state self.now.part progress.now p).xmit }
    {
        if !self.part.shows_xmit {
            return Way::Hidden;
        }
        match whole_end(progress.dst_tracked, progress.wrote.dst) {
            Some(dst) => Way::of(self.ground.site, Span::of_hull(hull, 0), dst),
            None => Way::Unknown,
        }
    }

    /// From which interface packets come whose points lie in the hull.
    fn recv(&self, hull: &Hull) -> Way
        ensures { (g : AnyProgress) (p : List ℕ) → HasPoint hull.now p → OnWay result (seen_at self.now.ground.site.now self.now.ground.state self.now.part g p).recv }
    {
        if !self.part.shows_recv {
            return Way::Hidden;
        }
        Way::from(Span::of_hull(hull, 0))
    }

    /// Whether packets belong to tracked connections.
    fn is_est(&self) -> bool
        ensures { (g : AnyProgress) (p : List ℕ) → (seen_at self.now.ground.site.now self.now.ground.state self.now.part g p).est ≡ result }
    {
        match self.ground.state {
            State::Fresh => false,
            State::Est => true,
        }
    }

    /// What is known of packets to which rules did this and whose points lie in the hull.
    pub(crate) fn look(&self, progress: &Progress, hull: &Hull) -> Look
        requires { IsSound self.now.ground.site.now }
        ensures { (p : List ℕ) → HasPoint hull.now p → Shows result (seen_at self.now.ground.site.now self.now.ground.state self.now.part progress.now p) }
    {
        let proto = Span::of_hull(hull, 1);
        Look {
            proto,
            src: Span::of_hull(hull, 4).of_addr(progress.src_tracked, progress.wrote.src),
            sport: Span::of_hull(hull, 5).of_port(proto, progress.src_tracked, progress.wrote.src),
            dst: Span::of_hull(hull, 2).of_addr(progress.dst_tracked, progress.wrote.dst),
            dport: Span::of_hull(hull, 3).of_port(proto, progress.dst_tracked, progress.wrote.dst),
            recv: self.recv(hull),
            xmit: self.xmit(progress, hull),
            outward: self.part.outward,
            est: self.is_est(),
        }
    }
}
