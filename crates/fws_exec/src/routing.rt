//! How packets come in and are routed.

ghost use Rattle.std.specs.Prelude.{◌≡◌, ◌≢◌, ◌<◌, ◌^◌, nat_eq, ℕ, List, Some, length, slice_get, true, false, if◌then◌else◌, MatchOption, IfOk, OnOk};
ghost use Rattle.fws_box.specs.Sides.{IsWithin, sides_have};
ghost use Rattle.fws_net.specs.declared.transit.Transit.{Transit};
ghost use Rattle.fws_net.specs.declared.outcome.Outcome.{Outcome};
ghost use Rattle.fws_net.specs.declared.outcome.Outcome.TheVariants.{Drop};
ghost use Rattle.fws_net.specs.declared.site.Site.{Site as AnySite};
ghost use Rattle.fws_net.specs.declared.view.View.{View};
ghost use Rattle.fws_net.specs.Conditions.{holds};
ghost use Rattle.fws_net.specs.Points.{packet_of, tops_of};
ghost use Rattle.fws_net.specs.Routes.{IsSound, is_local};
ghost use Rattle.fws_net.specs.Transits.{entered};
ghost use Rattle.fws_box_conditions.specs.Ways.{AreWaysOf};
ghost use Rattle.fws_exec.specs.declared.spot.Stage.{Stage as AnyStage};
ghost use Rattle.fws_exec.specs.declared.spot.Stage.TheVariants.{Arrive};
ghost use Rattle.fws_exec.specs.declared.spot.Spot.TheVariants.{Dropped};
ghost use Rattle.fws_exec.specs.Classes.{future, is_inside};
ghost use Rattle.fws_exec.specs.Grounds.{IsGround};
ghost use Rattle.fws_exec.specs.Sheets.{tops_in, class_at, IsSheet, stands};
ghost use Rattle.fws_exec.specs.Stages.{nowhere, coming_in, Becomes, IsWhole, through_routing, onward_spot};

use crate::errand::Ground;
use crate::going::Going;
use crate::hull::Hull;
use crate::hulls::only;
use crate::noting::none_reached;
use crate::progress::Progress;
use crate::roll::{Roll, bit_of};
use crate::sheet::Sheet;
use crate::spot::{Spot, Stage};
use fws_box_conditions::Ways;
use fws_flat::Part;
use fws_iv::{Ivs, one};
use fws_net::{Cond, Lit, Site, Test, tops};
use fws_num::Memory;
use fws_tree::{Canvas, Mark};
use std::alloc::Global;

/// A part without instructions, which shows the receiving interface.
const BETWEEN: Part = Part {
    first: 0,
    past: 0,
    shows_recv: true,
    shows_xmit: false,
    outward: false,
    end: true,
};

/// The condition that no receiving interface is shown.
fn from_none(alloc: Global) -> Result<Cond, Memory>
    ensures { IfOk result (λ cond. (v : View) → MatchOption v.recv (holds cond v ≡ true) (λ entry. entry < 2 ^ 32 → holds cond v ≡ false)) }
{
    let mut cond = Cond::new(alloc);
    let test = Test::Recv(one(alloc, 0, u32::MAX)?);
    cond.put(Lit { not: true, test })?;
    Ok(cond)
}

/// The condition that the destination, as it stands, is local.
fn to_local(alloc: Global, ways: &Ways) -> Result<Cond, Memory>
    ensures { IfOk result (λ cond. (site : AnySite) → AreWaysOf site ways.now → (v : View) → holds cond v ≡ is_local site v.packet.dst) }
{
    let mut cond = Cond::new(alloc);
    let test = Test::Dst(ways.local.copy(alloc)?);
    cond.put(Lit { not: false, test })?;
    Ok(cond)
}

/// Where a packet goes on that isn't delivered.
fn onward_spot(forwarding: bool) -> Spot
    ensures { result ≡ onward_spot forwarding }
{
    if forwarding {
        Spot::Before(Stage::Forward)
    } else {
        Spot::Dropped
    }
}

impl Sheet {
    /// All points of the site in one class, that of dropped packets, with code of so many places, for whose instructions it may be
    /// asked for uses.
    fn outside(alloc: Global, site: &Site, places: usize, asks: bool) -> Result<Sheet, Memory>
        requires { IsSound site.now }
        ensures sheet { IfOk result (λ s. IsSheet s) }
        ensures tops { IfOk result (λ s. tops_in s ≡ tops_of site.now) }
        ensures class { IfOk result (λ s. IsWhole Dropped s.roll.classes.items) }
        ensures value { IfOk result (λ s. (p : List ℕ) → class_at s p ≡ 0) }
        ensures count { IfOk result (λ s. length s.reached.items ≡ (if asks then places else 0)) }
        ensures none { IfOk result (λ s. (k : ℕ) → slice_get s.reached.items k ≢ Some true) }
    {
        let hulls = only(alloc, Hull::of_tops(&tops(site)))?;
        let mut canvas = Canvas::new(alloc, &tops(site), bit_of(0))?;
        let _next = canvas.add_value(bit_of(1))?;
        let class = Progress::entered(alloc).standing(Spot::Dropped);
        let roll = Roll::of_one(alloc, class, places)?;
        let reached = none_reached(alloc, if asks { places } else { 0 })?;
        Ok(Sheet {
            canvas,
            roll,
            hulls,
            reached,
        })
    }

    /// The points of the one class that lie on the sides go to a class that stands before arrival. It has the hull of the sides.
    fn admit(&mut self, alloc: Global, sides: &[Ivs; 12]) -> Result<(), Memory>
        requires sheet { IsSheet self.old }
        requires class { IsWhole Dropped self.old.roll.classes.items }
        requires value { (p : List ℕ) → class_at self.old p ≡ 0 }
        ensures sheet { OnOk result (IsSheet self.new) }
        ensures tops { tops_in self.new ≡ tops_in self.old }
        ensures between { OnOk result ((n : ℕ) → stands is_inside self.new.roll.classes.items n ≡ false) }
        ensures reached { self.new.reached ≡ self.old.reached }
        ensures meant { OnOk result ((next : AnyStage → Transit → Outcome) (p : List ℕ) → IsWithin (tops_in self.old) p → future nowhere next self.new.roll.classes.items (class_at self.new p) p ≡ (if sides_have sides.now p then next Arrive (entered (packet_of p)) else Drop)) }
    {
        let mark = Mark::of_sets(sides, 1);
        self.move_by(alloc, &[0], &[mark], Going::To(Spot::Before(Stage::Arrive)))?;
        Ok(())
    }

    /// The packets that stand before arrival come in: those of the host stand before they are sent from then on, all others
    /// still before they arrive.
    fn divide_entered(&mut self, alloc: Global, ground: &Ground<'_, '_>) -> Result<(), Memory>
        requires sheet { IsSheet self.old }
        requires ground { IsGround ground.now }
        requires tops { tops_in self.old ≡ tops_of ground.now.site.now }
        requires between { (n : ℕ) → stands is_inside self.old.roll.classes.items n ≡ false }
        ensures sheet { OnOk result (IsSheet self.new) }
        ensures tops { tops_in self.new ≡ tops_in self.old }
        ensures between { OnOk result ((n : ℕ) → stands is_inside self.new.roll.classes.items n ≡ false) }
        ensures count { OnOk result (length self.new.reached.items ≡ length self.old.reached.items) }
        ensures none { OnOk result (((k : ℕ) → slice_get self.old.reached.items k ≢ Some true) → (k : ℕ) → slice_get self.new.reached.items k ≢ Some true) }
        ensures meant { OnOk result ((next : AnyStage → Transit → Outcome) (p : List ℕ) → IsWithin (tops_of ground.now.site.now) p → future nowhere next self.new.roll.classes.items (class_at self.new p) p ≡ future nowhere (coming_in next p) self.old.roll.classes.items (class_at self.old p) p) }
    {
        let cond = from_none(alloc)?;
        let numbers = self.roll.all_at(alloc, Spot::Before(Stage::Arrive))?;
        let going = Going::To(Spot::Before(Stage::Send));
        self.divide_all(alloc, ground, BETWEEN, &cond, numbers.as_slice(), going)?;
        Ok(())
    }

    /// The points of the site on the sides where their packets come in: those of the host before they are sent, all others before
    /// they arrive. Other packets are dropped. The code has so many places, for whose instructions it may be asked for uses.
    pub(crate) fn entered(
        alloc: Global,
        ground: &Ground<'_, '_>,
        sides: &[Ivs; 12],
        places: usize,
        asks: bool,
    ) -> Result<Sheet, Memory>
        requires { IsGround ground.now }
        ensures sheet { IfOk result (λ s. IsSheet s) }
        ensures tops { IfOk result (λ s. tops_in s ≡ tops_of ground.now.site.now) }
        ensures between { IfOk result (λ s. (n : ℕ) → stands is_inside s.roll.classes.items n ≡ false) }
        ensures count { IfOk result (λ s. length s.reached.items ≡ (if asks then places else 0)) }
        ensures none { IfOk result (λ s. (k : ℕ) → slice_get s.reached.items k ≢ Some true) }
        ensures meant { IfOk result (λ s. (next : AnyStage → Transit → Outcome) (p : List ℕ) → IsWithin (tops_of ground.now.site.now) p → future nowhere next s.roll.classes.items (class_at s p) p ≡ (if sides_have sides.now p then coming_in next p Arrive (entered (packet_of p)) else Drop)) }
    {
        let mut sheet = Sheet::outside(alloc, ground.site, places, asks)?;
        sheet.admit(alloc, sides)?;
        sheet.divide_entered(alloc, ground)?;
        Ok(sheet)
    }

    /// All classes before routing are routed by their destinations as they stand: local ones are
    /// delivered, others forwarded if the site forwards.
    pub(crate) fn route(&mut self, alloc: Global, ground: &Ground<'_, '_>) -> Result<(), Memory>
        requires sheet { IsSheet self.old }
        requires ground { IsGround ground.now }
        requires tops { tops_in self.old ≡ tops_of ground.now.site.now }
        requires between { (n : ℕ) → stands is_inside self.old.roll.classes.items n ≡ false }
        ensures sheet { OnOk result (IsSheet self.new) }
        ensures tops { tops_in self.new ≡ tops_in self.old }
        ensures between { OnOk result ((n : ℕ) → stands is_inside self.new.roll.classes.items n ≡ false) }
        ensures meant { OnOk result (Becomes ground.now.site.now self.old self.new (through_routing ground.now.site.now)) }
    {
        let cond = to_local(alloc, ground.ways)?;
        let spot = Spot::Before(Stage::Arrive);
        let numbers = self.roll.all_at(alloc, spot)?;
        let going = Going::To(Spot::Before(Stage::Deliver));
        self.divide_all(alloc, ground, BETWEEN, &cond, numbers.as_slice(), going)?;
        let onward = onward_spot(ground.site.forwarding);
        self.roll.send_all(numbers.as_slice(), onward);
        Ok(())
    }
}
