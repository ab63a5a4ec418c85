//! Execution along the whole way.

ghost use Rattle.std.specs.Prelude.{◌≡◌, ℕ, List, true, false, Some, length, map, slice_get, if◌then◌else◌, IfOk};
ghost use Rattle.fws_box.specs.Sides.{IsWithin, sides_have};
ghost use Rattle.fws_net.specs.declared.outcome.Outcome.TheVariants.{Drop};
ghost use Rattle.fws_net.specs.Points.{packet_of, tops_of};
ghost use Rattle.fws_net.specs.Routes.{IsSound};
ghost use Rattle.fws_flat.specs.Soundness.{flat_ok};
ghost use Rattle.fws_flat.specs.Walk.{means};
ghost use Rattle.fws_box_conditions.specs.Ways.{AreWaysOf};
ghost use Rattle.fws_tree.specs.Plain.{IsReduced, value};
ghost use Rattle.fws_exec.specs.Classes.{kind_of, future};
ghost use Rattle.fws_exec.specs.Reaching.{HaveAll, IsReached, IsUnreached};
ghost use Rattle.fws_exec.specs.Sheets.{tops_in, class_at, IsSheet};
ghost use Rattle.fws_exec.specs.Stages.{nowhere, passed, class_outcome};

use crate::closed::open_parts;
use crate::errand::Ground;
use crate::idle::without_idle_tags;
use crate::parts::{Job, execute_job};
use crate::sheet::Sheet;
use crate::spot::{Class, Spot, Stage};
use crate::stages::Purpose;
use bumpalo::Bump;
use fws_box::whole_sides;
use fws_box_conditions::{Ways, whole_site};
use fws_flat::{Flat, Ins, Part};
use fws_iv::Ivs;
use fws_net::{Outcome, Site, State, tops};
use fws_num::Memory;
use fws_tree::Tree;
use std::alloc::Global;

impl Class {
    /// The outcome of packets that have their whole way behind them.
    fn outcome(&self, state: State) -> Outcome
        ensures { result ≡ class_outcome state self.now }
    {
        match self.spot {
            Spot::Unused => Outcome::Drop,
            Spot::Dropped => Outcome::Drop,
            Spot::At(_) => Outcome::Drop,
            Spot::Before(_) => self.progress.outcome(state),
        }
    }
}

impl Sheet {
    /// The outcome of each class, by number.
    fn outcomes(&self, alloc: Global, state: State) -> Result<Vec<Outcome>, Memory>
        ensures { IfOk result (λ all. all.items ≡ map (class_outcome state) self.now.roll.classes.items) }
    {
        let mut all = Vec::new(alloc);
        for class in self.roll.classes.as_slice() {
            all.push(class.outcome(state))?;
        }
        Ok(all)
    }
}

/// The classes of the packets on the sides behind their whole way along these parts; other packets are dropped. It may be asked for
/// uses of instructions on this way.
pub(crate) fn executed(
    alloc: Global,
    purpose: &Purpose<'_>,
    sides: &[Ivs; 12],
    asks: bool,
    arrive: &[Part],
    deliver: &[Part],
    forward: &[Part],
    send: &[Part],
) -> Result<Sheet, Memory>
    requires sound { IsSound purpose.now.site.now }
    requires ways { AreWaysOf purpose.now.site.now purpose.now.ways.now }
    requires ok { flat_ok (record { code = purpose.now.code.now; arrive = arrive.now; deliver = deliver.now; forward = forward.now; send = send.now }) ≡ true }
    ensures sheet { IfOk result (λ s. IsSheet s) }
    ensures tops { IfOk result (λ s. tops_in s ≡ tops_of purpose.now.site.now) }
    ensures count { IfOk result (λ s. length s.reached.items ≡ (if asks then length purpose.now.code.now else 0)) }
    ensures reached { IfOk result (λ s. (n : ℕ) → slice_get s.reached.items n ≡ Some true → IsReached (record { code = purpose.now.code.now; arrive = arrive.now; deliver = deliver.now; forward = forward.now; send = send.now }) purpose.now.site.now purpose.now.state n) }
    ensures unreached { IfOk result (λ s. HaveAll purpose.now.site.now sides.now → (n : ℕ) → slice_get s.reached.items n ≡ Some false → IsUnreached (record { code = purpose.now.code.now; arrive = arrive.now; deliver = deliver.now; forward = forward.now; send = send.now }) purpose.now.site.now purpose.now.state n) }
    ensures meant { IfOk result (λ s. (p : List ℕ) → IsWithin (tops_of purpose.now.site.now) p → future nowhere (passed purpose.now.state p) s.roll.classes.items (class_at s p) p ≡ (if sides_have sides.now p then means (record { code = purpose.now.code.now; arrive = arrive.now; deliver = deliver.now; forward = forward.now; send = send.now }) purpose.now.site.now (packet_of p) (kind_of purpose.now.state p) else Drop)) }
{
    let bump = Bump::new(alloc);
    let arena = &bump;
    let area = whole_site(arena, purpose.site)?;
    let ground = Ground {
        bump: arena,
        area,
        site: purpose.site,
        ways: purpose.ways,
        state: purpose.state,
    };
    let mut sheet = Sheet::entered(alloc, &ground, sides, purpose.code.len(), asks)?;
    sheet.run(alloc, purpose, Stage::Arrive, arrive)?;
    sheet.route(alloc, &ground)?;
    sheet.run(alloc, purpose, Stage::Deliver, deliver)?;
    sheet.run(alloc, purpose, Stage::Forward, forward)?;
    sheet.run(alloc, purpose, Stage::Send, send)?;
    Ok(sheet)
}

/// The tree of what becomes of each packet of the site on the sides where this code stands in the place of the code of `f`; other
/// packets are dropped.
pub(crate) fn execute_code(
    alloc: Global,
    code: &[Ins],
    f: &Flat,
    site: &Site,
    state: State,
    sides: &[Ivs; 12],
) -> Result<Tree<Outcome>, Memory>
    requires sound { IsSound site.now }
    requires ok { flat_ok (record f.now { code = code.now }) ≡ true }
    ensures tops { IfOk result (λ t. t.0 ≡ tops_of site.now) }
    ensures reduced { IfOk result (λ t. IsReduced t.0 t.1) }
    ensures value { IfOk result (λ t. (p : List ℕ) → IsWithin (tops_of site.now) p → value t.1 p ≡ Some (if sides_have sides.now p then means (record f.now { code = code.now }) site.now (packet_of p) (kind_of state p) else Drop)) }
{
    let ways = Ways::of_site(alloc, site)?;
    let purpose = Purpose {
        site,
        ways: &ways,
        state,
        code,
    };
    let parts = open_parts(code, f, state);
    let sheet = executed(
        alloc,
        &purpose,
        sides,
        false,
        parts.arrive,
        parts.deliver,
        parts.forward,
        parts.send,
    )?;
    let leaves = sheet.outcomes(alloc, state)?;
    let tree = sheet.canvas.tree(alloc, leaves.as_slice())?;
    Ok(tree)
}

/// The tree of what becomes of each packet of the site on the sides: of new ones, or of those of tracked connections, each with the
/// ends with which its connection sends it. Off the sides it has `Drop`. Fails if memory runs out.
///
/// Packets off the sides are left out before anything is executed, so that the work grows with the number of instructions and the
/// pieces into which they cut each other's packets on the sides.
pub fn execute_within(
    alloc: Global,
    f: &Flat,
    site: &Site,
    state: State,
    sides: &[Ivs; 12],
) -> Result<Tree<Outcome>, Memory>
    requires sound { IsSound site.now }
    requires ok { flat_ok f.now ≡ true }
    ensures tops { IfOk result (λ t. t.0 ≡ tops_of site.now) }
    ensures reduced { IfOk result (λ t. IsReduced t.0 t.1) }
    ensures value { IfOk result (λ t. (p : List ℕ) → IsWithin (tops_of site.now) p → value t.1 p ≡ Some (if sides_have sides.now p then means f.now site.now (packet_of p) (kind_of state p) else Drop)) }
{
    match without_idle_tags(alloc, f)? {
        Some(code) => {
            let job = Job {
                code: code.as_slice(),
                f,
                site,
                state,
            };
            let tree = execute_job(alloc, &job, sides)?;
            Ok(tree)
        }
        None => execute_job(
            alloc,
            &Job {
                code: f.code.as_slice(),
                f,
                site,
                state,
            },
            sides,
        ),
    }
}

/// The tree of what becomes of each packet of the site: of new ones, or of those of tracked connections, each with the ends with
/// which its connection sends it. Fails if memory runs out.
///
/// The work grows with the number of instructions and the pieces into which they cut each other's packets,
/// and not with the number of packets.
pub fn execute_tree(
    alloc: Global,
    f: &Flat,
    site: &Site,
    state: State,
) -> Result<Tree<Outcome>, Memory>
    requires sound { IsSound site.now }
    requires ok { flat_ok f.now ≡ true }
    ensures tops { IfOk result (λ t. t.0 ≡ tops_of site.now) }
    ensures reduced { IfOk result (λ t. IsReduced t.0 t.1) }
    ensures value { IfOk result (λ t. (p : List ℕ) → IsWithin (tops_of site.now) p → value t.1 p ≡ Some (means f.now site.now (packet_of p) (kind_of state p))) }
{
    let sides = whole_sides(alloc, &tops(site))?;
    let tree = execute_within(alloc, f, site, state, &sides)?;
    Ok(tree)
}
