//! How stages are executed, part by part.

ghost use Rattle.std.specs.Prelude.{◌≡◌, ◌<◌, ℕ, true, false, OnOk};
ghost use Rattle.std.specs.List.{list_all};
ghost use Rattle.fws_flat.specs.Soundness.{part_ok};
ghost use Rattle.fws_net.specs.Points.{tops_of};
ghost use Rattle.fws_net.specs.Routes.{IsSound};
ghost use Rattle.fws_box_conditions.specs.Ways.{AreWaysOf};
ghost use Rattle.fws_exec.specs.Classes.{is_inside};
ghost use Rattle.fws_exec.specs.Grounds.{IsGround};
ghost use Rattle.fws_exec.specs.Sheets.{tops_in, IsSheet, stands};
ghost use Rattle.fws_exec.specs.Stages.{Becomes, through_part, through_parts};

use crate::errand::{Errand, Ground};
use crate::run::run_starts;
use crate::sheet::Sheet;
use crate::spot::{Spot, Stage};
use crate::turn::Turn;
use bumpalo::Bump;
use fws_box_conditions::{Ways, whole_site};
use fws_flat::{Ins, Part};
use fws_net::{Site, State};
use fws_num::Memory;
use std::alloc::Global;

/// For which packets stages are executed.
#[derive(Clone, Copy)]
pub(crate) struct Purpose<'a> {
    /// The site.
    pub site: &'a Site,
    /// Its destinations as sets.
    pub ways: &'a Ways,
    /// Whether packets belong to tracked connections.
    pub state: State,
    /// The code.
    pub code: &'a [Ins],
}

impl Sheet {
    /// The classes before the stage pass the part.
    fn cross(&mut self, alloc: Global, errand: &Errand<'_, '_>) -> Result<(), Memory>
        requires sheet { IsSheet self.old }
        requires ground { IsGround errand.now.ground }
        requires tops { tops_in self.old ≡ tops_of errand.now.ground.site.now }
        requires part { part_ok errand.now.code.now errand.now.part ≡ true }
        requires between { (n : ℕ) → stands is_inside self.old.roll.classes.items n ≡ false }
        ensures sheet { OnOk result (IsSheet self.new) }
        ensures tops { tops_in self.new ≡ tops_in self.old }
        ensures between { OnOk result ((n : ℕ) → stands is_inside self.new.roll.classes.items n ≡ false) }
        ensures meant { OnOk result (Becomes errand.now.ground.site.now self.old self.new (through_part errand.now.code.now errand.now.ground.site.now errand.now.ground.state errand.now.stage errand.now.part)) }
    {
        self.turn(alloc, Turn::Enter(errand.part, errand.stage));
        self.walk(alloc, errand)?;
        self.turn(alloc, Turn::Leave(errand.stage));
        self.merge(alloc, Spot::Before(errand.stage))?;
        self.merge(alloc, Spot::Dropped)?;
        Ok(())
    }

    /// The classes before the stage pass the part, whose boxes lie in this arena.
    fn run_part_in(
        &mut self,
        alloc: Global,
        arena: &Bump,
        purpose: &Purpose<'_>,
        stage: Stage,
        part: Part,
    ) -> Result<(), Memory>
        requires sheet { IsSheet self.old }
        requires sound { IsSound purpose.now.site.now }
        requires ways { AreWaysOf purpose.now.site.now purpose.now.ways.now }
        requires tops { tops_in self.old ≡ tops_of purpose.now.site.now }
        requires part { part_ok purpose.now.code.now part ≡ true }
        requires between { (n : ℕ) → stands is_inside self.old.roll.classes.items n ≡ false }
        ensures sheet { OnOk result (IsSheet self.new) }
        ensures tops { tops_in self.new ≡ tops_in self.old }
        ensures between { OnOk result ((n : ℕ) → stands is_inside self.new.roll.classes.items n ≡ false) }
        ensures meant { OnOk result (Becomes purpose.now.site.now self.old self.new (through_part purpose.now.code.now purpose.now.site.now purpose.now.state stage part)) }
    {
        let area = whole_site(arena, purpose.site)?;
        let ground = Ground {
            bump: arena,
            area,
            site: purpose.site,
            ways: purpose.ways,
            state: purpose.state,
        };
        let starts = run_starts(alloc, purpose.code, part)?;
        let errand = Errand {
            ground,
            code: purpose.code,
            part,
            stage,
            starts: starts.as_slice(),
        };
        self.cross(alloc, &errand)?;
        Ok(())
    }

    /// The classes before the stage pass the part, whose boxes lie in an arena of its own.
    fn run_part(
        &mut self,
        alloc: Global,
        purpose: &Purpose<'_>,
        stage: Stage,
        part: Part,
    ) -> Result<(), Memory>
        requires sheet { IsSheet self.old }
        requires sound { IsSound purpose.now.site.now }
        requires ways { AreWaysOf purpose.now.site.now purpose.now.ways.now }
        requires tops { tops_in self.old ≡ tops_of purpose.now.site.now }
        requires part { part_ok purpose.now.code.now part ≡ true }
        requires between { (n : ℕ) → stands is_inside self.old.roll.classes.items n ≡ false }
        ensures sheet { OnOk result (IsSheet self.new) }
        ensures tops { tops_in self.new ≡ tops_in self.old }
        ensures between { OnOk result ((n : ℕ) → stands is_inside self.new.roll.classes.items n ≡ false) }
        ensures meant { OnOk result (Becomes purpose.now.site.now self.old self.new (through_part purpose.now.code.now purpose.now.site.now purpose.now.state stage part)) }
    {
        let bump = Bump::new(alloc);
        self.run_part_in(alloc, &bump, purpose, stage, part)?;
        Ok(())
    }

    /// The classes before the stage pass its parts.
    pub(crate) fn run(
        &mut self,
        alloc: Global,
        purpose: &Purpose<'_>,
        stage: Stage,
        parts: &[Part],
    ) -> Result<(), Memory>
        requires sheet { IsSheet self.old }
        requires sound { IsSound purpose.now.site.now }
        requires ways { AreWaysOf purpose.now.site.now purpose.now.ways.now }
        requires tops { tops_in self.old ≡ tops_of purpose.now.site.now }
        requires parts { list_all (part_ok purpose.now.code.now) parts.now ≡ true }
        requires between { (n : ℕ) → stands is_inside self.old.roll.classes.items n ≡ false }
        ensures sheet { OnOk result (IsSheet self.new) }
        ensures tops { tops_in self.new ≡ tops_in self.old }
        ensures between { OnOk result ((n : ℕ) → stands is_inside self.new.roll.classes.items n ≡ false) }
        ensures meant { OnOk result (Becomes purpose.now.site.now self.old self.new (through_parts purpose.now.code.now purpose.now.site.now purpose.now.state stage parts.now)) }
    {
        for part in parts {
            self.run_part(alloc, purpose, stage, *part)?;
        }
        Ok(())
    }
}
