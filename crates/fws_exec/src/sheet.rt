//! Classes of packets, and the class of each point.

ghost use Rattle.std.specs.Prelude.{◌≡◌, nat_eq, ℕ, OnOk};
ghost use Rattle.std.specs.HashSet.{contains};
ghost use Rattle.fws_tree.specs.Marks.{mark_at};
ghost use Rattle.fws_exec.specs.Divided.{AreMoved};
ghost use Rattle.fws_exec.specs.Moving.{IsGrown};
ghost use Rattle.fws_exec.specs.Sheets.{among, tops_in, IsSheet};

use crate::called::{bits_of, called_of, have_bits};
use crate::going::Going;
use crate::hull::Hull;
use crate::hulls::settle;
use crate::moving::Moving;
use crate::roll::Roll;
use fws_num::Memory;
use fws_tree::{Canvas, Mark};
use std::alloc::Global;
use std::collections::HashSet;

/// Classes of packets, by number, and a canvas with the number of each point's class.
#[derive(Drop)]
pub(crate) struct Sheet {
    /// The number of each point's class. It has a value more than there are classes: labels are numbers too, of which the first
    /// one is 1, and what nobody told the canvas of has all bits.
    pub canvas: Canvas,
    /// The classes.
    pub roll: Roll,
    /// Hulls of the classes, by number: each point lies in that of its class.
    pub hulls: Vec<Hull>,
    /// For each instruction of the code whether some packet was found that uses it; for none where nobody asks for uses.
    pub reached: Vec<bool>,
}

impl Sheet {
    /// The points of the called classes, whose numbers are these, go where their labels send them, as far as they have some.
    fn move_called(
        &mut self,
        alloc: Global,
        numbers: &[u32],
        called: &HashSet<u32>,
        marks: &[Mark<'_>],
        going: Going,
    ) -> Result<(), Memory>
        requires sheet { IsSheet self.old }
        requires called { (n : ℕ) → contains nat_eq called.now n ≡ among numbers.now n }
        ensures sheet { OnOk result (IsSheet self.new) }
        ensures moved { OnOk result (AreMoved going (among numbers.now) (λ g p. mark_at marks.now 0 p) self.old self.new) }
        ensures grown { OnOk result (IsGrown going self.old.roll.classes.items self.new.roll.classes.items) }
        ensures tops { tops_in self.new ≡ tops_in self.old }
        ensures reached { self.new.reached ≡ self.old.reached }
    {
        let wanted = bits_of(self.canvas.values(), numbers);
        if !have_bits(self.canvas.values(), numbers, wanted) {
            return Err(Memory);
        }
        let mut changes = Vec::new(alloc);
        let mut moving = Moving {
            alloc,
            roll: &mut self.roll,
            going,
            called,
            changes: &mut changes,
        };
        self.canvas.recolour(alloc, marks, 0, wanted, &mut moving)?;
        let area = Hull::of_marks(marks);
        settle(&mut self.hulls, changes.as_slice(), &area)?;
        Ok(())
    }

    /// The points of the classes with these numbers go where their labels send them, as far as they have some.
    pub(crate) fn move_by(
        &mut self,
        alloc: Global,
        numbers: &[u32],
        marks: &[Mark<'_>],
        going: Going,
    ) -> Result<(), Memory>
        requires sheet { IsSheet self.old }
        ensures sheet { OnOk result (IsSheet self.new) }
        ensures moved { OnOk result (AreMoved going (among numbers.now) (λ g p. mark_at marks.now 0 p) self.old self.new) }
        ensures grown { OnOk result (IsGrown going self.old.roll.classes.items self.new.roll.classes.items) }
        ensures tops { tops_in self.new ≡ tops_in self.old }
        ensures reached { self.new.reached ≡ self.old.reached }
    {
        let called = called_of(alloc, numbers)?;
        self.move_called(alloc, numbers, &called, marks, going)?;
        Ok(())
    }
}
