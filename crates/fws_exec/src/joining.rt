//! How the packets of classes become those of equal ones.

ghost use Rattle.std.specs.Prelude.{◌≡◌, true, slice_get, IfOk};
ghost use Rattle.fws_tree.specs.Building.{Extends};
ghost use Rattle.fws_exec.specs.Joined.{has_twin};

use crate::roll::Roll;
use fws_num::Memory;
use fws_tree::{Moves, Values};

/// Whether the class with this number is to become its twin.
pub(crate) fn has_twin(twins: &[u32], number: u32) -> bool
    ensures { result ≡ has_twin twins.now number }
{
    match twins.get(number as usize) {
        Some(twin) => *twin != number,
        None => false,
    }
}

/// The packets of classes that have a twin become its packets.
#[derive(Drop)]
pub(crate) struct Joining<'a> {
    /// The classes.
    pub roll: &'a Roll,
    /// The twin of each class; its own number where it has none.
    pub twins: &'a [u32],
}

impl Roll {
    /// Whether the classes with these numbers are used and equal.
    pub(crate) fn are_twins(&self, twin: u32, number: u32) -> bool
        ensures { result ≡ true → slice_get self.now.classes.items twin ≡ slice_get self.now.classes.items number }
    {
        match self.classes.get(number as usize) {
            Some(class) => self.is_like(twin, class),
            None => false,
        }
    }
}

impl Moves for Joining<'_> {
    ghost use Rattle.std.specs.Prelude.{◌≡◌};
    ghost use Rattle.std.proofs.Common.{refl, ◌∙◌};
    ghost use Rattle.fws_exec.specs.Joined.{IsJoined};

    ghost moves = { λ s x l z. IsJoined s.twins.now s.roll.now.classes.items x z };

    ghost later = { λ s t. (s.twins.now ≡ t.twins.now) × (s.roll.now ≡ t.roll.now) };

    fn moved(&mut self, _values: &mut Values, value: u32, _label: u32) -> Result<u32, Memory> {
        if !has_twin(self.twins, value) {
            return Ok(value);
        }
        let twin = match self.twins.get(value as usize) {
            Some(twin) => *twin,
            None => return Err(Memory),
        };
        if has_twin(self.twins, twin) || !self.roll.are_twins(twin, value) {
            return Err(Memory);
        }
        Ok(twin)
    }

    ghost same = { λ s. (refl, refl) };

    ghost then = { λ s t u e f. (e.0 ∙ f.0, e.1 ∙ f.1) };
}
