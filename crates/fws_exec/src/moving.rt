//! How the packets of called classes become those of others.

ghost use Rattle.std.specs.Prelude.{IfOk};
ghost use Rattle.fws_tree.specs.Building.{Extends};

use crate::going::Going;
use crate::hulls::{Change, note_change};
use crate::roll::Roll;
use fws_num::Memory;
use fws_tree::{Moves, Values};
use std::alloc::Global;
use std::collections::HashSet;

/// The packets of called classes go to those that stand where their labels lead. Such a class is added when it is
/// needed.
#[derive(Drop)]
pub(crate) struct Moving<'a> {
    /// Memory.
    pub alloc: Global,
    /// The classes.
    pub roll: &'a mut Roll,
    /// Where packets go.
    pub going: Going,
    /// The numbers of the called classes.
    pub called: &'a HashSet<u32>,
    /// How packets changed their classes so far.
    pub changes: &'a mut Vec<Change>,
}

impl Moves for Moving<'_> {
    ghost use Rattle.std.specs.Prelude.{◌≡◌, nat_eq};
    ghost use Rattle.std.specs.HashSet.{contains};
    ghost use Rattle.std.proofs.Common.{refl, sym, ◌∙◌, subst};
    ghost use Rattle.fws_exec.specs.Hulls.{IsChange, NotesStay};
    ghost use Rattle.fws_exec.specs.Moving.{IsMoved, IsGrown};
    ghost use Rattle.fws_exec.specs.MovingLaws.{grown-same, grown-then};

    ghost moves = { λ s x l z. IsMoved s.going (contains nat_eq s.called.now) s.roll.now.classes.items x l z × IsChange (contains nat_eq s.called.now) s.changes.now.items x z };

    ghost later = { λ s t. (s.going ≡ t.going) × (s.called.now ≡ t.called.now) × IsGrown s.going s.roll.now.classes.items t.roll.now.classes.items × (s.roll.ghost_name ≡ t.roll.ghost_name) × NotesStay s.changes.now.items t.changes.now.items × (s.changes.ghost_name ≡ t.changes.ghost_name) };

    fn moved(&mut self, values: &mut Values, value: u32, label: u32) -> Result<u32, Memory> {
        if !self.called.contains(&value) {
            return Ok(value);
        }
        let class = self.roll.gone(self.alloc, self.going, value, label)?;
        let number = self.roll.target(values, class)?;
        note_change(self.changes, value, number)?;
        Ok(number)
    }

    ghost same = { λ s. (refl, refl, grown-same s.going s.roll.now.classes.items, refl, λ x z h. h, refl) };

    ghost then = { λ s t u e f. (e.0 ∙ f.0, e.1 ∙ f.1, grown-then s.going s.roll.now.classes.items t.roll.now.classes.items u.roll.now.classes.items e.2 (subst (λ g. IsGrown g t.roll.now.classes.items u.roll.now.classes.items) (sym e.0) f.2), e.3 ∙ f.3, λ x z h. f.4 x z (e.4 x z h), e.5 ∙ f.5) };
}
