//! Where values of fields are in a set.

ghost use Rattle.std.specs.Prelude.{◌≡◌, ◌<◌, ◌&&◌, nat_eq, IfOk};
ghost use Rattle.fws_iv.specs.Ivs.{has};
ghost use Rattle.fws_box.specs.Boxes.{sides_of};
ghost use Rattle.fws_box.specs.Fields.{value_of};
ghost use Rattle.fws_box_conditions.specs.Areas.{AreWhere};

use crate::kept::{all_of, those_in};
use crate::sets::single;
use bumpalo::Bump;
use fws_box::{Field, PBox};
use fws_iv::Ivs;
use fws_num::Memory;
use std::alloc::Global;

/// All of the area, or nothing of it.
pub(crate) fn all_if<'b>(alloc: Global, all: bool, area: &PBox<'b>) -> Result<Vec<PBox<'b>>, Memory>
    ensures { IfOk result (λ boxes. AreWhere (sides_of area.now) (λ p. all) boxes.items) }
{
    if all {
        all_of(alloc, area)
    } else {
        Ok(Vec::new(alloc))
    }
}

/// Where the value of the field is in the set.
pub(crate) fn field_boxes<'b>(
    alloc: Global,
    bump: &'b Bump,
    field: Field,
    set: &Ivs,
    area: &PBox<'b>,
) -> Result<Vec<PBox<'b>>, Memory>
    ensures { IfOk result (λ boxes. AreWhere (sides_of area.now) (λ p. has set.now (value_of p field)) boxes.items) }
{
    let all = all_of(alloc, area)?;
    those_in(alloc, bump, all, field, set)
}

/// Where the protocol is this one, and the value of the field is in the set.
pub(crate) fn carried_boxes<'b>(
    alloc: Global,
    bump: &'b Bump,
    proto: u32,
    field: Field,
    set: &Ivs,
    area: &PBox<'b>,
) -> Result<Vec<PBox<'b>>, Memory>
    ensures { IfOk result (λ boxes. AreWhere (sides_of area.now) (λ p. nat_eq (value_of p Field.Proto) proto && has set.now (value_of p field)) boxes.items) }
{
    let carrying = field_boxes(alloc, bump, Field::Proto, &single(alloc, proto)?, area)?;
    those_in(alloc, bump, carrying, field, set)
}
