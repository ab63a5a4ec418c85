//! Where TCP flags are set.

ghost use Rattle.std.specs.Prelude.{◌≡◌, ◌<◌, ◌&&◌, not, ℕ, List, true, length, nat_eq, bit_and, IfOk};
ghost use Rattle.fws_box.specs.Boxes.{sides_of};
ghost use Rattle.fws_box.specs.Fields.{value_of};
ghost use Rattle.fws_box.specs.Sides.{sides_have};
ghost use Rattle.fws_box_conditions.specs.Areas.{AreWhere};

use crate::field_boxes::carried_boxes;
use crate::numbers::TCP;
use crate::sets::{flags_among, flags_like};
use bumpalo::Bump;
use fws_box::{Field, PBox};
use fws_num::Memory;
use std::alloc::Global;

/// Where the protocol is TCP, and of the flags in the mask just the wanted ones are set.
pub(crate) fn flag_boxes<'b>(
    alloc: Global,
    bump: &'b Bump,
    mask: u8,
    want: u8,
    area: &PBox<'b>,
) -> Result<Vec<PBox<'b>>, Memory>
    requires { (p : List ℕ) → length p ≡ 12 → sides_have (sides_of area.now) p ≡ true → value_of p Field.Flags < 64 }
    ensures { IfOk result (λ boxes. AreWhere (sides_of area.now) (λ p. nat_eq (value_of p Field.Proto) 6 && nat_eq (bit_and (value_of p Field.Flags) mask) want) boxes.items) }
{
    carried_boxes(
        alloc,
        bump,
        TCP,
        Field::Flags,
        &flags_like(alloc, mask, want)?,
        area,
    )
}

/// Where the protocol is TCP, and one of the flags in the mask is set.
pub(crate) fn any_flag_boxes<'b>(
    alloc: Global,
    bump: &'b Bump,
    mask: u8,
    area: &PBox<'b>,
) -> Result<Vec<PBox<'b>>, Memory>
    requires { (p : List ℕ) → length p ≡ 12 → sides_have (sides_of area.now) p ≡ true → value_of p Field.Flags < 64 }
    ensures { IfOk result (λ boxes. AreWhere (sides_of area.now) (λ p. nat_eq (value_of p Field.Proto) 6 && not (nat_eq (bit_and (value_of p Field.Flags) mask) 0)) boxes.items) }
{
    carried_boxes(
        alloc,
        bump,
        TCP,
        Field::Flags,
        &flags_among(alloc, mask)?,
        area,
    )
}
