//! Where addresses, as they stand, are in a set.

ghost use Rattle.std.specs.Prelude.{◌≡◌, ◌<◌, ◌+◌, ◌-◌, ◌%◌, ◌^◌, ◌&&◌, ℕ, IfOk};
ghost use Rattle.fws_iv.specs.Ivs.{has};
ghost use Rattle.fws_box.specs.Boxes.{sides_of};
ghost use Rattle.fws_box.specs.Fields.{value_of};
ghost use Rattle.fws_box_conditions.specs.Scenes.{standing_addr};
ghost use Rattle.fws_box_conditions.specs.Areas.{AreWhere};

use crate::field_boxes::field_boxes;
use crate::members::standing_members;
use crate::scene::Standing;
use bumpalo::Bump;
use fws_box::{Field, PBox};
use fws_iv::Ivs;
use fws_net::End;
use fws_num::Memory;
use std::alloc::Global;

/// Where the address of the field, with the end written over it, is in the set.
fn written_boxes<'b>(
    alloc: Global,
    bump: &'b Bump,
    end: End,
    field: Field,
    set: &Ivs,
    area: &PBox<'b>,
) -> Result<Vec<PBox<'b>>, Memory>
    ensures low { IfOk result (λ boxes. (a : ℕ) → end.addr + a % 2 ^ (32 - end.len) < 2 ^ 32) }
    ensures held { IfOk result (λ boxes. AreWhere (sides_of area.now) (λ p. has set.now (end.addr + value_of p field % 2 ^ (32 - end.len))) boxes.items) }
{
    let members = standing_members(alloc, area.side(field), end, set)?;
    field_boxes(alloc, bump, field, &members, area)
}

/// Where an address is in the set as it stands: it entered as one field and is sent as the other.
pub(crate) fn address_boxes<'b>(
    alloc: Global,
    bump: &'b Bump,
    standing: Standing,
    entered: Field,
    sent: Field,
    set: &Ivs,
    area: &PBox<'b>,
) -> Result<Vec<PBox<'b>>, Memory>
    ensures low { IfOk result (λ boxes. (a r : ℕ) → a < 2 ^ 32 → r < 2 ^ 32 → standing_addr standing a r < 2 ^ 32) }
    ensures held { IfOk result (λ boxes. AreWhere (sides_of area.now) (λ p. has set.now (standing_addr standing (value_of p entered) (value_of p sent))) boxes.items) }
{
    match standing {
        Standing::Entered => field_boxes(alloc, bump, entered, set, area),
        Standing::Written(end) => written_boxes(alloc, bump, end, entered, set, area),
        Standing::Tracked => field_boxes(alloc, bump, sent, set, area),
    }
}
