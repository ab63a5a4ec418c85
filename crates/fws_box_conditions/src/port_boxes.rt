//! Where ports, as they stand, are in a set.

ghost use Rattle.std.specs.Prelude.{◌<◌, ◌&&◌, IfOk};
ghost use Rattle.fws_iv.specs.Ivs.{has};
ghost use Rattle.fws_box.specs.Boxes.{sides_of};
ghost use Rattle.fws_box.specs.Fields.{value_of};
ghost use Rattle.fws_net.specs.Fates.{has_ports};
ghost use Rattle.fws_box_conditions.specs.Kept.{AreThose};
ghost use Rattle.fws_box_conditions.specs.Ports.{carried_port};
ghost use Rattle.fws_box_conditions.specs.Scenes.{standing_port};
ghost use Rattle.fws_box_conditions.specs.Areas.{AreWhere};

use crate::field_boxes::field_boxes;
use crate::kept::{those_if, those_in};
use crate::scene::Standing;
use crate::sets::port_protocols;
use bumpalo::Bump;
use fws_box::{Field, PBox};
use fws_iv::Ivs;
use fws_num::Memory;
use std::alloc::Global;

/// Where a port of a protocol with ports is in the set as it stands: it entered as one field and is sent
/// as the other.
fn those_with_port<'b>(
    alloc: Global,
    bump: &'b Bump,
    boxes: Vec<PBox<'b>>,
    standing: Standing,
    entered: Field,
    sent: Field,
    set: &Ivs,
) -> Result<Vec<PBox<'b>>, Memory>
    ensures { IfOk result (λ kept. AreThose boxes.entry.items (λ p. has set.now (carried_port standing (value_of p entered) (value_of p sent))) kept.items) }
{
    match standing {
        Standing::Entered => those_in(alloc, bump, boxes, entered, set),
        Standing::Written(end) => match end.port {
            Some(port) => Ok(those_if(alloc, boxes, set.has(u32::from(port)))),
            None => those_in(alloc, bump, boxes, entered, set),
        },
        Standing::Tracked => those_in(alloc, bump, boxes, sent, set),
    }
}

/// Where the protocol has ports, and a port is in the set as it stands: it entered as one field and is sent
/// as the other.
pub(crate) fn port_boxes<'b>(
    alloc: Global,
    bump: &'b Bump,
    standing: Standing,
    entered: Field,
    sent: Field,
    set: &Ivs,
    area: &PBox<'b>,
) -> Result<Vec<PBox<'b>>, Memory>
    ensures { IfOk result (λ boxes. AreWhere (sides_of area.now) (λ p. has_ports (value_of p Field.Proto) && has set.now (standing_port standing (value_of p Field.Proto) (value_of p entered) (value_of p sent))) boxes.items) }
{
    let carrying = field_boxes(alloc, bump, Field::Proto, &port_protocols(alloc)?, area)?;
    those_with_port(alloc, bump, carrying, standing, entered, sent, set)
}
