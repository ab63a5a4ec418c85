//! A configuration in three forms: as it was read, as a control diagram, and as flat code.

ghost use Rattle.fws_net.specs.Routes.{IsSound};

use crate::languages::{Config, walk_config};
use fws_flat::Flat;
use fws_flat::model::walk_packet as walk_flat;
use fws_ifcl::Ifcl;
use fws_ifcl::model::walk_packet as walk_diagram;
use fws_net::{Kind, Outcome, Packet, Site};
use fws_num::Memory;
use std::alloc::Global;

/// A configuration, its diagram and the flat code.
#[derive(Clone, Copy)]
pub struct Forms<'a> {
    /// The configuration.
    pub config: Config<'a>,
    /// The diagram.
    pub diagram: &'a Ifcl,
    /// The flat code.
    pub flat: &'a Flat,
}

impl Forms<'_> {
    /// What becomes of a packet of a class, where the three forms agree.
    pub fn walk(
        &self,
        alloc: Global,
        site: &Site,
        packet: &Packet,
        kind: &Kind,
    ) -> Result<Option<Outcome>, Memory>
        requires { IsSound site.now }
    {
        let outcome = walk_config(alloc, self.config, site, packet, kind)?;
        let drawn = walk_diagram(alloc, self.diagram, site, packet, kind)?;
        let unfolded = walk_flat(alloc, self.flat, site, packet, kind)?;
        if outcome == drawn && outcome == unfolded {
            Ok(Some(outcome))
        } else {
            Ok(None)
        }
    }
}
