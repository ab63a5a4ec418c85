//! The destinations of a site as sets.

ghost use Rattle.std.specs.Prelude.{IfOk};
ghost use Rattle.fws_net.specs.Routes.{IsSound};
ghost use Rattle.fws_box_conditions.specs.Ways.{AreWaysOf};

use fws_iv::Ivs;
use fws_net::{Site, local_set, route_set};
use fws_num::{Items, Memory};
use std::alloc::Global;

/// The destinations of a site as sets, which are made once for many conditions.
#[derive(Drop)]
pub struct Ways {
    /// The local addresses.
    pub local: Ivs,
    /// For each entry number, up to that of the last interface, the addresses that are routed to it.
    pub routed: Items<Ivs>,
}

impl Ways {
    /// The sets of the site. The time grows with the number of interfaces times that of routes. Fails if memory runs out.
    pub fn of_site(alloc: Global, site: &Site) -> Result<Ways, Memory>
        requires { IsSound site.now }
        ensures { IfOk result (λ ways. AreWaysOf site.now ways) }
    {
        let past = site.faces.as_slice().len() as u8 + 2;
        let mut routed = Items::new(alloc);
        for entry in 0..past {
            routed.put(route_set(alloc, site, entry)?)?;
        }
        Ok(Ways {
            local: local_set(alloc, site)?,
            routed,
        })
    }
}
