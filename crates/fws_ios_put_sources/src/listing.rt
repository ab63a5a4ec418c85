//! The translations of tables that fit Cisco IOS.

ghost use Rattle.std.specs.Prelude.{◌≡◌, IfOk};
ghost use Rattle.fws_ios_put_sources.specs.Crossing.{AreTold};
ghost use Rattle.fws_ios_put_sources.specs.Lists.{AreTranslations};
ghost use Rattle.fws_ios_put_sources.specs.Sources.{IsSources};
ghost use Rattle.fws_net.specs.Points.{tops_of};
ghost use Rattle.fws_net.specs.Routes.{IsSound};
ghost use Rattle.fws_net.specs.declared.packet.Lang.TheVariants as langs;
ghost use Rattle.fws_place.specs.Fits.{Fits};
ghost use Rattle.fws_tree.specs.Regular.{AreRegular};

use crate::addresses::addresses;
use crate::crossing::crossing;
use crate::lists::lists_of;
use crate::translations::Sources;
use fws_net::{Outcome, Site};
use fws_num::{Memory, addresses_are_dotted, quads_are_dotted};
use fws_place::{ios_keeps_new_packets, ios_sources_agree};
use fws_tree::{Tables, Tree};
use std::alloc::Global;

// The translations of the packets that cross. Fails if memory runs out.
fn translations_of(alloc: Global, site: &Site, crossing: &Tree<Outcome>) -> Result<Sources, Memory>
    requires sound { IsSound site.now }
    requires tops { crossing.now.0 ≡ tops_of site.now }
    requires told { AreTold crossing.now.0 crossing.now.1 }
    ensures { IfOk result (AreTranslations site.now crossing.now.1) }
{
    quads_are_dotted();
    addresses_are_dotted();
    let addrs = addresses(alloc, crossing)?;
    let _count = addrs.len();
    lists_of(alloc, site, crossing, &addrs)
}

/// Translation lists for the sources of tables: one for each source that new packets get. A packet gets that of the first list that
/// permits it. Fails if memory runs out.
pub fn sources_of(alloc: Global, tables: &Tables, site: &Site) -> Result<Sources, Memory>
    requires sound { IsSound site.now }
    requires regular { AreRegular site.now tables.now }
    requires fits { Fits langs.Ios site.now tables.now }
    ensures { IfOk result (IsSources site.now tables.now) }
{
    ios_keeps_new_packets();
    ios_sources_agree();
    let crossing = crossing(alloc, site, tables)?;
    translations_of(alloc, site, &crossing)
}
