//! Tables placed.

ghost use Rattle.std.specs.Prelude.{◌≡◌, Err, IfOk, OnOk};
ghost use Rattle.fws_net.specs.Routes.{IsSound};
ghost use Rattle.fws_net.specs.declared.packet.Lang.TheVariants as langs;
ghost use Rattle.fws_place.specs.Fits.{Fits, IsBreach};
ghost use Rattle.fws_tree.specs.Regular.{AreRegular};
ghost use Rattle.fws_pf_put.specs.Placed.{IsPlaced};

use crate::drafting::drafted;
use crate::renumbering::renumbered;
use fws_net::{Lang, Site};
use fws_num::Memory;
use fws_pf::PfConfig;
use fws_place::{Breach, PlaceAnswer, check};
use fws_tree::Tables;
use std::alloc::Global;

/// The configuration of tables that fit. Fails if memory runs out.
fn put_tables(alloc: Global, site: &Site, t: &Tables) -> Result<PfConfig, Memory>
    requires sound { IsSound site.now }
    requires regular { AreRegular site.now t.now }
    requires fits { Fits langs.Pf site.now t.now }
    ensures { IfOk result (IsPlaced site.now t.now) }
{
    let draft = drafted(alloc, site, t)?;
    let config = renumbered(alloc, &draft)?;
    Ok(config)
}

/// The configuration of pf that does with every packet of the site what the tables say; or the first clause of
/// pf's placement condition that they don't meet, with packets that show so.
pub fn place(alloc: Global, t: &Tables, site: &Site) -> Result<PfConfig, PlaceAnswer>
    requires sound { IsSound site.now }
    requires regular { AreRegular site.now t.now }
    ensures fits { OnOk result (Fits langs.Pf site.now t.now) }
    ensures placed { IfOk result (IsPlaced site.now t.now) }
    ensures breach { (b : Breach) → result ≡ Err (PlaceAnswer.Unfit b) → IsBreach langs.Pf site.now t.now b }
{
    check(alloc, Lang::Pf, t, site)?;
    let config = put_tables(alloc, site, t)?;
    Ok(config)
}
