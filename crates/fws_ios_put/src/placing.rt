//! Tables placed.

ghost use Rattle.std.specs.Prelude.{◌≡◌, Err, IfOk, OnOk};
ghost use Rattle.fws_net.specs.Routes.{IsSound};
ghost use Rattle.fws_net.specs.SiteLaws.{IsOrderly};
ghost use Rattle.fws_net.specs.declared.packet.Lang.TheVariants as langs;
ghost use Rattle.fws_place.specs.Fits.{Fits, IsBreach};
ghost use Rattle.fws_tree.specs.Regular.{AreRegular};
ghost use Rattle.fws_ios_put.specs.Choices.{TellsKnown, TellsNew};
ghost use Rattle.fws_ios_put.specs.Placed.{IsPlaced};

use crate::drafting::drafted;
use crate::leading::leaders_of;
use crate::telling::{known_tree, new_tree};
use fws_ios::IosConfig;
use fws_net::{Lang, Site};
use fws_num::Memory;
use fws_place::{
    Breach, PlaceAnswer, check, ios_accepted_go_on, ios_ack_ahead, ios_established_by_ack,
    ios_host_passes, ios_keeps_new_packets, ios_new_by_ack, ios_pairs_are_told,
    lost_pairs_are_dropped,
};
use fws_rules::orderly_sites_are_named;
use fws_tree::{Tables, Tree};
use std::alloc::Global;

/// The configuration of tables that fit, by what trees tell of new packets and of those that are accepted in some connection. Fails
/// if memory runs out.
fn put_told(
    alloc: Global,
    site: &Site,
    t: &Tables,
    new: &Tree<bool>,
    known: &Tree<bool>,
) -> Result<IosConfig, Memory>
    requires sound { IsSound site.now }
    requires orderly { IsOrderly site.now }
    requires regular { AreRegular site.now t.now }
    requires fits { Fits langs.Ios site.now t.now }
    requires new { TellsNew site.now t.now new.now }
    requires known { TellsKnown site.now t.now known.now }
    ensures { IfOk result (IsPlaced site.now t.now) }
{
    ios_accepted_go_on();
    ios_ack_ahead();
    ios_established_by_ack();
    ios_host_passes();
    ios_keeps_new_packets();
    ios_new_by_ack();
    ios_pairs_are_told();
    lost_pairs_are_dropped();
    orderly_sites_are_named();
    let leaders = leaders_of(alloc, new, known, site.faces.len() as u8 + 1)?;
    let config = drafted(alloc, site, t, new, known, leaders.as_slice())?;
    Ok(config)
}

/// The configuration of tables that fit, by what a tree tells of new packets. Fails if memory runs out.
fn put_new(alloc: Global, site: &Site, t: &Tables, new: &Tree<bool>) -> Result<IosConfig, Memory>
    requires sound { IsSound site.now }
    requires orderly { IsOrderly site.now }
    requires regular { AreRegular site.now t.now }
    requires fits { Fits langs.Ios site.now t.now }
    requires new { TellsNew site.now t.now new.now }
    ensures { IfOk result (IsPlaced site.now t.now) }
{
    let known = known_tree(alloc, site, t)?;
    put_told(alloc, site, t, new, &known)
}

/// The configuration of tables that fit. Fails if memory runs out.
fn put_tables(alloc: Global, site: &Site, t: &Tables) -> Result<IosConfig, Memory>
    requires sound { IsSound site.now }
    requires orderly { IsOrderly site.now }
    requires regular { AreRegular site.now t.now }
    requires fits { Fits langs.Ios site.now t.now }
    ensures { IfOk result (IsPlaced site.now t.now) }
{
    let new = new_tree(alloc, site, t)?;
    put_new(alloc, site, t, &new)
}

/// The configuration of Cisco IOS that does with every packet of the site what the tables say; or the first clause of
/// IOS's placement condition that they don't meet, with packets that show so.
pub fn place(alloc: Global, t: &Tables, site: &Site) -> Result<IosConfig, PlaceAnswer>
    requires sound { IsSound site.now }
    requires orderly { IsOrderly site.now }
    requires regular { AreRegular site.now t.now }
    ensures fits { OnOk result (Fits langs.Ios site.now t.now) }
    ensures placed { IfOk result (IsPlaced site.now t.now) }
    ensures breach { (b : Breach) → result ≡ Err (PlaceAnswer.Unfit b) → IsBreach langs.Ios site.now t.now b }
{
    check(alloc, Lang::Ios, t, site)?;
    let config = put_tables(alloc, site, t)?;
    Ok(config)
}
