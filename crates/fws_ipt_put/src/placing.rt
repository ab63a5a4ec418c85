//! Tables placed.

ghost use Rattle.std.specs.Prelude.{◌≡◌, ◌<◌, Err, IfOk, OnOk};
ghost use Rattle.fws_net.specs.Points.{tops_of};
ghost use Rattle.fws_net.specs.Routes.{IsSound};
ghost use Rattle.fws_net.specs.declared.packet.Lang.TheVariants as langs;
ghost use Rattle.fws_place.specs.Fits.{Fits, IsBreach};
ghost use Rattle.fws_place.specs.Seen.{IsAcceptedAlike, IsAcceptedSomewhere, Tells};
ghost use Rattle.fws_tree.specs.Regular.{AreRegular};
ghost use Rattle.fws_tree_seen.specs.SightLaws.{HasImages};
ghost use Rattle.fws_ipt_put.specs.Marks.{AreMarks, passing, verdict_of};
ghost use Rattle.fws_ipt_put.specs.Placed.{IsPlaced};

use crate::chains::drafted;
use crate::choices::{Decisions, labelled};
use crate::drafting::filled;
use crate::marking::{Marks, marks_for};
use fws_ipt::IptConfig;
use fws_ipt_put_chains::Verdict;
use fws_net::{Lang, Outcome, Site};
use fws_num::Memory;
use fws_place::{
    Breach, PlaceAnswer, Views, check, fitting_pairs_are_told, lost_pairs_are_dropped,
    points_are_seen, seen, views_are_told,
};
use fws_tree::Tables;
use fws_tree_seen::relabelled_trees_are_told;
use std::alloc::Global;

/// The configuration of tables that fit, by what is decided in place of what they hold. Fails if memory runs out.
fn put_decisions(
    alloc: Global,
    site: &Site,
    _t: &Tables,
    _views: &Views,
    known: &Marks,
    trees: &Decisions,
) -> Result<IptConfig, Memory>
    requires sound { IsSound site.now }
    requires regular { AreRegular site.now _t.now }
    requires fits { Fits langs.Iptables site.now _t.now }
    requires packet_tops { _views.now.packet.0 ≡ tops_of site.now }
    requires behind_tops { _views.now.behind.0 ≡ tops_of site.now }
    requires packet { Tells site.now (λ p r. IsAcceptedSomewhere site.now _t.now p) _views.now.packet.1 }
    requires behind { Tells site.now (IsAcceptedAlike site.now _t.now) _views.now.behind.1 }
    requires known { AreMarks _t.now.fresh.0 _t.now.fresh.1 known.now.rewrites.keys known.now.marks.items }
    requires entering_tops { trees.now.entering.0 ≡ _views.now.packet.0 }
    requires news_tops { trees.now.news.0 ≡ _t.now.fresh.0 }
    requires routed_tops { trees.now.routed.0 ≡ _views.now.behind.0 }
    requires entering { HasImages _views.now.packet.0 passing _views.now.packet.1 trees.now.entering.1 }
    requires news { HasImages _t.now.fresh.0 (verdict_of known.now.rewrites.keys) _t.now.fresh.1 trees.now.news.1 }
    requires routed { HasImages _views.now.behind.0 passing _views.now.behind.1 trees.now.routed.1 }
    ensures { IfOk result (IsPlaced site.now _t.now) }
{
    fitting_pairs_are_told();
    lost_pairs_are_dropped();
    points_are_seen();
    views_are_told();
    relabelled_trees_are_told::<bool, Verdict>();
    relabelled_trees_are_told::<Outcome, Verdict>();
    let marks = known.marks.as_slice();
    if marks.len() > 4_000_000_000 {
        return Err(Memory);
    }
    let draft = drafted(
        alloc,
        site,
        &trees.entering,
        &trees.news,
        &trees.routed,
        marks,
    )?;
    let _count = draft.chains.len();
    let chains = filled(alloc, site, draft)?;
    Ok(IptConfig { chains })
}

/// The configuration of tables that fit, by the marks of their rewritings. Fails if memory runs out.
fn put_marked(
    alloc: Global,
    site: &Site,
    t: &Tables,
    views: &Views,
    known: &Marks,
) -> Result<IptConfig, Memory>
    requires sound { IsSound site.now }
    requires regular { AreRegular site.now t.now }
    requires fits { Fits langs.Iptables site.now t.now }
    requires packet_tops { views.now.packet.0 ≡ tops_of site.now }
    requires behind_tops { views.now.behind.0 ≡ tops_of site.now }
    requires packet { Tells site.now (λ p r. IsAcceptedSomewhere site.now t.now p) views.now.packet.1 }
    requires behind { Tells site.now (IsAcceptedAlike site.now t.now) views.now.behind.1 }
    requires known { AreMarks t.now.fresh.0 t.now.fresh.1 known.now.rewrites.keys known.now.marks.items }
    ensures { IfOk result (IsPlaced site.now t.now) }
{
    let trees = labelled(alloc, &t.fresh, views, &known.rewrites)?;
    put_decisions(alloc, site, t, views, known, &trees)
}

/// The configuration of tables that fit, by what rules see of established packets. Fails if memory runs out.
fn put_tables(alloc: Global, site: &Site, t: &Tables, views: &Views) -> Result<IptConfig, Memory>
    requires sound { IsSound site.now }
    requires regular { AreRegular site.now t.now }
    requires fits { Fits langs.Iptables site.now t.now }
    requires packet_tops { views.now.packet.0 ≡ tops_of site.now }
    requires behind_tops { views.now.behind.0 ≡ tops_of site.now }
    requires packet { Tells site.now (λ p r. IsAcceptedSomewhere site.now t.now p) views.now.packet.1 }
    requires behind { Tells site.now (IsAcceptedAlike site.now t.now) views.now.behind.1 }
    ensures { IfOk result (IsPlaced site.now t.now) }
{
    let known = marks_for(alloc, &t.fresh)?;
    put_marked(alloc, site, t, views, &known)
}

/// The configuration of iptables that does with every packet of the site what the tables say; or the first clause of
/// iptables' placement condition that they don't meet, with packets that show so.
pub fn place(alloc: Global, t: &Tables, site: &Site) -> Result<IptConfig, PlaceAnswer>
    requires sound { IsSound site.now }
    requires regular { AreRegular site.now t.now }
    ensures fits { OnOk result (Fits langs.Iptables site.now t.now) }
    ensures placed { IfOk result (IsPlaced site.now t.now) }
    ensures breach { (b : Breach) → result ≡ Err (PlaceAnswer.Unfit b) → IsBreach langs.Iptables site.now t.now b }
{
    check(alloc, Lang::Iptables, t, site)?;
    let views = seen(alloc, site, t)?;
    let config = put_tables(alloc, site, t, &views)?;
    Ok(config)
}
