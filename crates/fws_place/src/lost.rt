//! Trees over pairs without those that are lost.

ghost use Rattle.std.specs.Prelude.{◌≡◌, false, ◌&&◌, not, IfOk};
ghost use Rattle.fws_box.specs.declared.field.Field.TheVariants as fields;
ghost use Rattle.fws_net.specs.Points.{tops_of};
ghost use Rattle.fws_net.specs.Routes.{IsSound, is_local};
ghost use Rattle.fws_tree.specs.Plain.{value};
ghost use Rattle.fws_box.specs.Fields.{value_of};
ghost use Rattle.fws_place.specs.Kept.{HasNoLost, HaveWhere};
ghost use Rattle.fws_place.specs.ByAck.{arrives_at};

use fws_box::{Field, whole_sides};
use fws_iv::{Ivs, one};
use fws_net::{Site, local_set, tops};
use fws_num::Memory;
use fws_tree::Tree;
use std::alloc::Global;

/// The sides of the pairs that arrive for another host. Fails if memory runs out.
pub(crate) fn passing_sides(alloc: Global, site: &Site) -> Result<[Ivs; 12], Memory>
    requires { IsSound site.now }
    ensures { IfOk result (HaveWhere (tops_of site.now) (λ p. arrives_at p && not (is_local site.now (value_of p fields.SentDst)))) }
{
    let tops = tops(site);
    let mut sides = whole_sides(alloc, &tops)?;
    sides[Field::Entry as usize] = one(alloc, 1, tops[Field::Entry as usize])?;
    let local = local_set(alloc, site)?;
    sides[Field::SentDst as usize] = one(alloc, 0, u32::MAX)?.minus(alloc, &local)?;
    Ok(sides)
}

/// The tree that is false at lost pairs and this tree elsewhere. Fails if memory runs out.
pub(crate) fn without_lost(
    alloc: Global,
    site: &Site,
    tree: Tree<bool>,
) -> Result<Tree<bool>, Memory>
    requires sound { IsSound site.now }
    requires tops { tree.0 ≡ tops_of site.now }
    ensures tops { IfOk result (λ t. t.0 ≡ tops_of site.now) }
    ensures value { IfOk result (λ t. HasNoLost site.now tree.1 t.1) }
{
    if site.forwarding {
        return Ok(tree);
    }
    let sides = passing_sides(alloc, site)?;
    tree.paint(alloc, &sides, false)
}
