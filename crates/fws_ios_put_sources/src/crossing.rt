//! New packets that cross from the inside to the outside.

ghost use Rattle.std.specs.Prelude.{◌≡◌, ℕ, List, IfOk};
ghost use Rattle.fws_box.specs.Sides.{IsWithin, sides_have};
ghost use Rattle.fws_ios_put_sources.specs.Crossing.{IsCrossing};
ghost use Rattle.fws_ios_put_sources.specs.Sources.{crosses};
ghost use Rattle.fws_net.specs.Points.{packet_of, tops_of};
ghost use Rattle.fws_net.specs.Routes.{IsSound};

use crate::sides::{entries_on, sent_outside};
use fws_box::{Field, whole_sides};
use fws_iv::Ivs;
use fws_net::{Outcome, Site, tops};
use fws_num::Memory;
use fws_tree::{Tables, Tree};
use std::alloc::Global;

// The sides of packets that cross. Fails if memory runs out.
fn crossing_sides(alloc: Global, site: &Site) -> Result<[Ivs; 12], Memory>
    requires { IsSound site.now }
    ensures { IfOk result (λ sides. (x : List ℕ) → IsWithin (tops_of site.now) x → sides_have sides x ≡ crosses site.now (packet_of x)) }
{
    let tops = tops(site);
    let mut sides = whole_sides(alloc, &tops)?;
    sides[Field::Entry as usize] = entries_on(alloc, site, false)?;
    sides[Field::Dst as usize] = sent_outside(alloc, site)?;
    Ok(sides)
}

/// The outcomes of new packets, where others than those that cross are dropped. Fails if memory runs out.
pub(crate) fn crossing(alloc: Global, site: &Site, tables: &Tables) -> Result<Tree<Outcome>, Memory>
    requires sound { IsSound site.now }
    requires tops { tables.now.fresh.0 ≡ tops_of site.now }
    ensures tops { IfOk result (λ t. t.0 ≡ tops_of site.now) }
    ensures value { IfOk result (λ t. IsCrossing site.now tables.now t.1) }
{
    let sides = crossing_sides(alloc, site)?;
    tables.fresh.restrict(alloc, &sides, Outcome::Drop)
}
