//! The area from which execution starts.

ghost use Rattle.std.specs.Prelude.{◌≡◌, IfOk};
ghost use Rattle.fws_box.specs.Boxes.{sides_of};
ghost use Rattle.fws_box.specs.Sides.{whole_sides};
ghost use Rattle.fws_net.specs.Points.{tops_of};
ghost use Rattle.fws_net.specs.Routes.{IsSound};
ghost use Rattle.fws_box_conditions.specs.Areas.{IsOfSite};

use bumpalo::Bump;
use fws_box::{PBox, full};
use fws_net::{Site, tops};
use fws_num::Memory;

/// The box of all points of the site. Fails if memory runs out.
pub fn whole_site<'b>(bump: &'b Bump, site: &Site) -> Result<PBox<'b>, Memory>
    requires { IsSound site.now }
    ensures whole { IfOk result (λ b. sides_of b ≡ whole_sides (tops_of site.now)) }
    ensures within { IfOk result (λ b. IsOfSite site.now (sides_of b)) }
{
    full(bump, &tops(site))
}
