//! The box of all points.

ghost use Rattle.std.specs.Prelude.{◌≡◌, IfOk};
ghost use Rattle.fws_box.specs.Boxes.{sides_of};
ghost use Rattle.fws_box.specs.Sides.{whole_sides};

use crate::pbox::PBox;
use crate::point::Point;
use bumpalo::Bump;
use fws_iv::Iv;
use fws_num::Memory;

/// The box of the points of which no value is past its top. Fails if memory runs out.
pub fn full<'b>(bump: &'b Bump, tops: &Point) -> Result<PBox<'b>, Memory>
    ensures { IfOk result (λ b. sides_of b ≡ whole_sides tops.now) }
{
    let mut sides: [&'b [Iv]; 12] = [&[]; 12];
    for k in 0..12 {
        let range = Iv { lo: 0, hi: tops[k] };
        sides[k] = bump.try_alloc_slice_copy(&[range])?;
    }
    Ok(PBox { sides })
}
