//! The numbers of which some bits are known.

ghost use Rattle.std.specs.Prelude.{◌≡◌, ◌<◌, ℕ, ◌+◌, ◌^◌, ◌&&◌, nat_eq, if◌then◌else◌};
ghost use Rattle.std.specs.Int.{bit_at};
ghost use Rattle.fws_iv.specs.Cubes.{cube_has, LeavesOpen};

/// The numbers below 64 that have the bits `want` among the bits `mask`.
#[derive(Clone, Copy, Debug, PartialEq, Eq)]
pub struct Cube {
    /// The bits that are tested, of the lowest six.
    pub mask: u8,
    /// Those of them that are 1; the other tested bits are 0.
    pub want: u8,
}

impl Cube {
    /// The half of the cube in which the bit of weight `2 ^ place` is 1 where that is wanted, else 0.
    pub(crate) fn half(self, place: u32, wanted: bool) -> Cube
        requires low { place < 6 }
        requires leaves { LeavesOpen (place + 1) self }
        ensures leaves { LeavesOpen place result }
        ensures members { (v : ℕ) → cube_has result v ≡ (cube_has self v && nat_eq (bit_at v place) (if wanted then 1 else 0)) }
        ensures mask { result.mask ≡ self.mask + 2 ^ place }
        ensures want { result.want ≡ self.want + (if wanted then 2 ^ place else 0) }
    {
        let bit = 2u8.pow(place);
        Cube {
            mask: self.mask | bit,
            want: if wanted { self.want | bit } else { self.want },
        }
    }
}
