//! Sets of 32-bit numbers as sorted lists of intervals.
#![tactic(auto)]

mod compared;
mod coverage;
mod cube;
mod cube_list;
mod find;
mod inter;
mod iv;
mod ivs;
mod joined;
mod law;
mod minus;
mod prefix_list;
mod ranges;
mod stored;
mod union;

pub use coverage::Overlap;
pub use cube::Cube;
pub use cube_list::cubes;
pub use find::{first_reaching, has_number, overlap};
pub use inter::inter_into;
pub use iv::Iv;
pub use ivs::{Ivs, one};
pub use joined::join_last;
pub use law::{
    many_ranges_add_members, prefixes_are_apart, ranges_add_members, ranges_are_regular,
    same_members_same_list,
};
pub use minus::minus_into;
pub use prefix_list::prefixes;
pub use union::union_into;
