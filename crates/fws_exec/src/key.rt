//! What equal classes have in common.

use crate::progress::Progress;
use crate::spot::{Spot, Stage};
use fws_net::End;

/// A number that is the same for equal classes, and mostly another for others.
#[derive(Clone, Copy, PartialEq, Eq, Hash)]
pub(crate) struct Key(u64);

/// A number that is the same for equal pairs, and mostly another for others.
fn mixed(sum: u64, more: u64) -> u64 {
    (sum.rotate_left(5) ^ more).wrapping_mul(0x517c_c1b7_2722_0a95)
}

/// A number of the stage.
fn number_of(stage: Stage) -> u64 {
    match stage {
        Stage::Arrive => 3,
        Stage::Deliver => 4,
        Stage::Forward => 5,
        Stage::Send => 6,
    }
}

/// A number that is the same for equal spots, and mostly another for others.
fn of_spot(spot: Spot) -> u64 {
    match spot {
        Spot::Unused => 1,
        Spot::Dropped => 2,
        Spot::Before(stage) => number_of(stage),
        Spot::At(place) => 7 + u64::from(place),
    }
}

/// A number that is the same for equal ports.
fn of_port(port: Option<u16>) -> u64 {
    match port {
        None => 0,
        Some(port) => 1 + u64::from(port),
    }
}

/// A number that is the same for equal ends, and mostly another for others.
fn of_end(sum: u64, end: Option<End>) -> u64 {
    match end {
        None => mixed(sum, 0),
        Some(end) => {
            let addr = mixed(mixed(sum, u64::from(end.addr)), u64::from(end.len));
            mixed(addr, of_port(end.port))
        }
    }
}

/// A number that is the same for equal tags, and mostly another for others.
fn of_tags(sum: u64, tags: &[u32]) -> u64 {
    let mut all = sum;
    for tag in tags {
        all = mixed(all, u64::from(*tag));
    }
    all
}

impl Key {
    /// The key of packets at the spot to which rules did this.
    pub(crate) fn of(spot: Spot, progress: &Progress) -> Key {
        let flags = u64::from(progress.src_tracked)
            + 2 * u64::from(progress.dst_tracked)
            + 4 * u64::from(progress.verdict);
        let src = of_end(mixed(of_spot(spot), flags), progress.wrote.src);
        let dst = of_end(src, progress.wrote.dst);
        Key(of_tags(dst, progress.tags.as_slice()))
    }
}
