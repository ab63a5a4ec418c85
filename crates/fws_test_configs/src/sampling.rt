//! Packets at the ends of a row's intervals.

use crate::numbers::{byte, short};
use crate::table::Row;
use fws_net::{Kind, Packet, Rec};

/// The most packets of a row.
const MOST: u64 = 4096;

/// How many choices of ends a row has.
fn choices(row: &Row) -> u64 {
    let mut product: u64 = 1;
    for values in row.values.as_slice() {
        product = product.saturating_mul(values.as_slice().len() as u64);
    }
    product
}

/// How many packets of a row are walked: one for each choice of ends, and at most 4,096.
pub fn count(row: &Row) -> u64 {
    choices(row).min(MOST)
}

/// The point at choice `index` of those that are walked, spread evenly over all choices.
pub fn point_at(row: &Row, index: u64) -> [u32; 12] {
    let spread = u128::from(index).saturating_mul(u128::from(choices(row)))
        / u128::from(count(row).max(1));
    let mut left = u64::try_from(spread).unwrap_or(u64::MAX);
    let mut point = [0; 12];
    for (place, values) in row.values.as_slice().iter().take(12).enumerate() {
        let ends = values.as_slice();
        let length = ends.len().max(1) as u64;
        if let Some(end) = ends.get((left % length) as usize) {
            point[place] = *end;
        }
        left /= length;
    }
    point
}

/// The packet of a point.
pub fn packet_of(point: &[u32; 12]) -> Packet {
    Packet {
        entry: byte(point[0]),
        proto: byte(point[1]),
        dst: point[2],
        dport: short(point[3]),
        src: point[4],
        sport: short(point[5]),
        flags: byte(point[6]),
        icmp: byte(point[7]),
    }
}

/// The class of a point: new, or that of a connection that sends it so.
pub fn kind_of(est: bool, point: &[u32; 12]) -> Kind {
    if !est {
        return Kind::New;
    }
    Kind::Est(Rec {
        rdst: point[8],
        rdport: short(point[9]),
        rsrc: point[10],
        rsport: short(point[11]),
    })
}
