//! Points at the ends of a row's intervals.

use crate::stop::Stop;
use crate::words::{byte, short};
use fws_box::Point;
use fws_iv::Ivs;
use fws_net::{Kind, Outcome, Packet, Rec, State};
use fws_num::Items;
use fws_tree::Row;
use std::alloc::Global;

/// The most points of a row.
const MOST: u64 = 4096;

/// A prime, by whose multiples choices lie at changing places of their stretches.
const PRIME: u128 = 2_654_435_761;

/// The least and the greatest values of the intervals of a row, for each field that counts in its state.
#[derive(Drop)]
pub struct Ends {
    fields: Items<Items<u32>>,
}

/// How many fields count in a state: 8 for new packets, 12 for established ones.
fn shown_fields(state: State) -> usize {
    match state {
        State::Fresh => 8,
        State::Est => 12,
    }
}

/// The least and the greatest value of each interval of a set.
fn ends_of_set(alloc: Global, set: &Ivs) -> Result<Items<u32>, Stop> {
    let mut ends = Items::new(alloc);
    for part in set.parts() {
        ends.put(part.lo)?;
        if part.lo != part.hi {
            ends.put(part.hi)?;
        }
    }
    Ok(ends)
}

/// The ends of a row.
pub fn ends_of(alloc: Global, state: State, row: &Row<Outcome>) -> Result<Ends, Stop> {
    let mut fields = Items::new(alloc);
    for place in 0..12 {
        if place < shown_fields(state) {
            fields.put(ends_of_set(alloc, &row.sides[place])?)?;
        }
    }
    Ok(Ends { fields })
}

impl Ends {
    /// How many choices of ends there are.
    fn choices(&self) -> u64 {
        let mut product: u64 = 1;
        for ends in self.fields.as_slice() {
            product = product.saturating_mul(ends.as_slice().len() as u64);
        }
        product
    }

    /// The greatest number of ends of a field.
    fn longest(&self) -> u64 {
        let mut most: u64 = 0;
        for ends in self.fields.as_slice() {
            most = most.max(ends.as_slice().len() as u64);
        }
        most
    }

    /// How many points of the row are walked: one for each choice of ends, and at most `MOST`.
    pub fn count(&self) -> u64 {
        self.choices().min(MOST)
    }

    /// The point of the choice with this number; or where the ends go abreast, the one that has of each field the end with
    /// this number, counted round.
    fn chosen(&self, number: u64, abreast: bool) -> Point {
        let mut left = number;
        let mut point = [0; 12];
        for (place, ends) in self.fields.as_slice().iter().take(12).enumerate() {
            let ends = ends.as_slice();
            let length = ends.len().max(1) as u64;
            if let Some(end) = ends.get((left % length) as usize) {
                point[place] = *end;
            }
            if !abreast {
                left /= length;
            }
        }
        point
    }

    /// The number of a choice out of the stretch of choices with this index. Stretches are of one length, and where in them
    /// the choice lies changes from one to the next, so that no field keeps one end.
    fn spread(&self, index: u64) -> u64 {
        let choices = u128::from(self.choices());
        let count = u128::from(self.count().max(1));
        let stretch = (choices / count).max(1);
        let begin = u128::from(index).saturating_mul(choices) / count;
        let within = u128::from(index).saturating_mul(PRIME) % stretch;
        u64::try_from(begin.saturating_add(within)).unwrap_or(u64::MAX)
    }

    /// The point at `index` of those that are walked: all choices, or where there are more of them than points, first
    /// points that have each end of each field, and then choices that are spread evenly over all.
    pub fn point_at(&self, index: u64) -> Point {
        if self.choices() > MOST && index < self.longest() {
            self.chosen(index, true)
        } else {
            self.chosen(self.spread(index), false)
        }
    }
}

/// The packet of a point.
pub fn packet_at(point: &Point) -> Packet {
    Packet {
        entry: byte(point[0]),
        proto: byte(point[1]),
        dst: point[2],
        dport: short(point[3]),
        src: point[4],
        sport: short(point[5]),
        flags: byte(point[6]),
        icmp: byte(point[7]),
    }
}

/// The class of a point: new, or that of a connection that sends it so.
pub fn kind_at(state: State, point: &Point) -> Kind {
    match state {
        State::Fresh => Kind::New,
        State::Est => Kind::Est(Rec {
            rdst: point[8],
            rdport: short(point[9]),
            rsrc: point[10],
            rsport: short(point[11]),
        }),
    }
}

/// The state of a class.
pub fn state_of(kind: &Kind) -> State {
    match kind {
        Kind::New => State::Fresh,
        Kind::Est(_) => State::Est,
    }
}

/// The point of a packet of a class.
pub fn point_of(packet: &Packet, kind: &Kind) -> Point {
    let mut point = [
        u32::from(packet.entry),
        u32::from(packet.proto),
        packet.dst,
        u32::from(packet.dport),
        packet.src,
        u32::from(packet.sport),
        u32::from(packet.flags),
        u32::from(packet.icmp),
        0,
        0,
        0,
        0,
    ];
    if let Kind::Est(rec) = kind {
        point[8] = rec.rdst;
        point[9] = u32::from(rec.rdport);
        point[10] = rec.rsrc;
        point[11] = u32::from(rec.rsport);
    }
    point
}

/// Whether the row holds the point.
pub fn holds_point(row: &Row<Outcome>, point: &Point) -> bool {
    for place in 0..12 {
        if !row.sides[place].has(point[place]) {
            return false;
        }
    }
    true
}
