//! Points of tables. The paths of a table are counted from its leaves up; where it has more than are looked at, those that are lie at
//! equal distances. Each is looked at several times: at the least value of each side, and at values that are picked without a clock or
//! chance, so that two runs look at the same points.

use crate::picks::{Picks, mixed, picked};
use fws_iv::Ivs;
use fws_net::{Kind, Outcome, Packet, Rec, Site};
use fws_num::Memory;
use fws_tree::{Kid, Node, Tables, Tree};
use std::alloc::Global;

/// A packet and its class.
#[derive(Clone, Copy)]
pub(crate) struct Sight {
    pub(crate) packet: Packet,
    pub(crate) kind: Kind,
}

/// How often a path is looked at.
const MOST_ROUNDS: u64 = 64;

/// The fields of a packet, and of the ends of its connection.
type Point = [u32; 12];

/// The nodes of a table, and how many paths each has.
#[derive(Clone, Copy)]
struct Paths<'a> {
    nodes: &'a [Node],
    counts: &'a [u64],
}

/// Which point of which path is looked at.
#[derive(Clone, Copy)]
struct Look {
    /// The number of the path.
    path: u64,
    /// The round: in the first one the least values are taken.
    round: u64,
}

/// How many paths kids have.
fn sum_of(kids: &[Kid], counts: &[u64]) -> u64 {
    let mut sum = 0u64;
    for kid in kids {
        let count = counts.get(kid.node as usize).copied().unwrap_or(0);
        sum = sum.saturating_add(count);
    }
    sum
}

/// How many paths each node has.
fn counts_of(alloc: Global, nodes: &[Node]) -> Result<Vec<u64>, Memory> {
    let mut counts: Vec<u64> = Vec::new(alloc);
    for node in nodes {
        let count = match node {
            Node::Leaf(_) => 1,
            Node::Cut(_, kids) => sum_of(kids.as_slice(), counts.as_slice()),
        };
        counts.push(count)?;
    }
    Ok(counts)
}

/// The kid in which a path lies, and its number there.
fn kid_of<'a>(kids: &'a [Kid], counts: &[u64], path: u64) -> Option<(&'a Kid, u64)> {
    let mut rest = path;
    for kid in kids {
        let count = counts.get(kid.node as usize).copied().unwrap_or(0);
        if rest < count {
            return Some((kid, rest));
        }
        rest = rest.saturating_sub(count);
    }
    None
}

/// The number that picks the value of a field.
fn number_of(look: Look, field: usize) -> u64 {
    let salt = look.round.wrapping_mul(16).wrapping_add(field as u64);
    mixed(look.path, salt)
}

/// An end of a range of a set.
fn end_of(set: &Ivs, number: u64) -> u32 {
    match picked(set.parts(), number) {
        Some(part) => { if number & 1024 == 0 { part.lo } else { part.hi } }
        None => 0,
    }
}

/// A value of a set: the least one in the first round, and in others now an end of a range, now a value at which tables change.
fn value_of(set: &Ivs, picks: &Picks, look: Look, field: usize) -> u32 {
    if look.round == 0 {
        return end_of(set, 0);
    }
    let number = number_of(look, field);
    let value = picks.value(field, number);
    if number & 4096 == 0 && set.has(value) {
        value
    } else {
        end_of(set, number)
    }
}

/// The point from which a look begins, for fields that its path doesn't ask.
fn begun(picks: &Picks, look: Look) -> Point {
    let mut point = [0; 12];
    if look.round == 0 {
        return point;
    }
    for field in 0..8 {
        point[field] = picks.value(field, number_of(look, field));
    }
    point
}

/// The point of a path, and which fields the path asks.
fn point_of(paths: &Paths, picks: &Picks, look: Look) -> (Point, [bool; 12]) {
    let mut point = begun(picks, look);
    let mut asked = [false; 12];
    let mut rest = look.path;
    let mut at = paths.nodes.len().saturating_sub(1);
    for _ in 0..13 {
        let Some(Node::Cut(field, kids)) = paths.nodes.get(at) else {
            break;
        };
        let Some((kid, left)) = kid_of(kids.as_slice(), paths.counts, rest) else {
            break;
        };
        let field = *field as usize;
        if field < 12 {
            point[field] = value_of(&kid.set, picks, look, field);
            asked[field] = true;
        }
        rest = left;
        at = kid.node as usize;
    }
    (point, asked)
}

/// A number of 8 bits.
fn byte(value: u32) -> u8 {
    u8::try_from(value).unwrap_or(0)
}

/// A number of 16 bits.
fn short(value: u32) -> u16 {
    u16::try_from(value).unwrap_or(0)
}

/// The packet of a point.
pub(crate) fn packet_of(point: &Point) -> Packet {
    Packet {
        entry: byte(point[0]),
        proto: byte(point[1]),
        dst: point[2],
        dport: short(point[3]),
        src: point[4],
        sport: short(point[5]),
        flags: byte(point[6]) & 63,
        icmp: byte(point[7]),
    }
}

/// The ends of its connection: those that a path asks, and else the packet's own.
fn ends_of(point: &Point, asked: &[bool; 12]) -> Rec {
    let mut ends = [point[2], point[3], point[4], point[5]];
    for k in 0..4 {
        if asked[k + 8] {
            ends[k] = point[k + 8];
        }
    }
    Rec {
        rdst: ends[0],
        rdport: short(ends[1]),
        rsrc: ends[2],
        rsport: short(ends[3]),
    }
}

/// Appends a look at so many paths, of all that there are.
fn put_round(
    sights: &mut Vec<Sight>,
    paths: &Paths,
    picks: &Picks,
    is_est: bool,
    round: u64,
    share: u64,
) -> Result<(), Memory> {
    let all = paths.counts.last().copied().unwrap_or(0);
    let step = all.checked_div(share).unwrap_or(1).max(1);
    for k in 0..share.min(all) {
        let look = Look {
            path: k.saturating_mul(step),
            round,
        };
        let (point, asked) = point_of(paths, picks, look);
        let kind = if is_est {
            Kind::Est(ends_of(&point, &asked))
        } else {
            Kind::New
        };
        sights.push(Sight {
            packet: packet_of(&point),
            kind,
        })?;
    }
    Ok(())
}

/// Appends points of a table, as many as are asked or somewhat fewer.
fn put_points(
    sights: &mut Vec<Sight>,
    alloc: Global,
    tree: &Tree<Outcome>,
    picks: &Picks,
    is_est: bool,
    most: u64,
) -> Result<(), Memory> {
    let nodes = tree.shared().nodes;
    let counts = counts_of(alloc, nodes)?;
    let paths = Paths {
        nodes,
        counts: counts.as_slice(),
    };
    let all = counts.last().copied().unwrap_or(0).max(1);
    let rounds = most.checked_div(all).unwrap_or(0).max(1).min(MOST_ROUNDS);
    let share = most.checked_div(rounds).unwrap_or(0);
    for round in 0..rounds {
        put_round(sights, &paths, picks, is_est, round, share)?;
    }
    Ok(())
}

/// Points of both tables, as many as are asked at most: of that of established packets half of them at most, and of the other one as
/// many as are left.
pub(crate) fn points(
    alloc: Global,
    site: &Site,
    tables: &Tables,
    most: u64,
) -> Result<Vec<Sight>, Memory> {
    let picks = Picks::of(alloc, site, &tables.fresh.shared(), &tables.est.shared())?;
    let mut sights = Vec::new(alloc);
    put_points(&mut sights, alloc, &tables.est, &picks, true, most / 2)?;
    let left = most.saturating_sub(sights.len() as u64);
    put_points(&mut sights, alloc, &tables.fresh, &picks, false, left)?;
    Ok(sights)
}
