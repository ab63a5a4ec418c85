//! How many entries the nodes of a tree take, by which kids are chosen that are left to the end.

use fws_ios_put_entries::{Side, side_at};
use fws_iv::{Ivs, prefixes};
use fws_num::Memory;
use fws_tree::{Kid, Node};
use std::alloc::Global;

// How many members a set has.
fn members(set: &Ivs) -> usize {
    let mut count: usize = 0;
    for part in set.parts() {
        let more = part.hi.saturating_sub(part.lo) as usize;
        count = count.saturating_add(more).saturating_add(1);
    }
    count
}

// How many entries ask for the members of a set, where the protocol is asked already. Fails if memory runs out.
fn pieces(alloc: Global, side: Side, set: &Ivs) -> Result<usize, Memory> {
    Ok(match side {
        Side::Proto | Side::Icmp => members(set),
        Side::Src | Side::Dst => prefixes(alloc, set)?.len(),
        Side::Sport | Side::Dport => set.parts().len(),
    })
}

/// How many entries a node takes by the sizes of all nodes before.
pub(crate) fn size_at(sizes: &[usize], node: u32) -> usize {
    let at = node as usize;
    if at < sizes.len() { sizes[at] } else { 1 }
}

/// How many entries a kid takes whose set is asked for. Fails if memory runs out.
pub(crate) fn kid_size(
    alloc: Global,
    sizes: &[usize],
    side: Side,
    kid: &Kid,
) -> Result<usize, Memory> {
    Ok(pieces(alloc, side, &kid.set)?.saturating_mul(size_at(sizes, kid.node)))
}

// How many entries a node takes that cuts a field for which entries ask: those of all kids, of which the one that saves
// most isn't asked for.
fn asked_size(alloc: Global, sizes: &[usize], side: Side, kids: &[Kid]) -> Result<usize, Memory> {
    let mut sum: usize = 0;
    let mut most: usize = 0;
    for kid in kids {
        let asked = kid_size(alloc, sizes, side, kid)?;
        let saved = asked.saturating_sub(size_at(sizes, kid.node));
        sum = sum.saturating_add(asked);
        if saved > most {
            most = saved;
        }
    }
    Ok(sum.saturating_sub(most))
}

// How many entries a node takes that cuts a field.
fn cut_size(alloc: Global, sizes: &[usize], f: u8, kids: &[Kid]) -> Result<usize, Memory> {
    match side_at(f) {
        Some(side) => asked_size(alloc, sizes, side, kids),
        None => Ok(match kids {
            [first, ..] => size_at(sizes, first.node),
            [] => 0,
        }),
    }
}

/// How many entries each node takes. Fails if memory runs out.
pub(crate) fn sizes_of(alloc: Global, nodes: &[Node]) -> Result<Vec<usize>, Memory> {
    let mut sizes = Vec::new(alloc);
    for node in nodes {
        let own = match node {
            Node::Leaf(_) => 1,
            Node::Cut(f, kids) => cut_size(alloc, sizes.as_slice(), *f, kids.as_slice())?,
        };
        sizes.push(own)?;
    }
    Ok(sizes)
}
