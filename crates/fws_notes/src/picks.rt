//! Values that packets may have.

use fws_iv::Ivs;
use fws_net::{End, Outcome, Site};
use fws_num::Memory;
use fws_tree::{Kid, Node, Shared};
use std::alloc::Global;

/// How many values of a field are kept.
const MOST: usize = 4096;

/// For each field values at which tables or the site may change.
#[derive(Drop)]
pub(crate) struct Picks {
    fields: Vec<Vec<u32>>,
}

/// A number that looks like any other, made of two.
pub(crate) fn mixed(one: u64, other: u64) -> u64 {
    let both = one
        .wrapping_mul(0x9e37_79b9_7f4a_7c15)
        .wrapping_add(other.wrapping_mul(0xd1b5_4a32_d192_ed03));
    let folded = both ^ (both >> 29);
    folded.wrapping_mul(0xbf58_476d_1ce4_e5b9) >> 20
}

/// The item that a number picks.
pub(crate) fn picked<T: Copy>(items: &[T], number: u64) -> Option<T> {
    let count = items.len() as u64;
    if count == 0 {
        return None;
    }
    items.get((number % count) as usize).copied()
}

impl Picks {
    /// None for any field.
    fn new(alloc: Global) -> Result<Picks, Memory> {
        let mut fields = Vec::new(alloc);
        for _ in 0..12 {
            fields.push(Vec::new(alloc))?;
        }
        Ok(Picks { fields })
    }

    /// Adds a value of a field.
    fn add(&mut self, field: usize, value: u32) -> Result<(), Memory> {
        if let Some(values) = self.fields.get_mut(field) {
            if values.len() < MOST {
                values.push(value)?;
            }
        }
        Ok(())
    }

    /// Adds the ends of a set of values.
    fn add_set(&mut self, field: usize, set: &Ivs) -> Result<(), Memory> {
        for part in set.parts() {
            self.add(field, part.lo)?;
            self.add(field, part.hi)?;
        }
        Ok(())
    }

    /// Adds the ends of the sets of kids.
    fn add_kids(&mut self, field: usize, kids: &[Kid]) -> Result<(), Memory> {
        for kid in kids {
            self.add_set(field, &kid.set)?;
        }
        Ok(())
    }

    /// Adds the values at which a table changes.
    fn add_nodes(&mut self, nodes: &[Node]) -> Result<(), Memory> {
        for node in nodes {
            if let Node::Cut(field, kids) = node {
                self.add_kids(*field as usize, kids.as_slice())?;
            }
        }
        Ok(())
    }

    /// Adds an address and the one behind it.
    fn add_address(&mut self, addr: u32) -> Result<(), Memory> {
        for field in [2, 4] {
            self.add(field, addr)?;
            self.add(field, addr.saturating_add(1))?;
        }
        Ok(())
    }

    /// Adds the addresses of the site, and its entries.
    fn add_site(&mut self, site: &Site) -> Result<(), Memory> {
        self.add(0, 0)?;
        self.add(0, 1)?;
        let mut entry = 2;
        for face in site.faces.as_slice() {
            self.add(0, entry)?;
            entry = entry.saturating_add(1);
            for address in face.addrs.as_slice() {
                self.add_address(address.addr)?;
            }
        }
        Ok(())
    }

    /// Adds an end that is written.
    fn add_end(&mut self, address: usize, port: usize, end: End) -> Result<(), Memory> {
        self.add(address, end.addr)?;
        match end.port {
            Some(number) => self.add(port, u32::from(number)),
            None => Ok(()),
        }
    }

    /// Adds the ends that are written over packets.
    fn add_ends(&mut self, outcomes: &[Outcome]) -> Result<(), Memory> {
        for outcome in outcomes {
            let Outcome::Accept(rewrite) = outcome else {
                continue;
            };
            if let Some(end) = rewrite.dst {
                self.add_end(2, 3, end)?;
            }
            if let Some(end) = rewrite.src {
                self.add_end(4, 5, end)?;
            }
        }
        Ok(())
    }

    /// Values for a site and two tables.
    pub(crate) fn of(
        alloc: Global,
        site: &Site,
        fresh: &Shared<Outcome>,
        est: &Shared<Outcome>,
    ) -> Result<Picks, Memory> {
        let mut picks = Picks::new(alloc)?;
        picks.add_site(site)?;
        for (field, value) in [
            (1, 1),
            (1, 6),
            (1, 17),
            (3, 80),
            (5, 50000),
            (6, 2),
            (6, 16),
            (7, 8),
        ] {
            picks.add(field, value)?;
        }
        picks.add_ends(fresh.leaves)?;
        picks.add_nodes(fresh.nodes)?;
        picks.add_nodes(est.nodes)?;
        Ok(picks)
    }

    /// The value of a field that a number picks.
    pub(crate) fn value(&self, field: usize, number: u64) -> u32 {
        match self.fields.get(field) {
            Some(values) => picked(values.as_slice(), number).unwrap_or(0),
            None => 0,
        }
    }
}
