//! Where the tables of a policy and the site cut the fields.

use crate::prefixes::is_network;
use fws_diagram::{Cuts, DPORT, DST, ENTRY, PROTO, SPORT, SRC, STATE, Stop, TAG};
use fws_iv::{Iv, Ivs};
use fws_net::{End, Outcome, Site, agreeing_set, local_set};
use fws_num::Memory;
use fws_tree::{Node, Tables, Tree};
use std::alloc::Global;

/// The cuts, and the networks that the site or the tables name.
#[derive(Drop)]
pub(crate) struct Seams {
    pub(crate) cuts: Cuts,
    pub(crate) networks: Vec<Iv>,
}

/// The field of a space that a field of a table cuts: the ends with which a connection is sent cut where they are asked.
pub(crate) fn field_of(place: u8) -> usize {
    match place {
        0..=7 => usize::from(place).saturating_add(1),
        8 => DST,
        9 => DPORT,
        10 => SRC,
        _ => SPORT,
    }
}

/// How many cuts mapped networks may make.
const MOST_MIRRORED: usize = 20000;

/// The bits of an address behind the first so many.
pub(crate) fn host_bits(len: u8) -> u32 {
    u32::MAX.checked_shr(u32::from(len)).unwrap_or(0)
}

/// The numbers, each once, rising.
fn distinct(alloc: Global, numbers: &mut Vec<u32>) -> Result<Vec<u32>, Memory> {
    numbers.sort_unstable();
    let mut all: Vec<u32> = Vec::new(alloc);
    for number in numbers.iter() {
        if all.last() != Some(number) {
            all.push(*number)?;
        }
    }
    Ok(all)
}

impl Seams {
    /// Notes the networks among the intervals of a set of addresses.
    fn note_networks(&mut self, set: &Ivs) -> Result<(), Memory> {
        for part in set.parts() {
            if is_network(*part) {
                self.networks.push(*part)?;
            }
        }
        Ok(())
    }

    /// Cuts where a table does.
    fn cut_table(&mut self, table: &Tree<Outcome>) -> Result<(), Memory> {
        for node in table.shared().nodes {
            let Node::Cut(place, kids) = node else {
                continue;
            };
            let field = field_of(*place);
            for kid in kids.as_slice() {
                self.cuts.cut_set(field, &kid.set)?;
                if field == DST || field == SRC {
                    self.note_networks(&kid.set)?;
                }
            }
        }
        Ok(())
    }

    /// Cuts round what an end writes.
    fn cut_end(
        &mut self,
        alloc: Global,
        address: usize,
        port: usize,
        end: &Option<End>,
    ) -> Result<(), Memory> {
        if let Some(end) = end {
            let written = agreeing_set(alloc, end.len, end.addr)?;
            self.cuts.cut_set(address, &written)?;
            if let Some(number) = end.port {
                self.cuts
                    .cut_range(port, u32::from(number), u32::from(number))?;
            }
        }
        Ok(())
    }

    /// Cuts round what the outcomes write.
    fn cut_outcomes(&mut self, alloc: Global, outcomes: &[Outcome]) -> Result<(), Memory> {
        for outcome in outcomes {
            if let Outcome::Accept(rewrite) = outcome {
                self.cut_end(alloc, DST, DPORT, &rewrite.dst)?;
                self.cut_end(alloc, SRC, SPORT, &rewrite.src)?;
            }
        }
        Ok(())
    }

    /// Puts the starts of a field, as far as a mask has them.
    fn put_masked(&self, field: usize, mask: u32, numbers: &mut Vec<u32>) -> Result<(), Memory> {
        for start in self.cuts.starts(field) {
            numbers.push(*start & mask)?;
        }
        Ok(())
    }

    /// The starts of a field, as far as a mask has them, and one number more: each once, rising.
    fn masked(
        &self,
        alloc: Global,
        field: usize,
        mask: u32,
        more: u32,
    ) -> Result<Vec<u32>, Memory> {
        let mut numbers: Vec<u32> = Vec::new(alloc);
        self.put_masked(field, mask, &mut numbers)?;
        numbers.push(more)?;
        distinct(alloc, &mut numbers)
    }

    /// Cuts round each block, and in each of them where an offset is.
    fn cut_blocks(
        &mut self,
        field: usize,
        host: u32,
        blocks: &[u32],
        offsets: &[u32],
    ) -> Result<(), Memory> {
        for block in blocks {
            self.cuts.cut_range(field, *block, *block | host)?;
            for offset in offsets {
                self.cuts.cut(field, *block | *offset)?;
            }
        }
        Ok(())
    }

    /// Cuts the block over which an end writes where any other block of its size is cut, and these where it is cut. False where
    /// these are too many cuts.
    fn mirror(&mut self, alloc: Global, field: usize, end: End) -> Result<bool, Memory> {
        let host = host_bits(end.len);
        let blocks = self.masked(alloc, field, !host, end.addr)?;
        let offsets = self.masked(alloc, field, host, 0)?;
        if blocks.len().saturating_mul(offsets.len()) > MOST_MIRRORED {
            return Ok(false);
        }
        self.cut_blocks(field, host, &blocks, &offsets)?;
        Ok(true)
    }

    /// Cuts for the network that an end maps, if it maps one: false where these are too many cuts.
    fn mirror_end(
        &mut self,
        alloc: Global,
        field: usize,
        end: &Option<End>,
    ) -> Result<bool, Memory> {
        match end {
            Some(end) => {
                if end.len < 32 {
                    self.mirror(alloc, field, *end)
                } else {
                    Ok(true)
                }
            }
            None => Ok(true),
        }
    }

    /// Cuts for the networks that outcomes map: false where these are too many cuts.
    fn cut_mapped(&mut self, alloc: Global, outcomes: &[Outcome]) -> Result<bool, Memory> {
        for outcome in outcomes {
            if let Outcome::Accept(rewrite) = outcome {
                if !self.mirror_end(alloc, DST, &rewrite.dst)? {
                    return Ok(false);
                }
                if !self.mirror_end(alloc, SRC, &rewrite.src)? {
                    return Ok(false);
                }
            }
        }
        Ok(true)
    }

    /// Cuts round a set of addresses.
    fn cut_addresses(&mut self, set: &Ivs) -> Result<(), Memory> {
        self.cuts.cut_set(DST, set)?;
        self.cuts.cut_set(SRC, set)?;
        self.note_networks(set)
    }

    /// Cuts round the networks and the host's own addresses.
    fn cut_site(&mut self, alloc: Global, site: &Site) -> Result<(), Memory> {
        for face in site.faces.as_slice() {
            for own in face.addrs.as_slice() {
                let net = agreeing_set(alloc, own.len, own.addr)?;
                self.cut_addresses(&net)?;
            }
        }
        for line in site.routes.as_slice() {
            let net = agreeing_set(alloc, line.net.len, line.net.addr)?;
            self.cut_addresses(&net)?;
        }
        let local = local_set(alloc, site)?;
        self.cut_addresses(&local)
    }

    /// Cuts where the tables and the site do. It gives up where mapped networks make too many cuts.
    pub(crate) fn cut_all(
        &mut self,
        alloc: Global,
        tables: &Tables,
        site: &Site,
        entries: u32,
    ) -> Result<(), Stop> {
        self.cut_table(&tables.fresh)?;
        self.cut_table(&tables.est)?;
        let outcomes = tables.fresh.shared().leaves;
        self.cut_outcomes(alloc, outcomes)?;
        self.cut_site(alloc, site)?;
        self.cut_numbers(entries)?;
        if !self.cut_mapped(alloc, outcomes)? {
            return Err(Stop::Late);
        }
        Ok(())
    }

    /// Cuts what has few values into these.
    fn cut_numbers(&mut self, entries: u32) -> Result<(), Memory> {
        self.cuts.cut(STATE, 1)?;
        self.cuts.cut(TAG, 1)?;
        for entry in 1..entries {
            self.cuts.cut(ENTRY, entry)?;
        }
        for proto in [1, 6, 17] {
            self.cuts.cut_range(PROTO, proto, proto)?;
        }
        Ok(())
    }
}
