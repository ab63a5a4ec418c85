//! How many redirects the rows of a table show: pairs of an end that is written over the destination and of the protocol,
//! destination and port that a packet had, or of its destination alone where no port is written.

use crate::bytes::{behind, is};
use crate::cutting::{Span, lines_of, word, words_of};
use fws_num::{Memory, pieces, read_dec, read_quad, split_once};
use std::alloc::Global;

/// How many kinds of redirects are told apart.
const KINDS: usize = 2000;

/// Redirects of one kind: what the rows have of protocol, destination and port, and the end that is written.
#[derive(Clone, Copy)]
struct Redirects<'a> {
    proto: &'a [u8],
    dst: &'a [u8],
    dport: &'a [u8],
    end: &'a [u8],
}

/// A number or an address.
fn value_of(text: &[u8]) -> u64 {
    match read_quad(text) {
        Some(address) => u64::from(address),
        None => read_dec(text, 0xffff_ffff).unwrap_or(0),
    }
}

/// How many values an item has: one, or those of a range.
fn values_of(item: &[u8]) -> u64 {
    match split_once(item, b'-') {
        None => 1,
        Some((lo, hi)) => value_of(hi).saturating_sub(value_of(lo)).saturating_add(1),
    }
}

/// How many values a set has, of so many.
fn size_of(alloc: Global, set: &[u8], all: u64) -> Result<u64, Memory> {
    if is(set, b"*") {
        return Ok(all);
    }
    let mut size = 0u64;
    for item in pieces(alloc, b',', set)?.as_slice() {
        size = size.saturating_add(values_of(item.as_slice()));
    }
    Ok(size)
}

impl Redirects<'_> {
    /// How many they are.
    fn count(&self, alloc: Global) -> Result<u64, Memory> {
        let dst = size_of(alloc, self.dst, 1 << 32)?;
        if split_once(self.end, b':').is_none() {
            return Ok(dst);
        }
        let protos = size_of(alloc, self.proto, 256)?;
        let dports = size_of(alloc, self.dport, 1 << 16)?;
        Ok(dst.saturating_mul(protos).saturating_mul(dports))
    }

    /// Both are the same.
    fn is_same(&self, other: &Redirects) -> bool {
        self.proto == other.proto
            && self.dst == other.dst
            && self.dport == other.dport
            && self.end == other.end
    }
}

/// Some of the redirects are the same.
fn is_known(kinds: &[Redirects], found: &Redirects) -> bool {
    for kind in kinds {
        if kind.is_same(found) {
            return true;
        }
    }
    false
}

/// The redirects of a row of a table, if it shows any.
fn redirects_in<'a>(line: &'a [u8], spans: &[Span]) -> Option<Redirects<'a>> {
    for span in spans {
        if let Some(end) = behind(span.of(line), b"dst=") {
            return Some(Redirects {
                proto: word(line, spans, 1),
                dst: word(line, spans, 2),
                dport: word(line, spans, 3),
                end,
            });
        }
    }
    None
}

/// How many redirects the rows of a table of new packets show. Redirects that several rows show in parts count for each of them.
pub(crate) fn count_redirects(alloc: Global, table: &[u8]) -> Result<u64, Memory> {
    let mut kinds: Vec<Redirects> = Vec::new(alloc);
    let mut count = 0u64;
    for at in &lines_of(alloc, table)? {
        let line = at.of(table);
        let spans = words_of(alloc, false, line)?;
        if let Some(found) = redirects_in(line, &spans) {
            if !is_known(&kinds, &found) && kinds.len() < KINDS {
                count = count.saturating_add(found.count(alloc)?);
                kinds.push(found)?;
            }
        }
    }
    Ok(count)
}
