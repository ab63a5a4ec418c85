//! Tables and queries as texts.

use crate::numbers::{address, decimal, entry, short};
use crate::stop::Stop;
use fws_net::{End, Outcome, Rewrite, Site};
use fws_num::{
    Comments, Items, Line, Memory, Text, Word, pieces, read_lines, read_prefix, split_once,
};
use std::alloc::Global;

/// A row: for each field the ends of its intervals, and what becomes of the row's packets.
#[derive(Drop)]
pub struct Row {
    /// The least and the greatest value of each interval, for each field in its order.
    pub values: Items<Items<u32>>,
    /// What becomes of the packets.
    pub outcome: Outcome,
}

/// A table.
#[derive(Drop)]
pub struct Table {
    /// It is about packets of tracked connections.
    pub est: bool,
    /// How many rows its first line promises.
    pub promised: u32,
    /// Its rows.
    pub rows: Items<Row>,
}

/// What a field's values are.
#[derive(Clone, Copy)]
pub enum Field {
    /// Names of entries.
    Entry,
    /// Addresses.
    Address,
    /// Numbers up to a greatest one.
    Number {
        /// The greatest one.
        top: u32,
    },
}

/// The field at this place.
pub fn field_at(place: usize) -> Field {
    match place {
        0 => Field::Entry,
        2 | 4 | 8 | 10 => Field::Address,
        3 | 5 | 9 | 11 => Field::Number { top: 65535 },
        6 => Field::Number { top: 63 },
        _ => Field::Number { top: 255 },
    }
}

/// The value of a field that a text spells.
pub fn value(site: &Site, field: Field, text: &[u8]) -> Result<u32, Stop> {
    match field {
        Field::Entry => entry(site, text),
        Field::Address => address(text),
        Field::Number { .. } => decimal(text),
    }
}

/// Adds the ends of an item `v` or `lo-hi`.
fn put_item(values: &mut Items<u32>, site: &Site, field: Field, item: &[u8]) -> Result<(), Stop> {
    match split_once(item, b'-') {
        Some((lo, hi)) => {
            values.put(value(site, field, lo)?)?;
            values.put(value(site, field, hi)?)?;
        }
        None => values.put(value(site, field, item)?)?,
    }
    Ok(())
}

/// Adds the ends of the whole range; every entry is an end.
fn put_whole_range(values: &mut Items<u32>, site: &Site, field: Field) -> Result<(), Memory> {
    values.put(0)?;
    match field {
        Field::Entry => {
            for entry in 1..site.faces.len().saturating_add(2) {
                values.put(u32::try_from(entry).unwrap_or(u32::MAX))?;
            }
            Ok(())
        }
        Field::Address => values.put(u32::MAX),
        Field::Number { top } => values.put(top),
    }
}

/// Adds the ends of the items of a list.
fn put_items(
    values: &mut Items<u32>,
    site: &Site,
    field: Field,
    items: &[Text],
) -> Result<(), Stop> {
    for item in items {
        put_item(values, site, field, item.as_slice())?;
    }
    Ok(())
}

/// The ends of the whole range.
fn whole_range(alloc: Global, site: &Site, field: Field) -> Result<Items<u32>, Memory> {
    let mut values = Items::new(alloc);
    put_whole_range(&mut values, site, field)?;
    Ok(values)
}

/// The ends of the items of a list.
fn values_of(alloc: Global, site: &Site, field: Field, items: &[Text]) -> Result<Items<u32>, Stop> {
    let mut values = Items::new(alloc);
    put_items(&mut values, site, field, items)?;
    Ok(values)
}

/// The ends of the intervals that a word has.
fn read_values(alloc: Global, site: &Site, field: Field, word: &Word) -> Result<Items<u32>, Stop> {
    if word.is(b"*") {
        return Ok(whole_range(alloc, site, field)?);
    }
    let items = pieces(alloc, b',', word.text.as_slice())?;
    values_of(alloc, site, field, items.as_slice())
}

/// The end of a network `A/n`, of a length from 1.
fn read_net_end(text: &[u8]) -> Result<End, Stop> {
    match read_prefix(text) {
        Some(net) if net.len > 0 => Ok(End::net(net)),
        _ => Err(Stop::Malformed),
    }
}

/// An end `A`, `A:port` or `A/n`.
fn read_end(text: &[u8]) -> Result<End, Stop> {
    if text.contains(&b'/') {
        return read_net_end(text);
    }
    match split_once(text, b':') {
        Some((a, port)) => Ok(End::host(address(a)?, Some(short(decimal(port)?)))),
        None => Ok(End::host(address(text)?, None)),
    }
}

/// What is written, with what `src=END` or `dst=END` writes.
fn with_end(wrote: Rewrite, text: &[u8]) -> Result<Rewrite, Stop> {
    let Some((side, end)) = split_once(text, b'=') else {
        return Err(Stop::Malformed);
    };
    let end = Some(read_end(end)?);
    if side == b"src".as_slice() {
        Ok(Rewrite {
            src: end,
            dst: wrote.dst,
        })
    } else if side == b"dst".as_slice() {
        Ok(Rewrite {
            src: wrote.src,
            dst: end,
        })
    } else {
        Err(Stop::Malformed)
    }
}

/// The outcome that the words behind the colon spell.
pub fn read_outcome(words: &[Word]) -> Result<Outcome, Stop> {
    let Some((verdict, ends)) = words.split_first() else {
        return Err(Stop::Malformed);
    };
    if verdict.is(b"drop") {
        return Ok(Outcome::Drop);
    }
    let mut wrote = Rewrite::nothing();
    for end in ends {
        wrote = with_end(wrote, end.text.as_slice())?;
    }
    Ok(Outcome::Accept(wrote))
}

/// The ends of the intervals of fields, a word for each.
fn read_fields(alloc: Global, site: &Site, words: &[Word]) -> Result<Items<Items<u32>>, Stop> {
    let mut values = Items::new(alloc);
    for (place, word) in words.iter().enumerate() {
        values.put(read_values(alloc, site, field_at(place), word)?)?;
    }
    Ok(values)
}

/// A row of so many fields.
fn read_row(alloc: Global, site: &Site, fields: usize, line: &Line) -> Result<Row, Stop> {
    let Some((words, [colon, outcome @ ..])) = line.words.as_slice().split_at_checked(fields) else {
        return Err(Stop::Malformed);
    };
    if !colon.is(b":") {
        return Err(Stop::Malformed);
    }
    let outcome = read_outcome(outcome)?;
    Ok(Row {
        values: read_fields(alloc, site, words)?,
        outcome,
    })
}

/// Whether the table of this first line is about packets of tracked connections.
fn is_est(state: &Word) -> Result<bool, Stop> {
    if state.is(b"est") {
        Ok(true)
    } else if state.is(b"new") {
        Ok(false)
    } else {
        Err(Stop::Malformed)
    }
}

/// The state that the first line names, and the number of rows.
fn read_head(line: &Line) -> Result<(bool, u32), Stop> {
    match line.words.as_slice() {
        [_, state, rows] => Ok((is_est(state)?, decimal(rows.text.as_slice())?)),
        _ => Err(Stop::Malformed),
    }
}

/// The rows of lines.
fn read_rows(
    alloc: Global,
    site: &Site,
    fields: usize,
    lines: &[Line],
) -> Result<Items<Row>, Stop> {
    let mut rows = Items::new(alloc);
    for line in lines {
        rows.put(read_row(alloc, site, fields, line)?)?;
    }
    Ok(rows)
}

/// The table of lines.
fn table_of(alloc: Global, site: &Site, lines: &[Line]) -> Result<Table, Stop> {
    let Some((head, body)) = lines.split_first() else {
        return Err(Stop::Malformed);
    };
    let (est, promised) = read_head(head)?;
    let rows = read_rows(alloc, site, if est { 12 } else { 8 }, body)?;
    Ok(Table {
        est,
        promised,
        rows,
    })
}

/// The table of a text.
pub fn read_table(alloc: Global, site: &Site, text: &[u8]) -> Result<Table, Stop> {
    let lines = read_lines(alloc, Comments::HashLine, text)?;
    table_of(alloc, site, lines.lines.as_slice())
}
