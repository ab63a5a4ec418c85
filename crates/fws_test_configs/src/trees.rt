//! Trees of the rows of a table's text. Of rows that share packets the first decides, and packets that no row holds are
//! dropped.

ghost use Rattle.std.specs.Prelude.{◌≡◌, IfOk};
ghost use Rattle.fws_net.specs.Points.{tops_of};
ghost use Rattle.fws_net.specs.Routes.{IsSound};

use crate::stop::Stop;
use crate::table::{Field, field_at, read_outcome, value};
use fws_box::whole_sides;
use fws_iv::{Ivs, one};
use fws_net::{Outcome, Site, State, tops};
use fws_num::{Comments, Items, Line, Text, Word, pieces, read_lines, split_once};
use fws_tree::{Row, Tree, from_rows};
use std::alloc::Global;

/// The least and the greatest value of an item `v` or `lo-hi`.
fn read_item(site: &Site, field: Field, item: &[u8]) -> Result<(u32, u32), Stop> {
    let (lo, hi) = split_once(item, b'-').unwrap_or((item, item));
    Ok((value(site, field, lo)?, value(site, field, hi)?))
}

/// The set, and the values of an item.
fn with_item(
    alloc: Global,
    site: &Site,
    field: Field,
    set: &Ivs,
    item: &[u8],
) -> Result<Ivs, Stop> {
    let (lo, hi) = read_item(site, field, item)?;
    if lo > hi {
        return Err(Stop::Malformed);
    }
    Ok(set.with_range(alloc, lo, hi)?)
}

/// The values of a list of items.
fn set_of(alloc: Global, site: &Site, field: Field, items: &[Text]) -> Result<Ivs, Stop> {
    let mut set = Ivs::none(alloc);
    for item in items {
        set = with_item(alloc, site, field, &set, item.as_slice())?;
    }
    Ok(set)
}

/// The values that a word has of a field with this greatest value.
fn read_side(alloc: Global, site: &Site, field: Field, top: u32, word: &Word) -> Result<Ivs, Stop> {
    if word.is(b"*") {
        return Ok(one(alloc, 0, top)?);
    }
    let items = pieces(alloc, b',', word.text.as_slice())?;
    set_of(alloc, site, field, items.as_slice())
}

/// Sets the sides of the fields that these words show.
fn set_sides(
    alloc: Global,
    site: &Site,
    sides: &mut [Ivs; 12],
    tops: &[u32; 12],
    words: &[Word],
) -> Result<(), Stop> {
    for place in 0..12 {
        if let Some(word) = words.get(place) {
            sides[place] = read_side(alloc, site, field_at(place), tops[place], word)?;
        }
    }
    Ok(())
}

/// The sides of these words; those of fields that the words don't show are whole.
fn read_sides(
    alloc: Global,
    site: &Site,
    tops: &[u32; 12],
    words: &[Word],
) -> Result<[Ivs; 12], Stop> {
    let mut sides = whole_sides(alloc, tops)?;
    set_sides(alloc, site, &mut sides, tops, words)?;
    Ok(sides)
}

/// How many fields a row shows: 8 for a new packet, 12 for an established one.
fn shown_fields(state: State) -> usize {
    match state {
        State::Fresh => 8,
        State::Est => 12,
    }
}

/// The row of a line.
fn read_row(
    alloc: Global,
    site: &Site,
    tops: &[u32; 12],
    state: State,
    line: &Line,
) -> Result<Row<Outcome>, Stop> {
    let shown = shown_fields(state);
    let Some((words, [colon, outcome @ ..])) = line.words.as_slice().split_at_checked(shown) else {
        return Err(Stop::Malformed);
    };
    if !colon.is(b":") {
        return Err(Stop::Malformed);
    }
    let leaf = read_outcome(outcome)?;
    Ok(Row {
        sides: read_sides(alloc, site, tops, words)?,
        leaf,
    })
}

/// The rows of lines.
fn read_rows(
    alloc: Global,
    site: &Site,
    tops: &[u32; 12],
    state: State,
    lines: &[Line],
) -> Result<Items<Row<Outcome>>, Stop> {
    let mut rows = Items::new(alloc);
    for line in lines {
        rows.put(read_row(alloc, site, tops, state, line)?)?;
    }
    Ok(rows)
}

/// The rows of a text that has a first line of its own and then a row on each line.
fn rows_of(
    alloc: Global,
    site: &Site,
    tops: &[u32; 12],
    state: State,
    text: &[u8],
) -> Result<Items<Row<Outcome>>, Stop> {
    let lines = read_lines(alloc, Comments::HashLine, text)?;
    match lines.lines.as_slice() {
        [_, body @ ..] => read_rows(alloc, site, tops, state, body),
        [] => Ok(Items::new(alloc)),
    }
}

/// The tree of a text that has a first line of its own and then a row on each line.
pub fn read_tree(
    alloc: Global,
    site: &Site,
    state: State,
    text: &[u8],
) -> Result<Tree<Outcome>, Stop>
    requires { IsSound site.now }
    ensures { IfOk result (λ t. t.0 ≡ tops_of site.now) }
{
    let tops = tops(site);
    let rows = rows_of(alloc, site, &tops, state, text)?;
    Ok(from_rows(alloc, &tops, rows.as_slice(), Outcome::Drop)?)
}
