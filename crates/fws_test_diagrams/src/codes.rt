//! Flat code as lines spell it: `PLACE LITERAL .. -> ACT` for each instruction in its order, and `arrive`, `deliver`, `forward`
//! or `send` with a part's first place, the place past it, what it shows and the verdict with which it begins.

use crate::conditions::{condition_of, halves};
use crate::rules::flat_act_of;
use crate::shown::{WAYS, Way, shown_of};
use crate::stop::Stop;
use crate::words::decimal;
use fws_flat::{Flat, Ins, Part};
use fws_net::Site;
use fws_num::{Items, Line, Memory, Word, value_named};
use std::alloc::Global;

/// The instruction of these words.
fn instruction_of(alloc: Global, site: &Site, words: &[Word]) -> Result<Ins, Stop> {
    let (literals, act) = halves(words);
    let act = flat_act_of(act)?;
    let cond = condition_of(alloc, site, literals)?;
    Ok(Ins { cond, act })
}

/// The part of these words: its first place and the place past it, and what is shown.
fn part_of(words: &[Word]) -> Result<Part, Stop> {
    let [first, past, shown @ ..] = words else {
        return Err(Stop::Malformed);
    };
    let shown = shown_of(shown)?;
    Ok(Part {
        first: decimal(first.text.as_slice())?,
        past: decimal(past.text.as_slice())?,
        shows_recv: shown.recv,
        shows_xmit: shown.xmit,
        outward: shown.outward,
        end: shown.end,
    })
}

/// Adds a part to a way.
fn put_part(flat: &mut Flat, way: Way, part: Part) -> Result<(), Memory> {
    match way {
        Way::Arrive => flat.arrive.put(part),
        Way::Deliver => flat.deliver.put(part),
        Way::Forward => flat.forward.put(part),
        Way::Send => flat.send.put(part),
    }
}

/// Adds the instruction of these words, whose place must be the next one.
fn put_instruction(
    alloc: Global,
    site: &Site,
    code: &mut Items<Ins>,
    place: u32,
    words: &[Word],
) -> Result<(), Stop> {
    if place as usize != code.len() {
        return Err(Stop::Malformed);
    }
    code.put(instruction_of(alloc, site, words)?)?;
    Ok(())
}

/// Adds what a line says of the code; a line `walk ..` adds nothing.
fn put_line(alloc: Global, site: &Site, flat: &mut Flat, line: &Line) -> Result<(), Stop> {
    let Some((kind, words)) = line.words.as_slice().split_first() else {
        return Ok(());
    };
    if let Some(way) = value_named(&WAYS, kind.text.as_slice()) {
        return Ok(put_part(flat, way, part_of(words)?)?);
    }
    if kind.is(b"walk") {
        return Ok(());
    }
    let place = decimal(kind.text.as_slice())?;
    put_instruction(alloc, site, &mut flat.code, place, words)
}

/// Adds what lines say of the code.
fn put_lines(alloc: Global, site: &Site, flat: &mut Flat, lines: &[Line]) -> Result<(), Stop> {
    for line in lines {
        put_line(alloc, site, flat, line)?;
    }
    Ok(())
}

/// The code of these lines.
pub fn code_of(alloc: Global, site: &Site, lines: &[Line]) -> Result<Flat, Stop> {
    let mut flat = Flat {
        code: Items::new(alloc),
        arrive: Items::new(alloc),
        deliver: Items::new(alloc),
        forward: Items::new(alloc),
        send: Items::new(alloc),
    };
    put_lines(alloc, site, &mut flat, lines)?;
    Ok(flat)
}
