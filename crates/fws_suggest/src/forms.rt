//! What a target can write, and what that costs.

use crate::style::Style;
use fws_diagram::{DST, ENTRY, FIELDS, Region, SRC, Side, Space, Stop};

/// What writing a side takes.
#[derive(Clone, Copy)]
pub struct Measure {
    /// How many lines.
    pub lines: u64,
    /// What each of them has, in thousandths of a line.
    pub words: u64,
}

/// What side is sought for a rule.
#[derive(Clone, Copy)]
pub struct Sought {
    /// The field.
    pub field: usize,
    /// What it has at least.
    pub least: Side,
    /// What it may have.
    pub most: Side,
    /// What is worth having.
    pub wanted: Side,
    /// Whether it is to be as wide as all but a little.
    pub wide: bool,
}

/// By what the words of a line are divided where they count little.
const LITTLE: u64 = 4;

/// What the rule costs that decides in a region, in thousandths of a line. Where lists may lead to others, sources, destinations,
/// entries and services that take several lines each need not be written with one another.
pub(crate) fn cost_of(style: &mut Style, space: &mut Space, region: &Region) -> Result<u64, Stop> {
    let mut lines: u64 = 1;
    let mut services: u64 = 1;
    let mut apart: u64 = 0;
    let mut words: u64 = 0;
    for field in 0..FIELDS {
        let side = region.side(field);
        if side != space.full(field) {
            let measure = style.measure(space, field, side)?;
            lines = lines.saturating_mul(measure.lines);
            words = words.saturating_add(measure.words);
            if field != SRC && field != DST && field != ENTRY {
                services = services.saturating_mul(measure.lines);
            } else if measure.lines > 1 {
                apart = apart.saturating_add(measure.lines);
            }
        }
    }
    if services > 1 {
        apart = apart.saturating_add(services);
    }
    if style.settings.calls_chains && apart > 0 {
        lines = lines.min(apart);
    }
    if style.counts_lines {
        words /= LITTLE;
    }
    Ok(lines.saturating_mul(1000).saturating_add(words))
}
