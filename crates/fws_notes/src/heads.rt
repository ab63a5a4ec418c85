//! Heads of texts that say what doesn't carry over.

use crate::losses::{Loss, Losses, Tally};
use crate::marks::{comment_mark, keeps_interfaces};
use fws_net::Lang;
use fws_num::{Memory, Text, put_dec};
use std::alloc::Global;

/// Appends what stands in its place.
fn put_instead(out: &mut Text, loss: Loss) -> Result<(), Memory> {
    match loss {
        Loss::Answer(_) => out.put(b": these packets are dropped without an answer"),
        Loss::State(_) => { out.put(b": packets of the kernel's class INVALID fare as new ones") }
        Loss::Interface(_) => {
            out.put(b": the address that the interface has in the site file is written")
        }
        Loss::Other(_) => Ok(()),
    }
}

/// Appends the lines in which it stands.
fn put_lines(out: &mut Text, tally: Tally) -> Result<(), Memory> {
    out.put(b" (line ")?;
    put_dec(out, u64::from(tally.first))?;
    if tally.more > 0 {
        out.put(b" and ")?;
        put_dec(out, u64::from(tally.more))?;
        out.put(b" more")?;
    }
    out.put(b")")
}

/// Appends a line that says what is lost.
fn put_tally(out: &mut Text, lang: Lang, tally: Tally) -> Result<(), Memory> {
    out.put(comment_mark(lang))?;
    out.put(b" not carried over: ")?;
    out.put(tally.loss.word())?;
    put_lines(out, tally)?;
    put_instead(out, tally.loss)?;
    out.put(b"\n")
}

/// Appends a line for each thing that a text in a language loses.
pub(crate) fn put_losses(
    out: &mut Text,
    lang: Lang,
    text: &[u8],
    losses: &Losses,
) -> Result<(), Memory> {
    let keeps = keeps_interfaces(lang, text);
    let drops = lang == Lang::Iptables && losses.invalid.drops_all();
    for tally in &losses.all {
        let is_kept = match tally.loss {
            Loss::Interface(_) => keeps,
            Loss::State(_) => drops,
            Loss::Answer(_) | Loss::Other(_) => false,
        };
        if is_kept {
            continue;
        }
        put_tally(out, lang, *tally)?;
    }
    Ok(())
}

/// Where the first line of a text ends, with its line feed.
fn first_line(text: &[u8]) -> usize {
    match text.iter().position(|byte| *byte == b'\n') {
        Some(place) => place.saturating_add(1),
        None => 0,
    }
}

/// A text with lines behind its first one that say what of its source doesn't carry over; none where nothing is lost. Fails if
/// memory runs out.
pub fn headed(
    alloc: Global,
    lang: Lang,
    text: &[u8],
    losses: &Losses,
) -> Result<Option<Text>, Memory> {
    let mut said = Text::new(alloc);
    put_losses(&mut said, lang, text, losses)?;
    if said.as_slice().is_empty() {
        return Ok(None);
    }
    let end = first_line(text);
    let mut out = Text::of(alloc, text.get(..end).unwrap_or(&[]))?;
    out.put(said.as_slice())?;
    out.put(text.get(end..).unwrap_or(text))?;
    Ok(Some(out))
}
