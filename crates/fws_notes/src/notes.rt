//! Texts with notes: in their head what of the source doesn't carry over, and ahead of each rule the rules of the source that decide at
//! points of it.

ghost use Rattle.fws_net.specs.Routes.{IsSound};

use crate::evidence::Evidence;
use crate::families::Stretch;
use crate::guards::Guards;
use crate::heads::put_losses;
use crate::labels::{Stretches, stretches_of};
use crate::losses::Losses;
use crate::marks::{comment_mark, place_of};
use crate::pairs::Origins;
use crate::rules::{NONE, Told};
use fws_net::{Lang, Site};
use fws_num::{Memory, Text, pieces, put_dec};
use std::alloc::Global;

/// How many rules are named ahead of one.
const MOST_NAMED: usize = 3;

/// How long a text is at most, so that notes are put into it.
const MOST_BYTES: usize = 1 << 20;

/// What is told of a source.
#[derive(Clone, Copy)]
pub struct Source<'a> {
    /// What doesn't carry over.
    pub losses: &'a Losses,
    /// What its rules are called, by their numbers.
    pub labels: &'a [Text],
    /// What is said of them, by their numbers.
    pub remarks: &'a [Text],
}

/// What is written ahead of lines.
#[derive(Clone, Copy)]
struct Writer<'a> {
    alloc: Global,
    lang: Lang,
    /// The name of loopback in iptables.
    loopback: &'a [u8],
    source: &'a Source<'a>,
    origins: &'a Origins,
}

/// Whether a line is a comment.
fn is_comment(line: &[u8]) -> bool {
    matches!(line, [b'#', ..] | [b'!', ..])
}

/// How many lines ahead of the first one that is no comment.
fn head_length(lines: &[Text]) -> usize {
    let mut length = 0usize;
    for line in lines {
        if !is_comment(line.as_slice()) {
            break;
        }
        length = length.saturating_add(1);
    }
    length
}

/// The byte, or a question mark where it is a control character.
fn shown(byte: u8) -> u8 {
    if byte < 32 || byte == 127 { b'?' } else { byte }
}

/// Appends what is said of a rule, in quotes.
fn put_remark(out: &mut Text, remark: &[u8]) -> Result<(), Memory> {
    out.put(b" \"")?;
    for byte in remark {
        out.put(&[shown(*byte)])?;
    }
    out.put(b"\"")
}

/// Whether a remark can be an option's word as it stands in quotes.
fn is_plain(remark: &[u8]) -> bool {
    remark.len() < 256
        && remark.iter().all(|byte| *byte >= 32 && *byte < 127 && *byte != b'"' && *byte != b'\\')
}

impl Writer<'_> {
    /// What is said of a rule of the source: nothing where nothing is.
    fn remark(&self, rule: u32) -> &[u8] {
        match self.source.remarks.get(rule as usize) {
            Some(remark) => remark.as_slice(),
            None => &[],
        }
    }

    /// Appends a rule of the source.
    fn put_rule(&self, out: &mut Text, rule: u32) -> Result<(), Memory> {
        put_dec(out, u64::from(rule).saturating_add(1))?;
        if let Some(label) = self.source.labels.get(rule as usize) {
            out.put(b" ")?;
            out.put(label.as_slice())?;
        }
        let remark = self.remark(rule);
        if !remark.is_empty() {
            put_remark(out, remark)?;
        }
        Ok(())
    }

    /// Appends the first of these rules, with commas between, and how many are left.
    fn put_rules(&self, out: &mut Text, rules: &[u32]) -> Result<(), Memory> {
        for (k, rule) in rules.iter().enumerate() {
            if k == MOST_NAMED {
                break;
            }
            if k > 0 {
                out.put(b", ")?;
            }
            self.put_rule(out, *rule)?;
        }
        let more = rules.len().saturating_sub(MOST_NAMED);
        if more > 0 {
            out.put(b" and ")?;
            put_dec(out, more as u64)?;
            out.put(b" more")?;
        }
        Ok(())
    }

    /// The rules of the source for the rules of a line, sorted and each once; NONE behind all others.
    fn origins_of(&self, stretch: Stretch) -> Result<Vec<u32>, Memory> {
        let mut all = Vec::new(self.alloc);
        let end = stretch.first.saturating_add(stretch.count);
        for rule in stretch.first..end {
            if let Some(sources) = self.origins.rules.get(rule as usize) {
                all.extend_from_slice(sources.as_slice())?;
            }
        }
        all.sort_unstable();
        each_once(self.alloc, all.as_slice())
    }

    /// Appends the note of a line.
    fn put_note(&self, out: &mut Text, origins: &[u32]) -> Result<(), Memory> {
        let (rules, has_none) = match origins {
            [rules @ .., last] if *last == NONE => (rules, true),
            _ => (origins, false),
        };
        if rules.is_empty() && !has_none {
            return Ok(());
        }
        out.put(comment_mark(self.lang))?;
        out.put(b" from ")?;
        self.put_rules(out, rules)?;
        if has_none {
            out.put(if rules.is_empty() {
                b"what no rule decides"
            } else {
                b", and what no rule decides"
            })?;
        }
        out.put(b"\n")
    }

    /// What is said of the rules of a line, where it is the same of all of which something is said.
    fn common_remark(&self, origins: &[u32]) -> &[u8] {
        let mut common: &[u8] = &[];
        for rule in origins {
            let remark = self.remark(*rule);
            if remark.is_empty() {
                continue;
            }
            if !common.is_empty() && common != remark {
                return &[];
            }
            common = remark;
        }
        common
    }

    /// Appends a rule of iptables with what is said of it ahead of its target.
    fn put_remarked(&self, out: &mut Text, line: &[u8], remark: &[u8]) -> Result<(), Memory> {
        let place = place_of(line, b" -j ").unwrap_or(line.len());
        out.put(line.get(..place).unwrap_or(line))?;
        out.put(b" -m comment --comment \"")?;
        out.put(remark)?;
        out.put(b"\"")?;
        out.put(line.get(place..).unwrap_or(&[]))
    }

    /// Appends the rule that drops packets of the class INVALID, where a chain begins of which the source drops them.
    fn put_guard(&self, out: &mut Text, guards: &mut Guards, line: &[u8]) -> Result<(), Memory> {
        if self.lang != Lang::Iptables {
            return Ok(());
        }
        guards.put(out, line, &self.source.losses.invalid, self.loopback)
    }

    /// Appends a line with rules, and its note ahead of it.
    fn put_line(&self, out: &mut Text, line: &[u8], stretch: Stretch) -> Result<(), Memory> {
        if stretch.count == 0 {
            return out.put(line);
        }
        let origins = self.origins_of(stretch)?;
        self.put_note(out, origins.as_slice())?;
        let remark = self.common_remark(origins.as_slice());
        if self.lang == Lang::Iptables && !remark.is_empty() && is_plain(remark) {
            self.put_remarked(out, line, remark)
        } else {
            out.put(line)
        }
    }

    /// Appends lines, with notes ahead of those that have rules.
    fn put_lines(
        &self,
        out: &mut Text,
        lines: &[Text],
        stretches: &[Stretch],
    ) -> Result<(), Memory> {
        let mut is_first = true;
        let mut guards = Guards::new();
        for (line, stretch) in lines.iter().zip(stretches) {
            if !is_first {
                out.put(b"\n")?;
            }
            is_first = false;
            self.put_guard(out, &mut guards, line.as_slice())?;
            self.put_line(out, line.as_slice(), *stretch)?;
        }
        Ok(())
    }
}

/// Sorted numbers, each once.
fn each_once(alloc: Global, numbers: &[u32]) -> Result<Vec<u32>, Memory> {
    let mut once = Vec::new(alloc);
    let mut last = None;
    for number in numbers {
        if last != Some(*number) {
            once.push(*number)?;
        }
        last = Some(*number);
    }
    Ok(once)
}

/// Appends lines as they are.
fn put_plain(out: &mut Text, lines: &[Text]) -> Result<(), Memory> {
    for line in lines {
        out.put(line.as_slice())?;
        out.put(b"\n")?;
    }
    Ok(())
}

/// Appends what the notes ahead of rules say.
fn put_legend(out: &mut Text, lang: Lang) -> Result<(), Memory> {
    out.put(comment_mark(lang))?;
    out.put(
        b" Ahead of a rule stand rules of the source that decide on packets of it, as fws why names them.\n",
    )
}

/// The rules of the lines of a text and what they come from, where that is known.
#[derive(Drop)]
struct Known {
    stretches: Stretches,
    origins: Origins,
}

/// What is known of the rules of a text.
fn known_of(
    alloc: Global,
    site: &Site,
    lang: Lang,
    lines: &[Text],
    target: Option<&Told>,
    evidence: &Evidence,
) -> Result<Option<Known>, Memory>
    requires { IsSound site.now }
{
    let Some(target) = target else {
        return Ok(None);
    };
    if evidence.is_empty() || target.labels.is_empty() {
        return Ok(None);
    }
    let Some(stretches) = stretches_of(alloc, lang, lines, target.labels)? else {
        return Ok(None);
    };
    let origins = evidence.origins(alloc, site, target)?;
    Ok(Some(Known { stretches, origins }))
}

/// Appends lines behind a head, with notes.
fn put_known(
    out: &mut Text,
    alloc: Global,
    site: &Site,
    lang: Lang,
    source: &Source,
    lines: &[Text],
    head: usize,
    known: &Known,
) -> Result<(), Memory> {
    put_legend(out, lang)?;
    let writer = Writer {
        alloc,
        lang,
        loopback: site.lo.ipt.as_slice(),
        source,
        origins: &known.origins,
    };
    let stretches = known.stretches.lines.get(head..).unwrap_or(&[]);
    writer.put_lines(out, lines, stretches)
}

/// Appends lines behind a head as they are.
fn put_unknown(out: &mut Text, lines: &[Text]) -> Result<(), Memory> {
    let mut is_first = true;
    for line in lines {
        if !is_first {
            out.put(b"\n")?;
        }
        is_first = false;
        out.put(line.as_slice())?;
    }
    Ok(())
}

/// A text in a language with notes: behind the first comments what of the source doesn't carry over, and ahead of each rule up to
/// three rules of the source that decide at points of it, and how many more there are. In iptables a rule gets the source's
/// `--comment`, where that is one, and chains of its filter drop what the kernel calls INVALID first, where the source drops all of
/// it. Where nothing is told of the text's rules, or of the source's, there are no such notes. Fails if memory runs out.
pub fn noted(
    alloc: Global,
    site: &Site,
    lang: Lang,
    text: &[u8],
    source: &Source,
    target: Option<&Told>,
    evidence: &Evidence,
) -> Result<Text, Memory>
    requires { IsSound site.now }
{
    if text.len() > MOST_BYTES {
        return Text::of(alloc, text);
    }
    let lines = pieces(alloc, b'\n', text)?;
    let head = head_length(lines.as_slice());
    let rest = lines.as_slice().get(head..).unwrap_or(&[]);
    let mut out = Text::new(alloc);
    put_plain(&mut out, lines.as_slice().get(..head).unwrap_or(&[]))?;
    put_losses(&mut out, lang, text, source.losses)?;
    match known_of(alloc, site, lang, lines.as_slice(), target, evidence)? {
        Some(known) => put_known(&mut out, alloc, site, lang, source, rest, head, &known)?,
        None => put_unknown(&mut out, rest)?,
    }
    Ok(out)
}
