//! Whether a text is read, by the readers of the commands, within a measure of work.

use crate::ground::Ground;
use crate::kinds::{Kind, Why};
use crate::lists::rules_and_uses;
use fws_events::read_events;
use fws_net::{Cause, ReadAnswer, SiteAnswer, SiteCause, read_site};
use fws_num::Memory;
use fws_top::{Ios, Ipfw, Iptables, Openbsd, Pf, Source};
use fws_trace::{LineAnswer, read_conns, read_packets};
use std::alloc::Global;

/// How many bytes are read in the time that a rule takes which a list of pf makes.
const RULE: usize = 30;

/// How many bytes are read in the time that a use of a macro may take.
const USE: usize = 1000;

/// Where a text is refused.
#[derive(Clone, Copy, Debug, PartialEq, Eq)]
pub(crate) struct Refusal {
    pub(crate) line: u32,
    pub(crate) why: Why,
}

/// What judges texts of a kind.
#[derive(Drop)]
pub(crate) struct Judge<'a> {
    pub(crate) alloc: Global,
    pub(crate) kind: Kind,
    pub(crate) ground: Option<&'a Ground>,
    /// How many bytes may still be read. A rule of pf that a list makes, and a use of a macro, count as many.
    pub(crate) left: usize,
}

/// What was found: a refusal, or none; or the work went past its measure.
#[derive(Clone, Copy, Debug, PartialEq, Eq)]
pub(crate) enum Found {
    Read,
    Refused(Refusal),
    Tired,
}

fn why_of(cause: Cause) -> Why {
    match cause {
        Cause::Syntax => Why::Syntax,
        Cause::LeftOut => Why::LeftOut,
        Cause::NoInterface => Why::NoInterface,
        Cause::NoName => Why::NoName,
        Cause::Backward => Why::Backward,
        Cause::Shape => Why::Shape,
        Cause::Expand => Why::Expand,
    }
}

fn why_of_site(cause: SiteCause) -> Why {
    match cause {
        SiteCause::Syntax => Why::Syntax,
        SiteCause::Overlap => Why::Overlap,
        SiteCause::Names => Why::Names,
        SiteCause::Count => Why::Count,
    }
}

/// What the reader of a configuration says of it.
fn judged<L: Source>(alloc: Global, text: &[u8], ground: &Ground) -> Result<Found, Memory> {
    match L::read(alloc, text, &ground.site) {
        Ok(config) => {
            drop(config);
            Ok(Found::Read)
        }
        Err(ReadAnswer::Memory) => Err(Memory),
        Err(ReadAnswer::Refused { line, cause }) => Ok(Found::Refused(Refusal {
            line,
            why: why_of(cause),
        })),
    }
}

/// What the reader of site files says of one.
fn judged_site(alloc: Global, text: &[u8]) -> Result<Found, Memory> {
    match read_site(alloc, text) {
        Ok(site) => {
            drop(site);
            Ok(Found::Read)
        }
        Err(SiteAnswer::Memory) => Err(Memory),
        Err(SiteAnswer::Refused { line, cause }) => Ok(Found::Refused(Refusal {
            line,
            why: why_of_site(cause),
        })),
    }
}

/// What a reader of lines says that gave a value or this answer.
fn judged_lines<T: Drop>(answer: Result<T, LineAnswer>) -> Result<Found, Memory> {
    match answer {
        Ok(listed) => {
            drop(listed);
            Ok(Found::Read)
        }
        Err(LineAnswer::Memory) => Err(Memory),
        Err(LineAnswer::Refused { line }) => Ok(Found::Refused(Refusal {
            line,
            why: Why::Syntax,
        })),
    }
}

/// What the reader of a kind of text says of one at a site.
fn judged_at(alloc: Global, kind: Kind, text: &[u8], ground: &Ground) -> Result<Found, Memory> {
    match kind {
        Kind::Site => judged_site(alloc, text),
        Kind::Iptables => judged::<Iptables>(alloc, text, ground),
        Kind::Ipfw => judged::<Ipfw>(alloc, text, ground),
        Kind::Pf => judged::<Pf>(alloc, text, ground),
        Kind::Openbsd => judged::<Openbsd>(alloc, text, ground),
        Kind::Ios => judged::<Ios>(alloc, text, ground),
        Kind::Conns => judged_lines(read_conns(alloc, text)),
        Kind::Packets => judged_lines(read_packets(alloc, text, &ground.site)),
        Kind::Events => judged_lines(read_events(alloc, text, &ground.site)),
    }
}

impl Judge<'_> {
    /// What reading a text takes, in bytes.
    fn work(&self, text: &[u8]) -> Result<usize, Memory> {
        let bytes = text.len().saturating_add(1);
        if self.kind.is_pf() {
            let (rules, uses) = rules_and_uses(self.alloc, text)?;
            let more = rules
                .saturating_mul(RULE)
                .saturating_add(uses.saturating_mul(USE));
            return Ok(bytes.saturating_add(more));
        }
        Ok(bytes)
    }

    /// Where a text is refused. The first text is read whatever it takes.
    pub(crate) fn judge(&mut self, text: &[u8]) -> Result<Found, Memory> {
        if self.left == 0 {
            return Ok(Found::Tired);
        }
        let work = self.work(text)?;
        self.left = self.left.saturating_sub(work);
        match self.ground {
            Some(ground) => judged_at(self.alloc, self.kind, text, ground),
            None => judged_site(self.alloc, text),
        }
    }
}
