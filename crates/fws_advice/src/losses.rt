//! What a translation loses of a configuration: what is logged, and what is answered to packets that are dropped.

use crate::bytes::is;
use crate::kinds::Kind;
use crate::report::Report;
use crate::scanning::Worded;
use fws_num::Memory;

/// The rule logs packets.
fn logs(kind: Kind, line: &Worded) -> bool {
    match kind {
        Kind::Iptables => match line.behind(b"-j") {
            Some(target) => is(target, b"LOG") || is(target, b"NFLOG"),
            None => false,
        },
        Kind::Ipfw => line.has(b"log") && !line.has(b"config"),
        Kind::Pf | Kind::Openbsd => line.has(b"log"),
        Kind::Ios => line.has(b"log") || line.has(b"log-input"),
        _ => false,
    }
}

/// The rule answers packets that it drops.
fn answers(kind: Kind, line: &Worded) -> bool {
    match kind {
        Kind::Iptables => match line.behind(b"-j") {
            Some(target) => is(target, b"REJECT"),
            None => false,
        },
        Kind::Ipfw => line.has(b"reject")
            || line.has(b"reset") && !line.has(b"config")
            || line.has(b"unreach"),
        Kind::Pf | Kind::Openbsd => {
            is(line.word(0), b"block")
                && (line.has(b"return") || line.has(b"return-rst") || line.has(b"return-icmp"))
        }
        _ => false,
    }
}

/// Says at which line something stands first, and how many more such lines there are.
fn say_where(
    out: &mut Report,
    name: &[u8],
    first: u32,
    more: u64,
    what: &[u8],
) -> Result<(), Memory> {
    out.show(name)?;
    out.say(b":")?;
    out.say_number(u64::from(first))?;
    out.say(b": ")?;
    out.say(what)?;
    if more > 0 {
        out.say(b" (and ")?;
        out.say_number(more)?;
        out.say(b" more)")?;
    }
    out.say(b"\n")
}

/// Says what a translation loses of a configuration.
pub(crate) fn say_losses(
    out: &mut Report,
    kind: Kind,
    name: &[u8],
    lines: &[Worded],
) -> Result<(), Memory> {
    let mut logging = Losses::new();
    let mut answering = Losses::new();
    for line in lines {
        if logs(kind, line) {
            logging.note(line.number);
        }
        if answers(kind, line) {
            answering.note(line.number);
        }
    }
    logging.say(
        out,
        name,
        b"the translation does not log what this rule logs",
    )?;
    answering.say(
        out,
        name,
        b"the translation drops in silence what this rule answers with a refusal",
    )
}

/// Lines of which a translation loses something.
#[derive(Clone, Copy)]
struct Losses {
    first: u32,
    count: u64,
}

impl Losses {
    /// None so far.
    fn new() -> Losses {
        Losses { first: 0, count: 0 }
    }

    /// One more, at this line.
    fn note(&mut self, line: u32) {
        if self.count == 0 {
            self.first = line;
        }
        self.count = self.count.saturating_add(1);
    }

    /// Says what is lost, if anything is.
    fn say(&self, out: &mut Report, name: &[u8], what: &[u8]) -> Result<(), Memory> {
        match self.count.checked_sub(1) {
            None => Ok(()),
            Some(more) => say_where(out, name, self.first, more, what),
        }
    }
}
