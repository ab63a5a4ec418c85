//! What command lines run over: shelves and sinks in memory.

use crate::stop::Stop;
use fws_io::{MemShelf, MemSink, Shelf, SureShelf, SureSink};
use fws_num::{Items, Memory, Text, Word, value_named};
use fws_top::{FILE_LIMIT, run};
use std::alloc::Global;

/// What a command line came to.
#[derive(Drop)]
pub struct Found {
    /// The exit status.
    pub status: u8,
    /// What was written.
    pub text: Text,
}

/// Two shelves that hold the same, and how sinks take what is put.
#[derive(Drop)]
pub struct Outside {
    alloc: Global,
    /// The shelf of which a read may fail.
    shelf: MemShelf,
    /// The shelf that never fails.
    sure: SureShelf,
    /// The most bytes that a put takes.
    most: usize,
    /// The number of the put that fails; 0 for none.
    failing: u64,
}

/// The list of this one call.
fn one_call(alloc: Global, number: u64) -> Result<Items<u64>, Memory> {
    let mut calls = Items::new(alloc);
    calls.put(number)?;
    Ok(calls)
}

/// Adds a word.
fn put_word(alloc: Global, words: &mut Items<Text>, word: &[u8]) -> Result<(), Memory> {
    words.put(Text::of(alloc, word)?)
}

/// The words of a command line, between which blanks stand.
fn words_of(alloc: Global, command: &[u8]) -> Result<Items<Text>, Memory> {
    let mut words = Items::new(alloc);
    for word in command.split(|c: &u8| *c == b' ') {
        put_word(alloc, &mut words, word)?;
    }
    Ok(words)
}

/// What a command line comes to over a shelf and a sink.
fn found_over<S: Shelf>(
    alloc: Global,
    shelf: &mut S,
    sink: &mut MemSink,
    words: &[Text],
) -> Result<Found, Memory> {
    let status = run(alloc, words, shelf, sink);
    Ok(Found {
        status: status as u8,
        text: Text::of(alloc, sink.bytes())?,
    })
}

/// What a command line comes to over a shelf and a sink that keeps nothing.
fn found_silently<S: Shelf>(alloc: Global, shelf: &mut S, words: &[Text]) -> Found {
    let status = run(alloc, words, shelf, &mut SureSink::new());
    Found {
        status: status as u8,
        text: Text::new(alloc),
    }
}

/// Whether a text is the line that the name can't be read.
fn is_unread(alloc: Global, text: &[u8], name: &[u8]) -> Result<bool, Memory> {
    let mut line = Text::of(alloc, b"cannot read ")?;
    line.put(name)?;
    line.put(b"\n")?;
    Ok(line.as_slice() == text)
}

/// Whether a text is one line that refuses the name.
fn is_refusal(alloc: Global, text: &[u8], name: &[u8]) -> Result<bool, Memory> {
    let mut begin = Text::of(alloc, b"refused ")?;
    begin.put(name)?;
    begin.put(b" ")?;
    Ok(match text {
        [line @ .., b'\n'] => line.starts_with(begin.as_slice()) && !line.contains(&b'\n'),
        _ => false,
    })
}

/// What a name holds on a shelf.
fn found_held<S: Shelf>(alloc: Global, shelf: &mut S, name: &[u8]) -> Result<Found, Stop> {
    let text = shelf.read(alloc, name, FILE_LIMIT)?;
    Ok(Found { status: 0, text })
}

/// Over what a command line runs.
#[derive(Clone, Copy)]
enum Over {
    /// The shelf of which a read may fail.
    Shelf,
    /// The shelf that never fails.
    Sure,
    /// That shelf, and a sink that keeps nothing.
    Silence,
}

/// What a case asks.
#[derive(Clone, Copy)]
enum Asks {
    /// What its command line comes to.
    Run(Over),
    /// What the name that stands in its place holds.
    Held,
}

/// The words of kinds of cases.
const KINDS: [(&[u8], Asks); 4] = [
    (b"run", Asks::Run(Over::Shelf)),
    (b"sure", Asks::Run(Over::Sure)),
    (b"silent", Asks::Run(Over::Silence)),
    (b"held", Asks::Held),
];

impl Outside {
    /// Shelves that hold no name, of which the first fails at the read of this number, and sinks that take a byte at a time.
    pub fn new(alloc: Global, failing_read: u64) -> Result<Outside, Memory> {
        Ok(Outside {
            alloc,
            shelf: MemShelf::new(alloc, one_call(alloc, failing_read)?),
            sure: SureShelf::new(alloc),
            most: 1,
            failing: 0,
        })
    }

    /// Gives both shelves this content under the name.
    pub fn hold(&mut self, name: &Word, content: &Text) -> Result<(), Memory> {
        self.shelf.hold(name.text.as_slice(), content.as_slice())?;
        self.sure.hold(name.text.as_slice(), content.as_slice())
    }

    /// Sets how sinks take what is put.
    pub fn set_sink(&mut self, most: usize, failing: u64) {
        self.most = most;
        self.failing = failing;
    }

    /// A sink.
    fn sink(&self) -> Result<MemSink, Memory> {
        let failing = one_call(self.alloc, self.failing)?;
        Ok(MemSink::new(self.alloc, self.most.max(1), failing))
    }

    /// What a command line comes to over the shelf of which a read may fail.
    fn find_over_shelf(&mut self, words: &[Text]) -> Result<Found, Memory> {
        let mut sink = self.sink()?;
        found_over(self.alloc, &mut self.shelf, &mut sink, words)
    }

    /// What a command line comes to over the shelf that never fails.
    fn find_over_sure(&mut self, words: &[Text]) -> Result<Found, Memory> {
        let mut sink = self.sink()?;
        found_over(self.alloc, &mut self.sure, &mut sink, words)
    }

    /// What the words of a command line come to.
    fn find_over(&mut self, over: Over, words: &[Text]) -> Result<Found, Memory> {
        match over {
            Over::Shelf => self.find_over_shelf(words),
            Over::Sure => self.find_over_sure(words),
            Over::Silence => Ok(found_silently(self.alloc, &mut self.sure, words)),
        }
    }

    /// What a command line comes to.
    fn find_run(&mut self, over: Over, command: &[u8]) -> Result<Found, Memory> {
        let words = words_of(self.alloc, command)?;
        self.find_over(over, words.as_slice())
    }

    /// Gives both shelves under the name what a command line writes, which has to end with status 0.
    pub fn hold_answer(&mut self, name: &Word, command: &Word) -> Result<(), Stop> {
        let found = self.find_run(Over::Shelf, command.text.as_slice())?;
        if found.status != 0 {
            return Err(Stop::Malformed);
        }
        Ok(self.hold(name, &found.text)?)
    }

    /// What the command comes to in this kind of case.
    pub fn find(&mut self, kind: &Word, command: &Word) -> Result<Found, Stop> {
        let command = command.text.as_slice();
        match value_named(&KINDS, kind.text.as_slice()) {
            Some(Asks::Run(over)) => Ok(self.find_run(over, command)?),
            Some(Asks::Held) => found_held(self.alloc, &mut self.sure, command),
            None => Err(Stop::Malformed),
        }
    }

    /// What the words of a command line come to over a shelf that holds what these names hold, of which the read with this
    /// number fails.
    fn find_failing_read(
        &mut self,
        words: &[Text],
        names: &[Word],
        number: u64,
    ) -> Result<Found, Stop> {
        let mut shelf = MemShelf::new(self.alloc, one_call(self.alloc, number)?);
        for name in names {
            let name = name.text.as_slice();
            let content = self.sure.read(self.alloc, name, FILE_LIMIT)?;
            shelf.hold(name, content.as_slice())?;
        }
        let mut sink = self.sink()?;
        Ok(found_over(self.alloc, &mut shelf, &mut sink, words)?)
    }

    /// The number of the first read that isn't as expected, or none: a command line reads these names in this turn and no other,
    /// and where the read of one fails it ends with 4 and says so.
    pub fn find_bad_read(&mut self, command: &Word, names: &[Word]) -> Result<Option<u64>, Stop> {
        let words = words_of(self.alloc, command.text.as_slice())?;
        let mut number = 1u64;
        for name in names {
            let found = self.find_failing_read(words.as_slice(), names, number)?;
            let told = is_unread(self.alloc, found.text.as_slice(), name.text.as_slice())?;
            if found.status != 4 || !told {
                return Ok(Some(number));
            }
            number = number.saturating_add(1);
        }
        let found = self.find_failing_read(words.as_slice(), names, number)?;
        Ok((found.status == 4).then_some(number))
    }

    /// What the words of a command line come to over the shelf, and a sink that takes a byte at a time, of which the put with
    /// this number fails.
    fn find_failing_put(&mut self, words: &[Text], number: u64) -> Result<Found, Memory> {
        let mut sink = MemSink::new(self.alloc, 1, one_call(self.alloc, number)?);
        found_over(self.alloc, &mut self.shelf, &mut sink, words)
    }

    /// The number of the first put that isn't as expected, or none: where the put of a byte fails the command line ends with 5, behind
    /// just the bytes ahead of it; 0 where no put fails and the status isn't this one.
    pub fn find_bad_put(&mut self, command: &Word, status: u64) -> Result<Option<u64>, Stop> {
        let words = words_of(self.alloc, command.text.as_slice())?;
        let whole = self.find_failing_put(words.as_slice(), 0)?;
        if u64::from(whole.status) != status {
            return Ok(Some(0));
        }
        let text = whole.text.as_slice();
        let mut number = 1u64;
        for length in 0..text.len() {
            let found = self.find_failing_put(words.as_slice(), number)?;
            if found.status != 5 || found.text.as_slice() != &text[..length] {
                return Ok(Some(number));
            }
            number = number.saturating_add(1);
        }
        Ok(None)
    }

    /// Whether a command line answers or refuses what the name holds: it ends with 0 and some text, or with 3 and a line that
    /// refuses the name.
    fn is_answered_or_refused(&mut self, words: &[Text], name: &[u8]) -> Result<bool, Memory> {
        let mut sink = self.sink()?;
        let found = found_over(self.alloc, &mut self.sure, &mut sink, words)?;
        match found.status {
            0 => Ok(!found.text.as_slice().is_empty()),
            3 => is_refusal(self.alloc, found.text.as_slice(), name),
            _ => Ok(false),
        }
    }

    /// The length of the first beginning of what the name holds that a command line neither answers nor refuses, or none.
    pub fn find_bad_cut(&mut self, command: &Word, name: &Word) -> Result<Option<u64>, Stop> {
        let words = words_of(self.alloc, command.text.as_slice())?;
        let name = name.text.as_slice();
        let whole = self.sure.read(self.alloc, name, FILE_LIMIT)?;
        let whole = whole.as_slice();
        for length in 0..=whole.len() {
            self.sure.hold(name, &whole[..length])?;
            if !self.is_answered_or_refused(words.as_slice(), name)? {
                return Ok(Some(length as u64));
            }
        }
        Ok(None)
    }
}
