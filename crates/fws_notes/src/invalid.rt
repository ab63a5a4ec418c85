//! What becomes of packets of the kernel's class INVALID in the filter of iptables. No packet is of this class here, so that a rule that
//! drops all of them changes nothing of what a text does, and on a kernel they fare as under the source.

use crate::labels::word_at;
use crate::marks::place_of;
use fws_num::{Line, Word};

/// The chains of the table filter that are looked at.
pub(crate) const CHAINS: [&[u8]; 3] = [b"INPUT", b"FORWARD", b"OUTPUT"];

/// What is known of a chain.
#[derive(Clone, Copy)]
pub(crate) struct Chain {
    /// Whether its policy drops.
    drops: bool,
    /// Whether a rule decided on all of them.
    is_decided: bool,
    /// Whether a rule may accept some of them.
    accepts: bool,
    /// Whether one accepts what comes in from loopback.
    pub(crate) accepts_loopback: bool,
}

/// What is known of the chains, by their places.
#[derive(Clone, Copy)]
pub(crate) struct Invalid {
    is_filter: bool,
    pub(crate) chains: [Chain; 3],
}

/// What a rule asks of them.
#[derive(Clone, Copy)]
struct Rule<'a> {
    /// Whether it can match one.
    matches: bool,
    /// How many other tests it has.
    tests: usize,
    /// Whether one of these is that of loopback.
    asks_loopback: bool,
    target: &'a [u8],
}

impl Chain {
    /// Nothing is known.
    fn new() -> Chain {
        Chain {
            drops: false,
            is_decided: false,
            accepts: false,
            accepts_loopback: false,
        }
    }

    /// Whether all of them are dropped, but those from loopback where it accepts these.
    pub(crate) fn drops_all(&self) -> bool {
        !self.accepts && (self.is_decided || self.drops)
    }

    /// Takes a rule.
    fn take(&mut self, rule: Rule<'_>) {
        if self.is_decided || !rule.matches || rule.target.is_empty() {
            return;
        }
        match rule.target {
            b"LOG" | b"NFLOG" => {}
            b"DROP" | b"REJECT" => self.is_decided = rule.tests == 0,
            b"ACCEPT" => {
                if rule.tests == 1 && rule.asks_loopback {
                    self.accepts_loopback = true;
                } else {
                    self.accepts = true;
                }
            }
            _ => self.accepts = true,
        }
    }
}

/// Whether a list of states has INVALID.
fn has_invalid(states: &[u8]) -> bool {
    place_of(states, b"INVALID").is_some()
}

/// Whether a word has a value that is looked at, or passed by.
fn has_value(word: &[u8]) -> bool {
    matches!(
        word,
        b"-j" | b"-g" | b"-m" | b"-i" | b"--ctstate" | b"--state" | b"--comment"
    )
}

impl<'a> Rule<'a> {
    /// A rule without a test.
    fn new() -> Rule<'a> {
        Rule {
            matches: true,
            tests: 0,
            asks_loopback: false,
            target: b"",
        }
    }

    /// Takes a word and its value.
    fn take(&mut self, word: &[u8], value: &'a [u8], is_negated: bool, loopback: &[u8]) {
        match word {
            b"-j" | b"-g" => self.target = value,
            b"--ctstate" | b"--state" => {
                self.matches = self.matches && has_invalid(value) != is_negated;
            }
            b"-i" => {
                self.tests = self.tests.saturating_add(1);
                self.asks_loopback = value == loopback && !is_negated;
            }
            _ => {}
        }
    }
}

/// What the words of a rule behind its chain ask.
fn rule_of<'a>(words: &'a [Word], loopback: &[u8]) -> Rule<'a> {
    let mut rule = Rule::new();
    let mut before: &[u8] = b"";
    let mut is_negated = false;
    for word in words {
        let text = word.text.as_slice();
        if !rule.target.is_empty() {
            break;
        }
        if !before.is_empty() {
            rule.take(before, text, is_negated, loopback);
            before = b"";
            is_negated = false;
        } else if text == b"!".as_slice() {
            is_negated = true;
        } else if !has_value(text) {
            rule.tests = rule.tests.saturating_add(1);
        } else {
            before = text;
        }
    }
    rule
}

/// The place of a chain.
fn chain_at(name: &[u8]) -> Option<usize> {
    CHAINS.iter().position(|chain| *chain == name)
}

impl Invalid {
    /// Nothing is known.
    pub(crate) fn new() -> Invalid {
        let chain = Chain::new();
        Invalid {
            is_filter: false,
            chains: [chain, chain, chain],
        }
    }

    /// Whether all of them are dropped, be they delivered or forwarded.
    pub(crate) fn drops_all(&self) -> bool {
        self.chains[0].drops_all() && self.chains[1].drops_all()
    }

    /// Takes the policy of a chain.
    fn take_policy(&mut self, name: &[u8], policy: &[u8]) {
        if let Some(place) = chain_at(name) {
            if let Some(chain) = self.chains.get_mut(place) {
                chain.drops = policy == b"DROP".as_slice();
            }
        }
    }

    /// Takes a rule of a chain.
    fn take_rule(&mut self, name: &[u8], words: &[Word], loopback: &[u8]) {
        if let Some(place) = chain_at(name) {
            if let Some(chain) = self.chains.get_mut(place) {
                chain.take(rule_of(words, loopback));
            }
        }
    }

    /// Takes a line of a text.
    pub(crate) fn take(&mut self, line: &Line, loopback: &[u8]) {
        let words = line.words.as_slice();
        let first = word_at(words, 0);
        if let [b'*', table @ ..] = first {
            self.is_filter = table == b"filter".as_slice();
        }
        if !self.is_filter {
            return;
        }
        if let [b':', name @ ..] = first {
            self.take_policy(name, word_at(words, 1));
        }
        let place = if let [b'[', ..] = first { 1usize } else { 0 };
        if word_at(words, place) == b"-A".as_slice() {
            let name = word_at(words, place.saturating_add(1));
            let tests = words.get(place.saturating_add(2)..).unwrap_or(&[]);
            self.take_rule(name, tests, loopback);
        }
    }
}
