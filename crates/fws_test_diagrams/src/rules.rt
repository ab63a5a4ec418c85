//! Rules as words spell them: `LITERAL .. -> ACT`, or the act alone.

use crate::conditions::{condition_of, halves};
use crate::stop::Stop;
use crate::words::{decimal, end_of};
use fws_flat::FlatAct;
use fws_ifcl::{Act, Rule};
use fws_net::{End, Site};
use fws_num::{Items, Text, Word, value_named};
use std::alloc::Global;

/// What the names in a diagram stand for.
#[derive(Clone, Copy)]
pub struct Scope<'a> {
    /// The site, which has the interfaces.
    pub site: &'a Site,
    /// The names of the chains, in their order.
    pub chains: &'a [Text],
}

/// What an act does with a chain.
#[derive(Clone, Copy)]
enum WithChain {
    Call,
    Goto,
}

impl WithChain {
    /// The act.
    fn act(self, chain: u32) -> Act {
        match self {
            WithChain::Call => Act::Call(chain),
            WithChain::Goto => Act::Goto(chain),
        }
    }
}

/// What an act does with a number.
#[derive(Clone, Copy)]
enum WithNumber {
    Skip,
    AddTag,
    OnlyTag,
    DelTag,
}

impl WithNumber {
    /// The act.
    fn act(self, n: u32) -> Act {
        match self {
            WithNumber::Skip => Act::Skip(n),
            WithNumber::AddTag => Act::AddTag(n),
            WithNumber::OnlyTag => Act::OnlyTag(n),
            WithNumber::DelTag => Act::DelTag(n),
        }
    }
}

/// What an act does with an end.
#[derive(Clone, Copy)]
enum WithEnd {
    Src,
    Dst,
}

impl WithEnd {
    /// The act.
    fn act(self, end: End) -> Act {
        match self {
            WithEnd::Src => Act::Src(end),
            WithEnd::Dst => Act::Dst(end),
        }
    }
}

/// What an act does, and what its value is.
#[derive(Clone, Copy)]
enum Does {
    /// It has no value.
    Plain(Act),
    Chain(WithChain),
    Number(WithNumber),
    End(WithEnd),
}

/// The names of acts.
const ACTS: [(&[u8], Does); 15] = [
    (b"accept", Does::Plain(Act::Accept)),
    (b"drop", Does::Plain(Act::Drop)),
    (b"hold-accept", Does::Plain(Act::Hold(true))),
    (b"hold-drop", Does::Plain(Act::Hold(false))),
    (b"return", Does::Plain(Act::Return)),
    (b"rec-src", Does::Plain(Act::RecSrc)),
    (b"rec-dst", Does::Plain(Act::RecDst)),
    (b"call", Does::Chain(WithChain::Call)),
    (b"goto", Does::Chain(WithChain::Goto)),
    (b"skip", Does::Number(WithNumber::Skip)),
    (b"src", Does::End(WithEnd::Src)),
    (b"dst", Does::End(WithEnd::Dst)),
    (b"add-tag", Does::Number(WithNumber::AddTag)),
    (b"only-tag", Does::Number(WithNumber::OnlyTag)),
    (b"del-tag", Does::Number(WithNumber::DelTag)),
];

/// The number of the chain with this name.
pub fn chain_named(chains: &[Text], name: &[u8]) -> Result<u32, Stop> {
    let mut number: u32 = 0;
    for chain in chains {
        if chain.as_slice() == name {
            return Ok(number);
        }
        number = number.saturating_add(1);
    }
    Err(Stop::Malformed)
}

/// The act of this name with its value.
fn act_named(chains: &[Text], name: &[u8], value: &[u8]) -> Result<Act, Stop> {
    match value_named(&ACTS, name) {
        Some(Does::Plain(act)) => Ok(act),
        Some(Does::Chain(does)) => Ok(does.act(chain_named(chains, value)?)),
        Some(Does::Number(does)) => Ok(does.act(decimal(value)?)),
        Some(Does::End(does)) => Ok(does.act(end_of(value)?)),
        None => Err(Stop::Malformed),
    }
}

/// The act of a name and a value.
fn act_of(chains: &[Text], words: &[Word]) -> Result<Act, Stop> {
    match words {
        [name] => act_named(chains, name.text.as_slice(), b""),
        [name, value] => act_named(chains, name.text.as_slice(), value.text.as_slice()),
        _ => Err(Stop::Malformed),
    }
}

/// The act of flat code `jump PLACE`, or one that rules have too.
pub fn flat_act_of(words: &[Word]) -> Result<FlatAct, Stop> {
    if let [name, place] = words {
        if name.is(b"jump") {
            return Ok(FlatAct::Jump(decimal(place.text.as_slice())?));
        }
    }
    match act_of(&[], words)? {
        Act::Accept => Ok(FlatAct::Accept),
        Act::Drop => Ok(FlatAct::Drop),
        Act::Hold(accepts) => Ok(FlatAct::Hold(accepts)),
        Act::Src(end) => Ok(FlatAct::Src(end)),
        Act::Dst(end) => Ok(FlatAct::Dst(end)),
        Act::RecSrc => Ok(FlatAct::RecSrc),
        Act::RecDst => Ok(FlatAct::RecDst),
        Act::AddTag(tag) => Ok(FlatAct::AddTag(tag)),
        Act::OnlyTag(tag) => Ok(FlatAct::OnlyTag(tag)),
        Act::DelTag(tag) => Ok(FlatAct::DelTag(tag)),
        Act::Call(_) | Act::Goto(_) | Act::Return | Act::Skip(_) => Err(Stop::Malformed),
    }
}

/// The rule of these words.
fn rule_of(alloc: Global, scope: &Scope, words: &[Word]) -> Result<Rule, Stop> {
    let (literals, act) = halves(words);
    let act = act_of(scope.chains, act)?;
    let cond = condition_of(alloc, scope.site, literals)?;
    Ok(Rule { cond, act })
}

/// Adds the rule of these words, so often as `N times` ahead of it says.
fn put_rules(
    alloc: Global,
    scope: &Scope,
    rules: &mut Items<Rule>,
    words: &[Word],
) -> Result<(), Stop> {
    let (count, words) = match words {
        [count, times, rest @ ..] if times.is(b"times") => (decimal(count.text.as_slice())?, rest),
        _ => (1, words),
    };
    for _ in 0..count {
        rules.put(rule_of(alloc, scope, words)?)?;
    }
    Ok(())
}

/// The rules of these words, between which `;` stands.
pub fn rules_of(alloc: Global, scope: &Scope, words: &[Word]) -> Result<Items<Rule>, Stop> {
    let mut rules = Items::new(alloc);
    if !words.is_empty() {
        for rule in words.split(|word: &Word| word.is(b";")) {
            put_rules(alloc, scope, &mut rules, rule)?;
        }
    }
    Ok(rules)
}
