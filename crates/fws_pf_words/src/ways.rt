//! What words of macros do in a list, found once for each place.

ghost use Rattle.std.specs.Prelude.{◌≡◌, [], ◌≤◌, ◌-◌, ℕ, true, Some, List, length, take, drop, IfOk, OnOk, IfSome};
ghost use Rattle.fws_num.specs.declared.word.Word.{Word as AnyWord};
ghost use Rattle.fws_net.specs.Routes.{IsSound};
ghost use Rattle.fws_pf.specs.declared.value_draft.Item.{Item as AnyItem};
ghost use Rattle.fws_pf.specs.Values.{Setting as AnySetting};
ghost use Rattle.fws_pf_words.specs.Fronts.{within};
ghost use Rattle.fws_pf_words.specs.Spots.{spot_of};
ghost use Rattle.fws_pf_words.specs.WaysKnown.{AreWays, AreWaysOf, IsWay};

use crate::long_value::{LongValue, Spot};
use crate::setting::Setting;
use fws_num::{Items, Memory, Text, Word};
use fws_pf::{Operator, ValueExpects, ValueKind};
use indexmap::IndexMap;
use std::alloc::Global;

/// What the words of a macro do to a value.
#[derive(Clone, Copy, Debug, PartialEq, Eq)]
pub struct Way {
    /// How many of the words stand ahead of those of the way.
    pub skipped: usize,
    /// Where the value is ahead of them.
    pub start: Spot,
    /// Where it is behind them.
    pub end: Spot,
    /// The place of the first value in the list that the words stand for.
    pub from: usize,
    /// How many values they stand for.
    pub count: usize,
}

/// What words do to the values of a list, by the names of their macros.
#[derive(Drop)]
pub struct Ways {
    /// The ways of each name.
    pub ways: IndexMap<Text, Items<Way>>,
}

/// Whether the next word may be taken for one behind a number.
fn has_number(expects: ValueExpects) -> bool {
    matches!(
        expects,
        ValueExpects::RangeSign(_)
            | ValueExpects::RangeEnd(_)
            | ValueExpects::PortSign(_)
            | ValueExpects::PortEnd(_, _)
    )
}

/// Takes a word behind a number, and tells how many that was.
fn number_ahead(
    alloc: Global,
    setting: &Setting,
    words: &[Word],
    value: &mut LongValue,
) -> Result<usize, Memory>
    requires { IsSound setting.now.site }
    ensures few { IfOk result (λ n. n ≤ length words.now) }
    ensures taken { IfOk result (λ n. within setting.now (take n words.now) value.old ≡ Some value.new) }
{
    match words {
        [] => Ok(0),
        [_, ..] => {
            if !has_number(value.expects()) {
                return Ok(0);
            }
            let n = value.words_within(alloc, setting, &words[..1])?;
            Ok(n)
        }
    }
}

/// Takes up to two words, as long as they stand behind a number, and tells how many.
fn numbers_ahead(
    alloc: Global,
    setting: &Setting,
    words: &[Word],
    value: &mut LongValue,
) -> Result<usize, Memory>
    requires { IsSound setting.now.site }
    ensures few { IfOk result (λ n. n ≤ length words.now) }
    ensures taken { IfOk result (λ n. within setting.now (take n words.now) value.old ≡ Some value.new) }
{
    let first = number_ahead(alloc, setting, words, value)?;
    let second = number_ahead(alloc, setting, &words[first..], value)?;
    Ok(first + second)
}

/// Whether both are one kind.
fn same_kind(a: ValueKind, b: ValueKind) -> bool
    ensures { result ≡ true → a ≡ b }
{
    match a {
        ValueKind::Interface => matches!(b, ValueKind::Interface),
        ValueKind::Protocol => matches!(b, ValueKind::Protocol),
        ValueKind::Host => matches!(b, ValueKind::Host),
        ValueKind::Member => matches!(b, ValueKind::Member),
        ValueKind::Port => matches!(b, ValueKind::Port),
        ValueKind::IcmpType => matches!(b, ValueKind::IcmpType),
    }
}

/// Whether both are one operator.
fn same_operator(a: Operator, b: Operator) -> bool
    ensures { result ≡ true → a ≡ b }
{
    match a {
        Operator::Equal => matches!(b, Operator::Equal),
        Operator::Unequal => matches!(b, Operator::Unequal),
        Operator::Less => matches!(b, Operator::Less),
        Operator::AtMost => matches!(b, Operator::AtMost),
        Operator::Greater => matches!(b, Operator::Greater),
        Operator::AtLeast => matches!(b, Operator::AtLeast),
    }
}

/// Whether the next word is taken for the same.
fn same_expects(a: ValueExpects, b: ValueExpects) -> bool
    ensures { result ≡ true → a ≡ b }
{
    match a {
        ValueExpects::Value => matches!(b, ValueExpects::Value),
        ValueExpects::First => matches!(b, ValueExpects::First),
        ValueExpects::Item => matches!(b, ValueExpects::Item),
        ValueExpects::Next => matches!(b, ValueExpects::Next),
        ValueExpects::Negated => matches!(b, ValueExpects::Negated),
        ValueExpects::TableName => matches!(b, ValueExpects::TableName),
        ValueExpects::TableEnd => matches!(b, ValueExpects::TableEnd),
        ValueExpects::FaceName => matches!(b, ValueExpects::FaceName),
        ValueExpects::FaceEnd => matches!(b, ValueExpects::FaceEnd),
        ValueExpects::RangeSign(x) => match b {
            ValueExpects::RangeSign(y) => x == y,
            _ => false,
        },
        ValueExpects::RangeEnd(x) => match b {
            ValueExpects::RangeEnd(y) => x == y,
            _ => false,
        },
        ValueExpects::Operand(x) => match b {
            ValueExpects::Operand(y) => same_operator(x, y),
            _ => false,
        },
        ValueExpects::PortSign(x) => match b {
            ValueExpects::PortSign(y) => x == y,
            _ => false,
        },
        ValueExpects::PortEnd(outside, x) => match b {
            ValueExpects::PortEnd(other, y) => outside == other && x == y,
            _ => false,
        },
        ValueExpects::Nothing => matches!(b, ValueExpects::Nothing),
    }
}

/// Whether both are one place.
fn is_same(a: Spot, b: Spot) -> bool
    ensures { result ≡ true → a ≡ b }
{
    same_kind(a.kind, b.kind)
        && same_expects(a.expects, b.expects)
        && a.in_list == b.in_list
        && a.negated == b.negated
}

/// Whether the way leads from this place.
fn fits(way: &Way, skipped: usize, start: Spot) -> bool
    ensures { result ≡ true → (way.now.skipped ≡ skipped) × (way.now.start ≡ start) }
{
    way.skipped == skipped && is_same(way.start, start)
}

/// A way from a place, if one is known.
fn find(known: &[Way], skipped: usize, start: Spot) -> Option<Way>
    ensures { IfSome result (λ way. (way.skipped ≡ skipped) × (way.start ≡ start) ×
        ((setting : AnySetting) (words : List AnyWord) (items : List AnyItem) → AreWaysOf setting words items known.now → IsWay setting words items way)) }
{
    match known.split_first() {
        None => None,
        Some((way, rest)) => {
            if fits(way, skipped, start) {
                Some(*way)
            } else {
                find(rest, skipped, start)
            }
        }
    }
}

impl Ways {
    /// No ways.
    pub fn new(alloc: Global) -> Ways
        ensures { result.ways.entries ≡ [] }
    {
        Ways {
            ways: IndexMap::new(alloc),
        }
    }

    /// Whether no way is known.
    pub(crate) fn is_empty(&self) -> bool
        ensures { result ≡ true → self.now.ways.entries ≡ [] }
    {
        self.ways.is_empty()
    }

    /// A way of the words of this name from a place, if one is known.
    fn find(&self, name: &Text, skipped: usize, start: Spot) -> Option<Way>
        ensures { IfSome result (λ way. (way.skipped ≡ skipped) × (way.start ≡ start) ×
            ((setting : AnySetting) (words_of : List ℕ → List AnyWord) (items : List AnyItem) → AreWays setting words_of items self.now.ways.entries
            → IsWay setting (words_of name.now) items way)) }
    {
        match self.ways.get(name) {
            Some(known) => find(known.as_slice(), skipped, start),
            None => None,
        }
    }

    /// Notes a way of the words of this name.
    fn put(&mut self, alloc: Global, name: &Text, way: Way) -> Result<(), Memory>
        ensures { (setting : AnySetting) (words_of : List ℕ → List AnyWord) (items : List AnyItem) → AreWays setting words_of items self.old.ways.entries
            → IsWay setting (words_of name.now) items way → OnOk result (AreWays setting words_of items self.new.ways.entries) }
    {
        match self.ways.get_mut(name) {
            Some(known) => {
                known.put(way)?;
                Ok(())
            }
            None => {
                let mut known = Items::new(alloc);
                known.put(way)?;
                self.ways.insert(name.copy(alloc)?, known)?;
                Ok(())
            }
        }
    }

    /// Takes words that stand for this name, behind those that are skipped, and notes their way if all of them belong to the
    /// value.
    fn learn(
        &mut self,
        alloc: Global,
        setting: &Setting,
        name: &Text,
        skipped: usize,
        rest: &[Word],
        value: &mut LongValue,
    ) -> Result<usize, Memory>
        requires { IsSound setting.now.site }
        ensures few { IfOk result (λ n. n ≤ length rest.now) }
        ensures taken { IfOk result (λ n. within setting.now (take n rest.now) value.old ≡ Some value.new) }
        ensures known { (words_of : List ℕ → List AnyWord) → drop skipped (words_of name.now) ≡ rest.now → AreWays setting.now words_of value.old.items self.old.ways.entries
            → OnOk result (AreWays setting.now words_of value.new.items self.new.ways.entries) }
    {
        let start = value.spot();
        let from = value.len();
        let n = value.words_within(alloc, setting, rest)?;
        if n == rest.len() {
            let way = Way {
                skipped,
                start,
                end: value.spot(),
                from,
                count: value.len().saturating_sub(from),
            };
            self.put(alloc, name, way)?;
        }
        Ok(n)
    }

    /// Takes words that stand for this name, behind those that are skipped.
    fn take_rest(
        &mut self,
        alloc: Global,
        setting: &Setting,
        name: &Text,
        skipped: usize,
        rest: &[Word],
        value: &mut LongValue,
    ) -> Result<usize, Memory>
        requires { IsSound setting.now.site }
        ensures few { IfOk result (λ n. n ≤ length rest.now) }
        ensures taken { (words_of : List ℕ → List AnyWord) → drop skipped (words_of name.now) ≡ rest.now → AreWays setting.now words_of value.old.items self.old.ways.entries
            → IfOk result (λ n. within setting.now (take n rest.now) value.old ≡ Some value.new) }
        ensures known { (words_of : List ℕ → List AnyWord) → drop skipped (words_of name.now) ≡ rest.now → AreWays setting.now words_of value.old.items self.old.ways.entries
            → OnOk result (AreWays setting.now words_of value.new.items self.new.ways.entries) }
    {
        match self.find(name, skipped, value.spot()) {
            Some(way) => {
                if way.from > value.len() {
                    return Ok(0);
                }
                if way.count > value.len() - way.from {
                    return Ok(0);
                }
                value.come_again(way.from, way.count, way.end)?;
                Ok(rest.len())
            }
            None => self.learn(alloc, setting, name, skipped, rest, value),
        }
    }

    /// Takes words that stand for this name, which belong to a value and don't end it, up to the first other word, and tells how
    /// many. Words that were taken from the same place before take no longer for being many.
    pub fn take(
        &mut self,
        alloc: Global,
        setting: &Setting,
        name: &Text,
        words: &[Word],
        value: &mut LongValue,
    ) -> Result<usize, Memory>
        requires { IsSound setting.now.site }
        ensures few { IfOk result (λ n. n ≤ length words.now) }
        ensures taken { (words_of : List ℕ → List AnyWord) → words_of name.now ≡ words.now → AreWays setting.now words_of value.old.items self.old.ways.entries
            → IfOk result (λ n. within setting.now (take n words.now) value.old ≡ Some value.new) }
        ensures known { (words_of : List ℕ → List AnyWord) → words_of name.now ≡ words.now → AreWays setting.now words_of value.old.items self.old.ways.entries
            → OnOk result (AreWays setting.now words_of value.new.items self.new.ways.entries) }
    {
        let skipped = numbers_ahead(alloc, setting, words, value)?;
        let rest = &words[skipped..];
        let n = self.take_rest(alloc, setting, name, skipped, rest, value)?;
        Ok(skipped + n)
    }
}
