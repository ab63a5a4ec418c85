//! The words of a query.
//!
//! There is a function for each definition in `specs/Asks.antt`, cut as this is, so that the prover needs no help.

ghost use Rattle.std.specs.Prelude.{◌≡◌, ◌≤◌, Some, None, MatchOption, IfSome};
ghost use Rattle.std.specs.List.{list_all, list_any};
ghost use Rattle.std.specs.Str.{bytes_eq};
ghost use Rattle.fws_num.specs.Numbers.{dec_of};
ghost use Rattle.fws_table.specs.TableText.{entry_name};
ghost use Rattle.fws_top.specs.Asks.{is_entry, set_is_known, word_is_known, are_known, subject_of, number_of, field_value, items_of, ordered};
ghost use Rattle.fws_top.specs.Asks.{range_of, is_item, is_set, verdict_asked, is_asked, ask_of, asks_about, asks_last, are_asks, is_shown};
ghost use Rattle.fws_top.specs.Asks.{asks_shown, are_shown};

use fws_net::{Site, State};
use fws_num::{Text, behind_is_shorter, read_dec, read_quad, split_once, value_named};

/// What a word of a query asks about.
#[derive(Clone, Copy, Debug, PartialEq, Eq)]
pub(crate) enum Subject {
    /// Where packets come from.
    Entry,
    /// Their protocol.
    Proto,
    /// Their destination address.
    Dst,
    /// Their destination port.
    Dport,
    /// Their source address.
    Src,
    /// Their source port.
    Sport,
    /// Their TCP flags.
    Flags,
    /// Their ICMP type.
    Icmp,
    /// The destination address with which they leave, where they are established.
    Rdst,
    /// That destination's port.
    Rdport,
    /// The source address with which they leave.
    Rsrc,
    /// That source's port.
    Rsport,
    /// What becomes of them.
    Verdict,
}

/// The words before the `=` and what they ask about.
const SUBJECTS: [(&[u8], Subject); 13] = [
    (b"entry", Subject::Entry),
    (b"proto", Subject::Proto),
    (b"dst", Subject::Dst),
    (b"dport", Subject::Dport),
    (b"src", Subject::Src),
    (b"sport", Subject::Sport),
    (b"flags", Subject::Flags),
    (b"icmp", Subject::Icmp),
    (b"rdst", Subject::Rdst),
    (b"rdport", Subject::Rdport),
    (b"rsrc", Subject::Rsrc),
    (b"rsport", Subject::Rsport),
    (b"verdict", Subject::Verdict),
];

pub(crate) fn is(text: &[u8], other: &[u8]) -> bool
    ensures { result ≡ bytes_eq text.now other.now }
{
    text == other
}

#[tactic(auto, unfolding(crate::specs::Asks::subject_of))]
fn read_subject(text: &[u8]) -> Option<Subject>
    ensures { result ≡ subject_of text.now }
{
    value_named(&SUBJECTS, text)
}

/// The number of the field; a verdict is none of the fields.
pub(crate) fn number_of(subject: Subject) -> usize
    ensures { result ≡ number_of subject }
{
    match subject {
        Subject::Entry => 0,
        Subject::Proto => 1,
        Subject::Dst => 2,
        Subject::Dport => 3,
        Subject::Src => 4,
        Subject::Sport => 5,
        Subject::Flags => 6,
        Subject::Icmp => 7,
        Subject::Rdst => 8,
        Subject::Rdport => 9,
        Subject::Rsrc => 10,
        Subject::Rsport => 11,
        Subject::Verdict => 12,
    }
}

fn read_number(text: &[u8], most: u32) -> Option<u32>
    ensures { result ≡ dec_of text.now most }
{
    let value = read_dec(text, u64::from(most))?;
    Some(value as u32)
}

/// A value of a field: a decimal up to the field's greatest value, or an address.
fn read_value(subject: Subject, text: &[u8]) -> Option<u32>
    ensures { result ≡ field_value subject text.now }
{
    match subject {
        Subject::Entry | Subject::Verdict => None,
        Subject::Proto | Subject::Icmp => read_number(text, 255),
        Subject::Dst | Subject::Src | Subject::Rdst | Subject::Rsrc => read_quad(text),
        Subject::Dport | Subject::Sport | Subject::Rdport | Subject::Rsport => {
            read_number(text, 65535)
        }
        Subject::Flags => read_number(text, 63),
    }
}

/// The range from `lo` to `hi`, if both are there and `lo` is no greater.
fn ordered(lo: Option<u32>, hi: Option<u32>) -> Option<(u32, u32)>
    ensures value { result ≡ ordered lo hi }
    ensures order { IfSome result (λ range. range.0 ≤ range.1) }
{
    let lo = lo?;
    let hi = hi?;
    if lo <= hi { Some((lo, hi)) } else { None }
}

/// An item `v` or `lo-hi`, as a range.
pub(crate) fn read_range(subject: Subject, item: &[u8]) -> Option<(u32, u32)>
    ensures value { result ≡ range_of subject item.now }
    ensures order { IfSome result (λ range. range.0 ≤ range.1) }
{
    match split_once(item, b'-') {
        Some((lo, hi)) => ordered(read_value(subject, lo), read_value(subject, hi)),
        None => {
            let value = read_value(subject, item)?;
            Some((value, value))
        }
    }
}

/// Whether an item of a set is a name of an entry, or a range of values.
fn is_item(subject: Subject, item: &[u8]) -> bool
    ensures { result ≡ is_item subject item.now }
{
    match subject {
        Subject::Entry => !is(item, b""),
        _ => read_range(subject, item).is_some(),
    }
}

/// Whether there are items with commas between.
fn are_items(subject: Subject, set: &[u8]) -> bool
    ensures { result ≡ list_all (is_item subject) (items_of set.now) }
{
    behind_is_shorter();
    let mut rest = set;
    while let Some((item, behind)) = split_once(rest, b',') {
        if !is_item(subject, item) {
            return false;
        }
        rest = behind;
    }
    is_item(subject, rest)
}

/// The whole range, or items with commas between.
fn is_set(subject: Subject, set: &[u8]) -> bool
    ensures { result ≡ is_set subject set.now }
{
    is(set, b"*") || are_items(subject, set)
}

/// Whether a verdict that is asked for accepts.
pub(crate) fn read_verdict(text: &[u8]) -> Option<bool>
    ensures { result ≡ verdict_asked text.now }
{
    if is(text, b"accept") {
        Some(true)
    } else if is(text, b"drop") {
        Some(false)
    } else {
        None
    }
}

/// Whether what is behind the `=` is spelled as its subject needs it.
fn is_asked(subject: Subject, text: &[u8]) -> bool
    ensures { result ≡ is_asked subject text.now }
{
    match subject {
        Subject::Verdict => read_verdict(text).is_some(),
        _ => is_set(subject, text),
    }
}

/// The subject of a word that is well spelled, and what it asks of it.
#[tactic(auto, unfolding(crate::specs::Asks::ask_of))]
pub(crate) fn read_word(word: &[u8]) -> Option<(Subject, &[u8])>
    ensures { MatchOption result
        (ask_of word.now ≡ None)
        (λ ask. ask_of word.now ≡ Some (ask.0, ask.1.now)) }
{
    let (key, text) = split_once(word, b'=')?;
    let subject = read_subject(key)?;
    if is_asked(subject, text) {
        Some((subject, text))
    } else {
        None
    }
}

/// Whether a word asks about this subject.
fn asks_about(subject: Subject, word: &[u8]) -> bool
    ensures { result ≡ asks_about subject word.now }
{
    match read_word(word) {
        Some((asked, _)) => number_of(asked) == number_of(subject),
        None => false,
    }
}

/// Whether one of the words asks about this subject. A loop, since the prover doesn't see through `any` with a closure that takes the subject.
fn any_asks_about(subject: Subject, words: &[Text]) -> bool
    ensures { result ≡ list_any (asks_about subject) words.now }
{
    for word in words {
        if asks_about(subject, word.as_slice()) {
            return true;
        }
    }
    false
}

/// Whether a word is well spelled, and no later one asks again about its subject.
fn asks_last(word: &[u8], later: &[Text]) -> bool
    ensures { result ≡ asks_last word.now later.now }
{
    match read_word(word) {
        Some((subject, _)) => !any_asks_about(subject, later),
        None => false,
    }
}

/// Whether each word is well spelled and none asks again about the subject of an earlier one.
pub(crate) fn are_asks(words: &[Text]) -> bool
    ensures { result ≡ are_asks words.now }
{
    for (i, word) in words.iter().enumerate() {
        if !asks_last(word.as_slice(), &words[i + 1..]) {
            return false;
        }
    }
    true
}

/// Whether a subject is shown of packets of the state: the ends with which they leave are of established ones alone.
fn is_shown(state: State, subject: Subject) -> bool
    ensures { result ≡ is_shown state subject }
{
    match (state, subject) {
        (State::Fresh, Subject::Rdst | Subject::Rdport | Subject::Rsrc | Subject::Rsport) => false,
        _ => true,
    }
}

/// Whether a word asks about what is shown.
fn asks_shown(state: State, word: &[u8]) -> bool
    ensures { result ≡ asks_shown state word.now }
{
    match read_word(word) {
        Some((subject, _)) => is_shown(state, subject),
        None => false,
    }
}

/// Whether each word asks about what is shown of packets of the state.
pub(crate) fn are_shown(state: State, words: &[Text]) -> bool
    ensures { result ≡ are_shown state words.now }
{
    words.iter().all(|word| asks_shown(state, word.as_slice()))
}

/// Whether the entry with this number has the name.
pub(crate) fn is_named(site: &Site, entry: usize, name: &[u8]) -> bool
    ensures { result ≡ bytes_eq (entry_name site.now entry) name.now }
{
    if entry == 0 {
        return is(b"host", name);
    }
    if entry == 1 {
        return is(b"lo", name);
    }
    match site.faces.as_slice().get(entry - 2) {
        Some(face) => is(face.name.as_slice(), name),
        None => is(b"", name),
    }
}

/// Whether an entry of the site has the name.
fn is_entry(site: &Site, name: &[u8]) -> bool
    ensures { result ≡ is_entry site.now name.now }
{
    (0..site.faces.as_slice().len() + 2).any(|entry| is_named(site, entry, name))
}

/// Whether each item is the name of an entry of the site.
fn are_entries(site: &Site, set: &[u8]) -> bool
    ensures { result ≡ list_all (is_entry site.now) (items_of set.now) }
{
    behind_is_shorter();
    let mut rest = set;
    while let Some((item, behind)) = split_once(rest, b',') {
        if !is_entry(site, item) {
            return false;
        }
        rest = behind;
    }
    is_entry(site, rest)
}

fn set_is_known(site: &Site, subject: Subject, set: &[u8]) -> bool
    ensures { result ≡ set_is_known site.now subject set.now }
{
    match subject {
        Subject::Entry => is(set, b"*") || are_entries(site, set),
        _ => true,
    }
}

fn word_is_known(site: &Site, word: &[u8]) -> bool
    ensures { result ≡ word_is_known site.now word.now }
{
    match read_word(word) {
        Some((subject, set)) => set_is_known(site, subject, set),
        None => true,
    }
}

/// Whether each entry that the words name is one of the site.
pub(crate) fn are_known(site: &Site, words: &[Text]) -> bool
    ensures { result ≡ are_known site.now words.now }
{
    for word in words {
        if !word_is_known(site, word.as_slice()) {
            return false;
        }
    }
    true
}
