//! The packets that the words of a query ask for.

ghost use Rattle.std.specs.Prelude.{◌≡◌, ◌≤◌, ◌<◌, ◌+◌, ◌&&◌, ℕ, List, length, slice_index, is_some, nat_le, true, false, IfOk, OnOk};
ghost use Rattle.std.specs.List.{list_any};
ghost use Rattle.std.specs.Option.{option_map_or};
ghost use Rattle.std.specs.Str.{bytes_eq};
ghost use Rattle.fws_iv.specs.Ivs.{has};
ghost use Rattle.fws_net.specs.Points.{tops_of};
ghost use Rattle.fws_net.specs.Routes.{IsSound};
ghost use Rattle.fws_table.specs.TableText.{entry_name};
ghost use Rattle.fws_box.specs.Sides.{IsWithin, sides_have};
ghost use Rattle.fws_top.specs.Asks.{items_of, range_of, ask_of, are_asks, item_has, set_has, number_of, HasValues, ask_has, word_has, asks_have};
ghost use Rattle.fws_top.specs.Asks.{AreNarrowed, word_verdict, asked_verdict};

use crate::ask::{Subject, is, is_named, number_of, read_range, read_verdict, read_word};
use fws_box::whole_sides;
use fws_iv::{Ivs, one};
use fws_net::{Site, tops};
use fws_num::{Memory, Text, behind_is_shorter, split_once};
use fws_table::Ask;
use std::alloc::Global;

/// The entries of this name.
fn entry_set(alloc: Global, site: &Site, name: &[u8]) -> Result<Ivs, Memory>
    requires { IsSound site.now }
    ensures { IfOk result (λ s. (x : ℕ) → x ≤ length site.now.faces + 1 → has s x ≡ bytes_eq (entry_name site.now x) name.now) }
{
    let mut set = Ivs::none(alloc);
    for entry in 0..site.faces.as_slice().len() as u32 + 2 {
        if is_named(site, entry as usize, name) {
            set.extend(entry, entry)?;
        }
    }
    Ok(set)
}

/// The values of an item `v` or `lo-hi`, none where it is no such item.
fn range_set(alloc: Global, subject: Subject, item: &[u8]) -> Result<Ivs, Memory>
    ensures { IfOk result (λ s. (x : ℕ) → has s x ≡ option_map_or (λ range. nat_le range.0 x && nat_le x range.1) (range_of subject item.now) false) }
{
    match read_range(subject, item) {
        Some((lo, hi)) => one(alloc, lo, hi),
        None => Ok(Ivs::none(alloc)),
    }
}

/// The values of an item.
fn item_set(alloc: Global, site: &Site, subject: Subject, item: &[u8]) -> Result<Ivs, Memory>
    requires { IsSound site.now }
    ensures { IfOk result (HasValues site.now subject (item_has site.now subject item.now)) }
{
    match subject {
        Subject::Entry => entry_set(alloc, site, item),
        _ => range_set(alloc, subject, item),
    }
}

/// The values of items with commas between.
fn items_set(alloc: Global, site: &Site, subject: Subject, set: &[u8]) -> Result<Ivs, Memory>
    requires { IsSound site.now }
    ensures { IfOk result (HasValues site.now subject (λ x. list_any (λ item. item_has site.now subject item x) (items_of set.now))) }
{
    behind_is_shorter();
    let mut values = Ivs::none(alloc);
    let mut rest = set;
    while let Some((item, behind)) = split_once(rest, b',') {
        let more = item_set(alloc, site, subject, item)?;
        values = values.union(alloc, &more)?;
        rest = behind;
    }
    let last = item_set(alloc, site, subject, rest)?;
    values.union(alloc, &last)
}

/// Keeps the values of a side that the set of its field has.
fn narrow_side(
    alloc: Global,
    site: &Site,
    sides: &mut [Ivs; 12],
    subject: Subject,
    set: &[u8],
) -> Result<(), Memory>
    requires sound { IsSound site.now }
    requires field { number_of subject < 12 }
    ensures { OnOk result (AreNarrowed site.now (λ p. set_has site.now subject set.now (slice_index p (number_of subject))) sides.old sides.new) }
{
    if is(set, b"*") {
        return Ok(());
    }
    let values = items_set(alloc, site, subject, set)?;
    let field = number_of(subject);
    sides[field] = sides[field].inter(alloc, &values)?;
    Ok(())
}

/// Keeps what is asked for behind the `=` of a word.
fn narrow_by(
    alloc: Global,
    site: &Site,
    sides: &mut [Ivs; 12],
    subject: Subject,
    set: &[u8],
) -> Result<(), Memory>
    requires { IsSound site.now }
    ensures { OnOk result (AreNarrowed site.now (ask_has site.now subject set.now) sides.old sides.new) }
{
    match subject {
        Subject::Verdict => Ok(()),
        _ => narrow_side(alloc, site, sides, subject, set),
    }
}

/// Keeps what a word asks for.
fn narrow_word(alloc: Global, site: &Site, sides: &mut [Ivs; 12], word: &[u8]) -> Result<(), Memory>
    requires sound { IsSound site.now }
    requires spelled { is_some (ask_of word.now) ≡ true }
    ensures { OnOk result (AreNarrowed site.now (word_has site.now word.now) sides.old sides.new) }
{
    match read_word(word) {
        Some((subject, set)) => narrow_by(alloc, site, sides, subject, set),
        None => Ok(()),
    }
}

/// Keeps what the words ask for.
fn narrow(alloc: Global, site: &Site, sides: &mut [Ivs; 12], words: &[Text]) -> Result<(), Memory>
    requires sound { IsSound site.now }
    requires spelled { are_asks words.now ≡ true }
    ensures { OnOk result (AreNarrowed site.now (asks_have site.now words.now) sides.old sides.new) }
{
    for word in words {
        narrow_word(alloc, site, sides, word.as_slice())?;
    }
    Ok(())
}

/// The verdict that a word asks for.
fn word_verdict(word: &[u8]) -> Option<bool>
    ensures { result ≡ word_verdict word.now }
{
    match read_word(word) {
        Some((Subject::Verdict, text)) => read_verdict(text),
        _ => None,
    }
}

/// The verdict that the first such word asks for.
fn asked_verdict(words: &[Text]) -> Option<bool>
    ensures { result ≡ asked_verdict words.now }
{
    for word in words {
        if let Some(verdict) = word_verdict(word.as_slice()) {
            return Some(verdict);
        }
    }
    None
}

/// What the words ask for, of which each is well spelled: on the sides the points of the site that every word asks for,
/// and the verdict. Fails if memory runs out.
pub(crate) fn read_ask(alloc: Global, site: &Site, words: &[Text]) -> Result<Ask, Memory>
    requires sound { IsSound site.now }
    requires spelled { are_asks words.now ≡ true }
    ensures sides { IfOk result (λ ask. (p : List ℕ) → IsWithin (tops_of site.now) p → sides_have ask.sides p ≡ asks_have site.now words.now p) }
    ensures verdict { IfOk result (λ ask. ask.verdict ≡ asked_verdict words.now) }
{
    let mut sides = whole_sides(alloc, &tops(site))?;
    narrow(alloc, site, &mut sides, words)?;
    Ok(Ask {
        sides,
        verdict: asked_verdict(words),
    })
}
