//! Texts and lists with ample memory: each call succeeds.

use crate::tally::Tally;
use fws_num::{Items, Memory, Text};
use std::alloc::Global;

/// Whether the bytes make a text that is equal to this one.
fn is_text_of(alloc: Global, text: &Text, bytes: &[u8]) -> Result<bool, Memory> {
    Ok(Text::of(alloc, bytes)? == *text)
}

/// Copies and compares a text, which is `abc`.
fn judge_text(alloc: Global, tally: &mut Tally, text: &Text) -> Result<(), Memory> {
    tally.count(text.as_slice() == b"abc".as_slice());
    let copy = text.copy(alloc)?;
    tally.count(copy == *text);
    tally.count(is_text_of(alloc, text, b"abc")?);
    tally.count(!is_text_of(alloc, text, b"abd")?);
    Ok(())
}

/// Builds, copies and compares texts.
fn judge_texts(alloc: Global, tally: &mut Tally) -> Result<(), Memory> {
    let mut text = Text::new(alloc);
    tally.count(text.as_slice().is_empty());
    text.put(b"ab")?;
    text.put(b"c")?;
    judge_text(alloc, tally, &text)
}

/// A list of these bytes.
fn items_of(alloc: Global, bytes: &[u8]) -> Result<Items<u8>, Memory> {
    let mut items = Items::new(alloc);
    for byte in bytes {
        items.put(*byte)?;
    }
    Ok(items)
}

/// Shortens a list, which is 7, 8 and 9.
fn judge_removing(tally: &mut Tally, items: &mut Items<u8>) {
    tally.count(items.len() == 3);
    tally.count(items.remove(1) == Some(8));
    tally.count(items.remove(2).is_none());
    tally.count(items.as_slice() == [7, 9].as_slice());
}

/// Compares a list, which is 7 and 9.
fn judge_same(alloc: Global, tally: &mut Tally, items: Items<u8>) -> Result<(), Memory> {
    let mut same = items_of(alloc, &[7])?;
    tally.count(items != same);
    same.put(9)?;
    tally.count(items == same);
    tally.count(Items::from_vec(items.into_vec()) == same);
    Ok(())
}

/// Builds, shortens and compares lists.
fn judge_items(alloc: Global, tally: &mut Tally) -> Result<(), Memory> {
    let none: Items<u8> = Items::new(alloc);
    tally.count(none.is_empty());
    let mut items = items_of(alloc, &[7, 8, 9])?;
    judge_removing(tally, &mut items);
    judge_same(alloc, tally, items)
}

/// Says how many calls on texts and lists give what they must.
pub fn judge_keeping(alloc: Global) -> Result<Text, Memory> {
    let mut tally = Tally::new();
    judge_texts(alloc, &mut tally)?;
    judge_items(alloc, &mut tally)?;
    tally.said(alloc)
}
