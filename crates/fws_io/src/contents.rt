//! Contents by name.

ghost use Rattle.std.specs.Prelude.{◌≡◌, ℕ, ◌+◌, ◌<◌, ◌≤◌, true, false, ◌||◌, List, [], length, slice_index_or, IfSome, IfOk, MatchOption, OnOk, OnErr, IsErrOf};
ghost use Rattle.std.specs.Str.{bytes_eq};

use crate::shelf::ShelfAnswer;
use fws_num::{Memory, Text};
use std::alloc::Global;
use std::marker::Model;

/// A name and the bytes that it holds.
#[derive(Drop)]
pub(crate) struct Held {
    pub(crate) name: Text,
    pub(crate) content: Text,
}

/// Names and the bytes that each of them holds. The first entry of a name counts.
#[derive(Drop)]
pub(crate) struct Contents {
    alloc: Global,
    entries: Vec<Held>,
}

impl Model for Contents {
    ghost use Rattle.std.specs.Prelude.{List};
    ghost use Rattle.fws_io.specs.declared.contents.Held.{Held};

    ghost Value = { List Held };

    ghost view = { λ c. c.entries.items };
}

impl Contents {
    ghost use Rattle.fws_io.specs.Contents.{content_of, is_held, with_content};

    /// No name is held.
    pub(crate) fn new(alloc: Global) -> Contents
        ensures { result ≡ [] }
    {
        Contents {
            alloc,
            entries: Vec::new(alloc),
        }
    }

    /// The bytes that the name holds, or none where the name is not held.
    pub(crate) fn find(&self, name: &[u8]) -> Option<&[u8]>
        ensures held { MatchOption result (is_held self.now name.now ≡ false) (λ content. is_held self.now name.now ≡ true) }
        ensures content { MatchOption result (content_of self.now name.now ≡ []) (λ content. content.now ≡ content_of self.now name.now) }
    {
        for entry in self.entries.iter() {
            if entry.name.as_slice() == name {
                return Some(entry.content.as_slice());
            }
        }
        None
    }

    /// The bytes that the name holds, and none where the name is not held.
    pub(crate) fn content(&self, name: &[u8]) -> &[u8]
        ensures { result.now ≡ content_of self.now name.now }
    {
        match self.find(name) {
            Some(content) => content,
            None => &[],
        }
    }

    /// Gives the name this content in place of an earlier one. If memory runs out all is as before.
    pub(crate) fn hold(&mut self, name: &[u8], content: &[u8]) -> Result<(), Memory>
        ensures told { OnOk result (content_of self.new ≡ with_content (content_of self.old) name.now content.now) }
        ensures held { OnOk result ((asked : List ℕ) → is_held self.new asked ≡ (bytes_eq name.now asked || is_held self.old asked)) }
        ensures err { OnErr result (self.new ≡ self.old) }
    {
        let earlier = place_of(&self.entries, name);
        let entry = entry_of(self.alloc, name, content)?;

        // The new entry is found first; the earlier one, which nothing finds any more, is let go.
        self.entries.insert(0, entry)?;
        if let Some(place) = earlier {
            let _ = self.entries.remove(place + 1);
        }
        Ok(())
    }
}

/// The entry of this name with this content.
fn entry_of(alloc: Global, name: &[u8], content: &[u8]) -> Result<Held, Memory>
    ensures { IfOk result (λ entry. entry ≡ record { name = name.now; content = content.now }) }
{
    let name = Text::of(alloc, name)?;
    let content = Text::of(alloc, content)?;
    Ok(Held { name, content })
}

/// The place of the first entry with this name.
fn place_of(entries: &[Held], name: &[u8]) -> Option<usize>
    ensures within { IfSome result (λ place. place < length entries.now) }
    ensures named { IfSome result (λ place. (slice_index_or entries.now place (record { name = []; content = [] })).name ≡ name.now) }
{
    for (place, entry) in entries.iter().enumerate() {
        if entry.name.as_slice() == name {
            return Some(place);
        }
    }
    None
}

/// The content where it has at most `limit` bytes, and else `TooLong` with its length.
pub(crate) fn read_within(alloc: Global, content: &[u8], limit: usize) -> Result<Text, ShelfAnswer>
    ensures whole { IfOk result (λ text. text ≡ content.now) }
    ensures within { IfOk result (λ text. length content.now ≤ limit) }
    ensures over { (taken : ℕ) → IsErrOf result (ShelfAnswer.TooLong taken) → (taken ≡ length content.now) × (limit < taken) }
    ensures long { limit < length content.now → IsErrOf result (ShelfAnswer.TooLong (length content.now)) }
    ensures no_fault { IsErrOf result ShelfAnswer.Failed → ⊥ }
{
    if content.len() > limit {
        return Err(ShelfAnswer::TooLong(content.len()));
    }
    Ok(Text::of(alloc, content)?)
}
