//! A shelf and a sink that keep what goes through them.

ghost use Rattle.std.specs.Prelude.{◌≡◌};

use fws_io::{Failed, Shelf, ShelfAnswer, Sink};
use fws_num::{Memory, Text};
use std::alloc::Global;

/// Another shelf, of which each text that was read is kept, in the order in which they were read.
#[derive(Drop)]
pub struct KeepingShelf<S> {
    shelf: S,
    texts: Vec<Text>,
}

impl<S: Shelf> KeepingShelf<S> {
    /// Nothing was read.
    pub fn new(alloc: Global, shelf: S) -> KeepingShelf<S> {
        KeepingShelf {
            shelf,
            texts: Vec::new(alloc),
        }
    }

    /// The texts that were read. One for which there was no memory is the empty text.
    pub fn texts(&self) -> &[Text] {
        &self.texts
    }

    /// Keeps a copy of a text.
    fn keep(&mut self, alloc: Global, text: &Text)
        ensures { self.new.shelf ≡ self.old.shelf }
    {
        let kept = match text.copy(alloc) {
            Ok(kept) => kept,
            Err(Memory) => Text::new(alloc),
        };
        let _ = self.texts.push(kept);
    }
}

impl<S: Shelf> Shelf for KeepingShelf<S> {
    ghost told = { λ s. S.told s.shelf };

    ghost faults = { λ s. S.faults s.shelf };

    ghost turns = { λ s. S.turns s.shelf };

    fn read(&mut self, alloc: Global, name: &[u8], limit: usize) -> Result<Text, ShelfAnswer> {
        let answer = self.shelf.read(alloc, name, limit);
        if let Ok(text) = &answer {
            self.keep(alloc, text);
        }
        answer
    }
}

/// Another sink, of which the first bytes that were written are kept.
#[derive(Drop)]
pub struct KeepingSink<K> {
    sink: K,
    room: usize,
    text: Text,
}

impl<K: Sink> KeepingSink<K> {
    /// Nothing was written, and there is room for so many bytes.
    pub fn new(alloc: Global, sink: K, room: usize) -> KeepingSink<K> {
        KeepingSink {
            sink,
            room,
            text: Text::new(alloc),
        }
    }

    /// The first bytes that were written.
    pub fn text(&self) -> &[u8] {
        self.text.as_slice()
    }

    /// Keeps as many of the bytes as there is room for.
    fn keep(&mut self, bytes: &[u8])
        ensures { self.new.sink ≡ self.old.sink }
    {
        let room = self.room.saturating_sub(self.text.as_slice().len());
        if let Some(kept) = bytes.get(..room.min(bytes.len())) {
            let _ = self.text.put(kept);
        }
    }
}

impl<K: Sink> Sink for KeepingSink<K> {
    ghost written = { λ s. K.written s.sink };

    ghost faults = { λ s. K.faults s.sink };

    fn put(&mut self, piece: &[u8]) -> Result<usize, Failed> {
        let answer = self.sink.put(piece);
        if let Ok(taken) = answer {
            if let Some(bytes) = piece.get(..taken) {
                self.keep(bytes);
            }
        }
        answer
    }
}
