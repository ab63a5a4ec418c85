//! What the definition of a macro defines (pf.conf(5)).

ghost use Rattle.std.specs.Prelude.{◌≡◌, ℕ, List, ◌++◌, ◌∷◌, [], Ok, Some, IfOk, OnOk};
ghost use Rattle.std.specs.Option.{ok_or};
ghost use Rattle.fws_num.specs.declared.word.Word.{Word as AnyWord};
ghost use Rattle.fws_net.specs.Reading.{CauseGiven, StepGiven, and_then};
ghost use Rattle.fws_pf.specs.declared.macros.Macro.{Macro as AnyMacro};
ghost use Rattle.fws_pf.specs.FileText.{name_defined, value_behind, with_value};
ghost use Rattle.fws_pf.specs.Macros.{all_out_of_quotes, begins_use, meant, out_of_quotes, value_defined, value_words, with_words};
ghost use Rattle.fws_pf_words.specs.Additions.{AreAdditions, AreUseAdditions};
ghost use Rattle.fws_pf_words.specs.Kept.{kept_read, kept_words, with_more, with_word};
ghost use Rattle.fws_pf_words.specs.Uses.{behind_name, joined_words, name_ahead, words_named};

use crate::macros::{
    Macros, copied_word, front_words, last_joined, meant, name_defined, nothing_is_joined, single,
    split_name, used_text, value_behind,
};
use crate::statements::words_of;
use fws_net::{Cause, ReadFault};
use fws_num::{Items, Memory, Text, Word};
use indexmap::IndexMap;
use std::alloc::Global;
use std::marker::Model;

/// Whether the text begins like a use of a macro.
fn begins_use(text: &[u8]) -> bool
    ensures { result ≡ begins_use text.now }
{
    match text {
        [] => false,
        [first, ..] => *first == b'$',
    }
}

/// The word out of quotes, which is no use of a macro: where it looks like one it can't be judged. Its bytes stood in
/// quotes: one with a byte that isn't printed counts as a quoted word.
fn out_of_quotes(alloc: Global, w: &Word) -> Result<Word, Memory>
    ensures { IfOk result (λ v. v ≡ out_of_quotes w.now) }
{
    let mut word = copied_word(alloc, w)?;
    if w.quoted {
        return Ok(word);
    }
    if begins_use(w.text.as_slice()) {
        word.quoted = true;
        word.whole = false;
    } else if !w.is_sound() {
        word.quoted = true;
        word.whole = true;
    }
    Ok(word)
}

/// The words out of quotes, in which each quote has to be closed.
fn all_out_of_quotes(alloc: Global, words: &[Word]) -> Result<Items<Word>, ReadFault>
    ensures { CauseGiven result (all_out_of_quotes words.now) }
{
    let mut all = Items::new(alloc);
    for w in words {
        if w.quoted && !w.whole {
            return Err(ReadFault::Bad(Cause::Syntax));
        }
        all.put(out_of_quotes(alloc, w)?)?;
    }
    Ok(all)
}

/// What a word adds to a value: the words within its quotes, or itself.
fn value_words(alloc: Global, w: &Word) -> Result<Items<Word>, ReadFault>
    ensures { CauseGiven result (value_words w.now) }
{
    if w.quoted {
        let words = words_of(alloc, w.line, w.text.as_slice())?;
        return all_out_of_quotes(alloc, words.as_slice());
    }
    Ok(single(alloc, copied_word(alloc, w)?)?)
}

/// The most bytes that a value may have, with a blank ahead of each word.
const MOST_BYTES: u64 = 65537;

/// The words of a value, which are kept while they aren't too large. Contracts see them, or none.
#[derive(Drop)]
struct Kept {
    alloc: Global,
    words: Items<Word>,
    /// The bytes of the words with a blank ahead of each, or a greater number than the most where they were too large.
    size: u64,
}

impl Model for Kept {
    ghost use Rattle.std.specs.Prelude.{◌≡◌, List, Option, Some, None, false, nat_lt, if◌then◌else◌};
    ghost use Rattle.fws_num.specs.declared.word.Word.{Word};
    ghost use Rattle.fws_pf.specs.Macros.{size_with_blanks};

    ghost Value = { Option (List Word) };

    ghost view = { λ k. if nat_lt 65537 k.size then None else Some k.words };

    ghost invariant = { λ k. nat_lt 65537 k.size ≡ false → k.size ≡ size_with_blanks k.words };
}

impl Kept {
    /// No words.
    fn new(alloc: Global) -> Kept
        ensures { result ≡ Some [] }
    {
        Kept {
            alloc,
            words: Items::new(alloc),
            size: 0,
        }
    }

    /// Puts a word behind the others.
    fn put(&mut self, word: Word) -> Result<(), Memory>
        ensures { OnOk result (self.new ≡ with_word self.old word) }
    {
        if self.size > MOST_BYTES {
            return Ok(());
        }
        let size = self.size + 1 + word.text.as_slice().len() as u64;
        if size > MOST_BYTES {
            self.size = size;
            self.words = Items::new(self.alloc);
            return Ok(());
        }
        self.words.put(word)?;
        self.size = size;
        Ok(())
    }

    /// Puts words behind the others. It takes no time once they are too large.
    fn put_all(&mut self, words: &[Word]) -> Result<(), Memory>
        ensures { OnOk result (self.new ≡ with_more self.old words.now) }
    {
        if self.size > MOST_BYTES {
            return Ok(());
        }
        for w in words {
            self.put(copied_word(self.alloc, w)?)?;
        }
        Ok(())
    }

    /// The words, unless they are too large.
    fn into_words(self) -> Option<Items<Word>>
        ensures { result ≡ self }
    {
        if self.size > MOST_BYTES {
            None
        } else {
            Some(self.words)
        }
    }
}

/// Takes further words of a value, as definitions have them.
fn keep_words(alloc: Global, kept: &mut Kept, words: &[Word]) -> Result<(), ReadFault>
    ensures { StepGiven result kept.new (kept_words kept.old words.now) }
{
    for w in words {
        if !w.is_sound() {
            return Err(ReadFault::Bad(Cause::Syntax));
        }
        let more = value_words(alloc, w)?;
        kept.put_all(more.as_slice())?;
    }
    Ok(())
}

/// Puts words behind others.
fn put_words(more: Items<Word>, all: &mut Items<Word>) -> Result<(), Memory>
    ensures { OnOk result (all.new ≡ all.old ++ more) }
{
    for w in more.into_vec() {
        all.put(w)?;
    }
    Ok(())
}

/// What words add to a value, as definitions have them.
fn words_added(alloc: Global, words: &[Word]) -> Result<Items<Word>, ReadFault>
    ensures { CauseGiven result (with_words [] words.now) }
{
    let mut all = Items::new(alloc);
    for w in words {
        if !w.is_sound() {
            return Err(ReadFault::Bad(Cause::Syntax));
        }
        let more = value_words(alloc, w)?;
        put_words(more, &mut all)?;
    }
    Ok(all)
}

/// What words add to a value, found once for each name for which they stand.
#[derive(Drop)]
pub(crate) struct Additions {
    pub(crate) known: IndexMap<Text, Items<Word>>,
}

impl Additions {
    /// Nothing is known of any name.
    fn new(alloc: Global) -> Additions
        ensures { result.known.entries ≡ [] }
    {
        Additions {
            known: IndexMap::new(alloc),
        }
    }

    /// Notes what the words of this name add.
    fn note(&mut self, alloc: Global, name: &Text, more: Items<Word>) -> Result<(), Memory>
        ensures { (words_of : List ℕ → List AnyWord) → with_words [] (words_of name.now) ≡ Ok more → AreAdditions words_of self.old.known.entries
            → OnOk result (AreAdditions words_of self.new.known.entries) }
    {
        self.known.insert(name.copy(alloc)?, more)?;
        Ok(())
    }

    /// Takes words that stand for this name, of which nothing is known, and notes what they add.
    fn learn(
        &mut self,
        alloc: Global,
        name: &Text,
        words: &[Word],
        kept: &mut Kept,
    ) -> Result<(), ReadFault>
        ensures given { StepGiven result kept.new (kept_words kept.old words.now) }
        ensures known { (words_of : List ℕ → List AnyWord) → words_of name.now ≡ words.now → AreAdditions words_of self.old.known.entries
            → OnOk result (AreAdditions words_of self.new.known.entries) }
    {
        match words_added(alloc, words) {
            Ok(more) => {
                kept.put_all(more.as_slice())?;
                self.note(alloc, name, more)?;
                Ok(())
            }
            Err(fault) => Err(fault),
        }
    }

    /// Takes words that stand for this name. Words that were taken before take no longer for being many.
    fn keep(
        &mut self,
        alloc: Global,
        name: &Text,
        words: &[Word],
        kept: &mut Kept,
    ) -> Result<(), ReadFault>
        ensures given { (words_of : List ℕ → List AnyWord) → words_of name.now ≡ words.now → AreAdditions words_of self.old.known.entries
            → StepGiven result kept.new (kept_words kept.old words.now) }
        ensures known { (words_of : List ℕ → List AnyWord) → words_of name.now ≡ words.now → AreAdditions words_of self.old.known.entries
            → OnOk result (AreAdditions words_of self.new.known.entries) }
    {
        match self.known.get(name) {
            Some(more) => {
                kept.put_all(more.as_slice())?;
                Ok(())
            }
            None => self.learn(alloc, name, words, kept),
        }
    }
}

/// What uses of macros add to a value, by the names of the macros.
#[derive(Drop)]
pub(crate) struct UseAdditions {
    /// What all their words add.
    pub(crate) wholes: Additions,
    /// What all their words but the last one add.
    pub(crate) fronts: Additions,
}

/// Takes the words of a macro, the last of which has a text joined to it.
fn keep_joined(
    alloc: Global,
    uses: &mut UseAdditions,
    kept: &mut Kept,
    name: &Text,
    words: &[Word],
    text: &[u8],
) -> Result<(), ReadFault>
    ensures given { (macros : List AnyMacro) → words_named macros name.now ≡ words.now → AreUseAdditions macros uses.old
        → StepGiven result kept.new (kept_words kept.old (joined_words words.now text.now)) }
    ensures known { (macros : List AnyMacro) → words_named macros name.now ≡ words.now → AreUseAdditions macros uses.old
        → OnOk result (AreUseAdditions macros uses.new) }
{
    let last = last_joined(alloc, words, text)?;
    match uses.fronts.keep(alloc, name, front_words(words), kept) {
        Ok(()) => keep_words(alloc, kept, last.as_slice()),
        Err(fault) => Err(fault),
    }
}

/// Takes the words for which a use of a macro stands: its words, the last of which has a text joined to it.
fn keep_use(
    alloc: Global,
    macros: &Macros,
    uses: &mut UseAdditions,
    kept: &mut Kept,
    text: &[u8],
) -> Result<(), ReadFault>
    requires { AreUseAdditions macros.now uses.old }
    ensures given { StepGiven result kept.new (kept_words kept.old (joined_words (words_named macros.now (name_ahead text.now)) (behind_name text.now))) }
    ensures known { OnOk result (AreUseAdditions macros.now uses.new) }
{
    nothing_is_joined();
    let (name, behind) = split_name(text);
    let named = Text::of(alloc, name)?;
    let words = macros.words(&named);
    match behind {
        [] => uses.wholes.keep(alloc, &named, words, kept),
        [_, ..] => keep_joined(alloc, uses, kept, &named, words, behind),
    }
}

/// Takes the words for which a word stands.
fn keep_meant(
    alloc: Global,
    macros: &Macros,
    uses: &mut UseAdditions,
    kept: &mut Kept,
    w: &Word,
) -> Result<(), ReadFault>
    requires { AreUseAdditions macros.now uses.old }
    ensures given { StepGiven result kept.new (and_then (meant macros.now w.now) (kept_words kept.old)) }
    ensures known { OnOk result (AreUseAdditions macros.now uses.new) }
{
    let used = used_text(alloc, macros, w)?;
    match used {
        Some(text) => keep_use(alloc, macros, uses, kept, text),
        None => {
            let words = meant(alloc, macros, w)?;
            keep_words(alloc, kept, words.as_slice())
        }
    }
}

/// Takes the words for which each of these words stands.
fn keep_each(
    alloc: Global,
    macros: &Macros,
    uses: &mut UseAdditions,
    kept: &mut Kept,
    words: &[Word],
) -> Result<(), ReadFault>
    requires { AreUseAdditions macros.now uses.old }
    ensures { StepGiven result kept.new (kept_read macros.now kept.old words.now) }
{
    for w in words {
        if !w.is_sound() {
            return Err(ReadFault::Bad(Cause::Syntax));
        }
        keep_meant(alloc, macros, uses, kept, w)?;
    }
    Ok(())
}

/// Takes the words of a value, macros replaced.
fn keep_value(
    alloc: Global,
    macros: &Macros,
    kept: &mut Kept,
    words: &[Word],
) -> Result<(), ReadFault>
    ensures { StepGiven result kept.new (kept_read macros.now kept.old words.now) }
{
    let mut uses = UseAdditions {
        wholes: Additions::new(alloc),
        fronts: Additions::new(alloc),
    };
    keep_each(alloc, macros, &mut uses, kept, words)
}

/// The words that were kept, unless they are too large.
fn whole_value(kept: Kept) -> Result<Items<Word>, ReadFault>
    ensures { CauseGiven result (ok_or kept Cause.Expand) }
{
    match kept.into_words() {
        Some(value) => Ok(value),
        None => Err(ReadFault::Bad(Cause::Expand)),
    }
}

/// The words of the value that these words define, of which there is at least one. Words of a value that has become too
/// large are judged and not kept, and those of a macro are judged once.
pub fn value_defined(
    alloc: Global,
    macros: &Macros,
    words: &[Word],
) -> Result<Items<Word>, ReadFault>
    ensures { CauseGiven result (value_defined macros.now words.now) }
{
    if words.is_empty() {
        return Err(ReadFault::Bad(Cause::Syntax));
    }
    let mut kept = Kept::new(alloc);
    match keep_value(alloc, macros, &mut kept, words) {
        Ok(()) => whole_value(kept),
        Err(fault) => Err(fault),
    }
}

/// Notes the macro that these words define; a refused definition changes none. Fails if memory runs out.
pub fn define(alloc: Global, macros: &mut Macros, words: &[Word]) -> Result<(), Memory>
    ensures { OnOk result (macros.new ≡ with_value (name_defined words.now) (value_defined macros.old (value_behind words.now)) macros.old) }
{
    match value_defined(alloc, macros, value_behind(words)) {
        Ok(value) => {
            macros.put(Text::of(alloc, name_defined(words))?, value)?;
            Ok(())
        }
        Err(ReadFault::Bad(_)) => Ok(()),
        Err(ReadFault::Memory) => Err(Memory),
    }
}
