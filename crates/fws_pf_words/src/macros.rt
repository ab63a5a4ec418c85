//! Macros: what stands for `$` and a name (pf.conf(5)).

ghost use Rattle.std.specs.Prelude.{◌≡◌, ◌↔◌, IsTrue, false, ℕ, List, ◌++◌, ◌∷◌, [], Ok, Err, Some, None, MatchOption, IfOk, IfSome, OnOk};
ghost use Rattle.std.specs.List.{list_all};
ghost use Rattle.std.specs.Option.{ok_or, option_map};
ghost use Rattle.fws_num.specs.declared.word.Word.{Word as AnyWord};
ghost use Rattle.fws_num.specs.Words.{is_sound, plain_word};
ghost use Rattle.fws_net.specs.Reading.{CauseGiven};
ghost use Rattle.fws_pf.specs.declared.macros.Macro.{Macro as AnyMacro};
ghost use Rattle.fws_pf.specs.FileText.{is_definition, name_defined, value_behind};
ghost use Rattle.fws_pf.specs.Macros.{is_name, is_name_byte, meant, meant_by, meant_from, value_of, with_macro};
ghost use Rattle.fws_pf_words.specs.Uses.{all_but_last, alone_words, behind_name, further_use, joined_words, last_joined, name_ahead, words_named};

use crate::statements::is_mark;
use fws_net::{Cause, ReadFault};
use fws_num::{Items, Memory, Text, Word, are_sound};
use indexmap::IndexMap;
use std::alloc::Global;
use std::marker::Model;

/// The words of a macro. Contracts see them.
#[derive(Drop)]
struct MacroWords {
    words: Items<Word>,
    /// Whether each of them can be judged.
    sound: bool,
}

impl Model for MacroWords {
    ghost use Rattle.std.specs.Prelude.{◌≡◌, List};
    ghost use Rattle.std.specs.List.{list_all};
    ghost use Rattle.fws_num.specs.declared.word.Word.{Word as AnyWord};
    ghost use Rattle.fws_num.specs.Words.{is_sound};

    ghost Value = { List AnyWord };

    ghost view = { λ m. m.words };

    ghost invariant = { λ m. m.sound ≡ list_all is_sound m.words };
}

impl MacroWords {
    /// These words.
    fn new(words: Items<Word>) -> MacroWords
        ensures { result ≡ words }
    {
        let sound = are_sound(words.as_slice());
        MacroWords { words, sound }
    }

    /// The words.
    fn as_slice(&self) -> &[Word]
        ensures { result.now ≡ self.now }
    {
        self.words.as_slice()
    }

    /// Whether there is no word.
    fn is_empty(&self) -> bool
        ensures { IsTrue result ↔ (self.now ≡ []) }
    {
        self.words.is_empty()
    }

    /// Whether each of them can be judged.
    fn are_sound(&self) -> bool
        ensures { result ≡ list_all is_sound self.now }
    {
        self.sound
    }
}

/// Macros by their names. Contracts see the list.
#[derive(Drop)]
pub struct Macros {
    words: IndexMap<Text, MacroWords>,
}

impl Model for Macros {
    ghost use Rattle.std.specs.Prelude.{List, map};
    ghost use Rattle.fws_pf.specs.declared.macros.Macro.{Macro};
    ghost use Rattle.fws_pf_words.specs.Uses.{macro_of};

    ghost Value = { List Macro };

    ghost view = { λ m. map macro_of m.words.entries };
}

impl Macros {
    /// No macros.
    pub fn new(alloc: Global) -> Macros
        ensures { result ≡ [] }
    {
        Macros {
            words: IndexMap::new(alloc),
        }
    }

    /// From now on the name stands for these words. Fails if memory runs out.
    pub fn put(&mut self, name: Text, words: Items<Word>) -> Result<(), Memory>
        ensures { OnOk result (self.new ≡ with_macro name words self.old) }
    {
        self.words.insert(name, MacroWords::new(words))?;
        Ok(())
    }

    /// The words that stand for the name; none where no macro has it.
    pub fn words(&self, name: &Text) -> &[Word]
        ensures { result.now ≡ words_named self.now name.now }
    {
        match self.value(name) {
            Some(words) => words.as_slice(),
            None => &[],
        }
    }

    /// Whether each of the words that stand for the name can be judged.
    pub fn are_sound(&self, name: &Text) -> bool
        ensures { result ≡ list_all is_sound (words_named self.now name.now) }
    {
        match self.value(name) {
            Some(words) => words.are_sound(),
            None => true,
        }
    }

    /// The words that stand for the name.
    fn value(&self, name: &Text) -> Option<&MacroWords>
        ensures { MatchOption result (value_of self.now name.now ≡ Err Cause.NoName) (λ words. value_of self.now name.now ≡ Ok words.now) }
    {
        match self.words.get(name) {
            Some(words) => Some(words),
            None => None,
        }
    }
}

/// A letter, a digit or `_`.
fn is_name_byte(c: u8) -> bool
    ensures { result ≡ is_name_byte c }
{
    c.is_ascii_digit() || (c >= 65 && c <= 90) || (c >= 97 && c <= 122) || c == b'_'
}

/// Whether each byte may stand in a name.
fn are_name_bytes(text: &[u8]) -> bool
    ensures { result ≡ list_all is_name_byte text.now }
{
    text.iter().all(|c| is_name_byte(*c))
}

/// Whether it is a name of a macro.
fn is_name(text: &[u8]) -> bool
    ensures { result ≡ is_name text.now }
{
    text.len() >= 1 && are_name_bytes(text)
}

/// Whether the words of a statement define a macro.
pub fn is_definition(words: &[Word]) -> bool
    ensures { result ≡ is_definition words.now }
{
    match words {
        [name, equals, ..] => {
            if !is_mark(equals, b"=") {
                return false;
            }
            name.is_sound() && is_name(name.text.as_slice())
        }
        _ => false,
    }
}

/// The name of the macro that words define; empty where there are none.
pub fn name_defined(words: &[Word]) -> &[u8]
    ensures { result.now ≡ name_defined words.now }
{
    match words {
        [] => b"",
        [name, ..] => name.text.as_slice(),
    }
}

/// The words behind the name of a macro and `=`.
pub fn value_behind(words: &[Word]) -> &[Word]
    ensures { result.now ≡ value_behind words.now }
{
    match words {
        [_, _, value @ ..] => value,
        _ => &[],
    }
}

/// An equal word.
pub(crate) fn copied_word(alloc: Global, w: &Word) -> Result<Word, Memory>
    ensures { IfOk result (λ v. v ≡ w.now) }
{
    Ok(Word {
        text: w.text.copy(alloc)?,
        line: w.line,
        quoted: w.quoted,
        whole: w.whole,
    })
}

/// Equal words.
fn copied_words(alloc: Global, words: &[Word]) -> Result<Items<Word>, Memory>
    ensures { IfOk result (λ ws. ws ≡ words.now) }
{
    let mut copies = Items::new(alloc);
    for w in words {
        copies.put(copied_word(alloc, w)?)?;
    }
    Ok(copies)
}

/// This word alone.
pub(crate) fn single(alloc: Global, w: Word) -> Result<Items<Word>, Memory>
    ensures { IfOk result (λ ws. ws ≡ w ∷ []) }
{
    let mut words = Items::new(alloc);
    words.put(w)?;
    Ok(words)
}

/// The words with the text joined to the last of them.
fn joined_words(alloc: Global, words: &[Word], text: &[u8]) -> Result<Items<Word>, Memory>
    ensures { IfOk result (λ ws. ws ≡ joined_words words.now text.now) }
{
    let Some((last, front)) = words.split_last() else {
        return Ok(Items::new(alloc));
    };
    let mut joined = copied_words(alloc, front)?;
    let mut word = copied_word(alloc, last)?;
    word.text.put(text)?;
    joined.put(word)?;
    Ok(joined)
}

/// The bytes of a name, and what stands behind them.
pub fn split_name(text: &[u8]) -> (&[u8], &[u8])
    ensures name { result.0.now ≡ name_ahead text.now }
    ensures behind { result.1.now ≡ behind_name text.now }
{
    for (i, c) in text.iter().enumerate() {
        if !is_name_byte(*c) {
            return (&text[..i], &text[i..]);
        }
    }
    (text, &[])
}

/// What stands behind a macro without words and the `$` of a further use.
fn further_use<'a>(
    alloc: Global,
    macros: &Macros,
    text: &'a [u8],
) -> Result<Option<&'a [u8]>, Memory>
    ensures { IfOk result (λ o. option_map (λ t. t.now) o ≡ further_use macros.now text.now) }
{
    let (name, behind) = split_name(text);
    let name = Text::of(alloc, name)?;
    let Some(words) = macros.value(&name) else {
        return Ok(None);
    };
    if !words.is_empty() {
        return Ok(None);
    }
    match behind {
        [b'$', rest @ ..] => Ok(Some(rest)),
        _ => Ok(None),
    }
}

/// The text by itself as a word; no word where it is empty.
fn alone_words(alloc: Global, line: u32, text: &[u8]) -> Result<Items<Word>, Memory>
    ensures { IfOk result (λ ws. ws ≡ alone_words line text.now) }
{
    if text.is_empty() {
        return Ok(Items::new(alloc));
    }
    let word = Word {
        text: Text::of(alloc, text)?,
        line,
        quoted: false,
        whole: true,
    };
    let words = single(alloc, word)?;
    Ok(words)
}

/// The words for which a name and the text behind it stand, where no macro without words stands ahead of a further use.
fn last_use(
    alloc: Global,
    macros: &Macros,
    line: u32,
    text: &[u8],
) -> Result<Items<Word>, ReadFault>
    ensures { further_use macros.now text.now ≡ None → CauseGiven result (meant_from macros.now line [] text.now) }
{
    let (name, behind) = split_name(text);
    let name = Text::of(alloc, name)?;
    let Some(words) = macros.value(&name) else {
        return Err(ReadFault::Bad(Cause::NoName));
    };
    if words.is_empty() {
        let alone = alone_words(alloc, line, behind)?;
        return Ok(alone);
    }
    let joined = joined_words(alloc, words.as_slice(), behind)?;
    Ok(joined)
}

/// The text behind the last `$` of a use, ahead of which macros without words stand.
fn last_text<'a>(alloc: Global, macros: &Macros, text: &'a [u8]) -> Result<&'a [u8], Memory>
    ensures same { IfOk result (λ rest. (line : ℕ) → meant_from macros.now line [] rest.now ≡ meant_from macros.now line [] text.now) }
    ensures last { IfOk result (λ rest. further_use macros.now rest.now ≡ None) }
{
    let mut rest = text;
    while let Some(behind) = further_use(alloc, macros, rest)? {
        rest = behind;
    }
    Ok(rest)
}

/// The words for which `$` and the text behind it stand.
fn used(alloc: Global, macros: &Macros, line: u32, text: &[u8]) -> Result<Items<Word>, ReadFault>
    ensures { CauseGiven result (meant_from macros.now line [] text.now) }
{
    let rest = last_text(alloc, macros, text)?;
    last_use(alloc, macros, line, rest)
}

/// The text, if a macro with words has the name with which it begins.
fn with_words<'a>(
    alloc: Global,
    macros: &Macros,
    text: &'a [u8],
) -> Result<Option<&'a [u8]>, Memory>
    ensures { IfOk result (λ o. IfSome o (λ t. (line : ℕ) → meant_from macros.now line [] text.now ≡ Ok (joined_words (words_named macros.now (name_ahead t.now)) (behind_name t.now)))) }
{
    let (name, _) = split_name(text);
    let name = Text::of(alloc, name)?;
    match macros.words(&name) {
        [] => Ok(None),
        [_, ..] => Ok(Some(text)),
    }
}

/// The text of a use of a macro that has words: the name of the macro, and what stands behind it. None where the word is no such
/// use. Fails if memory runs out.
pub fn used_text<'a>(
    alloc: Global,
    macros: &Macros,
    w: &'a Word,
) -> Result<Option<&'a [u8]>, Memory>
    ensures { IfOk result (λ o. IfSome o (λ t. meant macros.now w.now ≡ Ok (joined_words (words_named macros.now (name_ahead t.now)) (behind_name t.now)))) }
{
    if w.quoted {
        return Ok(None);
    }
    match w.text.as_slice() {
        [b'$', text @ ..] => {
            let rest = last_text(alloc, macros, text)?;
            with_words(alloc, macros, rest)
        }
        _ => Ok(None),
    }
}

/// All of the words but the last one.
pub fn front_words(words: &[Word]) -> &[Word]
    ensures front { result.now ≡ all_but_last words.now }
    ensures joined { (text : List ℕ) → joined_words words.now text ≡ result.now ++ last_joined words.now text }
{
    match words.split_last() {
        Some((_, front)) => front,
        None => words,
    }
}

/// The last of the words with a text joined to it. Fails if memory runs out.
pub fn last_joined(alloc: Global, words: &[Word], text: &[u8]) -> Result<Items<Word>, Memory>
    ensures { IfOk result (λ ws. ws ≡ last_joined words.now text.now) }
{
    match words.split_last() {
        Some((last, _)) => {
            let mut word = copied_word(alloc, last)?;
            word.text.put(text)?;
            let words = single(alloc, word)?;
            Ok(words)
        }
        None => Ok(Items::new(alloc)),
    }
}

/// Words to which nothing is joined are as before.
pub fn nothing_is_joined()
    ensures { (words : List AnyWord) → joined_words words [] ≡ words }
{}

/// Whether the word begins with `$` outside quotes. Any other word stands for itself.
pub fn is_use(w: &Word) -> bool
    ensures { (macros : List AnyMacro) → result ≡ false → meant macros w.now ≡ Ok (w.now ∷ []) }
{
    if w.quoted {
        return false;
    }
    match w.text.as_slice() {
        [b'$', ..] => true,
        _ => false,
    }
}

/// The words for which a word stands: those of its macro, where it begins with `$` outside quotes, and else itself.
pub fn meant(alloc: Global, macros: &Macros, w: &Word) -> Result<Items<Word>, ReadFault>
    ensures { CauseGiven result (meant macros.now w.now) }
{
    if w.quoted {
        return Ok(single(alloc, copied_word(alloc, w)?)?);
    }
    match w.text.as_slice() {
        [b'$', text @ ..] => used(alloc, macros, w.line, text),
        _ => Ok(single(alloc, copied_word(alloc, w)?)?),
    }
}
