//! Which table a statement defines, by its first words.

ghost use Rattle.std.specs.Prelude.{◌≡◌, ◌∷◌, List, IfOk, OnOk, if◌then◌else◌};
ghost use Rattle.fws_num.specs.declared.word.Word.{Word as AnyWord};
ghost use Rattle.fws_pf.specs.FileText.{readable, table_defined, with_front, with_meant};
ghost use Rattle.fws_pf.specs.Macros.{meant};
ghost use Rattle.fws_pf.specs.Values.{is_any_mark};
ghost use Rattle.fws_pf_words.specs.Defining.{defining_step, is_over, name_of, named, words_seen};
ghost use Rattle.fws_pf_words.specs.Uses.{behind_name, joined_words, name_ahead, words_named};

use crate::macros::{
    Macros, front_words, is_use, last_joined, meant, nothing_is_joined, split_name, used_text,
};
use crate::statements::is_mark;
use crate::values::is_any_mark;
use fws_net::ReadFault;
use fws_num::{Memory, Text, Word};
use fws_rules::is;
use std::alloc::Global;
use std::slice;

/// What the next word is taken for.
#[derive(Clone, Copy, Debug, PartialEq, Eq)]
pub(crate) enum Stage {
    /// `table`
    Table,
    /// `<`
    Open,
    /// The name.
    Name,
    /// `>`
    Close,
    /// Nothing more: the words define a table.
    Whole,
    /// Nothing more: the words define none.
    Other,
}

/// How far words say which table they define.
#[derive(Drop)]
pub(crate) struct Defining {
    /// What the next word is taken for.
    pub(crate) stage: Stage,
    /// The name, once it was read.
    pub(crate) name: Text,
}

/// Takes a word.
fn defining_step(alloc: Global, w: &Word, d: &mut Defining) -> Result<(), Memory>
    ensures { OnOk result (d.new ≡ defining_step w.now d.old) }
{
    match d.stage {
        Stage::Table => {
            d.stage = next_stage(is(w.text.as_slice(), b"table"), Stage::Open);
            Ok(())
        }
        Stage::Open => {
            d.stage = next_stage(is_mark(w, b"<"), Stage::Name);
            Ok(())
        }
        Stage::Name => take_name(alloc, w, d),
        Stage::Close => {
            d.stage = next_stage(is_mark(w, b">"), Stage::Whole);
            Ok(())
        }
        Stage::Whole => Ok(()),
        Stage::Other => Ok(()),
    }
}

/// On to the next word, if this one fits.
fn next_stage(fits: bool, next: Stage) -> Stage
    ensures { result ≡ (if fits then next else Stage.Other) }
{
    if fits { next } else { Stage::Other }
}

/// Takes a name, which is no punctuation.
fn take_name(alloc: Global, w: &Word, d: &mut Defining) -> Result<(), Memory>
    ensures { OnOk result (d.new ≡ named (is_any_mark w.now) w.now.text d.old) }
{
    if is_any_mark(w) {
        d.stage = Stage::Other;
        return Ok(());
    }
    d.name = w.text.copy(alloc)?;
    d.stage = Stage::Close;
    Ok(())
}

/// Whether no further word changes it.
fn is_over(stage: Stage) -> bool
    ensures { result ≡ is_over stage }
{
    match stage {
        Stage::Table => false,
        Stage::Open => false,
        Stage::Name => false,
        Stage::Close => false,
        Stage::Whole => true,
        Stage::Other => true,
    }
}

/// Takes words up to the first that can't be judged, or behind which no further one changes it, and tells whether there is none.
fn take_front(alloc: Global, words: &[Word], d: &mut Defining) -> Result<bool, Memory>
    ensures { IfOk result (λ all. (rest : List AnyWord) → words_seen d.old (with_front words.now rest) ≡ (if all then words_seen d.new rest else d.new)) }
{
    for w in words {
        if is_over(d.stage) {
            return Ok(false);
        }
        if !w.is_sound() {
            return Ok(false);
        }
        defining_step(alloc, w, d)?;
    }
    Ok(true)
}

/// Takes words, the last of which has a text joined to it.
fn take_joined(alloc: Global, words: &[Word], text: &[u8], d: &mut Defining) -> Result<bool, Memory>
    ensures { IfOk result (λ all. (rest : List AnyWord) → words_seen d.old (with_front (joined_words words.now text.now) rest) ≡ (if all then words_seen d.new rest else d.new)) }
{
    if !take_front(alloc, front_words(words), d)? {
        return Ok(false);
    }
    let last = last_joined(alloc, words, text)?;
    take_front(alloc, last.as_slice(), d)
}

/// Takes the words for which a use of a macro stands: its words, the last of which has a text joined to it.
fn take_use(alloc: Global, macros: &Macros, text: &[u8], d: &mut Defining) -> Result<bool, Memory>
    ensures { IfOk result (λ all. (rest : List AnyWord) → words_seen d.old (with_front (joined_words (words_named macros.now (name_ahead text.now)) (behind_name text.now)) rest) ≡ (if all then words_seen d.new rest else d.new)) }
{
    nothing_is_joined();
    let (name, behind) = split_name(text);
    let named = Text::of(alloc, name)?;
    let words = macros.words(&named);
    match behind {
        [] => take_front(alloc, words, d),
        [_, ..] => take_joined(alloc, words, behind, d),
    }
}

/// Takes the words for which a word stands that may be a use of a macro without words.
fn take_replaced(alloc: Global, macros: &Macros, w: &Word, d: &mut Defining) -> Result<bool, Memory>
    ensures { IfOk result (λ all. (rest : List AnyWord) → words_seen d.old (with_meant (meant macros.now w.now) rest) ≡ (if all then words_seen d.new rest else d.new)) }
{
    match meant(alloc, macros, w) {
        Ok(words) => take_front(alloc, words.as_slice(), d),
        Err(ReadFault::Bad(_)) => Ok(false),
        Err(ReadFault::Memory) => Err(Memory),
    }
}

/// Takes the words for which a word stands that is no use of a macro with words.
fn take_plain(alloc: Global, macros: &Macros, w: &Word, d: &mut Defining) -> Result<bool, Memory>
    ensures { IfOk result (λ all. (rest : List AnyWord) → words_seen d.old (with_meant (meant macros.now w.now) rest) ≡ (if all then words_seen d.new rest else d.new)) }
{
    if is_use(w) {
        return take_replaced(alloc, macros, w, d);
    }
    take_front(alloc, slice::from_ref(w), d)
}

/// Takes the words for which a word stands, and tells whether all can be judged and a further one may change it.
fn take_meant(alloc: Global, macros: &Macros, w: &Word, d: &mut Defining) -> Result<bool, Memory>
    ensures { IfOk result (λ all. (ws : List AnyWord) → words_seen d.old (readable macros.now (w.now ∷ ws)) ≡ (if all then words_seen d.new (readable macros.now ws) else d.new)) }
{
    if !w.is_sound() {
        return Ok(false);
    }
    let used = used_text(alloc, macros, w)?;
    match used {
        Some(text) => take_use(alloc, macros, text, d),
        None => take_plain(alloc, macros, w, d),
    }
}

/// The name of the table that was defined.
fn into_name(d: Defining) -> Option<Text>
    ensures { result ≡ name_of d }
{
    let Defining { stage, name } = d;
    match stage {
        Stage::Table => None,
        Stage::Open => None,
        Stage::Name => None,
        Stage::Close => None,
        Stage::Whole => Some(name),
        Stage::Other => None,
    }
}

/// The name of the table that words define: `table`, `<`, a name and `>`, whatever stands behind. Fails if memory runs out.
pub fn table_defined(alloc: Global, macros: &Macros, words: &[Word]) -> Result<Option<Text>, Memory>
    ensures { IfOk result (λ name. name ≡ table_defined (readable macros.now words.now)) }
{
    let mut d = Defining {
        stage: Stage::Table,
        name: Text::new(alloc),
    };
    for w in words {
        if is_over(d.stage) {
            return Ok(into_name(d));
        }
        if !take_meant(alloc, macros, w, &mut d)? {
            return Ok(into_name(d));
        }
    }
    Ok(into_name(d))
}
