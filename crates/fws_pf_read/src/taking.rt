//! The words of statements, with those of the macros that they use.

ghost use Rattle.std.specs.Prelude.{◌≡◌, ℕ, true, Ok, List, IfOk};
ghost use Rattle.std.specs.List.{list_all};
ghost use Rattle.fws_num.specs.declared.word.Word.{Word as AnyWord};
ghost use Rattle.fws_num.specs.Words.{is_printed, is_sound};
ghost use Rattle.fws_net.specs.Routes.{IsSound};
ghost use Rattle.fws_pf.specs.declared.macros.Macro.{Macro as AnyMacro};
ghost use Rattle.fws_pf.specs.Values.{Setting as AnySetting};
ghost use Rattle.fws_pf.specs.Macros.{meant};
ghost use Rattle.fws_pf_words.specs.Uses.{behind_name, joined_words, last_joined, name_ahead, words_named};
ghost use Rattle.fws_pf_words.specs.UsesKnown.{AreUses, ArePiece};
ghost use Rattle.fws_pf_read.specs.Taking.{SaidGiven, meant_taken, raw_taken, raws_taken, word_taken, words_taken};

use crate::takes_words::TakesWords;
use fws_net::{Cause, ReadFault};
use fws_num::{Text, Word};
use fws_pf_words::{
    KnownUses, Macros, Setting, Source, Tags, front_words, is_use, last_joined, meant,
    nothing_is_joined, split_name, used_text,
};
use std::alloc::Global;
use std::slice;

/// Takes a word out of a macro, or one that stands there.
fn word_taken<S: TakesWords>(
    alloc: Global,
    setting: &Setting,
    tags: &mut Tags,
    w: &Word,
    s: S,
) -> Result<S, ReadFault>
    requires { IsSound setting.now.site }
    ensures given { (t : List (List ℕ)) → S.tagged t s tags.old → SaidGiven S.seen result (word_taken (S.step setting.now t) S.fault w.now (S.seen s)) }
    ensures kept { (t : List (List ℕ)) → S.tagged t s tags.old → IfOk result (λ next. S.tagged t next tags.new) }
{
    if !w.is_sound() {
        return Err(s.refused(Cause::Syntax));
    }
    s.step(alloc, setting, tags, w)
}

/// Whether each byte is one that is printed.
fn are_printed(text: &[u8]) -> bool
    ensures { result ≡ list_all is_printed text.now }
{
    text.iter().all(|c| 33 <= *c && *c <= 126)
}

/// Whether words that can be judged change nothing any more.
fn passes_over<S: TakesWords>(sound: bool, s: &S) -> bool
    ensures { result ≡ true → (sound ≡ true) × ((setting : AnySetting) (t : List (List ℕ)) (w : AnyWord) → S.step setting t w (S.seen s.now) ≡ Ok (S.seen s.now)) }
{
    sound && s.is_idle()
}

/// Takes words out of a macro, or one that stands there. A statement that has no effect passes over words of which all are known
/// to be such that can be judged.
fn words_taken<S: TakesWords>(
    alloc: Global,
    setting: &Setting,
    tags: &mut Tags,
    words: &[Word],
    sound: bool,
    s: S,
) -> Result<S, ReadFault>
    requires site { IsSound setting.now.site }
    requires judged { sound ≡ true → list_all is_sound words.now ≡ true }
    ensures given { (t : List (List ℕ)) → S.tagged t s tags.old → SaidGiven S.seen result (words_taken (S.step setting.now t) S.fault words.now (S.seen s)) }
    ensures kept { (t : List (List ℕ)) → S.tagged t s tags.old → IfOk result (λ next. S.tagged t next tags.new) }
{
    let mut next = s;
    for w in words {
        if passes_over(sound, &next) {
            return Ok(next);
        }
        next = word_taken(alloc, setting, tags, w, next)?;
    }
    Ok(next)
}

/// Takes words that may belong to no value, or to another one, of which no use is known.
fn rest_taken<S: TakesWords>(
    alloc: Global,
    setting: &Setting,
    uses: &mut KnownUses,
    tags: &mut Tags,
    words: &[Word],
    sound: bool,
    s: S,
) -> Result<S, ReadFault>
    requires site { IsSound setting.now.site }
    requires judged { sound ≡ true → list_all is_sound words.now ≡ true }
    ensures given { (t : List (List ℕ)) → S.tagged t s tags.old → SaidGiven S.seen result (words_taken (S.step setting.now t) S.fault words.now (S.seen s)) }
    ensures kept { (t : List (List ℕ)) → S.tagged t s tags.old → IfOk result (λ next. S.tagged t next tags.new) }
    ensures known { (macros : List AnyMacro) → IfOk result (λ next. AreUses setting.now macros (S.items (S.seen next)) uses.new) }
{
    uses.forget(alloc);
    words_taken(alloc, setting, tags, words, sound, s)
}

/// Takes words that come from somewhere. Where they belong to the value at which the statement is, those of a macro take no
/// longer for being many, if they were taken from the same place before, or if they are known to be such that can be judged and the
/// statement has no effect.
fn piece_taken<S: TakesWords>(
    alloc: Global,
    setting: &Setting,
    uses: &mut KnownUses,
    tags: &mut Tags,
    source: Source,
    name: &Text,
    words: &[Word],
    sound: bool,
    s: S,
) -> Result<S, ReadFault>
    requires site { IsSound setting.now.site }
    requires judged { sound ≡ true → list_all is_sound words.now ≡ true }
    ensures given { (t : List (List ℕ)) (macros : List AnyMacro) → S.tagged t s tags.old → ArePiece macros source name.now words.now
        → AreUses setting.now macros (S.items (S.seen s)) uses.old → SaidGiven S.seen result (words_taken (S.step setting.now t) S.fault words.now (S.seen s)) }
    ensures kept { (t : List (List ℕ)) → S.tagged t s tags.old → IfOk result (λ next. S.tagged t next tags.new) }
    ensures known { (macros : List AnyMacro) → ArePiece macros source name.now words.now → AreUses setting.now macros (S.items (S.seen s)) uses.old
        → IfOk result (λ next. AreUses setting.now macros (S.items (S.seen next)) uses.new) }
{
    let (next, n) = s.take_within(alloc, setting, uses, source, name, words)?;
    if n == words.len() {
        return Ok(next);
    }
    rest_taken(alloc, setting, uses, tags, &words[n..], sound, next)
}

/// Takes the words of a macro.
fn whole_taken<S: TakesWords>(
    alloc: Global,
    setting: &Setting,
    macros: &Macros,
    uses: &mut KnownUses,
    tags: &mut Tags,
    name: &Text,
    s: S,
) -> Result<S, ReadFault>
    requires { IsSound setting.now.site }
    ensures given { (t : List (List ℕ)) → S.tagged t s tags.old → AreUses setting.now macros.now (S.items (S.seen s)) uses.old
        → SaidGiven S.seen result (words_taken (S.step setting.now t) S.fault (words_named macros.now name.now) (S.seen s)) }
    ensures kept { (t : List (List ℕ)) → S.tagged t s tags.old → IfOk result (λ next. S.tagged t next tags.new) }
    ensures known { AreUses setting.now macros.now (S.items (S.seen s)) uses.old → IfOk result (λ next. AreUses setting.now macros.now (S.items (S.seen next)) uses.new) }
{
    let words = macros.words(name);
    let sound = macros.are_sound(name);
    piece_taken(
        alloc,
        setting,
        uses,
        tags,
        Source::Whole,
        name,
        words,
        sound,
        s,
    )
}

/// Takes words that are no macro's as they stand there. What is known of uses is kept within a list alone.
fn others_taken<S: TakesWords>(
    alloc: Global,
    setting: &Setting,
    uses: &mut KnownUses,
    tags: &mut Tags,
    words: &[Word],
    s: S,
) -> Result<S, ReadFault>
    requires { IsSound setting.now.site }
    ensures given { (t : List (List ℕ)) (macros : List AnyMacro) → S.tagged t s tags.old → AreUses setting.now macros (S.items (S.seen s)) uses.old
        → SaidGiven S.seen result (words_taken (S.step setting.now t) S.fault words.now (S.seen s)) }
    ensures kept { (t : List (List ℕ)) → S.tagged t s tags.old → IfOk result (λ next. S.tagged t next tags.new) }
    ensures known { (macros : List AnyMacro) → AreUses setting.now macros (S.items (S.seen s)) uses.old
        → IfOk result (λ next. AreUses setting.now macros (S.items (S.seen next)) uses.new) }
{
    if !s.is_in_list() {
        return rest_taken(alloc, setting, uses, tags, words, false, s);
    }
    let name = Text::new(alloc);
    piece_taken(
        alloc,
        setting,
        uses,
        tags,
        Source::Other,
        &name,
        words,
        false,
        s,
    )
}

/// Takes the last of some words with a text joined to it. A statement that has no effect passes over it where all these words are known
/// to be such that can be judged.
fn last_taken<S: TakesWords>(
    alloc: Global,
    setting: &Setting,
    uses: &mut KnownUses,
    tags: &mut Tags,
    words: &[Word],
    sound: bool,
    text: &[u8],
    s: S,
) -> Result<S, ReadFault>
    requires site { IsSound setting.now.site }
    requires judged { sound ≡ true → list_all is_sound words.now ≡ true }
    ensures given { (t : List (List ℕ)) (macros : List AnyMacro) → S.tagged t s tags.old → AreUses setting.now macros (S.items (S.seen s)) uses.old
        → SaidGiven S.seen result (words_taken (S.step setting.now t) S.fault (last_joined words.now text.now) (S.seen s)) }
    ensures kept { (t : List (List ℕ)) → S.tagged t s tags.old → IfOk result (λ next. S.tagged t next tags.new) }
    ensures known { (macros : List AnyMacro) → AreUses setting.now macros (S.items (S.seen s)) uses.old
        → IfOk result (λ next. AreUses setting.now macros (S.items (S.seen next)) uses.new) }
{
    if passes_over(sound, &s) {
        if are_printed(text) {
            return Ok(s);
        }
    }
    let last = last_joined(alloc, words, text)?;
    others_taken(alloc, setting, uses, tags, last.as_slice(), s)
}

/// Takes the words of a macro, the last of which has a text joined to it.
fn joined_taken<S: TakesWords>(
    alloc: Global,
    setting: &Setting,
    macros: &Macros,
    uses: &mut KnownUses,
    tags: &mut Tags,
    name: &Text,
    text: &[u8],
    s: S,
) -> Result<S, ReadFault>
    requires { IsSound setting.now.site }
    ensures given { (t : List (List ℕ)) → S.tagged t s tags.old → AreUses setting.now macros.now (S.items (S.seen s)) uses.old
        → SaidGiven S.seen result (words_taken (S.step setting.now t) S.fault (joined_words (words_named macros.now name.now) text.now) (S.seen s)) }
    ensures kept { (t : List (List ℕ)) → S.tagged t s tags.old → IfOk result (λ next. S.tagged t next tags.new) }
    ensures known { AreUses setting.now macros.now (S.items (S.seen s)) uses.old → IfOk result (λ next. AreUses setting.now macros.now (S.items (S.seen next)) uses.new) }
{
    let words = macros.words(name);
    let front = front_words(words);
    let sound = macros.are_sound(name);
    let next = piece_taken(
        alloc,
        setting,
        uses,
        tags,
        Source::Front,
        name,
        front,
        sound,
        s,
    )?;
    last_taken(alloc, setting, uses, tags, words, sound, text, next)
}

/// Takes the words of a macro, the last of which has a text joined to it where one stands behind its name.
fn named_taken<S: TakesWords>(
    alloc: Global,
    setting: &Setting,
    macros: &Macros,
    uses: &mut KnownUses,
    tags: &mut Tags,
    name: &Text,
    text: &[u8],
    s: S,
) -> Result<S, ReadFault>
    requires { IsSound setting.now.site }
    ensures given { (t : List (List ℕ)) → S.tagged t s tags.old → AreUses setting.now macros.now (S.items (S.seen s)) uses.old
        → SaidGiven S.seen result (words_taken (S.step setting.now t) S.fault (joined_words (words_named macros.now name.now) text.now) (S.seen s)) }
    ensures kept { (t : List (List ℕ)) → S.tagged t s tags.old → IfOk result (λ next. S.tagged t next tags.new) }
    ensures known { AreUses setting.now macros.now (S.items (S.seen s)) uses.old → IfOk result (λ next. AreUses setting.now macros.now (S.items (S.seen next)) uses.new) }
{
    nothing_is_joined();
    match text {
        [] => whole_taken(alloc, setting, macros, uses, tags, name, s),
        [_, ..] => joined_taken(alloc, setting, macros, uses, tags, name, text, s),
    }
}

/// Takes the words for which a use of a macro stands: its words, the last of which has a text joined to it.
fn macro_taken<S: TakesWords>(
    alloc: Global,
    setting: &Setting,
    macros: &Macros,
    uses: &mut KnownUses,
    tags: &mut Tags,
    text: &[u8],
    s: S,
) -> Result<S, ReadFault>
    requires { IsSound setting.now.site }
    ensures given { (t : List (List ℕ)) → S.tagged t s tags.old → AreUses setting.now macros.now (S.items (S.seen s)) uses.old
        → SaidGiven S.seen result (words_taken (S.step setting.now t) S.fault (joined_words (words_named macros.now (name_ahead text.now)) (behind_name text.now)) (S.seen s)) }
    ensures kept { (t : List (List ℕ)) → S.tagged t s tags.old → IfOk result (λ next. S.tagged t next tags.new) }
    ensures known { AreUses setting.now macros.now (S.items (S.seen s)) uses.old → IfOk result (λ next. AreUses setting.now macros.now (S.items (S.seen next)) uses.new) }
{
    let (name, behind) = split_name(text);
    let named = Text::of(alloc, name)?;
    named_taken(alloc, setting, macros, uses, tags, &named, behind, s)
}

/// Takes the words for which a word stands that may be a use of a macro without words.
fn replaced_taken<S: TakesWords>(
    alloc: Global,
    setting: &Setting,
    macros: &Macros,
    uses: &mut KnownUses,
    tags: &mut Tags,
    w: &Word,
    s: S,
) -> Result<S, ReadFault>
    requires { IsSound setting.now.site }
    ensures given { (t : List (List ℕ)) → S.tagged t s tags.old → AreUses setting.now macros.now (S.items (S.seen s)) uses.old
        → SaidGiven S.seen result (meant_taken (S.step setting.now t) S.fault (meant macros.now w.now) (S.seen s)) }
    ensures kept { (t : List (List ℕ)) → S.tagged t s tags.old → IfOk result (λ next. S.tagged t next tags.new) }
    ensures known { AreUses setting.now macros.now (S.items (S.seen s)) uses.old → IfOk result (λ next. AreUses setting.now macros.now (S.items (S.seen next)) uses.new) }
{
    match meant(alloc, macros, w) {
        Ok(words) => others_taken(alloc, setting, uses, tags, words.as_slice(), s),
        Err(ReadFault::Bad(cause)) => Err(s.refused(cause)),
        Err(ReadFault::Memory) => Err(ReadFault::Memory),
    }
}

/// Takes the words for which a word stands that is no use of a macro with words.
fn plain_taken<S: TakesWords>(
    alloc: Global,
    setting: &Setting,
    macros: &Macros,
    uses: &mut KnownUses,
    tags: &mut Tags,
    w: &Word,
    s: S,
) -> Result<S, ReadFault>
    requires { IsSound setting.now.site }
    ensures given { (t : List (List ℕ)) → S.tagged t s tags.old → AreUses setting.now macros.now (S.items (S.seen s)) uses.old
        → SaidGiven S.seen result (meant_taken (S.step setting.now t) S.fault (meant macros.now w.now) (S.seen s)) }
    ensures kept { (t : List (List ℕ)) → S.tagged t s tags.old → IfOk result (λ next. S.tagged t next tags.new) }
    ensures known { AreUses setting.now macros.now (S.items (S.seen s)) uses.old → IfOk result (λ next. AreUses setting.now macros.now (S.items (S.seen next)) uses.new) }
{
    if is_use(w) {
        return replaced_taken(alloc, setting, macros, uses, tags, w, s);
    }
    others_taken(alloc, setting, uses, tags, slice::from_ref(w), s)
}

/// Takes the words for which a word stands that can be judged.
fn sound_taken<S: TakesWords>(
    alloc: Global,
    setting: &Setting,
    macros: &Macros,
    uses: &mut KnownUses,
    tags: &mut Tags,
    w: &Word,
    s: S,
) -> Result<S, ReadFault>
    requires { IsSound setting.now.site }
    ensures given { (t : List (List ℕ)) → S.tagged t s tags.old → AreUses setting.now macros.now (S.items (S.seen s)) uses.old
        → SaidGiven S.seen result (meant_taken (S.step setting.now t) S.fault (meant macros.now w.now) (S.seen s)) }
    ensures kept { (t : List (List ℕ)) → S.tagged t s tags.old → IfOk result (λ next. S.tagged t next tags.new) }
    ensures known { AreUses setting.now macros.now (S.items (S.seen s)) uses.old → IfOk result (λ next. AreUses setting.now macros.now (S.items (S.seen next)) uses.new) }
{
    let used = used_text(alloc, macros, w)?;
    match used {
        Some(text) => macro_taken(alloc, setting, macros, uses, tags, text, s),
        None => plain_taken(alloc, setting, macros, uses, tags, w, s),
    }
}

/// Takes the words for which a word stands.
fn raw_taken<S: TakesWords>(
    alloc: Global,
    setting: &Setting,
    macros: &Macros,
    uses: &mut KnownUses,
    tags: &mut Tags,
    w: &Word,
    s: S,
) -> Result<S, ReadFault>
    requires { IsSound setting.now.site }
    ensures given { (t : List (List ℕ)) → S.tagged t s tags.old → AreUses setting.now macros.now (S.items (S.seen s)) uses.old
        → SaidGiven S.seen result (raw_taken (S.step setting.now t) S.fault macros.now w.now (S.seen s)) }
    ensures kept { (t : List (List ℕ)) → S.tagged t s tags.old → IfOk result (λ next. S.tagged t next tags.new) }
    ensures known { AreUses setting.now macros.now (S.items (S.seen s)) uses.old → IfOk result (λ next. AreUses setting.now macros.now (S.items (S.seen next)) uses.new) }
{
    if !w.is_sound() {
        return Err(s.refused(Cause::Syntax));
    }
    sound_taken(alloc, setting, macros, uses, tags, w, s)
}

/// Takes the words of a statement, from left to right.
fn raws_from<S: TakesWords>(
    alloc: Global,
    setting: &Setting,
    macros: &Macros,
    uses: &mut KnownUses,
    tags: &mut Tags,
    words: &[Word],
    s: S,
) -> Result<S, ReadFault>
    requires site { IsSound setting.now.site }
    requires tagged { S.tagged tags.old s tags.old }
    requires known { AreUses setting.now macros.now (S.items (S.seen s)) uses.old }
    ensures given { SaidGiven S.seen result (raws_taken (S.step setting.now tags.old) S.fault macros.now words.now (S.seen s)) }
    ensures kept { IfOk result (λ next. S.tagged tags.old next tags.new) }
{
    let mut next = s;
    for w in words {
        next = raw_taken(alloc, setting, macros, uses, tags, w, next)?;
    }
    Ok(next)
}

/// Takes all words of a statement, of which this stands ahead of the first one.
pub fn raws_taken<S: TakesWords>(
    alloc: Global,
    setting: &Setting,
    macros: &Macros,
    tags: &mut Tags,
    words: &[Word],
    s: S,
) -> Result<S, ReadFault>
    requires site { IsSound setting.now.site }
    requires tagged { S.tagged tags.old s tags.old }
    ensures given { SaidGiven S.seen result (raws_taken (S.step setting.now tags.old) S.fault macros.now words.now (S.seen s)) }
    ensures kept { IfOk result (λ next. S.tagged tags.old next tags.new) }
{
    let mut uses = KnownUses::new(alloc);
    raws_from(alloc, setting, macros, &mut uses, tags, words, s)
}
