//! Statements that are read word by word.

ghost use Rattle.std.specs.Prelude.{◌≡◌, ℕ, ◌≤◌, true, Ok, List, length, take, IfOk};
ghost use Rattle.fws_num.specs.declared.word.Word.{Word as AnyWord};
ghost use Rattle.fws_net.specs.declared.answer.LineFault.TheVariants.{Bad};
ghost use Rattle.fws_net.specs.Routes.{IsSound};
ghost use Rattle.fws_pf.specs.declared.macros.Macro.{Macro as AnyMacro};
ghost use Rattle.fws_pf.specs.Values.{Setting as AnySetting};
ghost use Rattle.fws_pf_words.specs.UsesKnown.{AreUses, ArePiece};
ghost use Rattle.fws_pf_read.specs.Taking.{SaidGiven, words_taken};

use fws_net::{Cause, ReadFault};
use fws_num::{Memory, Text, Word};
use fws_pf_words::{KnownUses, Setting, Source, Tags};
use std::alloc::Global;

/// A statement that is read word by word. A rule among them has the tags of the text, until the statement ends.
pub trait TakesWords: Sized + Drop {
    /// The statement as contracts see it.
    type Said;

    ghost use Rattle.std.specs.Prelude.{ℕ, Result, List};
    ghost use Rattle.fws_num.specs.declared.word.Word.{Word};
    ghost use Rattle.fws_net.specs.declared.cause.Cause.{Cause};
    ghost use Rattle.fws_pf.specs.declared.value_draft.Item.{Item};
    ghost use Rattle.fws_pf.specs.Values.{Setting};

    // What was read so far.
    ghost seen: { Self → Self.Said };

    // What a word makes of it, in a text that has had these tags.
    ghost step: { Setting → List (List ℕ) → Word → Self.Said → Result Self.Said Cause };

    // Why a word is refused that can't be judged, or whose macro isn't there.
    ghost fault: { Self.Said → Cause → Cause };

    // The values so far of the list at which it is.
    ghost items: { Self.Said → List Item };

    // The first are the tags of the text, of which the second are left, unless a rule has them.
    ghost tagged: { List (List ℕ) → Self → List (List ℕ) → Type 0 };

    /// Takes a word.
    fn step(
        self,
        alloc: Global,
        setting: &Setting,
        tags: &mut Tags,
        w: &Word,
    ) -> Result<Self, ReadFault>
        requires { IsSound setting.now.site }
        ensures given { (t : List (List ℕ)) → tagged t self tags.old → SaidGiven seen result (step setting.now t w.now (seen self)) }
        ensures kept { (t : List (List ℕ)) → tagged t self tags.old → IfOk result (λ next. tagged t next tags.new) };

    /// Takes words that belong to the value at which it is and don't end it, up to the first other word, and tells how many.
    fn take_within(
        self,
        alloc: Global,
        setting: &Setting,
        uses: &mut KnownUses,
        source: Source,
        name: &Text,
        words: &[Word],
    ) -> Result<(Self, usize), Memory>
        requires { IsSound setting.now.site }
        ensures few { IfOk result (λ r. r.1 ≤ length words.now) }
        ensures taken { (macros : List AnyMacro) → ArePiece macros source name.now words.now → AreUses setting.now macros (items (seen self)) uses.old
            → IfOk result (λ r. (t : List (List ℕ)) → words_taken (step setting.now t) fault (take r.1 words.now) (seen self) ≡ Ok (seen r.0)) }
        ensures known { (macros : List AnyMacro) → ArePiece macros source name.now words.now → AreUses setting.now macros (items (seen self)) uses.old
            → IfOk result (λ r. AreUses setting.now macros (items (seen r.0)) uses.new) }
        ensures kept { IfOk result (λ r. (t k : List (List ℕ)) → tagged t self k → tagged t r.0 k) };

    /// Refuses a word that can't be judged, or whose macro isn't there, and with it the statement.
    fn refused(self, cause: Cause) -> ReadFault
        ensures { result ≡ Bad (fault (seen self) cause) };

    /// Whether words that can be judged change nothing any more.
    fn is_idle(&self) -> bool
        ensures { result ≡ true → (setting : AnySetting) (t : List (List ℕ)) (w : AnyWord) → step setting t w (seen self.now) ≡ Ok (seen self.now) };

    /// Whether it is within a list, in which uses of macros may come again.
    fn is_in_list(&self) -> bool;
}
