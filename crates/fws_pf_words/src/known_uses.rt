//! Uses of macros within a value.

ghost use Rattle.std.specs.Prelude.{◌≡◌, ◌≤◌, true, Some, List, length, take, IfOk, OnOk};
ghost use Rattle.fws_net.specs.Routes.{IsSound};
ghost use Rattle.fws_pf.specs.declared.macros.Macro.{Macro as AnyMacro};
ghost use Rattle.fws_pf.specs.declared.value_draft.Item.{Item as AnyItem};
ghost use Rattle.fws_pf.specs.Values.{Setting as AnySetting};
ghost use Rattle.fws_pf_words.specs.Fronts.{within};
ghost use Rattle.fws_pf_words.specs.UsesKnown.{AreUses, ArePiece};

use crate::long_value::LongValue;
use crate::setting::Setting;
use crate::ways::Ways;
use fws_num::{Memory, Text, Word};
use std::alloc::Global;

/// Where words come from.
#[derive(Clone, Copy, Debug, PartialEq, Eq)]
pub enum Source {
    /// They are all words of a macro.
    Whole,
    /// They are all words of a macro but the last one.
    Front,
    /// They stand in the text, or the last of them has a text joined to it.
    Other,
}

/// What uses of macros do in a list, by the names of the macros.
#[derive(Drop)]
pub struct KnownUses {
    /// What all their words do.
    pub wholes: Ways,
    /// What all their words but the last one do.
    pub fronts: Ways,
}

impl KnownUses {
    /// Nothing is known of any use.
    pub fn new(alloc: Global) -> KnownUses
        ensures { (setting : AnySetting) (macros : List AnyMacro) (items : List AnyItem) → AreUses setting macros items result }
    {
        KnownUses {
            wholes: Ways::new(alloc),
            fronts: Ways::new(alloc),
        }
    }

    /// Whether nothing is known of any use.
    fn knows_none(&self) -> bool
        ensures { result ≡ true → (setting : AnySetting) (macros : List AnyMacro) (items : List AnyItem) → AreUses setting macros items self.now }
    {
        if self.wholes.is_empty() {
            return self.fronts.is_empty();
        }
        false
    }

    /// Forgets what is known.
    pub fn forget(&mut self, alloc: Global)
        ensures { (setting : AnySetting) (macros : List AnyMacro) (items : List AnyItem) → AreUses setting macros items self.new }
    {
        if self.knows_none() {
            return;
        }
        *self = KnownUses::new(alloc);
    }

    /// Takes words that belong to a value and don't end it, up to the first other word, and tells how many. Words of a macro
    /// that were taken from the same place before take no longer for being many.
    pub fn take(
        &mut self,
        alloc: Global,
        setting: &Setting,
        source: Source,
        name: &Text,
        words: &[Word],
        value: &mut LongValue,
    ) -> Result<usize, Memory>
        requires { IsSound setting.now.site }
        ensures few { IfOk result (λ n. n ≤ length words.now) }
        ensures taken { (macros : List AnyMacro) → ArePiece macros source name.now words.now → AreUses setting.now macros value.old.items self.old
            → IfOk result (λ n. within setting.now (take n words.now) value.old ≡ Some value.new) }
        ensures known { (macros : List AnyMacro) → ArePiece macros source name.now words.now → AreUses setting.now macros value.old.items self.old
            → OnOk result (AreUses setting.now macros value.new.items self.new) }
    {
        match source {
            Source::Whole => {
                let n = self.wholes.take(alloc, setting, name, words, value)?;
                Ok(n)
            }
            Source::Front => {
                let n = self.fronts.take(alloc, setting, name, words, value)?;
                Ok(n)
            }
            Source::Other => {
                let n = value.words_within(alloc, setting, words)?;
                Ok(n)
            }
        }
    }
}
