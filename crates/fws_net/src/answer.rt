//! Why a text is refused, for each kind of text with causes of its own.

ghost use Rattle.std.specs.Prelude.{◌≡◌};

use fws_num::Memory;
use std::fmt::Debug;
use thiserror::Error;

/// Why a text gives no value.
#[derive(Debug, Drop, Error)]
pub enum TextAnswer<C: Debug> {
    /// The first bad line, counted from 1, and what is wrong with it.
    #[error("line {line} is refused: {cause:?}")]
    Refused {
        /// The number of the line. At the end of the text it is the number of lines plus one.
        line: u32,
        /// What is wrong.
        cause: C,
    },
    /// Memory was wanting.
    #[error("out of memory")]
    Memory,
}

impl<C: Debug> From<Memory> for TextAnswer<C> {
    ghost use Rattle.std.specs.Prelude.{◌≡◌};
    ghost use Rattle.fws_net.specs.declared.answer.TextAnswer.TheVariants as answers;

    ghost from_gives = { λ _ r. r ≡ answers.Memory };

    fn from(_e: Memory) -> TextAnswer<C> {
        TextAnswer::Memory
    }
}

/// What is wrong with a word or a line, or that memory ran out.
#[derive(Debug, Drop)]
pub enum LineFault<C> {
    /// What is wrong.
    Bad(C),
    /// Memory was wanting.
    Memory,
}

impl<C: Debug + Drop> LineFault<C> {
    /// The fault at the line of this number.
    pub fn at(self, line: u32) -> TextAnswer<C>
        ensures bad { (cause : C) → self ≡ LineFault.Bad cause → result ≡ TextAnswer.Refused line cause }
        ensures memory { self ≡ LineFault.Memory → result ≡ TextAnswer.Memory }
    {
        match self {
            LineFault::Bad(cause) => TextAnswer::Refused { line, cause },
            LineFault::Memory => TextAnswer::Memory,
        }
    }
}

impl<C> From<Memory> for LineFault<C> {
    ghost use Rattle.std.specs.Prelude.{◌≡◌};
    ghost use Rattle.fws_net.specs.declared.answer.LineFault.TheVariants as faults;

    ghost from_gives = { λ _ r. r ≡ faults.Memory };

    fn from(_e: Memory) -> LineFault<C> {
        LineFault::Memory
    }
}
