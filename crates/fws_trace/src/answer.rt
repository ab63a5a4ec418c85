//! Why a text of connections or packets is refused.

ghost use Rattle.std.specs.Prelude.{◌≡◌, ℕ};

use fws_net::TextAnswer;
use fws_num::Memory;
use thiserror::Error;

/// Why a text gives no connections or packets.
#[derive(Debug, Drop, Error)]
pub enum LineAnswer {
    /// The first line that spells none.
    #[error("line {line} is refused")]
    Refused {
        /// The number of the line, counted from 1.
        line: u32,
    },
    /// Memory was wanting.
    #[error("out of memory")]
    Memory,
}

/// A line that spells none: the one thing that can be wrong with it.
#[derive(Clone, Copy, Debug, PartialEq, Eq)]
pub struct Malformed;

impl From<Memory> for LineAnswer {
    ghost use Rattle.std.specs.Prelude.{◌≡◌};
    ghost use Rattle.fws_trace.specs.declared.answer.LineAnswer.TheVariants as answers;

    ghost from_gives = { λ _ r. r ≡ answers.Memory };

    fn from(_e: Memory) -> LineAnswer {
        LineAnswer::Memory
    }
}

/// The answer without the cause, which is always the same.
pub(crate) fn line_answer(answer: TextAnswer<Malformed>) -> LineAnswer
    ensures refused { (line : ℕ) (cause : Malformed) → answer ≡ TextAnswer.Refused line cause → result ≡ LineAnswer.Refused line }
    ensures memory { answer ≡ TextAnswer.Memory → result ≡ LineAnswer.Memory }
{
    match answer {
        TextAnswer::Refused { line, .. } => LineAnswer::Refused { line },
        TextAnswer::Memory => LineAnswer::Memory,
    }
}
