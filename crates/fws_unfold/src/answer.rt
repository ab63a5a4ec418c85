//! Why a diagram isn't unfolded.

ghost use Rattle.std.specs.Prelude.{◌≡◌};
ghost use Rattle.fws_unfold.specs.declared.answer.UnfoldAnswer.TheVariants as answers;

use fws_num::Memory;
use thiserror::Error;

/// Why a diagram isn't unfolded, with the number of the chain that shows it.
#[derive(Clone, Copy, Debug, PartialEq, Eq, Error)]
pub enum UnfoldAnswer {
    /// The chain is the first that reaches itself by calls and gotos.
    #[error("chain {0} reaches itself")]
    Loop(u32),
    /// No chain reaches itself, and the chain is the first of a stage at which a path of more than 64
    /// chains begins.
    #[error("a path of more than 64 chains begins at chain {0}")]
    Deep(u32),
    /// Neither is so, and with the chain the unfolded rules pass 1,000,000.
    #[error("with chain {0} the unfolded rules pass 1,000,000")]
    Long(u32),
    /// Memory or numbers for chains, rules and instructions ran out.
    #[error("out of memory")]
    Memory,
}

impl From<Memory> for UnfoldAnswer {
    ghost from_gives = { λ _ e. e ≡ answers.Memory };

    fn from(_e: Memory) -> UnfoldAnswer {
        UnfoldAnswer::Memory
    }
}
