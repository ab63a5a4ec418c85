//! What a command answers, before anything is written.

ghost use Rattle.std.specs.Prelude.{◌≡◌, ◌++◌, IfOk};
ghost use Rattle.fws_top.specs.Lines.{line_words, refused_line};

use crate::lines::{chain_words, line_words, refused_line};
use crate::status::Status;
use fws_num::{Memory, Text};
use std::alloc::Global;

/// A status, and the text that is written with it.
#[derive(Drop)]
pub(crate) struct Answer {
    pub(crate) status: Status,
    pub(crate) text: Text,
}

/// Why a step gives no value: the command ends with an answer, or memory ran out.
#[derive(Drop)]
pub(crate) enum Stop {
    Due(Answer),
    Memory,
}

impl From<Memory> for Stop {
    ghost use Rattle.std.specs.Prelude.{◌≡◌};
    ghost use Rattle.fws_top.specs.declared.answer.Stop.TheVariants.{Memory as NoMemory};

    ghost from_gives = { λ _ stop. stop ≡ NoMemory };

    fn from(_e: Memory) -> Stop {
        Stop::Memory
    }
}

/// A status with a text.
pub(crate) fn said(alloc: Global, status: Status, text: &[u8]) -> Result<Answer, Memory>
    ensures { IfOk result (λ answer. (answer.status ≡ status) × (answer.text ≡ text.now)) }
{
    Ok(Answer {
        status,
        text: Text::of(alloc, text)?,
    })
}

/// The refusal of the file with this name, in these words.
pub(crate) fn refused(alloc: Global, name: &[u8], words: &[u8]) -> Result<Answer, Memory>
    ensures { IfOk result (λ answer. (answer.status ≡ Status.Refused) × (answer.text ≡ refused_line name.now words.now)) }
{
    Ok(Answer {
        status: Status::Refused,
        text: refused_line(alloc, name, words)?,
    })
}

/// The refusal of a line of the file with this name, for a cause.
pub(crate) fn refused_for_line(
    alloc: Global,
    name: &[u8],
    line: u32,
    cause: &[u8],
) -> Result<Answer, Memory>
    ensures { IfOk result (λ answer. (answer.status ≡ Status.Refused) × (answer.text ≡ refused_line name.now (line_words line cause.now))) }
{
    let words = line_words(alloc, line, cause)?;
    refused(alloc, name, words.as_slice())
}

/// The refusal of a chain in the file with this name, behind the word that says why.
pub(crate) fn refused_for_chain(
    alloc: Global,
    name: &[u8],
    why: &[u8],
    chain: &[u8],
) -> Result<Answer, Memory>
    ensures { IfOk result (λ answer. (answer.status ≡ Status.Refused) × (answer.text ≡ refused_line name.now (why.now ++ chain.now))) }
{
    let words = chain_words(alloc, why, chain)?;
    refused(alloc, name, words.as_slice())
}
