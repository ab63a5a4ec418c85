//! Lists of what the lines of a text spell.

ghost use Rattle.std.specs.Prelude.{◌≡◌, ℕ, [], Option, Ok, List, MatchResult};
ghost use Rattle.fws_num.specs.declared.comments.Comments.TheVariants.{HashLine};
ghost use Rattle.fws_num.specs.declared.word.Word.{Word};
ghost use Rattle.fws_net.specs.Reading.{ReadGiven, StepGiven, text_read};
ghost use Rattle.fws_trace.specs.Lines.{IsGiven, text_listed, with_spelled, line_step};

use crate::answer::{LineAnswer, Malformed, line_answer};
use fws_net::{LineFault, TextAnswer};
use fws_num::Items;

/// Puts what a line spells behind the others, if it spells something.
pub fn put_spelled<T: Drop>(
    list: &mut Items<T>,
    spelled: Option<T>,
) -> Result<(), LineFault<Malformed>>
    ensures { StepGiven result list.new (with_spelled list.old spelled) }
{
    match spelled {
        Some(value) => {
            list.put(value)?;
            Ok(())
        }
        None => Err(LineFault::Bad(Malformed)),
    }
}

/// What was read of a text line by line, as a list or the first line that spells none.
pub fn listed<T: Drop>(read: Result<Items<T>, TextAnswer<Malformed>>) -> Result<Vec<T>, LineAnswer>
    ensures { (spelled : List Word → Option T) (text : List ℕ) → ReadGiven read (text_read HashLine (line_step spelled) (λ xs. Ok xs) [] text)
        → MatchResult result (λ list. text_listed spelled text ≡ Ok list.items) (λ answer. IsGiven answer (text_listed spelled text)) }
{
    match read {
        Ok(list) => Ok(list.into_vec()),
        Err(answer) => Err(line_answer(answer)),
    }
}
