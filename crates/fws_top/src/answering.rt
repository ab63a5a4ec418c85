//! From the words of a command line to what is answered.

ghost use Rattle.std.specs.Prelude.{◌≡◌, Option, IfOk, IfErr};
ghost use Rattle.fws_top.specs.Answered.{Answered, AnswersWords, GivesAnswer, Stopped};
ghost use Rattle.fws_top.specs.Due.{Contents, Faults};
ghost use Rattle.fws_top.specs.Forms.{IsSpelled, asked};
ghost use Rattle.fws_top.specs.Plan.{Plan, plan_of};

use crate::answer::{Answer, Stop, said};
use crate::commands::{dead, load, query, run, same, second_form, synth, trace, translate, why};
use crate::form::{Form, read_form};
use crate::pages::page;
use crate::status::Status;
use crate::texts::{HELP, USAGE, VERSION};
use fws_io::Shelf;
use fws_num::{Memory, Text};
use std::alloc::Global;

/// The text of a command that went well, or the answer in its place.
fn ended(text: Result<Text, Stop>) -> Result<Answer, Memory>
    ensures { (plan : Plan) (told : Option Contents) (old new : Faults) → IfOk text (Answered plan told old new Status.Ok)
        → IfErr text (Stopped plan told old new) → IfOk result (λ answer. Answered plan told old new answer.status answer.text) }
{
    match text {
        Ok(text) => Ok(Answer {
            status: Status::Ok,
            text,
        }),
        Err(Stop::Due(answer)) => Ok(answer),
        Err(Stop::Memory) => Err(Memory),
    }
}

/// The answer of a command that went well, or the one in its place.
fn answered(answer: Result<Answer, Stop>) -> Result<Answer, Memory>
    ensures { (plan : Plan) (told : Option Contents) (old new : Faults)
        → IfOk answer (λ a. Answered plan told old new a.status a.text)
        → IfErr answer (Stopped plan told old new) → IfOk result (λ a. Answered plan told old new a.status a.text) }
{
    match answer {
        Ok(answer) => Ok(answer),
        Err(Stop::Due(answer)) => Ok(answer),
        Err(Stop::Memory) => Err(Memory),
    }
}

/// What the form of a command line asks for.
fn follow<S: Shelf>(alloc: Global, form: &Form<'_>, shelf: &mut S) -> Result<Answer, Memory>
    requires { IsSpelled form.now }
    ensures same { S.told shelf.new ≡ S.told shelf.old }
    ensures answered { GivesAnswer (plan_of (asked form.now)) S.told S.faults shelf.old shelf.new result }
{
    match *form {
        Form::Unknown => said(alloc, Status::Usage, USAGE),
        Form::Help => said(alloc, Status::Ok, HELP),
        Form::Page(name) => said(alloc, Status::Ok, page(name)),
        Form::Version => said(alloc, Status::Ok, VERSION),
        Form::Synth(lang, site, file, state) => ended(synth(alloc, shelf, lang, site, file, state)),
        Form::Query(lang, site, file, state, asks) => {
            ended(query(alloc, shelf, lang, site, file, state, asks))
        }
        Form::Translate(from, to, site, file) => {
            answered(translate(alloc, shelf, from, to, site, file))
        }
        Form::Trace(lang, site, file, conns, packets) => {
            ended(trace(alloc, shelf, lang, site, file, conns, packets))
        }
        Form::Why(lang, site, file, conns, packets) => {
            ended(why(alloc, shelf, lang, site, file, conns, packets))
        }
        Form::Run(lang, site, file, events) => ended(run(alloc, shelf, lang, site, file, events)),
        Form::Same(lang, site, file, other_lang, other) => {
            ended(same(alloc, shelf, lang, site, file, other_lang, other))
        }
        Form::Dead(lang, site, file) => ended(dead(alloc, shelf, lang, site, file)),
        Form::Load(n) => ended(load(alloc, n)),
        Form::SecondForm(site) => ended(second_form(alloc, shelf, site)),
    }
}

/// The answer to the words.
pub(crate) fn answer_to<S: Shelf>(
    alloc: Global,
    words: &[Text],
    shelf: &mut S,
) -> Result<Answer, Memory>
    ensures same { S.told shelf.new ≡ S.told shelf.old }
    ensures answered { AnswersWords words.now S.told S.faults shelf.old shelf.new result }
{
    let form = read_form(words);
    follow(alloc, &form, shelf)
}
