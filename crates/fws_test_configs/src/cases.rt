//! Cases, a line each: calls that must give values, texts and sites that must be accepted, or refused at a line for a cause.

ghost use Rattle.fws_net.specs.Routes.{IsSound};

use crate::calls::{Subject, gives_so};
use crate::found::put_unescaped;
use crate::languages::Language;
use crate::numbers::decimal;
use crate::sites::is_site_so;
use crate::stop::Stop;
use crate::tally::Tally;
use fws_net::{Cause, ReadAnswer, Site, read_site};
use fws_num::{Text, split_once, value_named};
use std::alloc::Global;

/// The names of causes; none for a case that is accepted.
const CAUSES: [(&[u8], Option<Cause>); 8] = [
    (b"accepted", None),
    (b"syntax", Some(Cause::Syntax)),
    (b"left-out", Some(Cause::LeftOut)),
    (b"no-interface", Some(Cause::NoInterface)),
    (b"no-name", Some(Cause::NoName)),
    (b"backward", Some(Cause::Backward)),
    (b"shape", Some(Cause::Shape)),
    (b"expand", Some(Cause::Expand)),
];

/// What a case is read with: its language, and the bytes that stand around its text.
#[derive(Clone, Copy)]
struct Around<'a> {
    language: Language,
    before: &'a [u8],
    behind: &'a [u8],
}

/// What cases are tried on.
#[derive(Clone, Copy)]
enum Trial<'a> {
    /// Calls.
    Calls(Subject),
    /// Texts of a language.
    Texts(Around<'a>),
    /// Changes of the text of a site.
    Sites(&'a [u8]),
}

/// What stands behind each case of lines: the end of the table that iptables opened.
fn closing(language: Language) -> &'static [u8] {
    match language {
        Language::Iptables => b"\nCOMMIT\n",
        Language::Ipfw | Language::Pf | Language::Ios => b"\n",
    }
}

/// Whether reading the text gives this cause at this line, or a configuration where there is no cause.
fn reads_so(
    alloc: Global,
    site: &Site,
    language: Language,
    text: &Text,
    cause: Option<Cause>,
    line: u32,
) -> Result<bool, Stop>
    requires { IsSound site.now }
{
    match language.try_text(alloc, site, text.as_slice()) {
        Ok(()) => Ok(cause.is_none()),
        Err(ReadAnswer::Memory) => Err(Stop::Memory),
        Err(
            ReadAnswer::Refused {
                line: at,
                cause: found,
            },
        ) => Ok(cause == Some(found) && at == line),
    }
}

/// The text of a case, with the bytes around it.
fn text_of(alloc: Global, around: &Around, escaped: &[u8]) -> Result<Text, Stop> {
    let mut text = Text::of(alloc, around.before)?;
    put_unescaped(&mut text, escaped)?;
    text.put(around.behind)?;
    Ok(text)
}

/// Whether a case `CAUSE LINE TEXT` reads as it says.
fn is_text_so(alloc: Global, site: &Site, around: &Around, case: &[u8]) -> Result<bool, Stop>
    requires { IsSound site.now }
{
    let Some((cause, rest)) = split_once(case, b' ') else {
        return Err(Stop::Malformed);
    };
    let Some((line, escaped)) = split_once(rest, b' ') else {
        return Err(Stop::Malformed);
    };
    let Some(cause) = value_named(&CAUSES, cause) else {
        return Err(Stop::Malformed);
    };
    let line = decimal(line)?;
    let text = text_of(alloc, around, escaped)?;
    reads_so(alloc, site, around.language, &text, cause, line)
}

/// Whether a case is so.
fn is_so(alloc: Global, site: &Site, trial: &Trial, case: &[u8]) -> Result<bool, Stop>
    requires { IsSound site.now }
{
    match trial {
        Trial::Calls(subject) => gives_so(alloc, site, *subject, case),
        Trial::Texts(around) => is_text_so(alloc, site, around, case),
        Trial::Sites(base) => is_site_so(alloc, base, case),
    }
}

/// Counts the cases that are so.
fn count_cases(
    alloc: Global,
    site: &Site,
    trial: &Trial,
    tally: &mut Tally,
    cases: &[u8],
) -> Result<(), Stop>
    requires { IsSound site.now }
{
    for case in cases.split(|c: &u8| *c == b'\n') {
        if !case.is_empty() {
            tally.count(is_so(alloc, site, trial, case)?);
        }
    }
    Ok(())
}

/// Tries each case of a text, and says how many agree; the others are named by their numbers.
fn judge(alloc: Global, site: &Site, trial: &Trial, cases: &[u8]) -> Result<Text, Stop>
    requires { IsSound site.now }
{
    let mut tally = Tally::new();
    count_cases(alloc, site, trial, &mut tally, cases)?;
    Ok(tally.said(alloc)?)
}

/// Tries calls.
pub fn judge_calls(alloc: Global, site: &Site, subject: Subject, cases: &[u8]) -> Result<Text, Stop>
    requires { IsSound site.now }
{
    judge(alloc, site, &Trial::Calls(subject), cases)
}

/// Asks the site of a text what each case says.
pub fn judge_saying(alloc: Global, text: &[u8], cases: &[u8]) -> Result<Text, Stop> {
    match read_site(alloc, text) {
        Ok(site) => judge_calls(alloc, &site, Subject::Saying, cases),
        Err(_) => Err(Stop::Malformed),
    }
}

/// Reads the text of a site after the edits of each case.
pub fn judge_sites(alloc: Global, site: &Site, base: &[u8], cases: &[u8]) -> Result<Text, Stop>
    requires { IsSound site.now }
{
    judge(alloc, site, &Trial::Sites(base), cases)
}

/// Reads each case as lines behind an opening.
pub fn judge_lines(
    alloc: Global,
    site: &Site,
    language: Language,
    opening: &[u8],
    cases: &[u8],
) -> Result<Text, Stop>
    requires { IsSound site.now }
{
    let around = Around {
        language,
        before: opening,
        behind: closing(language),
    };
    judge(alloc, site, &Trial::Texts(around), cases)
}

/// Reads each case as a whole text.
pub fn judge_texts(
    alloc: Global,
    site: &Site,
    language: Language,
    cases: &[u8],
) -> Result<Text, Stop>
    requires { IsSound site.now }
{
    let around = Around {
        language,
        before: b"",
        behind: b"",
    };
    judge(alloc, site, &Trial::Texts(around), cases)
}
