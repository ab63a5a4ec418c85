//! Notes in the texts of translations: what their rules come from, and what of the source doesn't carry over. No clause speaks of
//! them: a text with notes is checked once more, with them.

ghost use Rattle.fws_net.specs.Routes.{IsSound};

use crate::answer::Stop;
use crate::lang::{SourceLang, TargetLang};
use crate::placed::{PlacedCode, placed_code, take_placed};
use crate::source::Source;
use crate::steps::judge_placed_code;
use fws_flat::Flat;
use fws_net::{Lang, ReadAnswer, Site};
use fws_notes::{Evidence, Losses, Told, losses_of, noted, remarks};
use fws_num::{Memory, Text};
use fws_tree::Tables;
use std::alloc::Global;

/// How many instructions the code of a source has at most, so that it is asked for its rules.
const MOST_CODE: usize = 100_000;

/// What is known of a source besides what it does.
#[derive(Drop)]
pub(crate) struct Origin {
    /// What doesn't carry over.
    pub(crate) losses: Losses,
    /// Code with its rules, where its language has labels for them.
    code: Option<PlacedCode>,
    /// What is said of the rules, by their numbers.
    remarks: Vec<Text>,
}

/// The language of a source, of which both dialects of pf lose the same.
fn source_lang(lang: SourceLang) -> Lang {
    match lang {
        SourceLang::Iptables => Lang::Iptables,
        SourceLang::Ipfw => Lang::Ipfw,
        SourceLang::Pf => Lang::Pf,
        SourceLang::Ios => Lang::Ios,
        SourceLang::Openbsd => Lang::Pf,
    }
}

/// The language of a target.
pub(crate) fn target_lang(lang: TargetLang) -> Lang {
    match lang {
        TargetLang::Iptables => Lang::Iptables,
        TargetLang::Ipfw => Lang::Ipfw,
        TargetLang::Pf => Lang::Pf,
        TargetLang::Ios => Lang::Ios,
    }
}

/// The code, unless a text is refused or none of its rules has a label.
fn unless_refused(code: Result<PlacedCode, Stop>) -> Result<Option<PlacedCode>, Memory> {
    match code {
        Ok(code) => Ok(if code.labels.is_empty() {
            None
        } else {
            Some(code)
        }),
        Err(Stop::Memory) => Err(Memory),
        Err(Stop::Due(_)) => Ok(None),
    }
}

/// The code of a source with its rules, unless it is very long.
fn source_code(
    alloc: Global,
    lang: SourceLang,
    site: &Site,
    bytes: &[u8],
    code: &Flat,
) -> Result<Option<PlacedCode>, Memory>
    requires { IsSound site.now }
{
    if code.code.len() > MOST_CODE {
        return Ok(None);
    }
    unless_refused(judge_placed_code(alloc, lang, site, b"", bytes))
}

/// What is said of the rules of code, by a text of a language.
fn remarks_of(
    alloc: Global,
    lang: Lang,
    bytes: &[u8],
    code: &Option<PlacedCode>,
) -> Result<Vec<Text>, Memory> {
    match code {
        Some(code) => remarks(alloc, lang, bytes, code.labels.as_slice()),
        None => Ok(Vec::new(alloc)),
    }
}

/// What is known of the source in the bytes besides what it does, which is what the code does.
pub(crate) fn origin_of(
    alloc: Global,
    from: SourceLang,
    site: &Site,
    bytes: &[u8],
    code: &Flat,
) -> Result<Origin, Memory>
    requires { IsSound site.now }
{
    let lang = source_lang(from);
    let losses = losses_of(alloc, site, lang, bytes)?;
    let code = source_code(alloc, from, site, bytes, code)?;
    let remarks = remarks_of(alloc, lang, bytes, &code)?;
    Ok(Origin {
        losses,
        code,
        remarks,
    })
}

/// Code and its rules, as notes take them.
fn told(code: &PlacedCode) -> Told<'_> {
    Told {
        code: &code.flat,
        from: code.from.as_slice(),
        spots: code.spots.as_slice(),
        labels: code.labels.as_slice(),
    }
}

/// The labels of the rules of a source.
fn labels(origin: &Origin) -> &[Text] {
    match &origin.code {
        Some(code) => code.labels.as_slice(),
        None => &[],
    }
}

/// Which rules of a source decide at points of its tables.
pub(crate) fn evidence_of<'a>(
    alloc: Global,
    site: &Site,
    policy: &Tables,
    origin: &'a Origin,
) -> Result<Evidence<'a>, Memory>
    requires { IsSound site.now }
{
    match &origin.code {
        Some(code) => fws_notes::evidence_of(alloc, site, policy, told(code)),
        None => Ok(Evidence::none(alloc)),
    }
}

/// The code of a diagram in which rules have places, or why there is none.
fn code_of<L: Source>(alloc: Global, site: &Site, text: &[u8]) -> Result<PlacedCode, Stop>
    requires { IsSound site.now }
{
    let placed = take_placed::<L>(alloc, site, b"", text)?;
    placed_code(alloc, b"", placed)
}

/// Whether a text spells a configuration.
fn is_read<L: Source>(alloc: Global, site: &Site, text: &[u8]) -> Result<bool, Memory>
    requires { IsSound site.now }
{
    match L::read(alloc, text, site) {
        Ok(_) => Ok(true),
        Err(ReadAnswer::Refused { .. }) => Ok(false),
        Err(ReadAnswer::Memory) => Err(Memory),
    }
}

/// The text with notes.
fn put_notes<L: Source>(
    alloc: Global,
    site: &Site,
    target: TargetLang,
    origin: &Origin,
    evidence: &Evidence,
    text: &[u8],
) -> Result<Text, Memory>
    requires { IsSound site.now }
{
    let code = unless_refused(code_of::<L>(alloc, site, text))?;
    let source = fws_notes::Source {
        losses: &origin.losses,
        labels: labels(origin),
        remarks: origin.remarks.as_slice(),
    };
    let lang = target_lang(target);
    match &code {
        Some(code) => noted(
            alloc,
            site,
            lang,
            text,
            &source,
            Some(&told(code)),
            evidence,
        ),
        None => noted(alloc, site, lang, text, &source, None, evidence),
    }
}

/// A suggested text with notes, where it is read with them, too, and else the text itself.
pub(crate) fn with_notes<L: Source>(
    alloc: Global,
    site: &Site,
    target: TargetLang,
    origin: &Origin,
    evidence: &Evidence,
    text: Text,
) -> Result<Text, Memory>
    requires { IsSound site.now }
{
    let longer = put_notes::<L>(alloc, site, target, origin, evidence, text.as_slice())?;
    if is_read::<L>(alloc, site, longer.as_slice())? {
        Ok(longer)
    } else {
        Ok(text)
    }
}
