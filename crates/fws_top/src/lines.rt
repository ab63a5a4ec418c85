//! The lines that a command answers with where it has no table.

ghost use Rattle.std.specs.Prelude.{◌≡◌, [], ◌++◌, codes, IfOk, OnOk};
ghost use Rattle.std.specs.Option.{option_map_or};
ghost use Rattle.fws_top.specs.Lines.{site_cause_text, cause_text, line_words, refused_line, cannot_read_line};
ghost use Rattle.fws_top.specs.Translations.{pair_text, target_word, breach_line};

use crate::lang::TargetLang;
use fws_dead::put_pair_words;
use fws_net::{Cause, Site, SiteCause};
use fws_num::{Memory, Text, put_dec};
use fws_place::{Breach, Pair};
use std::alloc::Global;

pub(crate) fn site_cause_text(cause: SiteCause) -> &'static [u8]
    ensures { result.now ≡ site_cause_text cause }
{
    match cause {
        SiteCause::Syntax => b"syntax",
        SiteCause::Overlap => b"overlap",
        SiteCause::Names => b"names",
        SiteCause::Count => b"count",
    }
}

pub(crate) fn cause_text(cause: Cause) -> &'static [u8]
    ensures { result.now ≡ cause_text cause }
{
    match cause {
        Cause::Syntax => b"syntax",
        Cause::LeftOut => b"left-out",
        Cause::NoInterface => b"no-interface",
        Cause::NoName => b"no-name",
        Cause::Backward => b"backward",
        Cause::Shape => b"shape",
        Cause::Expand => b"expand",
    }
}

/// What is said of a line that is refused for a cause.
pub(crate) fn line_words(alloc: Global, line: u32, cause: &[u8]) -> Result<Text, Memory>
    ensures { IfOk result (λ words. words ≡ line_words line cause.now) }
{
    let mut words = Text::new(alloc);
    words.put(b"line ")?;
    put_dec(&mut words, u64::from(line))?;
    words.put(b" ")?;
    words.put(cause)?;
    Ok(words)
}

/// What is said of a chain, behind words that say why.
pub(crate) fn chain_words(alloc: Global, why: &[u8], chain: &[u8]) -> Result<Text, Memory>
    ensures { IfOk result (λ words. words ≡ why.now ++ chain.now) }
{
    let mut words = Text::new(alloc);
    words.put(why)?;
    words.put(chain)?;
    Ok(words)
}

/// The refusal of the file with this name.
pub(crate) fn refused_line(alloc: Global, name: &[u8], words: &[u8]) -> Result<Text, Memory>
    ensures { IfOk result (λ line. line ≡ refused_line name.now words.now) }
{
    let mut out = Text::new(alloc);
    out.put(b"refused ")?;
    out.put(name)?;
    out.put(b" ")?;
    out.put(words)?;
    out.put(b"\n")?;
    Ok(out)
}

/// What is written where a file can't be read.
pub(crate) fn cannot_read_line(alloc: Global, name: &[u8]) -> Result<Text, Memory>
    ensures { IfOk result (λ line. line ≡ cannot_read_line name.now) }
{
    let mut out = Text::new(alloc);
    out.put(b"cannot read ")?;
    out.put(name)?;
    out.put(b"\n")?;
    Ok(out)
}

/// Appends the words of a packet, with the ends of its connection where it has one.
fn put_pair(out: &mut Text, site: &Site, pair: &Pair) -> Result<(), Memory>
    ensures { OnOk result (out.new ≡ out.old ++ pair_text site.now pair.now) }
{
    put_pair_words(out, site, pair.packet, pair.rec)
}

/// Appends the second of the packets that are named, where there is one.
fn put_second(out: &mut Text, site: &Site, second: &Option<Pair>) -> Result<(), Memory>
    ensures { OnOk result (out.new ≡ out.old ++ option_map_or (λ pair. codes " with " ++ pair_text site.now pair) second.now []) }
{
    match second {
        None => Ok(()),
        Some(pair) => {
            out.put(b" with ")?;
            put_pair(out, site, pair)
        }
    }
}

pub(crate) fn target_word(target: TargetLang) -> &'static [u8]
    ensures { result.now ≡ target_word target }
{
    match target {
        TargetLang::Iptables => b"iptables",
        TargetLang::Ipfw => b"ipfw",
        TargetLang::Pf => b"pf",
        TargetLang::Ios => b"ios",
    }
}

/// What is said where the system can't hold a policy: by which clause, and which packets show so.
pub(crate) fn breach_line(
    alloc: Global,
    target: TargetLang,
    site: &Site,
    breach: &Breach,
) -> Result<Text, Memory>
    ensures { IfOk result (λ line. line ≡ breach_line target site.now breach.now) }
{
    let mut out = Text::new(alloc);
    out.put(b"not placeable on ")?;
    out.put(target_word(target))?;
    out.put(b" clause ")?;
    put_dec(&mut out, u64::from(breach.clause.number()))?;
    out.put(b": ")?;
    put_pair(&mut out, site, &breach.first)?;
    put_second(&mut out, site, &breach.second)?;
    out.put(b"\n")?;
    Ok(out)
}
