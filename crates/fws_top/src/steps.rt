//! The steps of commands: files that are read and judged.

ghost use Rattle.std.specs.Prelude.{◌≡◌, ◌≤◌, All, true, IfOk, IfErr, OnOk};
ghost use Rattle.fws_events.specs.EventText.{events_of};
ghost use Rattle.fws_events.specs.Runs.{IsEventOf};
ghost use Rattle.fws_net.specs.Routes.{IsSound};
ghost use Rattle.fws_net.specs.SiteLaws.{IsRead};
ghost use Rattle.fws_net.specs.SiteText.{site_of};
ghost use Rattle.fws_top.specs.Asks.{are_known};
ghost use Rattle.fws_top.specs.Codes.{IsCode, IsTakenCode};
ghost use Rattle.fws_top.specs.Judged.{judge};
ghost use Rattle.fws_top.specs.PlacedCodes.{IsPlaced, IsPlacedCode, IsTakenPlaced, IsTakenPlacedCode};
ghost use Rattle.fws_top.specs.Plan.{file_plan, site_plan, source_plan, conns_plan, packets_plan, events_plan, spelled_site, judged, listed};
ghost use Rattle.fws_top.specs.Plan.{load_site_plan, load_text_plan};
ghost use Rattle.fws_top.specs.Steps.{AsksStopped, Chooses, EndsIn, GoesOn, StopsAt};
ghost use Rattle.fws_trace.specs.ConnectionText.{conns_of};
ghost use Rattle.fws_trace.specs.PacketText.{packets_of, IsOfSite};

use crate::answer::{Answer, Stop, refused, refused_for_line, said};
use crate::ask::are_known;
use crate::ios::Ios;
use crate::ipfw::Ipfw;
use crate::iptables::Iptables;
use crate::lang::SourceLang;
use crate::lines::{cannot_read_line, site_cause_text};
use crate::openbsd::Openbsd;
use crate::pf::Pf;
use crate::placed::{Placed, PlacedCode, placed_code, take_placed};
use crate::policy::{PolicyCode, take_policy};
use crate::status::Status;
use crate::texts::{FILE_LIMIT, USAGE};
use fws_events::{Event, read_events};
use fws_io::{Shelf, ShelfAnswer};
use fws_load::{load_site, load_text};
use fws_net::{Conn, Packet, Site, SiteAnswer, read_site};
use fws_num::Text;
use fws_trace::{LineAnswer, read_conns, read_packets};
use std::alloc::Global;

/// The bytes of a file. A file with a fault is a read fault, and one past the limit is refused.
fn take<S: Shelf>(alloc: Global, shelf: &mut S, name: &[u8]) -> Result<Text, Stop>
    ensures same { S.told shelf.new ≡ S.told shelf.old }
    ensures quiet { OnOk result (S.faults shelf.new ≡ S.faults shelf.old) }
    ensures goes_on { IfOk result (λ text. GoesOn (file_plan name.now) (S.told shelf.old) text) }
    ensures stopped { IfErr result (StopsAt (file_plan name.now) (S.told shelf.old) (S.faults shelf.old) (S.faults shelf.new)) }
{
    match shelf.read(alloc, name, FILE_LIMIT) {
        Ok(text) => Ok(text),
        Err(ShelfAnswer::Memory) => Err(Stop::Memory),
        Err(ShelfAnswer::Failed) => Err(Stop::Due(Answer {
            status: Status::ReadFault,
            text: cannot_read_line(alloc, name)?,
        })),
        Err(ShelfAnswer::TooLong(_)) => Err(Stop::Due(refused(
            alloc,
            name,
            b"over 4194304 bytes",
        )?)),
    }
}

/// The site that the bytes spell, or its refusal.
fn judge_site(alloc: Global, name: &[u8], bytes: &[u8]) -> Result<Site, Stop>
    ensures sound { IfOk result IsSound }
    ensures read { IfOk result IsRead }
    ensures chooses { IfOk result (λ site. Chooses (spelled_site name.now (site_of bytes.now)) site) }
    ensures refused { IfErr result (EndsIn (spelled_site name.now (site_of bytes.now))) }
{
    match read_site(alloc, bytes) {
        Ok(site) => Ok(site),
        Err(SiteAnswer::Memory) => Err(Stop::Memory),
        Err(SiteAnswer::Refused { line, cause }) => Err(Stop::Due(refused_for_line(
            alloc,
            name,
            line,
            site_cause_text(cause),
        )?)),
    }
}

/// The site of a file.
pub(crate) fn take_site<S: Shelf>(alloc: Global, shelf: &mut S, name: &[u8]) -> Result<Site, Stop>
    ensures same { S.told shelf.new ≡ S.told shelf.old }
    ensures quiet { OnOk result (S.faults shelf.new ≡ S.faults shelf.old) }
    ensures sound { IfOk result IsSound }
    ensures read { IfOk result IsRead }
    ensures goes_on { IfOk result (λ site. GoesOn (site_plan name.now) (S.told shelf.old) site) }
    ensures stopped { IfErr result (StopsAt (site_plan name.now) (S.told shelf.old) (S.faults shelf.old) (S.faults shelf.new)) }
{
    let bytes = take(alloc, shelf, name)?;
    judge_site(alloc, name, bytes.as_slice())
}

/// What is made of the configuration that the bytes spell in a language, or its refusal.
fn judge_source(
    alloc: Global,
    lang: SourceLang,
    site: &Site,
    name: &[u8],
    bytes: &[u8],
) -> Result<PolicyCode, Stop>
    requires { IsSound site.now }
    ensures code { IfOk result (IsCode (judged name.now (judge lang site.now bytes.now)) site.now) }
    ensures refused { IfErr result (EndsIn (judged name.now (judge lang site.now bytes.now))) }
{
    match lang {
        SourceLang::Iptables => take_policy::<Iptables>(alloc, site, name, bytes),
        SourceLang::Ipfw => take_policy::<Ipfw>(alloc, site, name, bytes),
        SourceLang::Pf => take_policy::<Pf>(alloc, site, name, bytes),
        SourceLang::Ios => take_policy::<Ios>(alloc, site, name, bytes),
        SourceLang::Openbsd => take_policy::<Openbsd>(alloc, site, name, bytes),
    }
}

/// What is made of the configuration of a file in a language.
pub(crate) fn take_source<S: Shelf>(
    alloc: Global,
    shelf: &mut S,
    lang: SourceLang,
    site: &Site,
    name: &[u8],
) -> Result<PolicyCode, Stop>
    requires { IsSound site.now }
    ensures same { S.told shelf.new ≡ S.told shelf.old }
    ensures quiet { OnOk result (S.faults shelf.new ≡ S.faults shelf.old) }
    ensures code { IfOk result (IsTakenCode (source_plan lang site.now name.now) (S.told shelf.old) site.now) }
    ensures stopped { IfErr result (StopsAt (source_plan lang site.now name.now) (S.told shelf.old) (S.faults shelf.old) (S.faults shelf.new)) }
{
    let bytes = take(alloc, shelf, name)?;
    judge_source(alloc, lang, site, name, bytes.as_slice())
}

/// The same, with the bytes of the file.
pub(crate) fn take_source_text<S: Shelf>(
    alloc: Global,
    shelf: &mut S,
    lang: SourceLang,
    site: &Site,
    name: &[u8],
) -> Result<(Text, PolicyCode), Stop>
    requires { IsSound site.now }
    ensures same { S.told shelf.new ≡ S.told shelf.old }
    ensures quiet { OnOk result (S.faults shelf.new ≡ S.faults shelf.old) }
    ensures code { IfOk result (λ x. IsTakenCode (source_plan lang site.now name.now) (S.told shelf.old) site.now x.1) }
    ensures stopped { IfErr result (StopsAt (source_plan lang site.now name.now) (S.told shelf.old) (S.faults shelf.old) (S.faults shelf.new)) }
{
    let bytes = take(alloc, shelf, name)?;
    let code = judge_source(alloc, lang, site, name, bytes.as_slice())?;
    Ok((bytes, code))
}

/// The diagram of the configuration that the bytes spell in a language, in which its rules have places, or its refusal for a line.
fn judge_placed(
    alloc: Global,
    lang: SourceLang,
    site: &Site,
    name: &[u8],
    bytes: &[u8],
) -> Result<Placed, Stop>
    requires { IsSound site.now }
    ensures placed { IfOk result (IsPlaced (judge lang site.now bytes.now) site.now) }
    ensures refused { IfErr result (EndsIn (judged name.now (judge lang site.now bytes.now))) }
{
    match lang {
        SourceLang::Iptables => take_placed::<Iptables>(alloc, site, name, bytes),
        SourceLang::Ipfw => take_placed::<Ipfw>(alloc, site, name, bytes),
        SourceLang::Pf => take_placed::<Pf>(alloc, site, name, bytes),
        SourceLang::Ios => take_placed::<Ios>(alloc, site, name, bytes),
        SourceLang::Openbsd => take_placed::<Openbsd>(alloc, site, name, bytes),
    }
}

/// The diagram of the configuration of a file in a language, in which its rules have places.
pub(crate) fn take_placed_diagram<S: Shelf>(
    alloc: Global,
    shelf: &mut S,
    lang: SourceLang,
    site: &Site,
    name: &[u8],
) -> Result<Placed, Stop>
    requires { IsSound site.now }
    ensures same { S.told shelf.new ≡ S.told shelf.old }
    ensures quiet { OnOk result (S.faults shelf.new ≡ S.faults shelf.old) }
    ensures placed { IfOk result (IsTakenPlaced lang name.now (S.told shelf.old) site.now) }
    ensures stopped { IfErr result (StopsAt (source_plan lang site.now name.now) (S.told shelf.old) (S.faults shelf.old) (S.faults shelf.new)) }
{
    let bytes = take(alloc, shelf, name)?;
    judge_placed(alloc, lang, site, name, bytes.as_slice())
}

/// The code of the configuration that the bytes spell in a language, with its rules, or its refusal.
pub(crate) fn judge_placed_code(
    alloc: Global,
    lang: SourceLang,
    site: &Site,
    name: &[u8],
    bytes: &[u8],
) -> Result<PlacedCode, Stop>
    requires { IsSound site.now }
    ensures code { IfOk result (IsPlacedCode (judged name.now (judge lang site.now bytes.now)) site.now) }
    ensures refused { IfErr result (EndsIn (judged name.now (judge lang site.now bytes.now))) }
{
    let placed = judge_placed(alloc, lang, site, name, bytes)?;
    placed_code(alloc, name, placed)
}

/// The code of the configuration of a file in a language, with its rules.
pub(crate) fn take_placed_code<S: Shelf>(
    alloc: Global,
    shelf: &mut S,
    lang: SourceLang,
    site: &Site,
    name: &[u8],
) -> Result<PlacedCode, Stop>
    requires { IsSound site.now }
    ensures same { S.told shelf.new ≡ S.told shelf.old }
    ensures quiet { OnOk result (S.faults shelf.new ≡ S.faults shelf.old) }
    ensures code { IfOk result (IsTakenPlacedCode (source_plan lang site.now name.now) (S.told shelf.old) site.now) }
    ensures stopped { IfErr result (StopsAt (source_plan lang site.now name.now) (S.told shelf.old) (S.faults shelf.old) (S.faults shelf.new)) }
{
    let bytes = take(alloc, shelf, name)?;
    judge_placed_code(alloc, lang, site, name, bytes.as_slice())
}

/// The site of the generator.
pub(crate) fn generated_site(alloc: Global) -> Result<Site, Stop>
    ensures sound { IfOk result IsSound }
    ensures read { IfOk result IsRead }
    ensures chooses { IfOk result (λ site. Chooses load_site_plan site) }
    ensures refused { IfErr result (EndsIn load_site_plan) }
{
    let text = load_site(alloc)?;
    judge_site(alloc, b"load site", text.as_slice())
}

/// What is made of its filter with so many rules.
pub(crate) fn generated_source(alloc: Global, n: u32, site: &Site) -> Result<PolicyCode, Stop>
    requires least { 1 ≤ n }
    requires most { n ≤ 4000 }
    requires sound { IsSound site.now }
    ensures code { IfOk result (IsCode (load_text_plan n site.now) site.now) }
    ensures refused { IfErr result (EndsIn (load_text_plan n site.now)) }
{
    let text = load_text(alloc, n)?;
    judge_source(
        alloc,
        SourceLang::Iptables,
        site,
        b"load text",
        text.as_slice(),
    )
}

/// The connections that the bytes list, or their refusal.
fn judge_conns(alloc: Global, name: &[u8], bytes: &[u8]) -> Result<Vec<Conn>, Stop>
    ensures chooses { IfOk result (λ conns. Chooses (listed name.now (conns_of bytes.now)) conns.items) }
    ensures refused { IfErr result (EndsIn (listed name.now (conns_of bytes.now))) }
{
    match read_conns(alloc, bytes) {
        Ok(conns) => Ok(conns),
        Err(LineAnswer::Memory) => Err(Stop::Memory),
        Err(LineAnswer::Refused { line }) => {
            Err(Stop::Due(refused_for_line(alloc, name, line, b"syntax")?))
        }
    }
}

/// The connections of a file.
pub(crate) fn take_conns<S: Shelf>(
    alloc: Global,
    shelf: &mut S,
    name: &[u8],
) -> Result<Vec<Conn>, Stop>
    ensures same { S.told shelf.new ≡ S.told shelf.old }
    ensures quiet { OnOk result (S.faults shelf.new ≡ S.faults shelf.old) }
    ensures goes_on { IfOk result (λ conns. GoesOn (conns_plan name.now) (S.told shelf.old) conns.items) }
    ensures stopped { IfErr result (StopsAt (conns_plan name.now) (S.told shelf.old) (S.faults shelf.old) (S.faults shelf.new)) }
{
    let bytes = take(alloc, shelf, name)?;
    judge_conns(alloc, name, bytes.as_slice())
}

/// The packets that the bytes list, or their refusal.
fn judge_packets(alloc: Global, site: &Site, name: &[u8], bytes: &[u8]) -> Result<Vec<Packet>, Stop>
    requires { IsSound site.now }
    ensures of_site { IfOk result (λ packets. All (IsOfSite site.now) packets.items) }
    ensures chooses { IfOk result (λ packets. Chooses (listed name.now (packets_of bytes.now site.now)) packets.items) }
    ensures refused { IfErr result (EndsIn (listed name.now (packets_of bytes.now site.now))) }
{
    match read_packets(alloc, bytes, site) {
        Ok(packets) => Ok(packets),
        Err(LineAnswer::Memory) => Err(Stop::Memory),
        Err(LineAnswer::Refused { line }) => {
            Err(Stop::Due(refused_for_line(alloc, name, line, b"syntax")?))
        }
    }
}

/// The packets of a file.
pub(crate) fn take_packets<S: Shelf>(
    alloc: Global,
    shelf: &mut S,
    site: &Site,
    name: &[u8],
) -> Result<Vec<Packet>, Stop>
    requires { IsSound site.now }
    ensures same { S.told shelf.new ≡ S.told shelf.old }
    ensures quiet { OnOk result (S.faults shelf.new ≡ S.faults shelf.old) }
    ensures of_site { IfOk result (λ packets. All (IsOfSite site.now) packets.items) }
    ensures goes_on { IfOk result (λ packets. GoesOn (packets_plan site.now name.now) (S.told shelf.old) packets.items) }
    ensures stopped { IfErr result (StopsAt (packets_plan site.now name.now) (S.told shelf.old) (S.faults shelf.old) (S.faults shelf.new)) }
{
    let bytes = take(alloc, shelf, name)?;
    judge_packets(alloc, site, name, bytes.as_slice())
}

/// The events that the bytes list, or their refusal.
fn judge_events(alloc: Global, site: &Site, name: &[u8], bytes: &[u8]) -> Result<Vec<Event>, Stop>
    requires { IsSound site.now }
    ensures of_site { IfOk result (λ events. All (IsEventOf site.now) events.items) }
    ensures chooses { IfOk result (λ events. Chooses (listed name.now (events_of bytes.now site.now)) events.items) }
    ensures refused { IfErr result (EndsIn (listed name.now (events_of bytes.now site.now))) }
{
    match read_events(alloc, bytes, site) {
        Ok(events) => Ok(events),
        Err(LineAnswer::Memory) => Err(Stop::Memory),
        Err(LineAnswer::Refused { line }) => {
            Err(Stop::Due(refused_for_line(alloc, name, line, b"syntax")?))
        }
    }
}

/// The events of a file.
pub(crate) fn take_events<S: Shelf>(
    alloc: Global,
    shelf: &mut S,
    site: &Site,
    name: &[u8],
) -> Result<Vec<Event>, Stop>
    requires { IsSound site.now }
    ensures same { S.told shelf.new ≡ S.told shelf.old }
    ensures quiet { OnOk result (S.faults shelf.new ≡ S.faults shelf.old) }
    ensures of_site { IfOk result (λ events. All (IsEventOf site.now) events.items) }
    ensures goes_on { IfOk result (λ events. GoesOn (events_plan site.now name.now) (S.told shelf.old) events.items) }
    ensures stopped { IfErr result (StopsAt (events_plan site.now name.now) (S.told shelf.old) (S.faults shelf.old) (S.faults shelf.new)) }
{
    let bytes = take(alloc, shelf, name)?;
    judge_events(alloc, site, name, bytes.as_slice())
}

/// A site that lacks an entry that the words name makes them no command.
pub(crate) fn know_entries(alloc: Global, site: &Site, asks: &[Text]) -> Result<(), Stop>
    ensures known { OnOk result (are_known site.now asks.now ≡ true) }
    ensures unknown { IfErr result (AsksStopped site.now asks.now) }
{
    if are_known(site, asks) {
        Ok(())
    } else {
        Err(Stop::Due(said(alloc, Status::Usage, USAGE)?))
    }
}
