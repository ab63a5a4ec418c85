//! The commands that read files.
//!
//! A command is a chain of short functions, of which each takes one thing from a file and hands it on, with the part of the plan that
//! is left in its clauses. One function that owned site, code, connections and packets would let go of all of them wherever it ends
//! early, and the prover would take minutes for that.

ghost use Rattle.std.specs.Prelude.{◌≡◌, ◌≤◌, Option, true, IfOk, IfErr};
ghost use Rattle.fws_flat.specs.Soundness.{flat_ok};
ghost use Rattle.fws_net.specs.Routes.{IsSound};
ghost use Rattle.fws_net.specs.SiteLaws.{IsOrderly};
ghost use Rattle.fws_top.specs.Answered.{Answered, GivesAnswer, GivesStop, GivesText, Stopped};
ghost use Rattle.fws_top.specs.Asks.{are_asks};
ghost use Rattle.fws_top.specs.Codes.{Does, DoesRegularly};
ghost use Rattle.fws_top.specs.declared.status.Status.TheVariants as status;
ghost use Rattle.fws_top.specs.Due.{Contents, Faults};
ghost use Rattle.fws_top.specs.Forms.{synth, query, translate, trace, why, run, same, dead, load, site2};
ghost use Rattle.fws_top.specs.Judged.{Policy};
ghost use Rattle.fws_top.specs.Parts.{query_part, conns_part, dead_part, events_part, load_part, other_part, packets_part, run_part, same_part};
ghost use Rattle.fws_top.specs.Parts.{table_part, trace_part, translation_part, why_conns_part, why_packets_part, why_part};
ghost use Rattle.fws_top.specs.PlacedCodes.{IsToldBy};
ghost use Rattle.fws_top.specs.Plan.{plan_of};
ghost use Rattle.fws_top.specs.Walked.{Walk};

use crate::answer::{Answer, Stop};
use crate::lang::{SourceLang, TargetLang};
use crate::loading::loaded;
use crate::noting::origin_of;
use crate::placed::PlacedCode;
use crate::policy::PolicyCode;
use crate::steps::{
    generated_site, generated_source, know_entries, take_conns, take_events, take_packets,
    take_placed_code, take_placed_diagram, take_site, take_source, take_source_text,
};
use crate::tables::{asked_table, compared, explained, replayed, table, traced};
use crate::translating::translated;
use crate::unused_rules::unused;
use fws_flat::Flat;
use fws_io::Shelf;
use fws_net::{Conn, Site, State, put_site, read_sites_are_orderly};
use fws_num::Text;
use std::alloc::Global;

/// The table of the packets of a state, at a site.
fn synth_at<S: Shelf>(
    alloc: Global,
    shelf: &mut S,
    lang: SourceLang,
    site: &Site,
    file_name: &[u8],
    state: State,
) -> Result<Text, Stop>
    requires { IsSound site.now }
    ensures same { S.told shelf.new ≡ S.told shelf.old }
    ensures answered { GivesText (table_part lang site.now file_name.now state) S.told S.faults shelf.old shelf.new result }
    ensures stopped { GivesStop (table_part lang site.now file_name.now state) S.told S.faults shelf.old shelf.new result }
{
    let code = take_source(alloc, shelf, lang, site, file_name)?;
    Ok(table(alloc, site, &code.flat, state)?)
}

/// The table of the packets of a state.
pub(crate) fn synth<S: Shelf>(
    alloc: Global,
    shelf: &mut S,
    lang: SourceLang,
    site_name: &[u8],
    file_name: &[u8],
    state: State,
) -> Result<Text, Stop>
    ensures same { S.told shelf.new ≡ S.told shelf.old }
    ensures answered { GivesText (plan_of (synth lang site_name.now file_name.now state)) S.told S.faults shelf.old shelf.new result }
    ensures stopped { GivesStop (plan_of (synth lang site_name.now file_name.now state)) S.told S.faults shelf.old shelf.new result }
{
    let site = take_site(alloc, shelf, site_name)?;
    synth_at(alloc, shelf, lang, &site, file_name, state)
}

/// The part of that table for which the words ask, at a site.
fn query_at<S: Shelf>(
    alloc: Global,
    shelf: &mut S,
    lang: SourceLang,
    site: &Site,
    file_name: &[u8],
    state: State,
    asks: &[Text],
) -> Result<Text, Stop>
    requires sound { IsSound site.now }
    requires spelled { are_asks asks.now ≡ true }
    ensures same { S.told shelf.new ≡ S.told shelf.old }
    ensures answered { GivesText (query_part lang site.now file_name.now state asks.now) S.told S.faults shelf.old shelf.new result }
    ensures stopped { GivesStop (query_part lang site.now file_name.now state asks.now) S.told S.faults shelf.old shelf.new result }
{
    know_entries(alloc, site, asks)?;
    let code = take_source(alloc, shelf, lang, site, file_name)?;
    Ok(asked_table(alloc, site, &code.flat, state, asks)?)
}

/// The part of that table for which the words ask.
pub(crate) fn query<S: Shelf>(
    alloc: Global,
    shelf: &mut S,
    lang: SourceLang,
    site_name: &[u8],
    file_name: &[u8],
    state: State,
    asks: &[Text],
) -> Result<Text, Stop>
    requires { are_asks asks.now ≡ true }
    ensures same { S.told shelf.new ≡ S.told shelf.old }
    ensures answered { GivesText (plan_of (query lang site_name.now file_name.now state asks.now)) S.told S.faults shelf.old shelf.new result }
    ensures stopped { GivesStop (plan_of (query lang site_name.now file_name.now state asks.now)) S.told S.faults shelf.old shelf.new result }
{
    let site = take_site(alloc, shelf, site_name)?;
    query_at(alloc, shelf, lang, &site, file_name, state, asks)
}

/// The same policy in another language, or why it can't hold it, at a site.
fn translate_at<S: Shelf>(
    alloc: Global,
    shelf: &mut S,
    from: SourceLang,
    to: TargetLang,
    site: &Site,
    file_name: &[u8],
) -> Result<Answer, Stop>
    requires sound { IsSound site.now }
    requires orderly { IsOrderly site.now }
    ensures same { S.told shelf.new ≡ S.told shelf.old }
    ensures answered { GivesAnswer (translation_part from to site.now file_name.now) S.told S.faults shelf.old shelf.new result }
    ensures stopped { GivesStop (translation_part from to site.now file_name.now) S.told S.faults shelf.old shelf.new result }
{
    let (bytes, code) = take_source_text(alloc, shelf, from, site, file_name)?;
    let origin = origin_of(alloc, from, site, bytes.as_slice(), &code.flat)?;
    Ok(translated(alloc, to, site, &code.flat, &origin)?)
}

/// The same policy in another language, or why it can't hold it.
pub(crate) fn translate<S: Shelf>(
    alloc: Global,
    shelf: &mut S,
    from: SourceLang,
    to: TargetLang,
    site_name: &[u8],
    file_name: &[u8],
) -> Result<Answer, Stop>
    ensures same { S.told shelf.new ≡ S.told shelf.old }
    ensures answered { GivesAnswer (plan_of (translate from to site_name.now file_name.now)) S.told S.faults shelf.old shelf.new result }
    ensures stopped { GivesStop (plan_of (translate from to site_name.now file_name.now)) S.told S.faults shelf.old shelf.new result }
{
    read_sites_are_orderly();
    let site = take_site(alloc, shelf, site_name)?;
    translate_at(alloc, shelf, from, to, &site, file_name)
}

/// What code makes of listed packets against connections.
fn trace_among<S: Shelf>(
    alloc: Global,
    shelf: &mut S,
    site: &Site,
    code: &Flat,
    conns: &[Conn],
    packets_name: &[u8],
) -> Result<Text, Stop>
    requires sound { IsSound site.now }
    requires ok { flat_ok code.now ≡ true }
    ensures same { S.told shelf.new ≡ S.told shelf.old }
    ensures answered { (walk : Walk) → Does code.now site.now walk
        → GivesText (packets_part site.now walk conns.now packets_name.now) S.told S.faults shelf.old shelf.new result }
    ensures stopped { (walk : Walk) → GivesStop (packets_part site.now walk conns.now packets_name.now) S.told S.faults shelf.old shelf.new result }
{
    let packets = take_packets(alloc, shelf, site, packets_name)?;
    Ok(traced(alloc, site, code, conns, packets.as_slice())?)
}

/// What code makes of listed packets against listed connections.
fn trace_by<S: Shelf>(
    alloc: Global,
    shelf: &mut S,
    site: &Site,
    code: &Flat,
    conns_name: &[u8],
    packets_name: &[u8],
) -> Result<Text, Stop>
    requires sound { IsSound site.now }
    requires ok { flat_ok code.now ≡ true }
    ensures same { S.told shelf.new ≡ S.told shelf.old }
    ensures answered { (walk : Walk) → Does code.now site.now walk
        → GivesText (conns_part site.now walk conns_name.now packets_name.now) S.told S.faults shelf.old shelf.new result }
    ensures stopped { (walk : Walk) → GivesStop (conns_part site.now walk conns_name.now packets_name.now) S.told S.faults shelf.old shelf.new result }
{
    let conns = take_conns(alloc, shelf, conns_name)?;
    trace_among(alloc, shelf, site, code, conns.as_slice(), packets_name)
}

/// What becomes of listed packets against listed connections, at a site.
fn trace_at<S: Shelf>(
    alloc: Global,
    shelf: &mut S,
    lang: SourceLang,
    site: &Site,
    file_name: &[u8],
    conns_name: &[u8],
    packets_name: &[u8],
) -> Result<Text, Stop>
    requires { IsSound site.now }
    ensures same { S.told shelf.new ≡ S.told shelf.old }
    ensures answered { GivesText (trace_part lang site.now file_name.now conns_name.now packets_name.now) S.told S.faults shelf.old shelf.new result }
    ensures stopped { GivesStop (trace_part lang site.now file_name.now conns_name.now packets_name.now) S.told S.faults shelf.old shelf.new result }
{
    let code = take_source(alloc, shelf, lang, site, file_name)?;
    trace_by(alloc, shelf, site, &code.flat, conns_name, packets_name)
}

/// What becomes of listed packets against listed connections.
pub(crate) fn trace<S: Shelf>(
    alloc: Global,
    shelf: &mut S,
    lang: SourceLang,
    site_name: &[u8],
    file_name: &[u8],
    conns_name: &[u8],
    packets_name: &[u8],
) -> Result<Text, Stop>
    ensures same { S.told shelf.new ≡ S.told shelf.old }
    ensures answered { GivesText (plan_of (trace lang site_name.now file_name.now conns_name.now packets_name.now)) S.told S.faults shelf.old shelf.new result }
    ensures stopped { GivesStop (plan_of (trace lang site_name.now file_name.now conns_name.now packets_name.now)) S.told S.faults shelf.old shelf.new result }
{
    let site = take_site(alloc, shelf, site_name)?;
    trace_at(
        alloc,
        shelf,
        lang,
        &site,
        file_name,
        conns_name,
        packets_name,
    )
}

/// What code makes of listed packets against connections, and which rules decide it.
fn why_among<S: Shelf>(
    alloc: Global,
    shelf: &mut S,
    site: &Site,
    code: &PlacedCode,
    conns: &[Conn],
    packets_name: &[u8],
) -> Result<Text, Stop>
    requires { IsSound site.now }
    ensures same { S.told shelf.new ≡ S.told shelf.old }
    ensures answered { (policy : Policy) → IsToldBy policy site.now code.now
        → GivesText (why_packets_part site.now policy conns.now packets_name.now) S.told S.faults shelf.old shelf.new result }
    ensures stopped { (policy : Policy)
        → GivesStop (why_packets_part site.now policy conns.now packets_name.now) S.told S.faults shelf.old shelf.new result }
{
    let packets = take_packets(alloc, shelf, site, packets_name)?;
    Ok(explained(alloc, site, code, conns, packets.as_slice())?)
}

/// What code makes of listed packets against listed connections, and which rules decide it.
fn why_by<S: Shelf>(
    alloc: Global,
    shelf: &mut S,
    site: &Site,
    code: &PlacedCode,
    conns_name: &[u8],
    packets_name: &[u8],
) -> Result<Text, Stop>
    requires { IsSound site.now }
    ensures same { S.told shelf.new ≡ S.told shelf.old }
    ensures answered { (policy : Policy) → IsToldBy policy site.now code.now
        → GivesText (why_conns_part site.now policy conns_name.now packets_name.now) S.told S.faults shelf.old shelf.new result }
    ensures stopped { (policy : Policy)
        → GivesStop (why_conns_part site.now policy conns_name.now packets_name.now) S.told S.faults shelf.old shelf.new result }
{
    let conns = take_conns(alloc, shelf, conns_name)?;
    why_among(alloc, shelf, site, code, conns.as_slice(), packets_name)
}

/// What becomes of listed packets against listed connections, and which rules decide it, at a site.
fn why_at<S: Shelf>(
    alloc: Global,
    shelf: &mut S,
    lang: SourceLang,
    site: &Site,
    file_name: &[u8],
    conns_name: &[u8],
    packets_name: &[u8],
) -> Result<Text, Stop>
    requires { IsSound site.now }
    ensures same { S.told shelf.new ≡ S.told shelf.old }
    ensures answered { GivesText (why_part lang site.now file_name.now conns_name.now packets_name.now) S.told S.faults shelf.old shelf.new result }
    ensures stopped { GivesStop (why_part lang site.now file_name.now conns_name.now packets_name.now) S.told S.faults shelf.old shelf.new result }
{
    let code = take_placed_code(alloc, shelf, lang, site, file_name)?;
    why_by(alloc, shelf, site, &code, conns_name, packets_name)
}

/// What becomes of listed packets against listed connections, and which rules decide it.
pub(crate) fn why<S: Shelf>(
    alloc: Global,
    shelf: &mut S,
    lang: SourceLang,
    site_name: &[u8],
    file_name: &[u8],
    conns_name: &[u8],
    packets_name: &[u8],
) -> Result<Text, Stop>
    ensures same { S.told shelf.new ≡ S.told shelf.old }
    ensures answered { GivesText (plan_of (why lang site_name.now file_name.now conns_name.now packets_name.now)) S.told S.faults shelf.old shelf.new result }
    ensures stopped { GivesStop (plan_of (why lang site_name.now file_name.now conns_name.now packets_name.now)) S.told S.faults shelf.old shelf.new result }
{
    let site = take_site(alloc, shelf, site_name)?;
    why_at(
        alloc,
        shelf,
        lang,
        &site,
        file_name,
        conns_name,
        packets_name,
    )
}

/// What code makes of listed events.
fn run_by<S: Shelf>(
    alloc: Global,
    shelf: &mut S,
    site: &Site,
    code: &PolicyCode,
    events_name: &[u8],
) -> Result<Text, Stop>
    requires sound { IsSound site.now }
    requires ok { flat_ok code.now.flat ≡ true }
    ensures same { S.told shelf.new ≡ S.told shelf.old }
    ensures answered { (walk : Walk) → Does code.now.flat site.now walk
        → GivesText (events_part site.now code.now.tracks walk events_name.now) S.told S.faults shelf.old shelf.new result }
    ensures stopped { (walk : Walk) → GivesStop (events_part site.now code.now.tracks walk events_name.now) S.told S.faults shelf.old shelf.new result }
{
    let events = take_events(alloc, shelf, site, events_name)?;
    Ok(replayed(alloc, site, code, events.as_slice())?)
}

/// What becomes of listed events one after the other, at a site.
fn run_at<S: Shelf>(
    alloc: Global,
    shelf: &mut S,
    lang: SourceLang,
    site: &Site,
    file_name: &[u8],
    events_name: &[u8],
) -> Result<Text, Stop>
    requires { IsSound site.now }
    ensures same { S.told shelf.new ≡ S.told shelf.old }
    ensures answered { GivesText (run_part lang site.now file_name.now events_name.now) S.told S.faults shelf.old shelf.new result }
    ensures stopped { GivesStop (run_part lang site.now file_name.now events_name.now) S.told S.faults shelf.old shelf.new result }
{
    let code = take_source(alloc, shelf, lang, site, file_name)?;
    run_by(alloc, shelf, site, &code, events_name)
}

/// What becomes of listed events one after the other.
pub(crate) fn run<S: Shelf>(
    alloc: Global,
    shelf: &mut S,
    lang: SourceLang,
    site_name: &[u8],
    file_name: &[u8],
    events_name: &[u8],
) -> Result<Text, Stop>
    ensures same { S.told shelf.new ≡ S.told shelf.old }
    ensures answered { GivesText (plan_of (run lang site_name.now file_name.now events_name.now)) S.told S.faults shelf.old shelf.new result }
    ensures stopped { GivesStop (plan_of (run lang site_name.now file_name.now events_name.now)) S.told S.faults shelf.old shelf.new result }
{
    let site = take_site(alloc, shelf, site_name)?;
    run_at(alloc, shelf, lang, &site, file_name, events_name)
}

/// Whether code does the same as a configuration at a site.
fn same_by<S: Shelf>(
    alloc: Global,
    shelf: &mut S,
    site: &Site,
    code: &Flat,
    other_lang: SourceLang,
    other_name: &[u8],
) -> Result<Text, Stop>
    requires sound { IsSound site.now }
    requires ok { flat_ok code.now ≡ true }
    requires regular { DoesRegularly code.now site.now }
    ensures same { S.told shelf.new ≡ S.told shelf.old }
    ensures answered { (walk : Walk) → Does code.now site.now walk
        → GivesText (other_part site.now walk other_lang other_name.now) S.told S.faults shelf.old shelf.new result }
    ensures stopped { (walk : Walk) → GivesStop (other_part site.now walk other_lang other_name.now) S.told S.faults shelf.old shelf.new result }
{
    let other = take_source(alloc, shelf, other_lang, site, other_name)?;
    Ok(compared(alloc, site, code, &other.flat)?)
}

/// Whether two configurations do the same, at a site.
fn same_at<S: Shelf>(
    alloc: Global,
    shelf: &mut S,
    lang: SourceLang,
    site: &Site,
    file_name: &[u8],
    other_lang: SourceLang,
    other_name: &[u8],
) -> Result<Text, Stop>
    requires { IsSound site.now }
    ensures same { S.told shelf.new ≡ S.told shelf.old }
    ensures answered { GivesText (same_part lang site.now file_name.now other_lang other_name.now) S.told S.faults shelf.old shelf.new result }
    ensures stopped { GivesStop (same_part lang site.now file_name.now other_lang other_name.now) S.told S.faults shelf.old shelf.new result }
{
    let code = take_source(alloc, shelf, lang, site, file_name)?;
    same_by(alloc, shelf, site, &code.flat, other_lang, other_name)
}

/// Whether two configurations do the same, or a packet with which they don't.
pub(crate) fn same<S: Shelf>(
    alloc: Global,
    shelf: &mut S,
    lang: SourceLang,
    site_name: &[u8],
    file_name: &[u8],
    other_lang: SourceLang,
    other_name: &[u8],
) -> Result<Text, Stop>
    ensures same { S.told shelf.new ≡ S.told shelf.old }
    ensures answered { GivesText (plan_of (same lang site_name.now file_name.now other_lang other_name.now)) S.told S.faults shelf.old shelf.new result }
    ensures stopped { GivesStop (plan_of (same lang site_name.now file_name.now other_lang other_name.now)) S.told S.faults shelf.old shelf.new result }
{
    let site = take_site(alloc, shelf, site_name)?;
    same_at(alloc, shelf, lang, &site, file_name, other_lang, other_name)
}

/// Which rules of a configuration no packet uses, at a site.
fn dead_at<S: Shelf>(
    alloc: Global,
    shelf: &mut S,
    lang: SourceLang,
    site: &Site,
    file_name: &[u8],
) -> Result<Text, Stop>
    requires { IsSound site.now }
    ensures same { S.told shelf.new ≡ S.told shelf.old }
    ensures answered { GivesText (dead_part lang site.now file_name.now) S.told S.faults shelf.old shelf.new result }
    ensures stopped { GivesStop (dead_part lang site.now file_name.now) S.told S.faults shelf.old shelf.new result }
{
    let placed = take_placed_diagram(alloc, shelf, lang, site, file_name)?;
    unused(alloc, site, file_name, &placed)
}

/// Which rules of a configuration no packet uses.
pub(crate) fn dead<S: Shelf>(
    alloc: Global,
    shelf: &mut S,
    lang: SourceLang,
    site_name: &[u8],
    file_name: &[u8],
) -> Result<Text, Stop>
    ensures same { S.told shelf.new ≡ S.told shelf.old }
    ensures answered { GivesText (plan_of (dead lang site_name.now file_name.now)) S.told S.faults shelf.old shelf.new result }
    ensures stopped { GivesStop (plan_of (dead lang site_name.now file_name.now)) S.told S.faults shelf.old shelf.new result }
{
    let site = take_site(alloc, shelf, site_name)?;
    dead_at(alloc, shelf, lang, &site, file_name)
}

/// What a generated policy of so many rules comes to, at a site.
fn load_at(alloc: Global, n: u32, site: &Site) -> Result<Text, Stop>
    requires least { 1 ≤ n }
    requires most { n ≤ 4000 }
    requires sound { IsSound site.now }
    requires orderly { IsOrderly site.now }
    ensures answered { (told : Option Contents) (faults : Faults) → IfOk result (Answered (load_part n site.now) told faults faults status.Ok) }
    ensures stopped { (told : Option Contents) (faults : Faults) → IfErr result (Stopped (load_part n site.now) told faults faults) }
{
    let code = generated_source(alloc, n, site)?;
    Ok(loaded(alloc, n, site, &code.flat)?)
}

/// What a generated policy of so many rules comes to.
pub(crate) fn load(alloc: Global, n: u32) -> Result<Text, Stop>
    requires least { 1 ≤ n }
    requires most { n ≤ 4000 }
    ensures answered { (told : Option Contents) (faults : Faults) → IfOk result (Answered (plan_of (load n)) told faults faults status.Ok) }
    ensures stopped { (told : Option Contents) (faults : Faults) → IfErr result (Stopped (plan_of (load n)) told faults faults) }
{
    read_sites_are_orderly();
    let site = generated_site(alloc)?;
    load_at(alloc, n, &site)
}

/// The site in its second form.
pub(crate) fn second_form<S: Shelf>(
    alloc: Global,
    shelf: &mut S,
    site_name: &[u8],
) -> Result<Text, Stop>
    ensures same { S.told shelf.new ≡ S.told shelf.old }
    ensures answered { GivesText (plan_of (site2 site_name.now)) S.told S.faults shelf.old shelf.new result }
    ensures stopped { GivesStop (plan_of (site2 site_name.now)) S.told S.faults shelf.old shelf.new result }
{
    let site = take_site(alloc, shelf, site_name)?;
    Ok(put_site(alloc, &site)?)
}
