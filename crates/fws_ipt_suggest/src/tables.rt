//! The text of the tables mangle, nat and filter.

use crate::chained::{Sheet, verdict};
use crate::chains::{Filtered, Filters, Own, Redirected, Translations};
use crate::filter::{Hook, style_of};
use crate::options::words;
use crate::passing::LEAVING;
use crate::rules::{REDIRECTED, Writer};
use crate::text::{Lines, end_target, mark_target, put_chain, put_line};
use crate::translation::nat_settings;
use fws_net::End;
use fws_num::{Memory, Text};
use fws_suggest::{DROP, DST, ENTRY, Marked, Phrases, Policy, Rule, Settings, Side, Stop, Style};

/// The end at a place of a list.
fn end_at(ends: &[Option<End>], place: u32) -> Option<End> {
    match ends.get(place as usize) {
        Some(end) => *end,
        None => None,
    }
}

/// Appends rules that mark packets by their entries.
fn put_entry_marks(
    writer: &Writer,
    policy: &mut Policy,
    style: &mut Style,
    lines: &mut Lines,
    marks: &[Marked],
) -> Result<(), Stop> {
    for class in marks {
        if class.mark != 0 {
            let region = policy.everything().with(ENTRY, class.entries);
            let tests = writer.tests(policy, style, &region)?;
            let target = mark_target(writer.alloc, class.mark)?;
            lines.put(b"PREROUTING", &tests, target.as_slice())?;
        }
    }
    Ok(())
}

/// Appends a rule that marks packets whose destination will be written, or lets others by.
fn put_redirected_mark(
    writer: &Writer,
    policy: &mut Policy,
    style: &mut Style,
    lines: &mut Lines,
    rule: &Rule,
) -> Result<(), Stop> {
    let tests = writer.tests(policy, style, &rule.region)?;
    let target = if rule.colour == 0 {
        words(writer.alloc, b"ACCEPT")?
    } else {
        mark_target(writer.alloc, REDIRECTED)?
    };
    Ok(lines.put(b"PREROUTING", &tests, target.as_slice())?)
}

/// Appends the rules that mark packets whose destination will be written. One that lets others by can't stand ahead of rules
/// that drop.
fn put_redirected_marks(
    writer: &Writer,
    policy: &mut Policy,
    style: &mut Style,
    lines: &mut Lines,
    rules: &[Rule],
    drops_behind: bool,
) -> Result<(), Stop> {
    for rule in rules {
        if rule.colour == 0 && drops_behind {
            return Err(Stop::Late);
        }
        put_redirected_mark(writer, policy, style, lines, rule)?;
    }
    Ok(())
}

/// Appends the rules of the table mangle, written in this way.
fn put_mangle_rules(
    writer: &Writer,
    policy: &mut Policy,
    style: &mut Style,
    sheet: &mut Sheet,
    translations: &Translations,
) -> Result<(), Stop> {
    let drops = translations.before.rules.as_slice();
    let redirected = &translations.redirected;
    let mut lines = Lines::new(writer.alloc);
    put_entry_marks(writer, policy, style, &mut lines, &translations.sent.marks)?;
    if redirected.is_tagged {
        let drops_behind = !drops.is_empty();
        put_redirected_marks(
            writer,
            policy,
            style,
            &mut lines,
            &redirected.arriving,
            drops_behind,
        )?;
    }
    sheet.put_rules(writer, policy, style, &mut lines, b"PREROUTING", drops)?;
    sheet.put_lines(&lines)?;
    sheet.put_all_waiting(writer, policy, style)
}

/// The rules of the table mangle.
fn mangle_sheet(
    writer: &Writer,
    policy: &mut Policy,
    translations: &Translations,
) -> Result<Sheet, Stop> {
    let everywhere = policy.space.full(DST);
    let mut style = policy.style(Settings::iptables(), everywhere)?;
    let mut sheet = Sheet::new(writer.alloc);
    put_mangle_rules(writer, policy, &mut style, &mut sheet, translations)?;
    Ok(sheet)
}

/// Whether one mark would have to stand for two things.
fn are_marks_mixed(translations: &Translations) -> bool {
    let redirected: &Redirected = &translations.redirected;
    redirected.is_tagged && (!translations.sent.marks.is_empty() || !redirected.own.is_empty())
}

/// Appends the table mangle, if it has rules, and gives their number.
fn put_mangle(
    writer: &Writer,
    out: &mut Text,
    policy: &mut Policy,
    translations: &Translations,
) -> Result<usize, Stop> {
    if are_marks_mixed(translations) {
        return Err(Stop::Late);
    }
    let sheet = mangle_sheet(writer, policy, translations)?;
    put_mangle_text(out, &sheet)?;
    Ok(sheet.count)
}

/// Appends the text of the table mangle, if it has rules.
fn put_mangle_text(out: &mut Text, sheet: &Sheet) -> Result<(), Memory> {
    if sheet.count == 0 {
        return Ok(());
    }
    put_line(out, b"# Ahead of all else packets are marked or dropped.")?;
    put_line(out, b"*mangle")?;
    put_chain(out, b"PREROUTING", true)?;
    out.put(sheet.heads.as_slice())?;
    out.put(sheet.body.as_slice())?;
    put_line(out, b"COMMIT")
}

/// Appends a rule that translates sources. A colour behind those of the ends stands for the address of the interface.
fn put_source(
    writer: &Writer,
    policy: &mut Policy,
    style: &mut Style,
    lines: &mut Lines,
    chain: &[u8],
    rule: &Rule,
) -> Result<(), Stop> {
    let tests = writer.tests(policy, style, &rule.region)?;
    let target = match end_at(&policy.sources, rule.colour) {
        Some(end) => end_target(writer.alloc, b"SNAT --to-source", end)?,
        None => {
            let is_own = rule.colour as usize == policy.sources.len();
            words(writer.alloc, if is_own { b"MASQUERADE" } else { b"ACCEPT" })?
        }
    };
    Ok(lines.put(chain, &tests, target.as_slice())?)
}

/// Appends a rule that translates destinations.
fn put_destination(
    writer: &Writer,
    policy: &mut Policy,
    style: &mut Style,
    lines: &mut Lines,
    chain: &[u8],
    rule: &Rule,
) -> Result<(), Stop> {
    let tests = writer.tests(policy, style, &rule.region)?;
    let target = match end_at(&policy.destinations, rule.colour) {
        Some(end) => end_target(writer.alloc, b"DNAT --to-destination", end)?,
        None => words(writer.alloc, b"ACCEPT")?,
    };
    Ok(lines.put(chain, &tests, target.as_slice())?)
}

/// Appends the rules of a chain of the table nat, written in this way.
fn put_ends(
    writer: &Writer,
    policy: &mut Policy,
    style: &mut Style,
    lines: &mut Lines,
    chain: &[u8],
    rules: &[Rule],
    writes_source: bool,
) -> Result<(), Stop> {
    for rule in rules {
        if writes_source {
            put_source(writer, policy, style, lines, chain, rule)?;
        } else {
            put_destination(writer, policy, style, lines, chain, rule)?;
        }
    }
    Ok(())
}

/// A chain of the table nat.
#[derive(Clone, Copy)]
struct NatChain<'a> {
    /// Its name.
    name: &'a [u8],
    /// How its rules write sides.
    settings: Settings,
    /// The destinations that packets have there.
    universe: Side,
    /// Whether it writes sources.
    writes_source: bool,
}

/// Appends the rules of a chain of the table nat.
fn put_nat_chain(
    writer: &Writer,
    policy: &mut Policy,
    lines: &mut Lines,
    chain: &NatChain,
    rules: &[Rule],
) -> Result<(), Stop> {
    if rules.is_empty() {
        return Ok(());
    }
    let mut style = policy.style(chain.settings, chain.universe)?;
    put_ends(
        writer,
        policy,
        &mut style,
        lines,
        chain.name,
        rules,
        chain.writes_source,
    )
}

/// Appends the rules that translate destinations.
fn put_redirections(
    writer: &Writer,
    policy: &mut Policy,
    lines: &mut Lines,
    redirected: &Redirected,
    settings: Settings,
) -> Result<(), Stop> {
    let mut chain = NatChain {
        name: b"PREROUTING",
        settings,
        universe: policy.space.full(DST),
        writes_source: false,
    };
    put_nat_chain(writer, policy, lines, &chain, &redirected.arriving)?;
    chain.name = b"OUTPUT";
    chain.settings = settings.with_exits();
    put_nat_chain(writer, policy, lines, &chain, &redirected.own)
}

/// Appends the rules that translate sources.
fn put_sources(
    writer: &Writer,
    policy: &mut Policy,
    lines: &mut Lines,
    translations: &Translations,
    settings: Settings,
) -> Result<(), Stop> {
    let mut chain = NatChain {
        name: b"INPUT",
        settings,
        universe: policy.local,
        writes_source: true,
    };
    let sent = &translations.sent;
    put_nat_chain(writer, policy, lines, &chain, &sent.delivered)?;
    let marked = Writer {
        alloc: writer.alloc,
        site: writer.site,
        entries: writer.entries,
        marks: &sent.marks,
        asks_local: false,
    };
    chain.name = b"POSTROUTING";
    chain.settings = settings.with_exits();
    chain.universe = policy.space.full(DST);
    put_nat_chain(&marked, policy, lines, &chain, &sent.leaving)
}

/// Appends the table nat, if it has rules, and gives their number.
fn put_nat(
    writer: &Writer,
    out: &mut Text,
    policy: &mut Policy,
    translations: &Translations,
) -> Result<usize, Stop> {
    let settings = nat_settings(policy);
    let mut lines = Lines::new(writer.alloc);
    put_redirections(
        writer,
        policy,
        &mut lines,
        &translations.redirected,
        settings,
    )?;
    put_sources(writer, policy, &mut lines, translations, settings)?;
    put_nat_text(out, &lines)?;
    Ok(lines.count)
}

/// Appends the text of the table nat, if it has rules.
fn put_nat_text(out: &mut Text, lines: &Lines) -> Result<(), Memory> {
    if lines.is_empty() {
        return Ok(());
    }
    put_line(out, b"# Addresses are translated.")?;
    put_line(out, b"*nat")?;
    put_chain(out, b"PREROUTING", true)?;
    put_chain(out, b"INPUT", true)?;
    put_chain(out, b"OUTPUT", true)?;
    put_chain(out, b"POSTROUTING", true)?;
    out.put(lines.text.as_slice())?;
    put_line(out, b"COMMIT")
}

/// Appends the rule of a chain for established packets.
fn put_established(writer: &Writer, lines: &mut Lines, name: &[u8]) -> Result<(), Memory> {
    let mut tests = Phrases::new(writer.alloc)?;
    tests.put(b"-m conntrack --ctstate RELATED,ESTABLISHED")?;
    lines.put(name, &tests, b"ACCEPT")
}

/// What is said of a chain of the table filter.
#[derive(Clone, Copy)]
struct Heading<'a> {
    /// Its name.
    name: &'a [u8],
    /// What it meets.
    text: &'a [u8],
}

/// The name of the chain that INPUT and FORWARD call.
const ARRIVING: &[u8] = b"ARRIVING";

/// The name of the chain that OUTPUT calls, and FORWARD for what comes from loopback.
const OWN: &[u8] = b"OWN";

/// Appends the rule by which FORWARD calls the rules of OUTPUT for what comes from loopback.
fn put_own_call(writer: &Writer, policy: &mut Policy, lines: &mut Lines) -> Result<(), Stop> {
    let loopback = policy.space.range(ENTRY, 1, 1)?;
    let region = policy.everything().with(ENTRY, loopback);
    let mut style = style_of(policy, Hook::Forward)?;
    let tests = writer.tests(policy, &mut style, &region)?;
    Ok(lines.put(b"FORWARD", &tests, OWN)?)
}

/// Appends a rule by which a chain calls another one for all packets.
fn put_call(writer: &Writer, lines: &mut Lines, chain: &[u8], called: &[u8]) -> Result<(), Memory> {
    let everything = Phrases::new(writer.alloc)?;
    lines.put(chain, &everything, called)
}

/// Appends the rules of a chain of the table filter behind a heading, if there are any, and the chains that it calls.
fn put_filter_chain(
    writer: &Writer,
    sheet: &mut Sheet,
    policy: &mut Policy,
    hook: Hook,
    heading: Heading,
    chain: &Filtered,
    lines: Lines,
) -> Result<(), Stop> {
    let mut lines = lines;
    if chain.has_established {
        put_established(writer, &mut lines, heading.name)?;
    }
    let mut style = style_of(policy, hook)?;
    let rules = chain.list.rules.as_slice();
    sheet.put_rules(writer, policy, &mut style, &mut lines, heading.name, rules)?;
    sheet.put_group(heading.text, &lines)?;
    sheet.put_all_waiting(writer, policy, &mut style)
}

/// The first lines of INPUT.
fn input_lines(writer: &Writer, filters: &Filters) -> Result<Lines, Memory> {
    let mut lines = Lines::new(writer.alloc);
    if !filters.common.is_empty() {
        put_call(writer, &mut lines, b"INPUT", ARRIVING)?;
    }
    Ok(lines)
}

/// The first lines of FORWARD.
fn forward_lines(writer: &Writer, policy: &mut Policy, filters: &Filters) -> Result<Lines, Stop> {
    let mut lines = Lines::new(writer.alloc);
    if filters.own == Own::ForLoopback {
        put_own_call(writer, policy, &mut lines)?;
    }
    if !filters.common.is_empty() {
        put_call(writer, &mut lines, b"FORWARD", ARRIVING)?;
    }
    Ok(lines)
}

/// Appends what the host itself sends: OUTPUT, or the chain that it calls.
fn put_output(
    writer: &Writer,
    sheet: &mut Sheet,
    policy: &mut Policy,
    filters: &Filters,
) -> Result<(), Stop> {
    let mut lines = Lines::new(writer.alloc);
    let mut heading = Heading {
        name: b"OUTPUT",
        text: b"# What the host itself sends.",
    };
    match filters.own {
        Own::Apart => {}
        Own::ForLoopback => heading.name = OWN,
        Own::ForPassing => {
            heading.name = LEAVING;
            heading.text = b"# What leaves.";
        }
    }
    if filters.own != Own::Apart {
        sheet.declare(heading.name)?;
        put_call(writer, &mut lines, b"OUTPUT", heading.name)?;
    }
    let output = &filters.output;
    if filters.own == Own::ForPassing {
        let delivered = writer.for_delivered();
        put_filter_chain(
            &delivered,
            sheet,
            policy,
            Hook::Output,
            heading,
            output,
            lines,
        )?;
    } else {
        put_filter_chain(writer, sheet, policy, Hook::Output, heading, output, lines)?;
    }
    put_last(writer, sheet, filters)
}

/// Appends the last rule of the chain of what leaves, where a packet that no rule decides would go on elsewhere.
fn put_last(writer: &Writer, sheet: &mut Sheet, filters: &Filters) -> Result<(), Stop> {
    let default = filters.output.list.default;
    if filters.own != Own::ForPassing
        || (default == filters.input.list.default && !sheet.leads_within)
    {
        return Ok(());
    }
    let mut lines = Lines::new(writer.alloc);
    put_call(writer, &mut lines, LEAVING, verdict(default))?;
    Ok(sheet.put_lines(&lines)?)
}

/// Appends the chain that INPUT and FORWARD call, if there is one.
fn put_common_chain(
    writer: &Writer,
    sheet: &mut Sheet,
    policy: &mut Policy,
    filters: &Filters,
) -> Result<(), Stop> {
    if filters.common.is_empty() {
        return Ok(());
    }
    sheet.declare(ARRIVING)?;
    let mut lines = Lines::new(writer.alloc);
    if filters.has_established {
        put_established(writer, &mut lines, ARRIVING)?;
    }
    let everywhere = policy.space.full(DST);
    let mut style = policy.style(Settings::iptables().with_exits(), everywhere)?;
    let rules = filters.common.as_slice();
    let here = writer.for_delivered();
    sheet.put_rules(&here, policy, &mut style, &mut lines, ARRIVING, rules)?;
    sheet.put_group(
        b"# What arrives, whether it is delivered or forwarded.",
        &lines,
    )?;
    sheet.put_all_waiting(&here, policy, &mut style)
}

/// Appends the head of the table filter, with the policies of its chains.
fn put_policies(out: &mut Text, filters: &Filters) -> Result<(), Memory> {
    put_line(out, b"*filter")?;
    put_chain(out, b"INPUT", filters.input.list.default != DROP)?;
    put_chain(out, b"FORWARD", filters.forward.list.default != DROP)?;
    put_chain(out, b"OUTPUT", filters.output.list.default != DROP)
}

/// The rules of the table filter, gathered by colours where that is asked.
fn filter_sheet(
    writer: &Writer,
    policy: &mut Policy,
    filters: &Filters,
    gathers: bool,
) -> Result<Sheet, Stop> {
    let mut sheet = Sheet::gathering(writer.alloc, gathers);
    put_filter_chains(writer, &mut sheet, policy, filters)?;
    Ok(sheet)
}

/// Appends the chains of the table filter.
fn put_filter_chains(
    writer: &Writer,
    sheet: &mut Sheet,
    policy: &mut Policy,
    filters: &Filters,
) -> Result<(), Stop> {
    put_common_chain(writer, sheet, policy, filters)?;
    let heading = Heading {
        name: b"INPUT",
        text: b"# What is delivered to the host itself.",
    };
    let lines = input_lines(writer, filters)?;
    put_filter_chain(
        writer,
        sheet,
        policy,
        Hook::Input,
        heading,
        &filters.input,
        lines,
    )?;
    let heading = Heading {
        name: b"FORWARD",
        text: b"# What is forwarded.",
    };
    let lines = forward_lines(writer, policy, filters)?;
    put_filter_chain(
        writer,
        sheet,
        policy,
        Hook::Forward,
        heading,
        &filters.forward,
        lines,
    )?;
    put_output(writer, sheet, policy, filters)
}

/// The text of the table filter, with rules gathered by colours where that is asked.
fn filter_text(
    writer: &Writer,
    policy: &mut Policy,
    filters: &Filters,
    gathers: bool,
) -> Result<Version, Stop> {
    let sheet = filter_sheet(writer, policy, filters, gathers)?;
    let mut text = Text::new(writer.alloc);
    put_policies(&mut text, filters)?;
    text.put(sheet.heads.as_slice())?;
    text.put(sheet.body.as_slice())?;
    put_line(&mut text, b"COMMIT")?;
    Ok(Version {
        text,
        count: sheet.count,
    })
}

/// A text of the table filter.
#[derive(Drop)]
struct Version {
    /// The text.
    text: Text,
    /// How many rules it has.
    count: usize,
}

/// Whether so many rules are no more than those of the best version so far, or there is none.
fn is_as_short(best: &Option<Version>, count: usize) -> bool {
    match best {
        Some(before) => count <= before.count,
        None => true,
    }
}

/// Takes a version where it has no more rules than the best one so far; nothing where it can't be written.
fn take_shorter(best: &mut Option<Version>, found: Result<Version, Stop>) -> Result<(), Memory> {
    match found {
        Ok(version) => {
            if is_as_short(best, version.count) {
                *best = Some(version);
            }
            Ok(())
        }
        Err(Stop::Late) => Ok(()),
        Err(Stop::Memory) => Err(Memory),
    }
}

/// The most rules of the chains of a version that are gathered.
const MOST_GATHERED: usize = 200;

/// Whether the chains of a version have so few rules that these are gathered.
fn are_few(filters: &Filters) -> bool {
    let arriving = filters.common.len();
    let met = filters.input.list.rules.len();
    let forwarded = filters.forward.list.rules.len();
    let sent = filters.output.list.rules.len();
    arriving
        .saturating_add(met)
        .saturating_add(forwarded)
        .saturating_add(sent)
        <= MOST_GATHERED
}

/// Takes the shortest of some versions where it has no more rules than the best one so far.
fn take_shortest(
    writer: &Writer,
    policy: &mut Policy,
    versions: &[Filters],
    gathers: bool,
    best: &mut Option<Version>,
) -> Result<(), Memory> {
    for filters in versions {
        if !gathers || are_few(filters) {
            let version = filter_text(writer, policy, filters, gathers);
            take_shorter(best, version)?;
        }
    }
    Ok(())
}

/// Appends the table filter in the version of its chains that has fewest rules, and gives their number.
fn put_filter(
    writer: &Writer,
    out: &mut Text,
    policy: &mut Policy,
    versions: &[Filters],
) -> Result<usize, Stop> {
    let mut best: Option<Version> = None;
    for gathers in [true, false] {
        take_shortest(writer, policy, versions, gathers, &mut best)?;
    }
    match &best {
        Some(best) => {
            out.put(best.text.as_slice())?;
            Ok(best.count)
        }
        None => Err(Stop::Late),
    }
}

/// Appends the tables, of the table filter the version that has fewest rules, and gives the number of all rules.
pub(crate) fn put_tables(
    writer: &Writer,
    out: &mut Text,
    policy: &mut Policy,
    translations: &Translations,
    versions: &[Filters],
) -> Result<usize, Stop> {
    let mangle = put_mangle(writer, out, policy, translations)?;
    let nat = put_nat(writer, out, policy, translations)?;
    let filter = put_filter(writer, out, policy, versions)?;
    Ok(mangle.saturating_add(nat).saturating_add(filter))
}
