//! The text of statements.

use crate::draft::{Filter, Found, TAGGED, Translations};
use crate::filter::not_opening;
use crate::free::Free;
use crate::names::Names;
use crate::parts::parts_of;
use crate::sending::{end_at, nat_settings};
use fws_net::{End, Site, face_addr};
use fws_num::{Memory, Text, put_dec, put_quad};
use fws_suggest::{
    ACCEPT, DROP, DST, ENTRY, FLAGS, List, Marked, Policy, Region, Rule, Settings, Stop, Style,
};
use std::alloc::Global;

/// The lines of statements, and how many statements there are.
#[derive(Drop)]
pub(crate) struct Lines {
    pub(crate) text: Text,
    pub(crate) count: usize,
}

impl Lines {
    /// No statement.
    fn new(alloc: Global) -> Lines {
        Lines {
            text: Text::new(alloc),
            count: 0,
        }
    }

    /// Appends words of a statement.
    fn put(&mut self, words: &[u8]) -> Result<(), Memory> {
        self.text.put(words)
    }

    /// Appends the last words of a statement.
    fn end(&mut self, words: &[u8]) -> Result<(), Memory> {
        self.text.put(words)?;
        self.text.put(b"\n")?;
        self.count = self.count.saturating_add(1);
        Ok(())
    }

    /// Appends a heading.
    fn head(&mut self, heading: &[u8]) -> Result<(), Memory> {
        self.text.put(heading)?;
        self.text.put(b"\n")
    }
}

/// The interface of which the address is the first, where packets leave by it alone.
fn own_exit(
    policy: &mut Policy,
    style: &mut Style,
    site: &Site,
    region: &Region,
    end: End,
) -> Result<Option<u32>, Stop> {
    let destination = style.destination(&mut policy.space, region.side(DST))?;
    let Some(exits) = destination.exits else {
        return Ok(None);
    };
    if style.count(exits) != 1 {
        return Ok(None);
    }
    let entry = style.range(exits, 0).lo;
    let number = u8::try_from(entry).unwrap_or(0);
    if entry >= 2 && face_addr(site, number) == end.addr {
        return Ok(Some(entry));
    }
    Ok(None)
}

/// Appends the address, or the network with the word that maps it bit by bit.
fn put_target(out: &mut Text, end: End) -> Result<(), Memory> {
    put_quad(out, end.addr)?;
    if end.len < 32 {
        out.put(b"/")?;
        put_dec(out, u64::from(end.len))?;
        out.put(b" bitmask")?;
    }
    Ok(())
}

/// Appends the word of a tag that stands for entries.
fn put_entry_tag(out: &mut Text, mark: u32) -> Result<(), Memory> {
    out.put(b"IN")?;
    put_dec(out, u64::from(mark))
}

/// The mark of the entries of a region.
fn mark_of(policy: &Policy, marks: &[Marked], region: &Region) -> Result<Option<u32>, Stop> {
    let side = region.side(ENTRY);
    if marks.is_empty() || side == policy.space.full(ENTRY) {
        return Ok(None);
    }
    match marks.iter().find(|class| class.entries == side) {
        Some(class) => {
            if class.mark == 0 {
                Err(Stop::Late)
            } else {
                Ok(Some(class.mark))
            }
        }
        None => Err(Stop::Late),
    }
}

/// Appends what a statement that translates asks, which can't be flags or ICMP types.
fn put_plain(
    names: &mut Names,
    out: &mut Lines,
    policy: &mut Policy,
    style: &mut Style,
    region: &Region,
    is_leaving: bool,
) -> Result<(), Stop> {
    let parts = parts_of(names, policy, style, region, is_leaving)?;
    match parts.tails.as_slice() {
        [tail] => {
            out.put(parts.body.as_slice())?;
            out.put(tail.as_slice())?;
            Ok(())
        }
        _ => Err(Stop::Late),
    }
}

/// Appends the target of a statement that translates sources: the interface of which it is the address, where there is one.
fn put_sender(
    names: &mut Names,
    out: &mut Lines,
    policy: &mut Policy,
    style: &mut Style,
    region: &Region,
    end: End,
) -> Result<(), Stop> {
    if end.port.is_some() {
        return Err(Stop::Late);
    }
    match own_exit(policy, style, names.site, region, end)? {
        Some(entry) => {
            out.put(b"(")?;
            names.put_interface(&mut out.text, entry)?;
            out.put(b")")?;
        }
        None => put_target(&mut out.text, end)?,
    }
    Ok(())
}

/// Appends a statement that translates sources.
fn put_nat_rule(
    names: &mut Names,
    out: &mut Lines,
    policy: &mut Policy,
    style: &mut Style,
    translations: &Translations,
    rule: &Rule,
) -> Result<(), Stop> {
    let end = end_at(&policy.sources, rule.colour);
    out.put(if end.is_some() { b"nat " } else { b"no nat " })?;
    put_plain(names, out, policy, style, &rule.region, true)?;
    if translations.tags_sent && end.is_some() {
        out.put(b" tag NAT")?;
    }
    if let Some(mark) = mark_of(policy, &translations.marks, &rule.region)? {
        out.put(b" tagged ")?;
        put_entry_tag(&mut out.text, mark)?;
    }
    let Some(end) = end else {
        return Ok(out.end(b"")?);
    };
    out.put(b" -> ")?;
    put_sender(names, out, policy, style, &rule.region, end)?;
    Ok(out.end(b" static-port")?)
}

/// Appends the statements that translate sources, written in this way.
fn put_nat_rules(
    names: &mut Names,
    out: &mut Lines,
    policy: &mut Policy,
    style: &mut Style,
    translations: &Translations,
) -> Result<(), Stop> {
    for rule in &translations.sent {
        put_nat_rule(names, out, policy, style, translations, rule)?;
    }
    Ok(())
}

/// Appends the statements that translate sources.
fn put_nat(
    names: &mut Names,
    out: &mut Lines,
    policy: &mut Policy,
    translations: &Translations,
) -> Result<(), Stop> {
    let everywhere = policy.space.full(DST);
    let mut style = policy.style(nat_settings(policy).with_exits(), everywhere)?;
    put_nat_rules(names, out, policy, &mut style, translations)
}

/// Appends a statement that translates destinations.
fn put_rdr_rule(
    names: &mut Names,
    out: &mut Lines,
    policy: &mut Policy,
    style: &mut Style,
    is_tagged: bool,
    passes: bool,
    rule: &Rule,
) -> Result<(), Stop> {
    let Some(end) = end_at(&policy.destinations, rule.colour) else {
        out.put(b"no rdr ")?;
        put_plain(names, out, policy, style, &rule.region, false)?;
        return Ok(out.end(b"")?);
    };
    out.put(if passes { b"rdr pass " } else { b"rdr " })?;
    put_plain(names, out, policy, style, &rule.region, false)?;
    if is_tagged {
        out.put(b" tag RDR")?;
    }
    out.put(b" -> ")?;
    put_target(&mut out.text, end)?;
    if let Some(port) = end.port {
        out.put(b" port ")?;
        put_dec(&mut out.text, u64::from(port))?;
    }
    Ok(out.end(b"")?)
}

/// Appends the statements that translate destinations, written in this way.
fn put_rdr_rules(
    names: &mut Names,
    out: &mut Lines,
    policy: &mut Policy,
    style: &mut Style,
    translations: &Translations,
) -> Result<(), Stop> {
    for rule in &translations.redirected {
        put_rdr_rule(
            names,
            out,
            policy,
            style,
            translations.tags_redirected,
            translations.passes_redirected,
            rule,
        )?;
    }
    Ok(())
}

/// Appends the statements that translate destinations.
fn put_rdr(
    names: &mut Names,
    out: &mut Lines,
    policy: &mut Policy,
    translations: &Translations,
) -> Result<(), Stop> {
    let everywhere = policy.space.full(DST);
    let mut style = policy.style(nat_settings(policy), everywhere)?;
    put_rdr_rules(names, out, policy, &mut style, translations)
}

/// The region without flags, where the list leaves out what opens no connection and the flags are those of what opens one.
fn opened(policy: &mut Policy, region: &Region) -> Result<Region, Stop> {
    let full = policy.space.full(FLAGS);
    let side = region.side(FLAGS);
    if side == full {
        return Ok(*region);
    }
    let Some(others) = not_opening(policy)? else {
        return Ok(*region);
    };
    if policy.space.either(side, others)? == full {
        return Ok(region.with(FLAGS, full));
    }
    Ok(*region)
}

/// How a list of filter rules is written.
#[derive(Clone, Copy)]
struct Way<'a> {
    /// The word of the direction, with a blank behind it; nothing for both.
    direction: &'a [u8],
    /// Whether packets are asked for the interface where they leave.
    is_leaving: bool,
    /// Whether TCP packets that open no connection are left out.
    only_opens: bool,
    /// What passes are tagged with, with a blank ahead; nothing for no tag.
    tag: &'a [u8],
    /// Whether passes of the colour TAGGED alone are tagged so.
    tags_some: bool,
    /// Whether a colour stands for the tag of entries.
    has_marks: bool,
}

/// Appends the tag that a pass sets, with a blank ahead of it.
fn put_tag(out: &mut Lines, way: &Way, colour: u32) -> Result<(), Memory> {
    if !way.tags_some || colour == TAGGED {
        out.put(way.tag)?;
    }
    if way.has_marks {
        out.put(b" tag ")?;
        put_entry_tag(&mut out.text, colour.saturating_sub(ACCEPT))?;
    }
    Ok(())
}

/// Appends a statement that passes.
fn put_pass(
    out: &mut Lines,
    way: &Way,
    body: &[u8],
    tail: &[u8],
    asks_flags: bool,
    colour: u32,
) -> Result<(), Memory> {
    out.put(b"pass ")?;
    out.put(way.direction)?;
    out.put(b"quick ")?;
    out.put(body)?;
    out.put(tail)?;
    if !way.only_opens && !asks_flags {
        out.put(b" flags any")?;
    }
    out.put(b" keep state")?;
    put_tag(out, way, colour)?;
    out.end(b"")
}

/// Appends a statement that blocks.
fn put_block(out: &mut Lines, way: &Way, body: &[u8], tail: &[u8]) -> Result<(), Memory> {
    out.put(b"block ")?;
    out.put(way.direction)?;
    out.put(b"quick ")?;
    out.put(body)?;
    out.end(tail)
}

/// Appends the statements of a rule.
fn put_rule(
    names: &mut Names,
    out: &mut Lines,
    policy: &mut Policy,
    style: &mut Style,
    rule: &Rule,
    way: &Way,
) -> Result<(), Stop> {
    let passes = rule.colour != DROP;
    let region = if way.only_opens && passes {
        opened(policy, &rule.region)?
    } else {
        rule.region
    };
    let asks_flags = region.side(FLAGS) != policy.space.full(FLAGS);
    let parts = parts_of(names, policy, style, &region, way.is_leaving)?;
    let body = parts.body.as_slice();
    for tail in &parts.tails {
        let tail = tail.as_slice();
        if passes {
            put_pass(out, way, body, tail, asks_flags, rule.colour)?;
        } else {
            put_block(out, way, body, tail)?;
        }
    }
    Ok(())
}

/// Appends the statements of a list.
fn put_rules(
    names: &mut Names,
    out: &mut Lines,
    policy: &mut Policy,
    style: &mut Style,
    list: &List,
    way: &Way,
) -> Result<(), Stop> {
    for rule in &list.rules {
        put_rule(names, out, policy, style, rule, way)?;
    }
    if list.default != DROP {
        put_pass(out, way, b"all", b"", false, list.default)?;
    }
    Ok(())
}

/// Appends the statements for packets that come in.
fn put_coming(
    names: &mut Names,
    out: &mut Lines,
    policy: &mut Policy,
    filter: &Filter,
    has_marks: bool,
) -> Result<(), Stop> {
    let universe = if policy.forwarding || filter.is_one {
        policy.space.full(DST)
    } else {
        policy.local
    };
    let mut style = policy.style(Settings::pf(), universe)?;
    let tags_forwarded = !filter.is_one && !has_marks && filter.leaving.is_some();
    let way = Way {
        direction: if filter.is_one { b"" } else { b"in " },
        is_leaving: false,
        only_opens: filter.coming.opens_only,
        tag: if tags_forwarded { b" tag FWD" } else { b"" },
        tags_some: filter.asks_again,
        has_marks,
    };
    put_rules(names, out, policy, &mut style, &filter.coming.list, &way)
}

/// Whether some packets get the tag as they come in by which they pass out.
fn some_are_tagged(filter: &Filter) -> bool {
    let list = &filter.coming.list;
    if filter.asks_again {
        return list.default == TAGGED || list.rules.iter().any(|rule| rule.colour == TAGGED);
    }
    !list.rules.is_empty() || list.default != DROP
}

/// Appends the statements that let out what is known by its tag.
fn put_tagged(
    out: &mut Lines,
    forwarding: bool,
    translations: &Translations,
    filter: &Filter,
) -> Result<(), Memory> {
    if translations.tags_sent {
        out.end(b"pass out quick all flags any keep state tagged NAT")?;
    }
    if forwarding && translations.marks.is_empty() && some_are_tagged(filter) {
        out.end(b"pass out quick all flags any keep state tagged FWD")?;
    }
    if forwarding && !filter.asks_again {
        for class in &translations.marks {
            out.put(b"pass out quick all flags any keep state tagged ")?;
            put_entry_tag(&mut out.text, class.mark)?;
            out.end(b"")?;
        }
    }
    Ok(())
}

/// Appends the statements for packets that leave.
fn put_leaving(
    names: &mut Names,
    out: &mut Lines,
    policy: &mut Policy,
    translations: &Translations,
    filter: &Filter,
    leaving: &Found,
) -> Result<(), Stop> {
    put_tagged(out, policy.forwarding, translations, filter)?;
    let everywhere = policy.space.full(DST);
    let mut style = policy.style(Settings::pf().with_exits(), everywhere)?;
    let way = Way {
        direction: b"out ",
        is_leaving: true,
        only_opens: leaving.opens_only,
        tag: b"",
        tags_some: false,
        has_marks: false,
    };
    put_rules(names, out, policy, &mut style, &leaving.list, &way)
}

/// Appends the statement that passes all on interfaces, if there are any.
fn put_free(names: &mut Names, out: &mut Lines, free: &Free) -> Result<(), Memory> {
    if free.numbers.is_empty() {
        return Ok(());
    }
    out.put(b"pass quick on ")?;
    free.put_names(names, &mut out.text)?;
    out.end(b" all flags any keep state")
}

/// Appends the statements that filter.
fn put_filter(
    names: &mut Names,
    out: &mut Lines,
    policy: &mut Policy,
    translations: &Translations,
    free: &Free,
    filter: &Filter,
) -> Result<(), Stop> {
    out.head(b"\n# nothing passes that isn't passed below")?;
    out.end(b"block all")?;
    put_free(names, out, free)?;
    out.head(if filter.is_one {
        b"\n# what passes"
    } else {
        b"\n# what comes in"
    })?;
    let has_marks = !translations.marks.is_empty();
    put_coming(names, out, policy, filter, has_marks)?;
    if filter.is_one {
        return Ok(());
    }
    out.head(b"\n# what leaves")?;
    match &filter.leaving {
        Some(found) => put_leaving(names, out, policy, translations, filter, found)?,
        None => out.end(b"pass out quick all flags any keep state")?,
    }
    Ok(())
}

/// The statements of a suggestion.
pub(crate) fn statements(
    names: &mut Names,
    policy: &mut Policy,
    translations: &Translations,
    free: &Free,
    filter: &Filter,
) -> Result<Lines, Stop> {
    let mut out = Lines::new(names.alloc);
    if !translations.sent.is_empty() || !translations.redirected.is_empty() {
        out.head(b"\n# addresses are translated")?;
    }
    put_nat(names, &mut out, policy, translations)?;
    put_rdr(names, &mut out, policy, translations)?;
    put_filter(names, &mut out, policy, translations, free, filter)?;
    Ok(out)
}
