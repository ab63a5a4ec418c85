//! The text of lists.

use crate::entries::body;
use crate::inward::Inward;
use crate::names::{name_at, put_list_name};
use fws_num::{Memory, Text};
use fws_suggest::{ACCEPT, DROP, Policy, Region, Rule, Stop, Style};

/// Appends entries that permit, each of which reflects.
fn put_permits(out: &mut Text, lines: &[Text], name: &[u8]) -> Result<(), Memory> {
    for line in lines {
        out.put(b" permit ")?;
        out.put(line.as_slice())?;
        out.put(b" reflect ")?;
        out.put(name)?;
        out.put(b"-NEW\n")?;
    }
    Ok(())
}

/// Appends entries that deny.
fn put_denials(out: &mut Text, lines: &[Text]) -> Result<(), Memory> {
    for line in lines {
        out.put(b" deny ")?;
        out.put(line.as_slice())?;
        out.put(b"\n")?;
    }
    Ok(())
}

/// Appends the entries of a rule.
fn put_rule(
    out: &mut Text,
    policy: &mut Policy,
    style: &mut Style,
    region: &Region,
    permits: bool,
    name: &[u8],
) -> Result<(), Stop> {
    let entries = body(policy, style, region)?;
    if permits {
        put_permits(out, entries.lines(), name)?;
    } else {
        put_denials(out, entries.lines())?;
    }
    Ok(())
}

/// Appends the entries of rules, which deny where their colour is DROP.
fn put_rules(
    out: &mut Text,
    policy: &mut Policy,
    style: &mut Style,
    rules: &[Rule],
    name: &[u8],
) -> Result<(), Stop> {
    for rule in rules {
        let permits = rule.colour != DROP;
        put_rule(out, policy, style, &rule.region, permits, name)?;
    }
    Ok(())
}

/// Appends the entries by which established packets pass.
fn put_evaluations(out: &mut Text, names: &[Text], entries: &[u32]) -> Result<(), Memory> {
    for entry in entries {
        out.put(b" evaluate ")?;
        out.put(name_at(names, *entry))?;
        out.put(b"\n")?;
    }
    Ok(())
}

/// Appends the line with which a list begins.
fn put_heading(out: &mut Text, names: &[Text], entries: &[u32]) -> Result<(), Memory> {
    out.put(b"ip access-list extended ")?;
    put_list_name(out, names, entries)?;
    out.put(b"\n")
}

/// Appends what stands behind the rules of a list.
fn put_ending(out: &mut Text, list: &Inward, name: &[u8]) -> Result<(), Memory> {
    if list.list.default == ACCEPT {
        out.put(b" permit ip any any reflect ")?;
        out.put(name)?;
        return out.put(b"-NEW\n");
    }
    if !list.evaluates && list.list.rules.is_empty() {
        return out.put(b" deny ip any any\n");
    }
    Ok(())
}

/// The name under which entries of a list reflect, without its ending.
fn own_name<'a>(names: &'a [Text], entries: &[u32]) -> &'a [u8] {
    match entries.first() {
        Some(entry) => name_at(names, *entry),
        None => b"",
    }
}

/// Appends a list for packets that come in.
fn put_list(
    out: &mut Text,
    policy: &mut Policy,
    style: &mut Style,
    list: &Inward,
    names: &[Text],
) -> Result<(), Stop> {
    let own = own_name(names, &list.entries);
    put_heading(out, names, &list.entries)?;
    put_rules(out, policy, style, &list.ahead, own)?;
    if list.evaluates {
        put_evaluations(out, names, &list.entries)?;
    }
    put_rules(out, policy, style, &list.list.rules, own)?;
    put_ending(out, list, own)?;
    Ok(())
}

/// Appends the lists for packets that come in.
pub(crate) fn put_lists(
    out: &mut Text,
    policy: &mut Policy,
    style: &mut Style,
    lists: &[Inward],
    names: &[Text],
) -> Result<(), Stop> {
    out.put(b"! what comes in\n")?;
    for list in lists {
        put_list(out, policy, style, list, names)?;
    }
    Ok(())
}

/// Whether some list is evaluated that reflects what leaves.
fn reflects(lists: &[Inward]) -> bool {
    for list in lists {
        if list.evaluates && list.entries.iter().any(|entry| *entry > 1) {
            return true;
        }
    }
    false
}

/// Appends the lists for packets that leave by some interfaces.
fn put_reflecting(out: &mut Text, names: &[Text], entries: &[u32]) -> Result<(), Memory> {
    for entry in entries {
        if *entry < 2 {
            continue;
        }
        out.put(b"ip access-list extended ")?;
        out.put(name_at(names, *entry))?;
        out.put(b"-OUT\n permit ip any any reflect ")?;
        out.put(name_at(names, *entry))?;
        out.put(b"\n")?;
    }
    Ok(())
}

/// Appends the lists for packets that leave, so that answers may come in.
pub(crate) fn put_leaving(out: &mut Text, lists: &[Inward], names: &[Text]) -> Result<(), Memory> {
    if reflects(lists) {
        out.put(b"! what leaves, so that answers may come in\n")?;
    }
    for list in lists {
        if list.evaluates {
            put_reflecting(out, names, &list.entries)?;
        }
    }
    Ok(())
}
