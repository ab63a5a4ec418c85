//! The rules of lists.

use crate::script::{Mark, Script};
use crate::writer::{Way, Writer};
use fws_num::{Memory, Text, put_dec};
use fws_suggest::{ACCEPT, DROP, ENTRY, List, Phrases, Policy, Rule, Stop, Style};
use std::alloc::Global;

/// Appends what is put ahead of `check-state`. What isn't dropped goes on at the mark.
pub(crate) fn put_ahead(
    script: &mut Script,
    writer: &Writer,
    policy: &mut Policy,
    style: &mut Style,
    rules: &[Rule],
    way: Way,
    mark: Mark,
) -> Result<(), Stop> {
    for rule in rules {
        let body = writer.body(policy, style, &rule.region, way)?;
        if rule.colour == DROP {
            script.put_all(b"deny", &body, b"")?;
        } else {
            script.put_skips(mark, &body)?;
        }
    }
    Ok(())
}

/// Whether rules ask whether packets have come in.
pub(crate) fn asks_host(policy: &Policy, rules: &[Rule]) -> bool {
    for rule in rules {
        let side = rule.region.side(ENTRY);
        if side == policy.host || side == policy.arriving {
            return true;
        }
    }
    false
}

/// The action of a rule that translates by an instance.
pub(crate) fn nat(alloc: Global, number: u32) -> Result<Text, Memory> {
    let mut text = Text::of(alloc, b"nat ")?;
    put_dec(&mut text, u64::from(number))?;
    Ok(text)
}

/// The action of a rule that translates by an instance and puts a tag on what it translates.
fn tagging(alloc: Global, number: u32, tag: u32) -> Result<Text, Memory> {
    let mut text = nat(alloc, number)?;
    text.put(b" tag ")?;
    put_dec(&mut text, u64::from(tag))?;
    Ok(text)
}

/// The rule that passes what has a tag.
fn passing(alloc: Global, way: Way, tag: u32) -> Result<Text, Memory> {
    let mut text = Text::of(alloc, b"allow ip from any to any ")?;
    text.put(if way == Way::Leaving { b"out" } else { b"in" })?;
    text.put(b" tagged ")?;
    put_dec(&mut text, u64::from(tag))?;
    text.put(b" keep-state")?;
    Ok(text)
}

/// Appends rules that translate by an instance, and the one that passes what they tag.
fn put_tagging(
    script: &mut Script,
    alloc: Global,
    body: &Phrases,
    way: Way,
    number: u32,
) -> Result<(), Memory> {
    let tag = number.saturating_add(100);
    let action = tagging(alloc, number, tag)?;
    script.put_all(action.as_slice(), body, b"")?;
    let passes = passing(alloc, way, tag)?;
    script.put(passes.as_slice())
}

/// Appends rules that translate by an instance: where the pass goes on behind them with a tag, by which it is passed.
fn put_nat(
    script: &mut Script,
    writer: &Writer,
    body: &Phrases,
    way: Way,
    number: u32,
) -> Result<(), Memory> {
    if !writer.site.one_pass {
        return put_tagging(script, writer.alloc, body, way, number);
    }
    let action = nat(writer.alloc, number)?;
    script.put_all(action.as_slice(), body, b"")
}

/// Appends a rule: a colour above ACCEPT stands for the instance whose number it is with so many more, less one.
fn put_rule(
    script: &mut Script,
    writer: &Writer,
    policy: &mut Policy,
    style: &mut Style,
    rule: &Rule,
    way: Way,
    more: u32,
) -> Result<(), Stop> {
    let body = writer.body(policy, style, &rule.region, way)?;
    if rule.colour == DROP {
        script.put_all(b"deny", &body, b"")?;
    } else if rule.colour == ACCEPT {
        script.put_all(b"allow", &body, b" keep-state")?;
    } else {
        let number = rule.colour.saturating_sub(1).saturating_add(more);
        put_nat(script, writer, &body, way, number)?;
    }
    Ok(())
}

/// Appends rules: a colour above ACCEPT stands for the instance whose number it is with so many more, less one.
pub(crate) fn put_rules(
    script: &mut Script,
    writer: &Writer,
    policy: &mut Policy,
    style: &mut Style,
    rules: &[Rule],
    way: Way,
    more: u32,
) -> Result<(), Stop> {
    for rule in rules {
        put_rule(script, writer, policy, style, rule, way, more)?;
    }
    Ok(())
}

/// Appends the rules of a list, and one for what they leave.
pub(crate) fn put_list(
    script: &mut Script,
    writer: &Writer,
    policy: &mut Policy,
    style: &mut Style,
    list: &List,
    way: Way,
    more: u32,
) -> Result<(), Stop> {
    put_rules(script, writer, policy, style, &list.rules, way, more)?;
    if list.default == DROP {
        return Ok(());
    }
    let last = Rule {
        region: policy.everything(),
        colour: list.default,
    };
    put_rule(script, writer, policy, style, &last, way, more)
}
