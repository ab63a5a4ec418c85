//! Lines of rules as they are printed, with comments ahead of sections.

ghost use Rattle.std.specs.Prelude.{◌≡◌, ◌∷◌, ◌++◌, [], map, OnOk};
ghost use Rattle.fws_num.specs.Written.{ended};
ghost use Rattle.fws_ipfw_print.specs.PrintedText.{comment_between, rule_lines, sections};

use crate::rules::put_rule;
use fws_ipfw::IpfwRule;
use fws_net::Site;
use fws_num::{Memory, Text};
use std::alloc::Global;

/// The sections that rules of placed policies stand in, from the last to the first: where each begins, and
/// a comment on it.
const SECTIONS: [(u32, &[u8]); 9] = [
    (
        60000,
        b"# Sources of new packets are translated, by their tags.",
    ),
    (10000, b"# Destinations of new packets are translated."),
    (7000, b"# What becomes of new packets of the host."),
    (6000, b"# What becomes of new packets that arrive."),
    (
        5000,
        b"# The look-up of connections. New packets that arrive get tag 1.",
    ),
    (
        4000,
        b"# Packets of connections of the host, as they leave.",
    ),
    (
        3000,
        b"# Packets of connections that are forwarded, as they leave.",
    ),
    (
        2000,
        b"# As they leave, new packets that have arrived go on at the look-up, and all of the host at its section.",
    ),
    (
        1000,
        b"# Packets of connections as they arrive: those that are never accepted are dropped.",
    ),
];

/// Appends the comment on the first of these sections that begins behind one number and not behind another.
fn put_comment(out: &mut Text, rows: &[(u32, &[u8])], from: u32, to: u32) -> Result<(), Memory>
    ensures { OnOk result (out.new ≡ out.old ++ ended (comment_between from to (map (λ row. (row.0, row.1.now)) rows.now))) }
{
    for row in rows {
        if from < row.0 && row.0 <= to {
            out.put(row.1)?;
            out.put(b"\n")?;
            return Ok(());
        }
    }
    Ok(())
}

/// Appends the comment on the last section that begins behind one number and not behind another, if any does.
fn put_section(out: &mut Text, from: u32, to: u32) -> Result<(), Memory>
    ensures { OnOk result (out.new ≡ out.old ++ ended (comment_between from to sections)) }
{
    put_comment(out, &SECTIONS, from, to)?;
    Ok(())
}

/// Appends the lines of rules, behind a rule with this number.
fn put_rules_from(
    out: &mut Text,
    alloc: Global,
    site: &Site,
    first: u32,
    rules: &[IpfwRule],
) -> Result<(), Memory>
    ensures { OnOk result (out.new ≡ out.old ++ ended (rule_lines site.now first rules.now)) }
{
    let mut from = first;
    for r in rules {
        put_section(out, from, r.number)?;
        put_rule(out, alloc, site, r)?;
        from = r.number;
    }
    Ok(())
}

/// Appends the lines of the rules.
pub fn put_rules(
    out: &mut Text,
    alloc: Global,
    site: &Site,
    rules: &[IpfwRule],
) -> Result<(), Memory>
    ensures { OnOk result (out.new ≡ out.old ++ ended (rule_lines site.now 0 rules.now)) }
{
    put_rules_from(out, alloc, site, 0, rules)?;
    Ok(())
}
