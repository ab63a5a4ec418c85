//! Checks of a whole rule (pf.conf(5)).

ghost use Rattle.std.specs.Prelude.{◌≡◌, List, nat_lt, IfOk};
ghost use Rattle.fws_pf.specs.declared.tables.Table.{Table};
ghost use Rattle.fws_pf.specs.Drawn.{choices, condition_count, expanded_with, has_ports, has_target_port, lacks_protocol, maps_too_many, rule_checks, written_over};
ghost use Rattle.fws_pf_words.specs.Limits.{within_limit};
ghost use Rattle.fws_pf_read.specs.Places.{draft_count};
ghost use Rattle.fws_pf_read.specs.Views.{draft_of};

use crate::draft::Draft;
use crate::drawn::draft_count;
use fws_net::Checks;
use fws_num::Memory;
use fws_pf::Verb;
use fws_pf_words::{ItemList, Tables, expanded_by, has_port_protocol, has_protocol, maps_blocks};
use std::alloc::Global;

/// Whether a port is written.
fn has_target_port(d: &Draft) -> bool
    ensures { result ≡ has_target_port (draft_of d.now) }
{
    match d.target {
        Some(target) => target.port.is_some(),
        None => false,
    }
}

/// Whether it has a test of ports, or writes one.
fn has_ports(d: &Draft) -> bool
    ensures { result ≡ has_ports (draft_of d.now) }
{
    1 <= d.source_ports.len() || 1 <= d.destination_ports.len() || has_target_port(d)
}

/// Whether it has a test of ports, flags or types without the protocol that has them.
pub(crate) fn lacks_protocol(d: &Draft) -> bool
    ensures { result ≡ lacks_protocol (draft_of d.now) }
{
    (has_ports(d) && !has_port_protocol(&d.protocols))
        || (d.tests_flags && !has_protocol(6, &d.protocols))
        || (d.has_icmp_type && !has_protocol(1, &d.protocols))
}

/// The addresses over which a translation writes.
fn written_over(d: &Draft) -> &ItemList
    ensures { result.now ≡ written_over d.now.verb (draft_of d.now) }
{
    match d.verb {
        Verb::Nat => &d.sources,
        Verb::Block | Verb::Pass | Verb::Rdr => &d.destinations,
    }
}

/// Whether a network is mapped from other addresses than those of one network as large.
fn maps_too_many(alloc: Global, tables: &Tables, d: &Draft) -> Result<bool, Memory>
    ensures { IfOk result (λ b. b ≡ maps_too_many tables.now (draft_of d.now)) }
{
    match d.target {
        Some(target) => {
            if !target.is_mapped {
                return Ok(false);
            }
            let maps = maps_blocks(alloc, tables, target.net.len, written_over(d))?;
            Ok(!maps)
        }
        None => Ok(false),
    }
}

/// How many rules statements make that make more than one, with those of this one; none where they are more than
/// 200,000.
fn draft_expanded(expanded: u64, d: &Draft) -> Option<u64>
    ensures { result ≡ within_limit (expanded_with expanded (draft_count (draft_of d.now))) }
{
    expanded_by(expanded, draft_count(d))
}

/// Whether there are too many by the rule's lists.
fn exceeds_limit(expanded: u64, d: &Draft) -> bool
    ensures { result ≡ nat_lt 200000 (expanded_with expanded (draft_count (draft_of d.now))) }
{
    draft_expanded(expanded, d).is_none()
}

/// Whether statements that make more than one rule make too many with this one.
pub(crate) fn is_expanded(expanded: u64, d: &Draft) -> bool
    ensures { (tables : List Table) → result ≡ nat_lt 200000 (expanded_with expanded (condition_count (choices tables (draft_of d.now)))) }
{
    exceeds_limit(expanded, d)
}

/// The checks of a whole rule, behind statements that made so many rules where they made more than one.
pub(crate) fn draft_checks(
    alloc: Global,
    tables: &Tables,
    expanded: u64,
    d: &Draft,
) -> Result<Checks, Memory>
    ensures { IfOk result (λ c. c ≡ rule_checks tables.now expanded (draft_of d.now)) }
{
    Ok(Checks {
        left_out: maps_too_many(alloc, tables, d)?,
        backward: false,
        shape: lacks_protocol(d),
        expand: is_expanded(expanded, d),
    })
}
