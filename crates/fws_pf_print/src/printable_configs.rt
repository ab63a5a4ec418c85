//! Which configurations are printed.

ghost use Rattle.std.specs.Prelude.{◌≡◌, true, false, not, nat_eq, length, if◌then◌else◌};
ghost use Rattle.std.specs.List.{list_all};
ghost use Rattle.std.specs.Option.{option_map_or};
ghost use Rattle.fws_pf_print.specs.Printable.{all_tags, is_printable, is_printed_end, is_printed_port, is_printed_rule, is_printed_translation, place_written, skips_none};

use crate::conditions::{protocol_tested, tested};
use crate::sets::{are_translation_tests, is_block, is_port_protocol, is_printed_cond};
use crate::tags::{all_tags, are_named};
use fws_iv::Ivs;
use fws_net::{End, Lit, Site};
use fws_pf::{PfConfig, PfNat, PfRule};

/// Whether the rule keeps state just where it passes packets.
fn keeps_where_it_passes(r: &PfRule) -> bool
    ensures { result ≡ (if r.now.pass then r.now.keep else not r.now.keep) }
{
    if r.pass { r.keep } else { !r.keep }
}

/// Whether the filter rule is printed.
fn is_printed_rule(site: &Site, r: &PfRule) -> bool
    ensures { result ≡ is_printed_rule site.now r.now }
{
    !r.quick && keeps_where_it_passes(r) && is_printed_cond(site, r.cond.lits())
}

/// Whether all filter rules are printed.
fn are_printed_rules(site: &Site, rules: &[PfRule]) -> bool
    ensures { result ≡ list_all (is_printed_rule site.now) rules.now }
{
    rules.iter().all(|r| is_printed_rule(site, r))
}

/// Whether a port may be written: over destinations alone, and under TCP or UDP.
fn is_printed_port(redirects: bool, cond: &[Lit], port: Option<u16>) -> bool
    ensures { result ≡ is_printed_port redirects cond.now port }
{
    match port {
        Some(_) => redirects && is_port_protocol(protocol_tested(cond)),
        None => true,
    }
}

/// The place of the addresses over which a translation writes: destinations or else sources.
fn place_written(redirects: bool) -> u8
    ensures { result ≡ place_written redirects }
{
    if redirects { 4 } else { 2 }
}

/// Whether the end is printed: a whole address, or fewer bits where the addresses that are written over are
/// asked for and agree in so many.
fn is_printed_end(redirects: bool, cond: &[Lit], e: End) -> bool
    ensures { result ≡ is_printed_end redirects cond.now e }
{
    if e.len == 32 {
        is_printed_port(redirects, cond, e.port)
    } else {
        is_block(e.len, tested(cond, place_written(redirects)))
    }
}

/// Whether the end is printed, if there is one.
fn is_printed_target(redirects: bool, cond: &[Lit], to: Option<End>) -> bool
    ensures { result ≡ option_map_or (is_printed_end redirects cond.now) to true }
{
    match to {
        Some(e) => is_printed_end(redirects, cond, e),
        None => true,
    }
}

/// Whether the translation is printed, of destinations or else of sources.
fn is_printed_translation(site: &Site, redirects: bool, nat: &PfNat) -> bool
    ensures { result ≡ is_printed_translation site.now redirects nat.now }
{
    !nat.past
        && is_printed_cond(site, nat.cond.lits())
        && are_translation_tests(nat.cond.lits())
        && is_printed_target(redirects, nat.cond.lits(), nat.to)
}

/// Whether all translations are printed.
fn are_printed_translations(site: &Site, redirects: bool, nats: &[PfNat]) -> bool
    ensures { result ≡ list_all (is_printed_translation site.now redirects) nats.now }
{
    nats.iter()
        .all(|nat| is_printed_translation(site, redirects, nat))
}

/// Whether no interface is skipped.
fn skips_none(skip: &Ivs) -> bool
    ensures { result ≡ skips_none skip.now }
{
    match skip.parts() {
        [] => true,
        [_, ..] => false,
    }
}

/// Whether the text names as many tags as there are, numbered by their first places.
fn names_all_tags(c: &PfConfig) -> bool
    ensures { result ≡ option_map_or (nat_eq (length c.now.tags)) (all_tags c.now) false }
{
    match all_tags(c) {
        Some(known) => c.tags.len() as u64 == known,
        None => false,
    }
}

/// Whether the configuration can be printed: it skips no interface, all its translations and rules are
/// printed, and its tags are `n0`, `n1` and so on, numbered by their first places in the text. The time is
/// linear.
pub fn printable(c: &PfConfig, site: &Site) -> bool
    ensures { result ≡ is_printable site.now c.now }
{
    skips_none(&c.skip)
        && are_printed_translations(site, true, c.rdr.as_slice())
        && are_printed_translations(site, false, c.nat.as_slice())
        && are_printed_rules(site, c.filter.as_slice())
        && are_named(c.tags.as_slice())
        && names_all_tags(c)
}
