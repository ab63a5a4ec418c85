//! Tags and their names, which are numbered by their first places in the text.

ghost use Rattle.std.specs.Prelude.{◌≡◌, ◌∷◌, ◌++◌, OnOk};
ghost use Rattle.std.specs.Str.{bytes_eq};
ghost use Rattle.fws_pf_print.specs.Printable.{all_tags, are_named, behind_cond, behind_put, behind_rule, behind_rules, behind_tag, behind_test, behind_translation, behind_translations, tag_name};

use fws_net::{Lit, Test};
use fws_num::{Memory, Text, put_dec};
use fws_pf::{PfConfig, PfNat, PfRule};
use itoa::Buffer;

/// Appends a blank and the name of a tag.
pub fn put_tag_name(out: &mut Text, n: u32) -> Result<(), Memory>
    ensures { OnOk result (out.new ≡ out.old ++ 32 ∷ tag_name n) }
{
    out.put(b" n")?;
    put_dec(out, u64::from(n))?;
    Ok(())
}

/// Whether the text is the name of the tag with this number.
fn is_tag_name(name: &[u8], n: u64) -> bool
    ensures { result ≡ bytes_eq name.now (tag_name n) }
{
    let mut buffer = Buffer::new();
    match name {
        [first, digits @ ..] => *first == b'n' && *digits == *buffer.format(n).as_bytes(),
        [] => false,
    }
}

/// Whether these are the names of the tags from 0 on.
pub fn are_named(names: &[Text]) -> bool
    ensures { result ≡ are_named 0 names.now }
{
    let mut n = 0u64;
    for name in names {
        if !is_tag_name(name.as_slice(), n) {
            return false;
        }
        n += 1;
    }
    true
}

/// How many tags are known behind the name of one, where so many are known ahead of it. It is one of these,
/// or the next one.
fn behind_tag(n: u32, known: u64) -> Option<u64>
    ensures { result ≡ behind_tag n known }
{
    let tag = n as u64;
    if tag < known {
        Some(known)
    } else if tag == known {
        Some(tag + 1)
    } else {
        None
    }
}

/// How many tags are known behind a test.
fn behind_test(test: &Test, known: u64) -> Option<u64>
    ensures { result ≡ behind_test test.now known }
{
    match test {
        Test::Tag(n) => behind_tag(*n, known),
        Test::Via(_)
        | Test::Proto(_)
        | Test::Src(_)
        | Test::Sport(_)
        | Test::Dst(_)
        | Test::Dport(_)
        | Test::Flags { .. }
        | Test::Icmp(_)
        | Test::Recv(_)
        | Test::Xmit(_)
        | Test::Outward
        | Test::Est
        | Test::AnyFlag(_)
        | Test::Never => Some(known),
    }
}

/// How many tags are known behind a condition.
fn behind_cond(cond: &[Lit], first: u64) -> Option<u64>
    ensures { result ≡ behind_cond cond.now first }
{
    let mut known = first;
    for lit in cond {
        known = behind_test(&lit.test, known)?;
    }
    Some(known)
}

/// How many tags are known behind the one that a rule puts, if it does.
fn behind_put(tag: Option<u32>, known: u64) -> Option<u64>
    ensures { result ≡ behind_put tag known }
{
    match tag {
        Some(n) => behind_tag(n, known),
        None => Some(known),
    }
}

/// How many tags are known behind a filter rule, which asks for a tag ahead of the one that it puts.
fn behind_rule(r: &PfRule, known: u64) -> Option<u64>
    ensures { result ≡ behind_rule r.now known }
{
    let asked = behind_cond(r.cond.lits(), known)?;
    behind_put(r.tag, asked)
}

/// How many tags are known behind filter rules.
fn behind_rules(rules: &[PfRule], first: u64) -> Option<u64>
    ensures { result ≡ behind_rules rules.now first }
{
    let mut known = first;
    for r in rules {
        known = behind_rule(r, known)?;
    }
    Some(known)
}

/// How many tags are known behind a translation, which puts a tag ahead of the one that it asks for.
fn behind_translation(nat: &PfNat, known: u64) -> Option<u64>
    ensures { result ≡ behind_translation nat.now known }
{
    let put = behind_put(nat.tag, known)?;
    behind_cond(nat.cond.lits(), put)
}

/// How many tags are known behind translations.
fn behind_translations(nats: &[PfNat], first: u64) -> Option<u64>
    ensures { result ≡ behind_translations nats.now first }
{
    let mut known = first;
    for nat in nats {
        known = behind_translation(nat, known)?;
    }
    Some(known)
}

/// The tags that a whole text names, if they are numbered by their first places.
pub fn all_tags(c: &PfConfig) -> Option<u64>
    ensures { result ≡ all_tags c.now }
{
    let inward = behind_translations(c.rdr.as_slice(), 0)?;
    let outward = behind_translations(c.nat.as_slice(), inward)?;
    behind_rules(c.filter.as_slice(), outward)
}
