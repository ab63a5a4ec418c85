//! Texts that may do what tables say.

ghost use Rattle.fws_net.specs.Routes.{IsSound};

use crate::chains::{Ahead, Filters, Own, Translations};
use crate::common::{Base, put_shared, with_output_shared};
use crate::filter::{Asked, Hook, asked_at, filtered};
use crate::passing::passing;
use crate::rules::Writer;
use crate::tables::put_tables;
use crate::text::put_line;
use crate::translation::{Early, ahead, redirected, sent};
use fws_flat::Flat;
use fws_net::{Lang, Site};
use fws_num::{Memory, Text};
use fws_suggest::{Diagram, Established, Policy, Stop};
use fws_tree::Tables;
use std::alloc::Global;

/// What is dropped ahead of translations, as far as established packets ask for it; then new ones too, as early as that is asked.
fn before_translations(
    policy: &mut Policy,
    original: Diagram,
    established: Option<Diagram>,
    early: Early,
    source: &Flat,
) -> Result<Ahead, Stop> {
    if established.is_some() {
        return ahead(policy, original, established, None, early, source);
    }
    Ok(Ahead {
        rules: Vec::new(policy.alloc),
    })
}

/// How addresses are translated, and what is dropped ahead of it: destinations of packets that pass alone where that is asked.
fn translations_of(
    policy: &mut Policy,
    site: &Site,
    established: Option<Diagram>,
    early: Early,
    is_strict: bool,
    source: &Flat,
) -> Result<Translations, Stop> {
    let original = policy.fresh;
    let mut before = before_translations(policy, original, established, early, source)?;
    let redirected = redirected(
        policy,
        original,
        established,
        &mut before,
        is_strict,
        source,
    )?;
    let sent = sent(policy, site, redirected.behind)?;
    Ok(Translations {
        before,
        redirected,
        sent,
    })
}

/// What the chains of the table filter are asked for.
#[derive(Clone, Copy)]
struct Questions {
    input: Asked,
    forward: Asked,
    output: Asked,
}

/// What the chains are asked for, where rules count so.
fn questions_of(
    policy: &mut Policy,
    fresh: Diagram,
    established: Option<Diagram>,
    calls_chains: bool,
) -> Result<Questions, Stop> {
    Ok(Questions {
        input: asked_at(policy, Hook::Input, fresh, established, calls_chains)?,
        forward: asked_at(policy, Hook::Forward, fresh, established, calls_chains)?,
        output: asked_at(policy, Hook::Output, fresh, established, calls_chains)?,
    })
}

/// The chains of the table filter, each by itself.
fn base_of(policy: &mut Policy, questions: Questions, hints: &Flat) -> Result<Base, Stop> {
    let input = filtered(policy, Hook::Input, questions.input, hints)?;
    let forward = filtered(policy, Hook::Forward, questions.forward, hints)?;
    let output = filtered(policy, Hook::Output, questions.output, hints)?;
    let filters = Filters {
        common: Vec::new(policy.alloc),
        has_established: false,
        own: Own::Apart,
        input,
        forward,
        output,
    };
    Ok(Base {
        filters,
        input: questions.input,
        forward: questions.forward,
    })
}

/// Puts versions of the chains with what some have in common, and at last as they are.
fn put_versions(
    policy: &mut Policy,
    base: Base,
    hints: &Flat,
    versions: &mut Vec<Filters>,
) -> Result<(), Memory> {
    match put_shared(policy, &base, hints, versions) {
        Ok(()) | Err(Stop::Late) => {}
        Err(Stop::Memory) => return Err(Memory),
    }
    let Base {
        filters,
        input: _,
        forward: _,
    } = base;
    versions.push(filters)?;
    Ok(())
}

/// The chains in which FORWARD calls the rules of OUTPUT, where that is right and found.
fn sharing_output(
    policy: &mut Policy,
    base: &Base,
    output: Asked,
    hints: &Flat,
) -> Result<Option<Base>, Stop> {
    if policy.space.size() > MOST_WORDS {
        return Ok(None);
    }
    with_output_shared(policy, base, output, hints)
}

/// The most words of diagrams with which it is tried whether FORWARD may call the rules of OUTPUT.
const MOST_WORDS: usize = 500_000;

/// Puts the version of the chains in which all that arrives is asked in one, where that is right and found.
fn put_passing(
    policy: &mut Policy,
    plain: &Base,
    output: Asked,
    hints: &Flat,
    versions: &mut Vec<Filters>,
) -> Result<(), Memory> {
    if policy.space.size() > MOST_WORDS_PASSING {
        return Ok(());
    }
    match passing(policy, plain, output, hints) {
        Ok(Some(filters)) => versions.push(filters)?,
        Ok(None) | Err(Stop::Late) => {}
        Err(Stop::Memory) => return Err(Memory),
    }
    Ok(())
}

/// The most words of diagrams with which it is tried to ask all that arrives in one chain.
const MOST_WORDS_PASSING: usize = 200_000;

/// Puts versions of the chains, with the rules of OUTPUT shared and without.
fn put_all_versions(
    policy: &mut Policy,
    plain: Base,
    output: Asked,
    hints: &Flat,
    versions: &mut Vec<Filters>,
) -> Result<(), Memory> {
    put_passing(policy, &plain, output, hints, versions)?;
    match sharing_output(policy, &plain, output, hints) {
        Ok(Some(shared)) => put_versions(policy, shared, hints, versions)?,
        Ok(None) | Err(Stop::Late) => {}
        Err(Stop::Memory) => return Err(Memory),
    }
    put_versions(policy, plain, hints, versions)
}

/// Puts versions of the chains whose lists are sought as if rules led to chains of their own, or as if none did.
fn put_plain_versions(
    policy: &mut Policy,
    fresh: Diagram,
    established: Option<Diagram>,
    calls_chains: bool,
    hints: &Flat,
    versions: &mut Vec<Filters>,
) -> Result<(), Stop> {
    let questions = questions_of(policy, fresh, established, calls_chains)?;
    let plain = base_of(policy, questions, hints)?;
    put_all_versions(policy, plain, questions.output, hints, versions)?;
    Ok(())
}

/// Puts versions of the chains whose lists begin with the source's own rules, where there is room; nothing where the search gave up.
fn put_following_versions(
    policy: &mut Policy,
    fresh: Diagram,
    established: Option<Diagram>,
    hints: &Flat,
    versions: &mut Vec<Filters>,
) -> Result<(), Stop> {
    if policy.space.size() > MOST_WORDS_PASSING {
        return Ok(());
    }
    let lent = policy.lend(LENT);
    policy.follows_source = true;
    let put = put_plain_versions(policy, fresh, established, true, hints, versions);
    policy.follows_source = false;
    policy.give_back(lent);
    put
}

/// Puts versions of the chains for which long rules count as much as short ones, where there is room; nothing where the search gave up.
fn put_terse_versions(
    policy: &mut Policy,
    fresh: Diagram,
    established: Option<Diagram>,
    hints: &Flat,
    versions: &mut Vec<Filters>,
) -> Result<(), Stop> {
    if policy.space.size() > MOST_WORDS_PASSING {
        return Ok(());
    }
    let lent = policy.lend(LENT);
    policy.counts_lines = true;
    let put = put_plain_versions(policy, fresh, established, true, hints, versions);
    policy.counts_lines = false;
    policy.give_back(lent);
    put
}

/// In how many parts steps are lent for further versions.
const LENT: u64 = 4;

/// Nothing where the search gave up.
fn if_found(put: Result<(), Stop>) -> Result<(), Memory> {
    match put {
        Ok(()) | Err(Stop::Late) => Ok(()),
        Err(Stop::Memory) => Err(Memory),
    }
}

/// Versions of the chains of the table filter: each by itself, and with what some have in common. Of those that are as short the last
/// one counts.
fn versions_of(
    policy: &mut Policy,
    behind: Diagram,
    established: Option<Diagram>,
    hints: &Flat,
) -> Result<Vec<Filters>, Stop> {
    let fresh = policy.verdict(behind)?;
    let mut others = Vec::new(policy.alloc);
    let questions = questions_of(policy, fresh, established, true)?;
    let plain = base_of(policy, questions, hints)?;
    // what is left is for writing them
    let before = policy.hold_back(3);
    put_all_versions(policy, plain, questions.output, hints, &mut others)?;
    if_found(put_plain_versions(policy, fresh, established, false, hints, &mut others))?;
    policy.let_go(before);
    let mut versions = Vec::new(policy.alloc);
    if_found(put_terse_versions(policy, fresh, established, hints, &mut versions))?;
    if_found(put_following_versions(policy, fresh, established, hints, &mut versions))?;
    for filters in others {
        versions.push(filters)?;
    }
    Ok(versions)
}

/// Appends the head: what the text is, and which interface is which where the site has names of its own for them.
fn put_head(out: &mut Text, site: &Site) -> Result<(), Memory> {
    put_line(
        out,
        b"# Suggested by FWS for iptables-restore(8), and checked packet by packet to do what the policy does.",
    )?;
    put_line(
        out,
        b"# Tables that aren't named here have to be empty: iptables-restore leaves them as they are.",
    )?;
    for face in site.faces.as_slice() {
        put_interface_line(out, face.names.name_in(Lang::Iptables), &face.name)?;
    }
    Ok(())
}

/// Appends the line that says how the site calls an interface, where that is another name.
fn put_interface_line(out: &mut Text, name: &Text, at_site: &Text) -> Result<(), Memory> {
    if name.as_slice() == at_site.as_slice() {
        return Ok(());
    }
    out.put(b"# ")?;
    out.put(name.as_slice())?;
    out.put(b" is ")?;
    out.put(at_site.as_slice())?;
    put_line(out, b".")
}

/// A text.
#[derive(Drop)]
struct Suggestion {
    /// The text.
    text: Text,
    /// How many rules it has.
    count: usize,
    /// Whether packets whose destination is written get a mark.
    is_marked: bool,
}

/// The text that is found of a policy, in which destinations of packets that pass alone are written where that is asked. It gives up
/// where there is none.
fn found(
    policy: &mut Policy,
    established: Established,
    site: &Site,
    hints: &Flat,
    early: Early,
    is_strict: bool,
) -> Result<Suggestion, Stop> {
    let ahead = established.ahead;
    let translations = translations_of(policy, site, ahead, early, is_strict, hints)?;
    let behind = translations.redirected.behind;
    let versions = versions_of(policy, behind, established.behind, hints)?;
    let writer = Writer {
        alloc: policy.alloc,
        site,
        entries: policy.entries,
        marks: &[],
        asks_local: false,
    };
    let mut text = Text::new(policy.alloc);
    put_head(&mut text, site)?;
    let count = put_tables(&writer, &mut text, policy, &translations, &versions)?;
    Ok(Suggestion {
        text,
        count,
        is_marked: translations.redirected.is_tagged,
    })
}

/// Puts a text among others by how many rules it has, behind those with as many; nothing where the search gave up.
fn put_found(all: &mut Vec<Suggestion>, found: Result<Suggestion, Stop>) -> Result<(), Memory> {
    match found {
        Ok(found) => {
            let place = all
                .iter()
                .filter(|before| before.count <= found.count)
                .count();
            if place <= all.len() {
                all.insert(place, found)?;
            }
            Ok(())
        }
        Err(Stop::Late) => Ok(()),
        Err(Stop::Memory) => Err(Memory),
    }
}

/// How early new packets may have to be dropped, where all is dropped as it arrives: what is dropped as it is forwarded, whether it is
/// new or established, need not be, where destinations stay.
fn early_of(policy: &Policy, established: Established) -> Early {
    match established.behind {
        Some(later) => {
            if policy.destinations.len() == 1 {
                Early::Unless(later)
            } else {
                Early::Must
            }
        }
        None => Early::Must,
    }
}

/// Puts the texts in which all is dropped as it arrives, whether it is new or established, where that can be told of some of what is
/// established.
fn put_whole(
    all: &mut Vec<Suggestion>,
    policy: &mut Policy,
    tables: &Tables,
    site: &Site,
    hints: &Flat,
) -> Result<(), Stop> {
    let established = policy.established(&tables.est, true)?;
    if established.ahead.is_some() {
        let early = early_of(policy, established);
        let whole = found(policy, established, site, hints, early, false);
        put_found(all, whole)?;
    }
    Ok(())
}

/// The most rules of a text beside which another one is sought, where established packets are dropped in one place.
const MOST_RULES: usize = 300;

/// Whether there is a text, and those with fewest rules are long.
fn is_long(all: &[Suggestion]) -> bool {
    match all.first() {
        Some(first) => first.count > MOST_RULES,
        None => false,
    }
}

/// Whether some established packets are dropped as they arrive, and others behind the translation of destinations.
fn is_split(established: Established) -> bool {
    established.ahead.is_some() && established.behind.is_some()
}

/// Whether packets get marks in the text with fewest rules.
fn is_marked(all: &[Suggestion]) -> bool {
    match all.first() {
        Some(first) => first.is_marked,
        None => false,
    }
}

/// Puts the text that is found in half of the steps that are left, where there is one.
fn put_within(
    all: &mut Vec<Suggestion>,
    policy: &mut Policy,
    established: Established,
    site: &Site,
    hints: &Flat,
    is_strict: bool,
) -> Result<(), Memory> {
    let before = policy.hold_back(2);
    let text = found(policy, established, site, hints, Early::May, is_strict);
    policy.let_go(before);
    put_found(all, text)
}

/// The texts that are found of tables, those with fewest rules first.
fn all_found(
    alloc: Global,
    tables: &Tables,
    site: &Site,
    hints: &Flat,
) -> Result<Vec<Suggestion>, Stop>
    requires { IsSound site.now }
{
    let mut policy = Policy::new(alloc, tables, site)?;
    let original = policy.fresh;
    let established = policy.established(&tables.est, false)?;
    let mut all = Vec::new(alloc);
    put_within(&mut all, &mut policy, established, site, hints, false)?;
    if is_long(&all) && !is_split(established) {
        return Ok(all);
    }
    if is_marked(&all) {
        policy.fresh = original;
        put_within(&mut all, &mut policy, established, site, hints, true)?;
    }
    policy.fresh = original;
    match put_whole(&mut all, &mut policy, tables, site, hints) {
        Ok(()) | Err(Stop::Late) => Ok(all),
        Err(Stop::Memory) => Err(Stop::Memory),
    }
}

/// Texts of iptables that may do what the tables say, best first: none where the search gave up. Nothing is promised of them. Fails
/// if memory runs out.
pub fn suggest(
    alloc: Global,
    tables: &Tables,
    site: &Site,
    hints: &Flat,
) -> Result<Vec<Text>, Memory>
    requires { IsSound site.now }
{
    let mut texts = Vec::new(alloc);
    match all_found(alloc, tables, site, hints) {
        Ok(all) => {
            for found in all {
                let Suggestion {
                    text,
                    count: _,
                    is_marked: _,
                } = found;
                texts.push(text)?;
            }
        }
        Err(Stop::Late) => {}
        Err(Stop::Memory) => return Err(Memory),
    }
    Ok(texts)
}
