//! Texts that may do what tables say.

ghost use Rattle.fws_net.specs.Routes.{IsSound};

use crate::again::filtered_again;
use crate::draft::{Filter, Translations};
use crate::filter::filtered;
use crate::free::{Free, free_interfaces};
use crate::names::Names;
use crate::sending::{send, take_redirects};
use crate::text::statements;
use fws_flat::Flat;
use fws_net::Site;
use fws_num::{Memory, Text};
use fws_suggest::{Diagram, Policy, Stop};
use fws_tree::Tables;
use std::alloc::Global;

/// A text, and how many statements it has.
#[derive(Drop)]
struct Tried {
    text: Text,
    count: usize,
}

/// What is to be filtered, behind translations.
#[derive(Clone, Copy)]
struct Behind {
    verdict: Diagram,
    leaving: Diagram,
}

/// How addresses are translated, and what is left to be filtered.
fn translated(
    policy: &mut Policy,
    translations: &mut Translations,
    free: &Free,
    passes: bool,
) -> Result<Behind, Stop> {
    let redirected = take_redirects(policy, translations, passes)?;
    let leaving = send(policy, translations, free, redirected)?;
    let verdict = policy.verdict(redirected.behind)?;
    Ok(Behind { verdict, leaving })
}

/// The text with a filter of one list, or of two.
fn attempt(
    policy: &mut Policy,
    site: &Site,
    translations: &Translations,
    free: &Free,
    behind: Behind,
    is_one: bool,
) -> Result<Tried, Stop> {
    let filter = filtered(
        policy,
        behind.verdict,
        behind.leaving,
        &translations.marks,
        free,
        is_one,
    )?;
    written(policy, site, translations, free, &filter)
}

/// The text with a filter of two lists, of which what is forwarded meets both.
fn attempt_again(
    policy: &mut Policy,
    site: &Site,
    translations: &Translations,
    free: &Free,
    behind: Behind,
) -> Result<Tried, Stop> {
    let filter = filtered_again(policy, translations, behind.verdict, behind.leaving, free)?;
    written(policy, site, translations, free, &filter)
}

/// The text of a filter behind translations.
fn written(
    policy: &mut Policy,
    site: &Site,
    translations: &Translations,
    free: &Free,
    filter: &Filter,
) -> Result<Tried, Stop> {
    let mut names = Names::new(policy.alloc, site)?;
    let lines = statements(&mut names, policy, translations, free, filter)?;
    let mut text = Text::new(policy.alloc);
    put_all(&mut text, &names, lines.text.as_slice())?;
    Ok(Tried {
        text,
        count: lines.count,
    })
}

/// Appends the head, the macros and tables that are used, and the statements.
fn put_all(out: &mut Text, names: &Names, statements: &[u8]) -> Result<(), Memory> {
    out.put(
        b"# Suggested by FWS for pf of FreeBSD, and checked packet by packet to do what the policy does.\n# It is loaded with: pfctl -f FILE\n",
    )?;
    names.put_macros(out)?;
    names.put_tables(out)?;
    out.put(statements)
}

/// Puts a text among others by how many statements it has, behind those with as many; nothing where the search gave up.
fn put_tried(all: &mut Vec<Tried>, tried: Result<Tried, Stop>) -> Result<(), Memory> {
    match tried {
        Ok(tried) => {
            let place = all
                .iter()
                .filter(|before| before.count <= tried.count)
                .count();
            if place <= all.len() {
                all.insert(place, tried)?;
            }
            Ok(())
        }
        Err(Stop::Late) => Ok(()),
        Err(Stop::Memory) => Err(Memory),
    }
}

/// Puts the texts with a filter of one list, and of two, among the others; and where tables are small one in which what is forwarded meets both.
fn put_texts(
    all: &mut Vec<Tried>,
    policy: &mut Policy,
    site: &Site,
    free: &Free,
    is_small: bool,
    passes: bool,
) -> Result<(), Stop> {
    let mut translations = Translations {
        redirected: Vec::new(policy.alloc),
        tags_redirected: false,
        passes_redirected: false,
        sent: Vec::new(policy.alloc),
        tags_sent: false,
        marks: Vec::new(policy.alloc),
    };
    let behind = translated(policy, &mut translations, free, passes)?;
    for is_one in [true, false] {
        let tried = attempt(policy, site, &translations, free, behind, is_one);
        put_tried(all, tried)?;
    }
    if is_small {
        let tried = attempt_again(policy, site, &translations, free, behind);
        put_tried(all, tried)?;
    }
    Ok(())
}

/// As `put_texts`, with nothing put where the search gave up.
fn put_texts_if_found(
    all: &mut Vec<Tried>,
    policy: &mut Policy,
    site: &Site,
    free: &Free,
    is_small: bool,
    passes: bool,
) -> Result<(), Memory> {
    match put_texts(all, policy, site, free, is_small, passes) {
        Ok(()) | Err(Stop::Late) => Ok(()),
        Err(Stop::Memory) => Err(Memory),
    }
}

/// Puts the texts that are found; where tables are small also those in which redirected packets pass by that.
fn put_if_found(
    all: &mut Vec<Tried>,
    policy: &mut Policy,
    site: &Site,
    free: &Free,
    is_small: bool,
) -> Result<(), Memory> {
    put_texts_if_found(all, policy, site, free, is_small, false)?;
    if is_small && policy.destinations.len() > 1 {
        put_texts_if_found(all, policy, site, free, true, true)?;
    }
    Ok(())
}

/// As `put_if_found`, within half of the steps that are left.
fn put_within(
    all: &mut Vec<Tried>,
    policy: &mut Policy,
    site: &Site,
    free: &Free,
    is_small: bool,
) -> Result<(), Memory> {
    let before = policy.hold_back(2);
    let put = put_if_found(all, policy, site, free, is_small);
    policy.let_go(before);
    put
}

/// Puts the texts whose lists begin with the source's own rules among the others.
fn put_following(
    all: &mut Vec<Tried>,
    policy: &mut Policy,
    site: &Site,
    free: &Free,
) -> Result<(), Memory> {
    let lent = policy.lend(LENT);
    policy.follows_source = true;
    let put = put_if_found(all, policy, site, free, true);
    policy.follows_source = false;
    policy.give_back(lent);
    put
}

/// Puts the texts for which long statements count as much as short ones among the others.
fn put_terse(
    all: &mut Vec<Tried>,
    policy: &mut Policy,
    site: &Site,
    free: &Free,
) -> Result<(), Memory> {
    let lent = policy.lend(LENT);
    policy.counts_lines = true;
    let put = put_if_found(all, policy, site, free, true);
    policy.counts_lines = false;
    policy.give_back(lent);
    put
}

/// Puts the texts that are found of a policy, with interfaces on which all passes and without.
fn put_ways(all: &mut Vec<Tried>, policy: &mut Policy, site: &Site) -> Result<(), Stop> {
    let is_small = policy.space.size() < FEW_WORDS;
    let direct = policy.direct()?;
    let verdict = policy.verdict(direct)?;
    let loopback = free_interfaces(policy, verdict, false)?;
    let wide = free_interfaces(policy, verdict, true)?;
    if !loopback.numbers.is_empty() {
        put_within(all, policy, site, &loopback, is_small)?;
    }
    if wide.numbers.len() > loopback.numbers.len() && is_small {
        put_within(all, policy, site, &wide, is_small)?;
    }
    if all.is_empty() || is_small {
        let none = Free::none(policy);
        put_if_found(all, policy, site, &none, is_small)?;
    }
    if is_small {
        put_following(all, policy, site, &loopback)?;
        put_terse(all, policy, site, &loopback)?;
    }
    Ok(())
}

/// In how many parts steps are lent for further texts.
const LENT: u64 = 3;

/// The most words of diagrams with which more ways are tried once a text is found.
const FEW_WORDS: usize = 20_000;

/// The texts that are found of tables, those with fewest statements first. It gives up where established packets are dropped, which
/// pf can't ask.
fn all_found(alloc: Global, tables: &Tables, site: &Site, hints: &Flat) -> Result<Vec<Tried>, Stop>
    requires { IsSound site.now }
{
    let mut policy = Policy::new(alloc, tables, site)?;
    policy.note_hints(hints)?;
    let established = policy.established(&tables.est, false)?;
    if established.ahead.is_some() || established.behind.is_some() {
        return Err(Stop::Late);
    }
    let mut all = Vec::new(alloc);
    put_ways(&mut all, &mut policy, site)?;
    Ok(all)
}

/// Texts of pf that may do what the tables say, best first: none where the search gave up. Nothing is promised of them. Fails if
/// memory runs out.
pub fn suggest(
    alloc: Global,
    tables: &Tables,
    site: &Site,
    hints: &Flat,
) -> Result<Vec<Text>, Memory>
    requires { IsSound site.now }
{
    let mut texts = Vec::new(alloc);
    match all_found(alloc, tables, site, hints) {
        Ok(all) => {
            for tried in all {
                let Tried { text, count: _ } = tried;
                texts.push(text)?;
            }
        }
        Err(Stop::Late) => {}
        Err(Stop::Memory) => return Err(Memory),
    }
    Ok(texts)
}
