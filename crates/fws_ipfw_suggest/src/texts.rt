//! Texts that may do what tables say.

ghost use Rattle.fws_net.specs.Routes.{IsSound};

use crate::script::Script;
use crate::tight::put_tight;
use crate::united::put_united;
use crate::working::put_working;
use fws_flat::Flat;
use fws_net::Site;
use fws_num::{Memory, Text};
use fws_suggest::{Established, Policy, Stop};
use fws_tree::Tables;
use std::alloc::Global;

/// A way to write a policy.
#[derive(Clone, Copy, PartialEq, Eq)]
enum Form {
    /// One list for both directions.
    United,
    /// Translations ahead of `check-state` by one instance for all, and filters behind it.
    Single,
    /// Translations ahead of `check-state`, and filters behind it.
    Working,
    /// Lists in which a rule that translates ends the pass.
    Tight,
}

/// A text, and how many lines it has.
#[derive(Drop)]
struct Attempt {
    text: Text,
    count: usize,
}

/// Appends the rules of a form. It gives up where there are none.
fn put_form(
    script: &mut Script,
    policy: &mut Policy,
    site: &Site,
    established: Established,
    form: Form,
) -> Result<(), Stop> {
    match form {
        Form::United => put_united(script, policy, site, established),
        Form::Single => put_working(script, policy, site, established, true),
        Form::Working => put_working(script, policy, site, established, false),
        Form::Tight => put_tight(script, policy, site, established),
    }
}

/// The text of rules, with a warning where that is asked.
fn text_of(alloc: Global, script: &Script, warns: bool) -> Result<Text, Stop> {
    let mut text = Text::of(
        alloc,
        b"# Suggested by FWS for ipfw(8), and checked packet by packet to do what the policy does. It is loaded with: ipfw -q FILE\n# Rules are added to those that are there: begin with an empty list (ipfw flush).\n# one_pass has to be as in the site file (sysctl net.inet.ip.fw.one_pass).\n",
    )?;
    if warns {
        text.put(
            b"# Replies to translated packets ask for net.inet.ip.fw.one_pass=0 on the host and in the site file.\n",
        )?;
    }
    if !script.put_text(&mut text)? {
        return Err(Stop::Late);
    }
    Ok(text)
}

/// The text of a form for a policy. It gives up where there is none.
fn written(policy: &mut Policy, tables: &Tables, site: &Site, form: Form) -> Result<Attempt, Stop> {
    let established = policy.established(&tables.est, true)?;
    let translates = policy.sources.len() > 1 || policy.destinations.len() > 1;
    let mut script = Script::new(policy.alloc);
    put_form(&mut script, policy, site, established, form)?;
    let text = text_of(policy.alloc, &script, form == Form::Tight && translates)?;
    Ok(Attempt {
        text,
        count: script.count(),
    })
}

/// The text of a form. It gives up where there is none.
fn tried(
    alloc: Global,
    tables: &Tables,
    site: &Site,
    hints: &Flat,
    form: Form,
) -> Result<Attempt, Stop>
    requires { IsSound site.now }
{
    let mut policy = Policy::new(alloc, tables, site)?;
    policy.note_hints(hints)?;
    written(&mut policy, tables, site, form)
}

/// What a form gives: nothing where it gives up.
fn found(
    alloc: Global,
    tables: &Tables,
    site: &Site,
    hints: &Flat,
    form: Form,
) -> Result<Option<Attempt>, Memory>
    requires { IsSound site.now }
{
    match tried(alloc, tables, site, hints, form) {
        Ok(attempt) => Ok(Some(attempt)),
        Err(Stop::Late) => Ok(None),
        Err(Stop::Memory) => Err(Memory),
    }
}

/// Appends a text that was found.
fn put_found(texts: &mut Vec<Text>, attempt: Option<Attempt>) -> Result<(), Memory> {
    if let Some(attempt) = attempt {
        texts.push(attempt.text)?;
    }
    Ok(())
}

/// How many lines a text has that was found.
fn count_of(attempt: &Option<Attempt>) -> usize {
    match attempt {
        Some(attempt) => attempt.count,
        None => 0,
    }
}

/// Appends two texts, the shorter one first.
fn put_shorter_first(
    texts: &mut Vec<Text>,
    one: Option<Attempt>,
    other: Option<Attempt>,
) -> Result<(), Memory> {
    if count_of(&one) <= count_of(&other) {
        put_found(texts, one)?;
        put_found(texts, other)
    } else {
        put_found(texts, other)?;
        put_found(texts, one)
    }
}

/// Appends the texts that are found, best first.
fn put_texts(
    texts: &mut Vec<Text>,
    alloc: Global,
    tables: &Tables,
    site: &Site,
    hints: &Flat,
) -> Result<(), Memory>
    requires { IsSound site.now }
{
    let united = found(alloc, tables, site, hints, Form::United)?;
    if !site.one_pass && united.is_none() {
        put_found(texts, found(alloc, tables, site, hints, Form::Single)?)?;
        put_found(texts, found(alloc, tables, site, hints, Form::Working)?)?;
    }
    if count_of(&united) > MANY {
        return put_found(texts, united);
    }
    let tight = found(alloc, tables, site, hints, Form::Tight)?;
    put_shorter_first(texts, united, tight)
}

/// With so many lines one list for both directions is enough.
const MANY: usize = 100;

/// Texts of ipfw that may do what the tables say, best first: none where the search gave up. Nothing is promised of them. Fails if
/// memory runs out.
pub fn suggest(
    alloc: Global,
    tables: &Tables,
    site: &Site,
    hints: &Flat,
) -> Result<Vec<Text>, Memory>
    requires { IsSound site.now }
{
    let mut texts = Vec::new(alloc);
    put_texts(&mut texts, alloc, tables, site, hints)?;
    Ok(texts)
}
