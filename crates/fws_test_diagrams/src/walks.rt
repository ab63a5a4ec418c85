//! What lines say of a diagram, against what the diagram and its flat code do.

ghost use Rattle.fws_net.specs.Routes.{IsSound};

use crate::cases::{Scene, Tally, Walk};
use crate::diagrams::{diagram_of, names_of};
use crate::rules::chain_named;
use crate::stop::Stop;
use crate::words::decimal;
use fws_flat::{Flat, model as flat_model};
use fws_ifcl::{Ifcl, Place, ifcl_ok, model as diagram_model};
use fws_num::{Items, Line, Memory, Text, Word, split_once, value_named};
use fws_unfold::{UnfoldAnswer, unfold_from};
use std::alloc::Global;

/// A diagram, and what its unfolding gave.
#[derive(Clone, Copy)]
struct Drawn<'a> {
    /// The names of its chains, in their order.
    names: &'a [Text],
    /// The diagram.
    diagram: &'a Ifcl,
    /// Its flat code with the rules that the instructions stand for, or why there is none.
    unfolded: &'a Result<(Flat, Vec<Option<Place>>), UnfoldAnswer>,
}

/// The place of a word `CHAIN.RULE`.
fn place_of(names: &[Text], word: &Word) -> Result<Place, Stop> {
    let Some((name, rule)) = split_once(word.text.as_slice(), b'.') else {
        return Err(Stop::Malformed);
    };
    Ok(Place {
        chain: chain_named(names, name)?,
        rule: decimal(rule)?,
    })
}

/// The places of words.
fn places_of(alloc: Global, names: &[Text], words: &[Word]) -> Result<Items<Place>, Stop> {
    let mut places = Items::new(alloc);
    for word in words {
        places.put(place_of(names, word)?)?;
    }
    Ok(places)
}

/// Whether both walks come to the outcome, that of the flat code where there is some.
fn comes_to(alloc: Global, scene: &Scene, drawn: &Drawn, walk: &Walk) -> Result<bool, Stop>
    requires { IsSound scene.now.site.now }
{
    let site = scene.site;
    let walked = diagram_model::walk_packet(alloc, drawn.diagram, site, &walk.packet, &walk.kind)?;
    if walked != walk.outcome {
        return Ok(false);
    }
    match drawn.unfolded {
        Ok((flat, _)) => {
            let walked = flat_model::walk_packet(alloc, flat, site, &walk.packet, &walk.kind)?;
            Ok(walked == walk.outcome)
        }
        Err(_) => Ok(true),
    }
}

/// The rules for which the instructions with these numbers stand.
fn told(alloc: Global, rules: &[Option<Place>], numbers: &[u32]) -> Result<Items<Place>, Memory> {
    let mut told = Items::new(alloc);
    for number in numbers {
        if let Some(Some(place)) = rules.get(*number as usize) {
            told.put(*place)?;
        }
    }
    Ok(told)
}

/// Whether the instructions with these numbers stand for the rules.
fn tell_all(
    alloc: Global,
    rules: &[Option<Place>],
    numbers: &[u32],
    wanted: &Items<Place>,
) -> Result<bool, Memory> {
    let told = told(alloc, rules, numbers)?;
    Ok(told == *wanted)
}

/// Whether the instructions that the packet uses stand for these rules, one behind the other.
fn uses_in_code(
    alloc: Global,
    scene: &Scene,
    walk: &Walk,
    flat: &Flat,
    rules: &[Option<Place>],
    wanted: &Items<Place>,
) -> Result<bool, Memory>
    requires { IsSound scene.now.site.now }
{
    let used = flat_model::used_places(alloc, flat, scene.site, &walk.packet, &walk.kind)?;
    tell_all(alloc, rules, used.as_slice(), wanted)
}

/// Whether the packet uses these rules, one behind the other, in the diagram.
fn uses_in_diagram(
    alloc: Global,
    scene: &Scene,
    drawn: &Drawn,
    walk: &Walk,
    wanted: &Items<Place>,
) -> Result<bool, Memory>
    requires { IsSound scene.now.site.now }
{
    let used = diagram_model::used_places(
        alloc,
        drawn.diagram,
        scene.site,
        &walk.packet,
        &walk.kind,
    )?;
    Ok(used == *wanted)
}

/// Whether the packet uses these rules, one behind the other, in the diagram and in its flat code.
fn uses_all(
    alloc: Global,
    scene: &Scene,
    drawn: &Drawn,
    walk: &Walk,
    wanted: &Items<Place>,
) -> Result<bool, Memory>
    requires { IsSound scene.now.site.now }
{
    if !uses_in_diagram(alloc, scene, drawn, walk, wanted)? {
        return Ok(false);
    }
    match drawn.unfolded {
        Ok((flat, rules)) => uses_in_code(alloc, scene, walk, flat, rules.as_slice(), wanted),
        Err(_) => Ok(true),
    }
}

/// Whether the packet uses an instruction that stands for the rule at the place.
fn uses_flat(
    alloc: Global,
    scene: &Scene,
    walk: &Walk,
    flat: &Flat,
    rules: &[Option<Place>],
    at: Place,
) -> Result<bool, Stop>
    requires { IsSound scene.now.site.now }
{
    let mut number: u32 = 0;
    for rule in rules {
        if *rule == Some(at)
            && flat_model::uses(alloc, flat, scene.site, &walk.packet, &walk.kind, number)?
        {
            return Ok(true);
        }
        number = number.saturating_add(1);
    }
    Ok(false)
}

/// Whether the packet uses the rule at the place or doesn't, as wanted, in the diagram and in its flat code.
fn uses_so(
    alloc: Global,
    scene: &Scene,
    drawn: &Drawn,
    walk: &Walk,
    at: Place,
    wanted: bool,
) -> Result<bool, Stop>
    requires { IsSound scene.now.site.now }
{
    let used = diagram_model::uses(
        alloc,
        drawn.diagram,
        scene.site,
        &walk.packet,
        &walk.kind,
        at,
    )?;
    if used != wanted {
        return Ok(false);
    }
    match drawn.unfolded {
        Ok((flat, rules)) => {
            Ok(uses_flat(alloc, scene, walk, flat, rules.as_slice(), at)? == wanted)
        }
        Err(_) => Ok(true),
    }
}

/// Whether of the chain's rules the packet uses those that are wanted.
fn uses_of_chain(
    alloc: Global,
    scene: &Scene,
    drawn: &Drawn,
    walk: &Walk,
    chain: u32,
    rules: usize,
    wanted: &[Place],
) -> Result<bool, Stop>
    requires { IsSound scene.now.site.now }
{
    let mut rule: u32 = 0;
    for _ in 0..rules {
        let at = Place { chain, rule };
        if !uses_so(alloc, scene, drawn, walk, at, wanted.contains(&at))? {
            return Ok(false);
        }
        rule = rule.saturating_add(1);
    }
    Ok(true)
}

/// Whether of all rules the packet uses those that are wanted.
fn uses_each(
    alloc: Global,
    scene: &Scene,
    drawn: &Drawn,
    walk: &Walk,
    wanted: &[Place],
) -> Result<bool, Stop>
    requires { IsSound scene.now.site.now }
{
    let mut number: u32 = 0;
    for chain in drawn.diagram.chains.as_slice() {
        if !uses_of_chain(alloc, scene, drawn, walk, number, chain.rules.len(), wanted)? {
            return Ok(false);
        }
        number = number.saturating_add(1);
    }
    Ok(true)
}

/// Whether the packet uses these rules, in this order, and no others.
fn uses_just(
    alloc: Global,
    scene: &Scene,
    drawn: &Drawn,
    walk: &Walk,
    wanted: &Items<Place>,
) -> Result<bool, Stop>
    requires { IsSound scene.now.site.now }
{
    Ok(
        uses_all(alloc, scene, drawn, walk, wanted)?
            && uses_each(alloc, scene, drawn, walk, wanted.as_slice())?,
    )
}

/// Whether the packet uses the rules that words name, in this order, and no others.
fn uses_named(
    alloc: Global,
    scene: &Scene,
    drawn: &Drawn,
    walk: &Walk,
    places: &[Word],
) -> Result<bool, Stop>
    requires { IsSound scene.now.site.now }
{
    let wanted = places_of(alloc, drawn.names, places)?;
    uses_just(alloc, scene, drawn, walk, &wanted)
}

/// Whether a line `walk PACKET CLASS : OUTCOME : PLACE ..` is so; the places may be left out.
fn walks_so(alloc: Global, scene: &Scene, drawn: &Drawn, words: &[Word]) -> Result<bool, Stop>
    requires { IsSound scene.now.site.now }
{
    let walk = scene.walk_of(words)?;
    if !comes_to(alloc, scene, drawn, &walk)? {
        return Ok(false);
    }
    match walk.places {
        Some(places) => uses_named(alloc, scene, drawn, &walk, places),
        None => Ok(true),
    }
}

/// Whether the diagram is refused for this reason at this chain.
fn refused_so(drawn: &Drawn, reason: &Word, chain: &Word) -> Result<bool, Stop> {
    let chain = chain_named(drawn.names, chain.text.as_slice())?;
    let reasons: [(&[u8], UnfoldAnswer); 3] = [
        (b"loop", UnfoldAnswer::Loop(chain)),
        (b"deep", UnfoldAnswer::Deep(chain)),
        (b"long", UnfoldAnswer::Long(chain)),
    ];
    let Some(wanted) = value_named(&reasons, reason.text.as_slice()) else {
        return Err(Stop::Malformed);
    };
    match drawn.unfolded {
        Ok(_) => Ok(false),
        Err(answer) => Ok(*answer == wanted),
    }
}

/// Whether what a line says of a diagram is so: `walk ..`, `refused loop|deep|long CHAIN` or `unfolds`. None where it says
/// nothing of what the diagram does.
fn is_so(alloc: Global, scene: &Scene, drawn: &Drawn, line: &Line) -> Result<Option<bool>, Stop>
    requires { IsSound scene.now.site.now }
{
    match line.words.as_slice() {
        [kind, words @ ..] if kind.is(b"walk") => Ok(Some(walks_so(alloc, scene, drawn, words)?)),
        [kind, reason, chain] if kind.is(b"refused") => Ok(Some(refused_so(drawn, reason, chain)?)),
        [kind] if kind.is(b"unfolds") => Ok(Some(drawn.unfolded.is_ok())),
        _ => Ok(None),
    }
}

/// Tries what the lines say of a diagram.
fn judge_lines(
    alloc: Global,
    scene: &Scene,
    drawn: &Drawn,
    tally: &mut Tally,
    head: &Line,
    lines: &[Line],
) -> Result<(), Stop>
    requires { IsSound scene.now.site.now }
{
    for line in lines {
        if let Some(agrees) = is_so(alloc, scene, drawn, line)? {
            tally.count_line(agrees, head, line)?;
        }
    }
    Ok(())
}

/// Unfolds a diagram whose chains have these names, and tries what the lines say of it.
fn judge_drawn(
    alloc: Global,
    scene: &Scene,
    names: &[Text],
    diagram: &Ifcl,
    tally: &mut Tally,
    head: &Line,
    lines: &[Line],
) -> Result<(), Stop>
    requires { IsSound scene.now.site.now }
{
    if !ifcl_ok(diagram) {
        return Err(Stop::Malformed);
    }
    match &unfold_from(alloc, diagram) {
        Err(UnfoldAnswer::Memory) => Err(Stop::Memory),
        unfolded => {
            let drawn = Drawn {
                names,
                diagram,
                unfolded,
            };
            judge_lines(alloc, scene, &drawn, tally, head, lines)
        }
    }
}

/// Tries a diagram whose chains have these names: the lines behind its first one.
fn judge_named(
    alloc: Global,
    scene: &Scene,
    names: &[Text],
    tally: &mut Tally,
    head: &Line,
    lines: &[Line],
) -> Result<(), Stop>
    requires { IsSound scene.now.site.now }
{
    let diagram = diagram_of(alloc, scene.site, names, lines)?;
    judge_drawn(alloc, scene, names, &diagram, tally, head, lines)
}

/// Tries a diagram: the lines behind its first one, `diagram NAME ..`.
pub fn judge_diagram(
    alloc: Global,
    scene: &Scene,
    tally: &mut Tally,
    head: &Line,
    lines: &[Line],
) -> Result<(), Stop>
    requires { IsSound scene.now.site.now }
{
    let names = names_of(alloc, lines)?;
    judge_named(alloc, scene, names.as_slice(), tally, head, lines)
}
