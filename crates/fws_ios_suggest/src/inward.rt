//! Lists for packets that come in.

use fws_num::Memory;
use fws_suggest::{
    ACCEPT, DROP, DST, Diagram, ENTRY, Established, List, Mask, Meeting, Policy, Rule, Side, Stop,
    Style, plain_colour, solved, task_for, verdict_task,
};

/// The colour of packets that are left to what stands behind.
const GO: u32 = 1;

/// The colour of packets that pass, be they new or established.
const PERMIT: u32 = 2;

/// What `evaluate` costs with the list for what leaves, which reflects it: two lines, in thousandths.
const EVALUATION: u64 = 2000;

/// The list of some interfaces.
#[derive(Drop)]
pub(crate) struct Inward {
    /// The interfaces.
    pub(crate) entries: Vec<u32>,
    /// Whether established packets are passed by `evaluate`.
    pub(crate) evaluates: bool,
    /// What stands ahead of `evaluate`, with a colour that isn't DROP where it permits.
    pub(crate) ahead: Vec<Rule>,
    /// What stands behind it, with the colours DROP and ACCEPT.
    pub(crate) list: List,
}

/// A list, and what it costs.
#[derive(Drop)]
struct Costed {
    list: Inward,
    cost: u64,
}

/// What a class of interfaces sees of new and of established packets.
#[derive(Clone, Copy, PartialEq, Eq)]
struct Sight {
    fresh: Diagram,
    established: Diagram,
}

/// The interfaces of a class, as entries of packets.
fn entries_of(policy: &mut Policy, class: &Class) -> Result<Side, Memory> {
    let mut entries = Side::EMPTY;
    for entry in &class.entries {
        let one = policy.space.range(ENTRY, *entry, *entry)?;
        entries = policy.space.either(entries, one)?;
    }
    Ok(entries)
}

/// Interfaces that see the same.
#[derive(Drop)]
struct Class {
    sight: Sight,
    entries: Vec<u32>,
}

/// What an interface sees of a diagram.
fn seen_at(policy: &mut Policy, diagram: Diagram, entry: u32) -> Result<Diagram, Stop> {
    let side = policy.space.range(ENTRY, entry, entry)?;
    let region = policy.everything().with(ENTRY, side);
    let kept = policy.space.keep(diagram, &region)?;
    policy.space.project(kept, ENTRY, Meeting::Both)
}

/// The diagram with a colour in the place of one, DROP or ACCEPT, and none in the place of the other.
fn only_where(policy: &mut Policy, diagram: Diagram, old: u32, new: u32) -> Result<Diagram, Stop> {
    let mask = policy.space.only(new)?;
    if old == DROP {
        policy.translated(diagram, &[mask, Mask::NONE])
    } else {
        policy.translated(diagram, &[Mask::NONE, mask])
    }
}

/// What may stand ahead of `evaluate`. It gives up where that can't be told.
fn ahead_by(policy: &mut Policy, sight: Sight) -> Result<Diagram, Stop> {
    let either = policy.space.mask(&[DROP, ACCEPT])?;
    let fresh = policy.replaced(sight.fresh, Mask::ALL, either)?;
    let established = policy.replaced(sight.established, Mask::ALL, either)?;
    let goes = only_where(policy, established, ACCEPT, GO)?;
    let one = only_where(policy, established, ACCEPT, PERMIT)?;
    let two = only_where(policy, fresh, ACCEPT, PERMIT)?;
    let passes = policy.space.meet(one, two)?;
    let one = only_where(policy, established, DROP, DROP)?;
    let two = only_where(policy, fresh, DROP, DROP)?;
    let drops = policy.space.meet(one, two)?;
    let decided = policy.space.met(passes, drops, Meeting::Either)?;
    let whole = policy.space.met(goes, decided, Meeting::Either)?;
    if policy.fails(whole)? {
        return Err(Stop::Late);
    }
    Ok(whole)
}

/// The list of what stands ahead of `evaluate`.
fn ahead_list(policy: &mut Policy, style: &mut Style, diagram: Diagram) -> Result<List, Stop> {
    let mut colours = Vec::new(policy.alloc);
    colours.push(plain_colour(DROP))?;
    colours.push(plain_colour(PERMIT))?;
    let task = task_for(policy.alloc, diagram, colours, &[GO])?;
    solved(policy, style, &task)
}

/// What stands ahead of `evaluate`.
fn ahead_of(policy: &mut Policy, style: &mut Style, sight: Sight) -> Result<List, Stop> {
    let least = policy.space.least_mask(sight.established);
    if policy.space.has(least, ACCEPT) {
        return Ok(List {
            rules: Vec::new(policy.alloc),
            default: GO,
            cost: 0,
        });
    }
    let diagram = ahead_by(policy, sight)?;
    ahead_list(policy, style, diagram)
}

/// The list of verdicts on packets from some entries.
fn verdict_list(
    policy: &mut Policy,
    style: &mut Style,
    diagram: Diagram,
    entries: Side,
) -> Result<List, Stop> {
    let mut task = verdict_task(policy.alloc, diagram, &[DROP, ACCEPT])?;
    task.hints = policy.hints_from(entries)?;
    solved(policy, style, &task)
}

/// The list behind rules and `evaluate`.
fn list_behind(
    policy: &mut Policy,
    style: &mut Style,
    sight: Sight,
    entries: Side,
    ahead: &[Rule],
) -> Result<List, Stop> {
    let painted = policy.painted(ahead, GO)?;
    let left = policy.where_it_is(painted, GO)?;
    let rest = policy.space.met(sight.fresh, left, Meeting::Either)?;
    verdict_list(policy, style, rest, entries)
}

/// What a list costs with the entry behind its rules.
fn whole_cost(list: &List) -> u64 {
    let last = if list.default == ACCEPT { 1000 } else { 0 };
    list.cost.saturating_add(last)
}

/// The list in which established packets are passed by `evaluate`, and what it costs.
fn evaluating(
    policy: &mut Policy,
    style: &mut Style,
    sight: Sight,
    entries: Side,
) -> Result<Costed, Stop> {
    let ahead = ahead_of(policy, style, sight)?;
    let list = list_behind(policy, style, sight, entries, &ahead.rules)?;
    let cost = whole_cost(&list)
        .saturating_add(ahead.cost)
        .saturating_add(EVALUATION);
    Ok(Costed {
        list: Inward {
            entries: Vec::new(policy.alloc),
            evaluates: true,
            ahead: ahead.rules,
            list,
        },
        cost,
    })
}

/// What new and established packets of a class may both do. It gives up where they have to fare otherwise.
fn shared(policy: &mut Policy, sight: Sight) -> Result<Diagram, Stop> {
    let both = policy.space.meet(sight.fresh, sight.established)?;
    if policy.fails(both)? {
        return Err(Stop::Late);
    }
    Ok(both)
}

/// The list in which new and established packets fare alike, and what it costs.
fn alike(
    policy: &mut Policy,
    style: &mut Style,
    sight: Sight,
    entries: Side,
) -> Result<Costed, Stop> {
    let both = shared(policy, sight)?;
    let list = verdict_list(policy, style, both, entries)?;
    let cost = whole_cost(&list);
    Ok(Costed {
        list: Inward {
            entries: Vec::new(policy.alloc),
            evaluates: false,
            ahead: Vec::new(policy.alloc),
            list,
        },
        cost,
    })
}

/// What a search gave: nothing where it gave up.
fn found(outcome: Result<Costed, Stop>) -> Result<Option<Costed>, Stop> {
    match outcome {
        Ok(costed) => Ok(Some(costed)),
        Err(Stop::Late) => Ok(None),
        Err(Stop::Memory) => Err(Stop::Memory),
    }
}

/// The second list where it costs clearly less than the first one.
fn cheaper(one: Costed, other: Costed) -> Inward {
    if other.cost.saturating_add(10) < one.cost {
        other.list
    } else {
        one.list
    }
}

/// The list that costs less of two that may be found.
fn chosen(one: Option<Costed>, other: Option<Costed>) -> Result<Inward, Stop> {
    let Some(one) = one else {
        return match other {
            Some(other) => Ok(other.list),
            None => Err(Stop::Late),
        };
    };
    match other {
        Some(other) => Ok(cheaper(one, other)),
        None => Ok(one.list),
    }
}

/// The cheaper list of a class.
fn list_of(policy: &mut Policy, style: &mut Style, class: &Class) -> Result<Inward, Stop> {
    let entries = entries_of(policy, class)?;
    let one = found(alike(policy, style, class.sight, entries))?;
    let other = found(evaluating(policy, style, class.sight, entries))?;
    chosen(one, other)
}

/// What an interface sees of new and of established packets.
fn sight_at(
    policy: &mut Policy,
    verdict: Diagram,
    tracked: Diagram,
    entry: u32,
) -> Result<Sight, Stop> {
    let mut fresh = seen_at(policy, verdict, entry)?;
    if !policy.forwarding {
        let region = policy.everything().with(DST, policy.local);
        fresh = policy.space.keep(fresh, &region)?;
    }
    let established = seen_at(policy, tracked, entry)?;
    Ok(Sight { fresh, established })
}

/// The place of the class that sees the same.
fn place_of(classes: &[Class], sight: Sight) -> Option<usize> {
    classes.iter().position(|class| class.sight == sight)
}

/// Puts an interface into the class that sees the same, or into a new one.
fn put_entry(
    classes: &mut Vec<Class>,
    policy: &Policy,
    sight: Sight,
    entry: u32,
) -> Result<(), Stop> {
    if let Some(place) = place_of(classes, sight) {
        if let Some(class) = classes.get_mut(place) {
            class.entries.push(entry)?;
        }
        return Ok(());
    }
    let mut entries = Vec::new(policy.alloc);
    entries.push(entry)?;
    classes.push(Class { sight, entries })?;
    Ok(())
}

/// The classes of interfaces that see the same.
fn classes_of(policy: &mut Policy, verdict: Diagram, tracked: Diagram) -> Result<Vec<Class>, Stop> {
    let mut classes = Vec::new(policy.alloc);
    for entry in 1..policy.entries {
        let sight = sight_at(policy, verdict, tracked, entry)?;
        put_entry(&mut classes, policy, sight, entry)?;
    }
    Ok(classes)
}

/// The list of a class.
fn class_list(policy: &mut Policy, style: &mut Style, class: &Class) -> Result<Inward, Stop> {
    let mut list = list_of(policy, style, class)?;
    list.entries.extend_from_slice(&class.entries)?;
    Ok(list)
}

/// Appends the lists of classes.
fn put_lists(
    lists: &mut Vec<Inward>,
    policy: &mut Policy,
    style: &mut Style,
    classes: &[Class],
) -> Result<(), Stop> {
    for class in classes {
        lists.push(class_list(policy, style, class)?)?;
    }
    Ok(())
}

/// Appends the lists for packets that come in, by classes of interfaces that see the same.
pub(crate) fn put_inward(
    lists: &mut Vec<Inward>,
    policy: &mut Policy,
    style: &mut Style,
    established: Established,
) -> Result<(), Stop> {
    let direct = policy.direct()?;
    let verdict = policy.verdict(direct)?;
    let accept = policy.space.only(ACCEPT)?;
    let passing = policy.space.leaf(accept)?;
    let tracked = established.ahead.unwrap_or(passing);
    let classes = classes_of(policy, verdict, tracked)?;
    put_lists(lists, policy, style, &classes)
}
