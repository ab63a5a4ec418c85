//! Which rules of a source decide where rules of another text are used. Points of the tables are walked through both; and a rule of the text
//! that decides at none of them is walked to by a packet that is made of its own condition.

ghost use Rattle.fws_net.specs.Routes.{IsSound};

use crate::aims::aimed;
use crate::deciders::Deciders;
use crate::pairs::{Origins, Pairs};
use crate::points::{Sight, points};
use crate::rules::{NONE, Told};
use crate::walking::{Ground, deciders};
use fws_net::Site;
use fws_num::Memory;
use fws_tree::Tables;
use std::alloc::Global;

/// How many points are looked at.
const MOST_POINTS: u64 = 4000;

/// How many instructions are met in all, at most.
const MOST_STEPS: u64 = 2_000_000;

/// How many instructions code has at most, so that it is walked.
const MOST_CODE: usize = 100_000;

/// A point, and the rules of the source that decide there.
#[derive(Drop)]
struct Found {
    sight: Sight,
    deciders: Deciders,
}

/// What is known of a source: which of its rules decide at points of its tables.
#[derive(Drop)]
pub struct Evidence<'a> {
    told: Option<Told<'a>>,
    numbers: Vec<u32>,
    found: Vec<Found>,
}

/// How many points code is walked for.
fn points_for(told: &Told) -> u64 {
    let code = told.code.code.as_slice().len();
    if code > MOST_CODE {
        return 0;
    }
    let size = (code as u64).saturating_add(16);
    MOST_STEPS.checked_div(size).unwrap_or(0).min(MOST_POINTS)
}

/// Appends the points, each with the rules of the source that decide there.
fn put_found(found: &mut Vec<Found>, ground: &Ground, sights: &[Sight]) -> Result<(), Memory>
    requires { IsSound ground.now.site.now }
{
    for sight in sights {
        let deciders = deciders(ground, sight)?;
        found.push(Found {
            sight: *sight,
            deciders,
        })?;
    }
    Ok(())
}

/// The points of tables that a source may be walked for, each with the rules of it that decide there.
fn found_at(
    alloc: Global,
    site: &Site,
    tables: &Tables,
    told: &Told,
    numbers: &[u32],
) -> Result<Vec<Found>, Memory>
    requires { IsSound site.now }
{
    let ground = Ground {
        alloc,
        site,
        told,
        numbers,
    };
    let sights = points(alloc, site, tables, points_for(told))?;
    let mut found = Vec::new(alloc);
    put_found(&mut found, &ground, sights.as_slice())?;
    Ok(found)
}

/// Which rules of a source decide at points of its tables: at most some thousands of points, and fewer where the source is long.
/// Fails if memory runs out.
pub fn evidence_of<'a>(
    alloc: Global,
    site: &Site,
    tables: &Tables,
    source: Told<'a>,
) -> Result<Evidence<'a>, Memory>
    requires { IsSound site.now }
{
    let numbers = source.numbers(alloc)?;
    let found = found_at(alloc, site, tables, &source, numbers.as_slice())?;
    Ok(Evidence {
        told: Some(source),
        numbers,
        found,
    })
}

/// Notes the rules of a text at as many points as it may be walked for.
fn note_found(pairs: &mut Pairs, ground: &Ground, found: &[Found]) -> Result<(), Memory>
    requires { IsSound ground.now.site.now }
{
    let most = points_for(ground.told);
    let count = found.len() as u64;
    let step = count
        .checked_div(most.max(1))
        .unwrap_or(0)
        .saturating_add(1);
    for (k, one) in found.iter().enumerate() {
        if most == 0 || (k as u64).checked_rem(step) != Some(0) {
            continue;
        }
        let target = deciders(ground, &one.sight)?;
        pairs.note(&target, &one.deciders)?;
    }
    Ok(())
}

/// Whether an instruction stands for a rule that isn't among those that decide somewhere.
fn lacks(numbers: &[u32], deciding: &[bool], at: usize) -> bool {
    match numbers.get(at) {
        Some(rule) => *rule != NONE && !deciding.get(*rule as usize).copied().unwrap_or(true),
        None => false,
    }
}

/// Notes the rules of a text and of its source for packets that are made of the conditions of rules which decide nowhere so far.
fn note_aimed(
    pairs: &mut Pairs,
    target: &Ground,
    source: &Ground,
    deciding: &[bool],
) -> Result<(), Memory>
    requires target { IsSound target.now.site.now }
    requires source { IsSound source.now.site.now }
{
    let mut left = points_for(target.told).min(points_for(source.told));
    for (at, ins) in target.told.code.code.as_slice().iter().enumerate() {
        if left == 0 || !lacks(target.numbers, deciding, at) {
            continue;
        }
        left = left.saturating_sub(1);
        let place = u32::try_from(at).unwrap_or(NONE);
        let sight = aimed(target.told.code, target.site, place, ins);
        let here = deciders(target, &sight)?;
        let there = deciders(source, &sight)?;
        pairs.note(&here, &there)?;
    }
    Ok(())
}

impl<'a> Evidence<'a> {
    /// None: nothing is told of the source's rules.
    pub fn none(alloc: Global) -> Evidence<'a> {
        Evidence {
            told: None,
            numbers: Vec::new(alloc),
            found: Vec::new(alloc),
        }
    }
}

impl Evidence<'_> {
    /// Whether there is none.
    pub(crate) fn is_empty(&self) -> bool {
        self.found.is_empty()
    }

    /// Notes the rules of a text and of this source.
    fn note_all(&self, pairs: &mut Pairs, target: &Ground) -> Result<(), Memory>
        requires { IsSound target.now.site.now }
    {
        note_found(pairs, target, self.found.as_slice())?;
        let Some(told) = &self.told else {
            return Ok(());
        };
        let source = Ground {
            alloc: target.alloc,
            site: target.site,
            told,
            numbers: self.numbers.as_slice(),
        };
        let deciding = pairs.deciding(target.alloc, target.told.labels.len())?;
        note_aimed(pairs, target, &source, deciding.as_slice())
    }

    /// For each rule of a text the rules of the source that decide where it does, and else where it is used.
    pub(crate) fn origins(
        &self,
        alloc: Global,
        site: &Site,
        target: &Told,
    ) -> Result<Origins, Memory>
        requires { IsSound site.now }
    {
        let numbers = target.numbers(alloc)?;
        let ground = Ground {
            alloc,
            site: &*site,
            told: &*target,
            numbers: numbers.as_slice(),
        };
        let mut pairs = Pairs::new(alloc);
        self.note_all(&mut pairs, &ground)?;
        pairs.origins(alloc, target.labels.len())
    }
}
