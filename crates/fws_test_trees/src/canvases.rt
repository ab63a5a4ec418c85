//! A canvas that is recoloured, against an array of values.

ghost use Rattle.std.specs.Prelude.{◌≡◌, ◌<◌, length, IfOk, OnOk};
ghost use Rattle.fws_test_trees.specs.Small.{IsSmall};

use crate::agreeing::has_values;
use crate::leaves::{Tag, tag};
use crate::mover::{Answer, Mover, next_of};
use crate::points::{count_points, point_at};
use crate::random::Random;
use crate::recolourings::{Labelled, Recolouring};
use crate::trial::Trial;
use fws_box::Point;
use fws_num::Memory;
use fws_tree::{Canvas, Mark, Tree, Values};
use std::alloc::Global;

/// How often a canvas is recoloured.
const TIMES: u32 = 20;

/// The marks of boxes with labels.
fn marks_of(alloc: Global, boxes: &[Labelled]) -> Result<Vec<Mark<'_>>, Memory> {
    let mut marks = Vec::new(alloc);
    for labelled in boxes {
        marks.push(Mark::of_sets(&labelled.sides, labelled.label.max(1)))?;
    }
    Ok(marks)
}

/// Recolours a canvas by marks.
fn recolour(
    alloc: Global,
    canvas: &mut Canvas,
    recolouring: &Recolouring,
    by: &mut Mover,
) -> Result<(), Memory>
    requires { IsSmall canvas.old }
    ensures { OnOk result (IsSmall canvas.new) }
{
    let marks = marks_of(alloc, recolouring.boxes.as_slice())?;
    canvas.recolour(
        alloc,
        marks.as_slice(),
        recolouring.rest,
        recolouring.wanted,
        by,
    )?;
    Ok(())
}

/// The labels of the points.
fn labels_of(alloc: Global, tops: &Point, recolouring: &Recolouring) -> Result<Vec<u32>, Memory> {
    let mut labels = Vec::new(alloc);
    for number in 0..count_points(tops) {
        labels.push(recolouring.label_at(&point_at(tops, number)))?;
    }
    Ok(labels)
}

/// What a value becomes at a label; none where it changes, and the rule wasn't asked about it.
fn next_value(
    bits: &Values,
    wanted: u64,
    answers: &[Answer],
    value: u32,
    label: u32,
) -> Option<u32> {
    if label == 0 || bits.bits_of(value) & wanted == 0 {
        Some(value)
    } else {
        next_of(answers, value, label)
    }
}

/// Adds what the values of points become at their labels, and says whether the rule was asked about each that changes.
fn put_next_values(
    next: &mut Vec<u32>,
    old: &[u32],
    labels: &[u32],
    bits: &Values,
    wanted: u64,
    answers: &[Answer],
) -> Result<bool, Memory> {
    for (value, label) in old.iter().zip(labels) {
        match next_value(bits, wanted, answers, *value, *label) {
            Some(becomes) => next.push(becomes)?,
            None => return Ok(false),
        }
    }
    Ok(true)
}

/// What the values of points become at their labels; none where the rule wasn't asked about one that changes.
fn next_values(
    alloc: Global,
    old: &[u32],
    labels: &[u32],
    bits: &Values,
    wanted: u64,
    answers: &[Answer],
) -> Result<Option<Vec<u32>>, Memory> {
    let mut next = Vec::new(alloc);
    if put_next_values(&mut next, old, labels, bits, wanted, answers)? {
        Ok(Some(next))
    } else {
        Ok(None)
    }
}

/// Whether some point has the value and the label.
fn is_met(old: &[u32], labels: &[u32], answer: &Answer) -> bool {
    for (value, label) in old.iter().zip(labels) {
        if *value == answer.value && *label == answer.label {
            return true;
        }
    }
    false
}

/// Whether each value that the rule was asked about meets its label at some point.
fn are_met(old: &[u32], labels: &[u32], answers: &[Answer]) -> bool {
    for answer in answers {
        if !is_met(old, labels, answer) {
            return false;
        }
    }
    true
}

/// What the values of points become at their labels; none where the rule was asked amiss.
fn next_if_met(
    alloc: Global,
    old: &[u32],
    labels: &[u32],
    bits: &Values,
    wanted: u64,
    answers: &[Answer],
) -> Result<Option<Vec<u32>>, Memory> {
    if are_met(old, labels, answers) {
        next_values(alloc, old, labels, bits, wanted, answers)
    } else {
        Ok(None)
    }
}

/// What the values of points become by a recolouring for which the rule gave these answers.
fn next_as_answered(
    alloc: Global,
    tops: &Point,
    recolouring: &Recolouring,
    bits: &Values,
    old: &[u32],
    answers: &[Answer],
) -> Result<Option<Vec<u32>>, Memory> {
    let labels = labels_of(alloc, tops, recolouring)?;
    next_if_met(
        alloc,
        old,
        labels.as_slice(),
        bits,
        recolouring.wanted,
        answers,
    )
}

/// Recolours a canvas so, and gives what the values of points should then be; none where the rule was asked amiss.
fn recolour_so(
    alloc: Global,
    seed: u64,
    tops: &Point,
    canvas: &mut Canvas,
    old: &[u32],
    recolouring: &Recolouring,
) -> Result<Option<Vec<u32>>, Memory>
    requires { IsSmall canvas.old }
    ensures { OnOk result (IsSmall canvas.new) }
{
    let mut by = Mover::new(alloc, seed);
    recolour(alloc, canvas, recolouring, &mut by)?;
    next_as_answered(alloc, tops, recolouring, canvas.values(), old, by.answers())
}

/// Recolours a canvas, and gives what the values of points should then be; none where the rule was asked amiss.
fn recolour_both(
    alloc: Global,
    random: &mut Random,
    tops: &Point,
    canvas: &mut Canvas,
    old: &[u32],
) -> Result<Option<Vec<u32>>, Memory>
    requires { IsSmall canvas.old }
    ensures { OnOk result (IsSmall canvas.new) }
{
    let recolouring = Recolouring::draw(alloc, random, tops)?;
    recolour_so(alloc, random.seed(), tops, canvas, old, &recolouring)
}

/// Sixteen leaves, of which so many are different.
fn sixteen_leaves(alloc: Global, different: u32) -> Result<Vec<Tag>, Memory>
    requires { 0 < different }
    ensures { IfOk result (λ leaves. length leaves.items ≡ 16) }
{
    let mut leaves = Vec::new(alloc);
    for number in 0..16 {
        leaves.push(tag(number % different))?;
    }
    Ok(leaves)
}

/// The leaves of these values, where so many leaves are different.
fn leaves_of(alloc: Global, values: &[u32], different: u32) -> Result<Vec<Tag>, Memory>
    requires { 0 < different }
{
    let mut leaves = Vec::new(alloc);
    for value in values {
        leaves.push(tag(*value % different))?;
    }
    Ok(leaves)
}

/// Whether a tree has the leaves of these values, where so many leaves are different.
fn has_leaves(
    alloc: Global,
    tree: &Tree<Tag>,
    tops: &Point,
    values: &[u32],
    different: u32,
) -> Result<bool, Memory>
    requires { 0 < different }
{
    let wanted = leaves_of(alloc, values, different)?;
    Ok(has_values(tree, tops, wanted.as_slice()))
}

/// Whether the tree of a canvas with sixteen leaves, of which so many are different, has those of these values.
fn shows_leaves(
    alloc: Global,
    canvas: &Canvas,
    tops: &Point,
    values: &[u32],
    different: u32,
    leaves: &[Tag],
) -> Result<bool, Memory>
    requires small { IsSmall canvas.now }
    requires different { 0 < different }
    requires sixteen { length leaves.now ≡ 16 }
{
    let tree = canvas.tree(alloc, leaves)?;
    has_leaves(alloc, &tree, tops, values, different)
}

/// Whether the tree of a canvas has the leaves of these values, where so many leaves are different.
fn shows(
    alloc: Global,
    canvas: &Canvas,
    tops: &Point,
    values: &[u32],
    different: u32,
) -> Result<bool, Memory>
    requires small { IsSmall canvas.now }
    requires different { 0 < different }
{
    let leaves = sixteen_leaves(alloc, different)?;
    shows_leaves(alloc, canvas, tops, values, different, leaves.as_slice())
}

/// So many zeros.
fn zeros(alloc: Global, count: usize) -> Result<Vec<u32>, Memory> {
    let mut zeros = Vec::new(alloc);
    for _ in 0..count {
        zeros.push(0)?;
    }
    Ok(zeros)
}

/// Recolours a canvas and the values, and says whether these are then those of the canvas.
fn agrees_once(
    alloc: Global,
    random: &mut Random,
    tops: &Point,
    canvas: &mut Canvas,
    values: &mut Vec<u32>,
) -> Result<bool, Memory>
    requires { IsSmall canvas.old }
    ensures { OnOk result (IsSmall canvas.new) }
{
    match recolour_both(alloc, random, tops, canvas, values.as_slice())? {
        Some(next) => {
            *values = next;
            shows(alloc, canvas, tops, values.as_slice(), 16)
        }
        None => Ok(false),
    }
}

/// Whether a canvas has what recolouring makes of the values, time after time.
fn agrees_always(
    alloc: Global,
    random: &mut Random,
    tops: &Point,
    canvas: &mut Canvas,
    values: &mut Vec<u32>,
) -> Result<bool, Memory>
    requires { IsSmall canvas.old }
{
    'times: for _ in 0..TIMES {
        if !agrees_once(alloc, random, tops, canvas, values)? {
            return Ok(false);
        }
    }
    shows(alloc, canvas, tops, values.as_slice(), 3)
}

/// Whether a canvas of zeros has what recolouring makes of them, time after time.
fn agrees_from_zeros(
    alloc: Global,
    random: &mut Random,
    tops: &Point,
    canvas: &mut Canvas,
) -> Result<bool, Memory>
    requires { IsSmall canvas.old }
{
    let mut values = zeros(alloc, count_points(tops))?;
    agrees_always(alloc, random, tops, canvas, &mut values)
}

/// Whether a canvas has what recolouring makes of the values, time after time.
pub fn canvas_agrees(alloc: Global, trial: &Trial) -> Result<bool, Memory> {
    let mut random = Random::new(trial.seed);
    let mut canvas = Canvas::new(alloc, &trial.tops, 7)?;
    agrees_from_zeros(alloc, &mut random, &trial.tops, &mut canvas)
}
