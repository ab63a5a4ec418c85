//! Marks for the points where conditions hold.

ghost use Rattle.std.specs.Prelude.{◌≡◌, ◌<◌, ◌≤◌, ◌+◌, ◌&&◌, ℕ, List, false, drop, length, if◌then◌else◌, IfOk, OnOk};
ghost use Rattle.fws_box.specs.Boxes.{sides_of};
ghost use Rattle.fws_box.specs.Sides.{IsWithin, sides_have};
ghost use Rattle.fws_flat.specs.declared.code.Part.{Part as AnyPart};
ghost use Rattle.fws_net.specs.declared.site.Site.{Site};
ghost use Rattle.fws_net.specs.declared.view.View.{View};
ghost use Rattle.fws_net.specs.Conditions.{holds};
ghost use Rattle.fws_net.specs.Points.{tops_of};
ghost use Rattle.fws_box_conditions.specs.Areas.{IsOfSite};
ghost use Rattle.fws_box_conditions.specs.Scenes.{view_of};
ghost use Rattle.fws_tree.specs.Marks.{mark_at};
ghost use Rattle.fws_exec.specs.Divided.{held, seen_at};
ghost use Rattle.fws_exec.specs.Goings.{label_of};
ghost use Rattle.fws_exec.specs.Grounds.{IsGround};
ghost use Rattle.fws_exec.specs.Runs.{boxed, numbered, picked};

use crate::equal::same_lits;
use crate::errand::Ground;
use crate::going::label_of;
use crate::progress::Progress;
use fws_box::PBox;
use fws_box_conditions::{Scene, where_holds};
use fws_flat::{Ins, Part};
use fws_net::Cond;
use fws_num::Memory;
use fws_tree::Mark;
use std::alloc::Global;

/// Puts the label behind the marks, for the points of the boxes.
fn put_boxes<'b>(marks: &mut Vec<Mark<'b>>, boxes: &[PBox<'b>], label: u32) -> Result<(), Memory>
    requires { 1 ≤ label }
    ensures { OnOk result ((rest : ℕ) (p : List ℕ) → mark_at marks.new.items rest p ≡ mark_at marks.old.items (boxed boxes.now label rest p) p) }
{
    for area in boxes {
        marks.push(Mark::of_box(area, label))?;
    }
    Ok(())
}

/// Puts marks behind the others for the points of the area where the condition holds, as rules see them in the scene, with
/// the label.
fn put_cond<'b>(
    alloc: Global,
    ground: &Ground<'_, 'b>,
    area: &PBox<'b>,
    scene: &Scene,
    cond: &Cond,
    label: u32,
    marks: &mut Vec<Mark<'b>>,
) -> Result<(), Memory>
    requires ground { IsGround ground.now }
    requires area { IsOfSite ground.now.site.now (sides_of area.now) }
    requires label { 1 ≤ label }
    ensures { OnOk result ((rest : ℕ) (p : List ℕ) → IsWithin (tops_of ground.now.site.now) p → mark_at marks.new.items rest p ≡ mark_at marks.old.items (if sides_have (sides_of area.now) p && holds cond.now (view_of ground.now.site.now scene.now p) then label else rest) p) }
{
    let boxes = where_holds(
        alloc,
        ground.bump,
        ground.site,
        ground.ways,
        scene,
        cond,
        area,
    )?;
    put_boxes(marks, boxes.as_slice(), label)?;
    Ok(())
}

/// Marks with label 1 for the points of the area where the condition holds, for a class to which rules did this.
pub(crate) fn cond_marks<'b>(
    alloc: Global,
    ground: &Ground<'_, 'b>,
    area: &PBox<'b>,
    part: Part,
    progress: &Progress,
    cond: &Cond,
) -> Result<Vec<Mark<'b>>, Memory>
    requires ground { IsGround ground.now }
    requires area { IsOfSite ground.now.site.now (sides_of area.now) }
    ensures { IfOk result (λ marks. (p : List ℕ) → IsWithin (tops_of ground.now.site.now) p → mark_at marks.items 0 p ≡ (if sides_have (sides_of area.now) p then held ground.now.site.now ground.now.state part cond.now progress.now p else 0)) }
{
    let scene = progress.scene(alloc, part, ground.state)?;
    let mut marks = Vec::new(alloc);
    put_cond(alloc, ground, area, &scene, cond, 1, &mut marks)?;
    Ok(marks)
}

/// Puts marks behind the others for the points of the area where the condition of an instruction holds, for a class to which
/// rules did this, with the label of where it sends them in a run that begins at the place.
fn put_ins<'b>(
    alloc: Global,
    ground: &Ground<'_, 'b>,
    area: &PBox<'b>,
    scene: &Scene,
    progress: &Progress,
    ins: &Ins,
    place: u32,
    marks: &mut Vec<Mark<'b>>,
) -> Result<(), Memory>
    requires ground { IsGround ground.now }
    requires area { IsOfSite ground.now.site.now (sides_of area.now) }
    ensures { OnOk result ((part : AnyPart) → ((site : Site) (p : List ℕ) → view_of site scene.now p ≡ seen_at site ground.now.state part progress.now p) → (rest : ℕ) (p : List ℕ) → IsWithin (tops_of ground.now.site.now) p → mark_at marks.new.items rest p ≡ mark_at marks.old.items (if sides_have (sides_of area.now) p && holds ins.now.cond (seen_at ground.now.site.now ground.now.state part progress.now p) then label_of place ins.now.act else rest) p) }
{
    if progress.fails(&ins.cond) {
        return Ok(());
    }
    let label = label_of(place, ins.act)?;
    put_cond(alloc, ground, area, scene, &ins.cond, label, marks)?;
    Ok(())
}

/// The first place from this one on at which an instruction has another condition, as far as is seen: where the condition fails, the
/// instructions before that do nothing.
fn past_same(code: &[Ins], cond: &Cond, from: usize) -> usize
    requires { from ≤ length code.now }
    ensures later { from ≤ result }
    ensures within { result ≤ length code.now }
    ensures picked { (v : View) (place : ℕ) → holds cond.now v ≡ false → picked place v (drop from code.now) ≡ picked place v (drop result code.now) }
    ensures numbered { (v : View) → holds cond.now v ≡ false → numbered (from + 1) v (drop from code.now) ≡ numbered (result + 1) v (drop result code.now) }
{
    let mut past = from;
    while past < code.len() && same_lits(code[past].cond.lits(), cond.lits()) {
        past += 1;
    }
    past
}

/// Marks for the points of the area, for a class to which rules did this, with the labels of where the instructions of a run
/// send them that begins at the place. Of instructions in a row with one condition the first one takes all points.
pub(crate) fn run_marks<'b>(
    alloc: Global,
    ground: &Ground<'_, 'b>,
    area: &PBox<'b>,
    part: Part,
    progress: &Progress,
    code: &[Ins],
    place: u32,
) -> Result<Vec<Mark<'b>>, Memory>
    requires ground { IsGround ground.now }
    requires area { IsOfSite ground.now.site.now (sides_of area.now) }
    ensures { IfOk result (λ marks. (p : List ℕ) → IsWithin (tops_of ground.now.site.now) p → mark_at marks.items 0 p ≡ (if sides_have (sides_of area.now) p then picked place (seen_at ground.now.site.now ground.now.state part progress.now p) code.now else 0)) }
{
    let scene = progress.scene(alloc, part, ground.state)?;
    let mut marks = Vec::new(alloc);
    let mut at = 0;
    while at < code.len() {
        let ins = &code[at];
        put_ins(
            alloc, ground, area, &scene, progress, ins, place, &mut marks,
        )?;
        at = past_same(code, &ins.cond, at + 1);
    }
    Ok(marks)
}

/// Puts marks behind the others for the points of the area where the condition holds, for a class to which rules did this, with the
/// label.
fn put_use<'b>(
    alloc: Global,
    ground: &Ground<'_, 'b>,
    area: &PBox<'b>,
    scene: &Scene,
    progress: &Progress,
    cond: &Cond,
    label: u32,
    marks: &mut Vec<Mark<'b>>,
) -> Result<(), Memory>
    requires ground { IsGround ground.now }
    requires area { IsOfSite ground.now.site.now (sides_of area.now) }
    requires label { 1 ≤ label }
    ensures { OnOk result ((part : AnyPart) → ((site : Site) (p : List ℕ) → view_of site scene.now p ≡ seen_at site ground.now.state part progress.now p) → (rest : ℕ) (p : List ℕ) → IsWithin (tops_of ground.now.site.now) p → mark_at marks.new.items rest p ≡ mark_at marks.old.items (if sides_have (sides_of area.now) p && holds cond.now (seen_at ground.now.site.now ground.now.state part progress.now p) then label else rest) p) }
{
    if progress.fails(cond) {
        return Ok(());
    }
    put_cond(alloc, ground, area, scene, cond, label, marks)?;
    Ok(())
}

/// The number of the instruction at a place of a run, of which the first has number 1. An error is a number that has no 32 bits.
fn number_at(place: usize) -> Result<u32, Memory>
    requires { place < usize.MAX }
    ensures { IfOk result (λ number. number ≡ place + 1) }
{
    match u32::try_from(place + 1) {
        Ok(number) => Ok(number),
        Err(_) => Err(Memory),
    }
}

/// Marks for the points of the area, for a class to which rules did this, with the numbers of the instructions that they use of a
/// run, of which the first has number 1. Of instructions in a row with one condition the first one is used alone.
pub(crate) fn use_marks<'b>(
    alloc: Global,
    ground: &Ground<'_, 'b>,
    area: &PBox<'b>,
    part: Part,
    progress: &Progress,
    code: &[Ins],
) -> Result<Vec<Mark<'b>>, Memory>
    requires ground { IsGround ground.now }
    requires area { IsOfSite ground.now.site.now (sides_of area.now) }
    ensures { IfOk result (λ marks. (p : List ℕ) → IsWithin (tops_of ground.now.site.now) p → mark_at marks.items 0 p ≡ (if sides_have (sides_of area.now) p then numbered 1 (seen_at ground.now.site.now ground.now.state part progress.now p) code.now else 0)) }
{
    let scene = progress.scene(alloc, part, ground.state)?;
    let mut marks = Vec::new(alloc);
    let mut at = 0;
    while at < code.len() {
        let cond = &code[at].cond;
        let number = number_at(at)?;
        put_use(
            alloc, ground, area, &scene, progress, cond, number, &mut marks,
        )?;
        at = past_same(code, cond, at + 1);
    }
    Ok(marks)
}
