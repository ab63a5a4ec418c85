//! Labels of rules by their places.

ghost use Rattle.std.specs.Prelude.{◌≡◌, ◌++◌, IfOk, OnOk};
ghost use Rattle.fws_print.specs.Labels.{place_label, place_labels};

use fws_num::{Memory, Text, put_dec};
use std::alloc::Global;

// A front and a place.
fn place_label(alloc: Global, front: &[u8], place: u64) -> Result<Text, Memory>
    ensures { IfOk result (λ label. label ≡ place_label front.now place) }
{
    let mut label = Text::of(alloc, front)?;
    label.put(b" ")?;
    put_dec(&mut label, place)?;
    Ok(label)
}

/// Puts a front and each of so many places, counted from 1, behind the other labels.
pub fn put_places(
    alloc: Global,
    labels: &mut Vec<Text>,
    front: &[u8],
    count: usize,
) -> Result<(), Memory>
    ensures { OnOk result (labels.new.items ≡ labels.old.items ++ place_labels front.now count) }
{
    for at in 0..count {
        let label = place_label(alloc, front, at as u64 + 1)?;
        labels.push(label)?;
    }
    Ok(())
}
