//! The labels of entries and translations.

ghost use Rattle.std.specs.Prelude.{◌≡◌, ◌++◌, IfOk, OnOk};
ghost use Rattle.std.specs.List.{flat_map};
ghost use Rattle.fws_ios_print.specs.Labels.{LabelsAreCounted, labels_of, list_front, list_labels};

use fws_ios::{IosConfig, IosList};
use fws_num::{Memory, Text};
use fws_print::put_places;
use std::alloc::Global;

/// What stands ahead of an entry's place: its list.
fn list_front(alloc: Global, l: &IosList) -> Result<Text, Memory>
    ensures { IfOk result (λ front. front ≡ list_front l.now) }
{
    let mut front = Text::of(alloc, b"list ")?;
    front.put(l.name.as_slice())?;
    Ok(front)
}

/// Puts the labels of a list's entries behind the others.
fn put_list(alloc: Global, labels: &mut Vec<Text>, l: &IosList) -> Result<(), Memory>
    ensures { OnOk result (labels.new.items ≡ labels.old.items ++ list_labels l.now) }
{
    let front = list_front(alloc, l)?;
    put_places(alloc, labels, front.as_slice(), l.entries.len())?;
    Ok(())
}

/// Puts the labels of the entries of the lists behind the others.
fn put_lists(alloc: Global, labels: &mut Vec<Text>, lists: &[IosList]) -> Result<(), Memory>
    ensures { OnOk result (labels.new.items ≡ labels.old.items ++ flat_map list_labels lists.now) }
{
    for l in lists {
        put_list(alloc, labels, l)?;
    }
    Ok(())
}

/// The labels of a configuration's entries, through its lists in their order, and of its translations behind them: the list and the
/// place in it, counted from 1, as `list OUTSIDE 2`, and the place of a translation, as `nat 1`. Linear in both. Fails if memory
/// runs out.
pub fn labels(alloc: Global, c: &IosConfig) -> Result<Vec<Text>, Memory>
    ensures { IfOk result (λ labels. labels.items ≡ labels_of c.now) }
{
    let mut labels = Vec::new(alloc);
    put_lists(alloc, &mut labels, c.lists.as_slice())?;
    put_places(alloc, &mut labels, b"nat", c.nats.len())?;
    Ok(labels)
}

/// Does nothing: the clause is the law that each entry and each translation has a label.
pub fn labels_are_counted()
    ensures { LabelsAreCounted }
{}
