//! The labels of rules.

ghost use Rattle.std.specs.Prelude.{◌≡◌, ◌++◌, IfOk, OnOk};
ghost use Rattle.fws_pf_print.specs.Labels.{LabelsAreCounted, labels_of};

use fws_num::{Memory, Text};
use fws_pf::PfConfig;
use fws_print::put_places;
use std::alloc::Global;

/// Puts the labels of all rules behind the others.
fn put_rules(alloc: Global, labels: &mut Vec<Text>, c: &PfConfig) -> Result<(), Memory>
    ensures { OnOk result (labels.new.items ≡ labels.old.items ++ labels_of c.now) }
{
    put_places(alloc, labels, b"rdr", c.rdr.len())?;
    put_places(alloc, labels, b"nat", c.nat.len())?;
    put_places(alloc, labels, b"filter", c.filter.len())?;
    Ok(())
}

/// The labels of a configuration's rules, those of rdr ahead of those of nat, and these ahead of the filter's: the kind, and the
/// place among those of its kind, counted from 1, as `filter 2`. Linear in the rules. Fails if memory runs out.
pub fn labels(alloc: Global, c: &PfConfig) -> Result<Vec<Text>, Memory>
    ensures { IfOk result (λ labels. labels.items ≡ labels_of c.now) }
{
    let mut labels = Vec::new(alloc);
    put_rules(alloc, &mut labels, c)?;
    Ok(labels)
}

/// Does nothing: the clause is the law that each rule has a label.
pub fn labels_are_counted()
    ensures { LabelsAreCounted }
{}
