//! The labels of rules.

ghost use Rattle.std.specs.Prelude.{◌≡◌, ◌++◌, map, IfOk, OnOk};
ghost use Rattle.fws_ipfw_print.specs.Labels.{LabelsAreCounted, labels_of, rule_label};

use fws_ipfw::{IpfwConfig, IpfwRule};
use fws_num::{Memory, Text, put_dec};
use std::alloc::Global;

/// The label of a rule: its number.
fn rule_label(alloc: Global, rule: &IpfwRule) -> Result<Text, Memory>
    ensures { IfOk result (λ label. label ≡ rule_label rule.now) }
{
    let mut label = Text::of(alloc, b"rule ")?;
    put_dec(&mut label, u64::from(rule.number))?;
    Ok(label)
}

/// Puts the labels of these rules behind the others.
fn put_rules(alloc: Global, labels: &mut Vec<Text>, rules: &[IpfwRule]) -> Result<(), Memory>
    ensures { OnOk result (labels.new.items ≡ labels.old.items ++ map rule_label rules.now) }
{
    for rule in rules {
        let label = rule_label(alloc, rule)?;
        labels.push(label)?;
    }
    Ok(())
}

/// The labels of a configuration's rules, as they are sorted: the number of each, as `rule 200`. Linear in the rules. Fails if
/// memory runs out.
pub fn labels(alloc: Global, c: &IpfwConfig) -> Result<Vec<Text>, Memory>
    ensures { IfOk result (λ labels. labels.items ≡ labels_of c.now) }
{
    let mut labels = Vec::new(alloc);
    put_rules(alloc, &mut labels, c.rules.as_slice())?;
    Ok(labels)
}

/// Does nothing: the clause is the law that each rule has a label.
pub fn labels_are_counted()
    ensures { LabelsAreCounted }
{}
