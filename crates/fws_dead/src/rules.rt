//! Lines of rules, by their numbers and labels.

ghost use Rattle.std.specs.Prelude.{◌≡◌, ◌++◌, [], get_or, IfOk, OnOk};
ghost use Rattle.std.specs.List.{flat_map};
ghost use Rattle.fws_dead.specs.RuleText.{dead_text, rule_line};

use fws_num::{Memory, Text, put_dec};
use std::alloc::Global;

/// Appends the label of a rule, if it has one.
fn put_label(out: &mut Text, labels: &[Text], n: u32) -> Result<(), Memory>
    ensures { OnOk result (out.new ≡ out.old ++ get_or labels.now n []) }
{
    match labels.get(n as usize) {
        Some(label) => out.put(label.as_slice()),
        None => Ok(()),
    }
}

/// Appends the line of a rule, of which the number is counted from 0: its number counted from 1, a blank, and its label. Fails if
/// memory runs out.
pub fn put_rule_line(out: &mut Text, labels: &[Text], n: u32) -> Result<(), Memory>
    ensures { OnOk result (out.new ≡ out.old ++ rule_line labels.now n) }
{
    put_dec(out, u64::from(n) + 1)?;
    out.put(b" ")?;
    put_label(out, labels, n)?;
    out.put(b"\n")?;
    Ok(())
}

/// Appends the lines of these rules.
fn put_rules(out: &mut Text, labels: &[Text], numbers: &[u32]) -> Result<(), Memory>
    ensures { OnOk result (out.new ≡ out.old ++ flat_map (rule_line labels.now) numbers.now) }
{
    for n in numbers {
        put_rule_line(out, labels, *n)?;
    }
    Ok(())
}

/// The text of these rules: `dead`, how many they are, and a line for each. Linear in what is written. Fails if memory runs out.
pub fn put_dead(alloc: Global, labels: &[Text], numbers: &[u32]) -> Result<Text, Memory>
    ensures { IfOk result (λ text. text ≡ dead_text labels.now numbers.now) }
{
    let mut out = Text::of(alloc, b"dead ")?;
    put_dec(&mut out, numbers.len() as u64)?;
    out.put(b"\n")?;
    put_rules(&mut out, labels, numbers)?;
    Ok(out)
}
