//! The labels of rules.

ghost use Rattle.std.specs.Prelude.{◌≡◌, ◌++◌, IfOk, OnOk};
ghost use Rattle.std.specs.List.{flat_map};
ghost use Rattle.fws_ipt_print.specs.Labels.{LabelsAreCounted, chain_front, chain_labels, labels_of, table_name};

use fws_ipt::{IptChain, IptConfig, IptTable};
use fws_num::{Memory, Text};
use fws_print::put_places;
use std::alloc::Global;

/// The name of a table.
fn table_name(table: IptTable) -> &'static [u8]
    ensures { result.now ≡ table_name table }
{
    match table {
        IptTable::Filter => b"filter",
        IptTable::Nat => b"nat",
        IptTable::Mangle => b"mangle",
    }
}

/// What stands ahead of a rule's place: its table and its chain.
fn chain_front(alloc: Global, chain: &IptChain) -> Result<Text, Memory>
    ensures { IfOk result (λ front. front ≡ chain_front chain.now) }
{
    let mut front = Text::of(alloc, table_name(chain.table))?;
    front.put(b" ")?;
    front.put(chain.name.as_slice())?;
    Ok(front)
}

/// Puts the labels of a chain's rules behind the others.
fn put_chain(alloc: Global, labels: &mut Vec<Text>, chain: &IptChain) -> Result<(), Memory>
    ensures { OnOk result (labels.new.items ≡ labels.old.items ++ chain_labels chain.now) }
{
    let front = chain_front(alloc, chain)?;
    put_places(alloc, labels, front.as_slice(), chain.rules.len())?;
    Ok(())
}

/// Puts the labels of the rules of these chains behind the others.
fn put_chains(alloc: Global, labels: &mut Vec<Text>, chains: &[IptChain]) -> Result<(), Memory>
    ensures { OnOk result (labels.new.items ≡ labels.old.items ++ flat_map chain_labels chains.now) }
{
    for chain in chains {
        put_chain(alloc, labels, chain)?;
    }
    Ok(())
}

/// The labels of a configuration's rules, through its chains in their order: the table, the chain, and the place in the chain,
/// counted from 1, as `filter FORWARD 2`. Linear in the rules. Fails if memory runs out.
pub fn labels(alloc: Global, c: &IptConfig) -> Result<Vec<Text>, Memory>
    ensures { IfOk result (λ labels. labels.items ≡ labels_of c.now) }
{
    let mut labels = Vec::new(alloc);
    put_chains(alloc, &mut labels, c.chains.as_slice())?;
    Ok(labels)
}

/// Does nothing: the clause is the law that each rule has a label.
pub fn labels_are_counted()
    ensures { LabelsAreCounted }
{}
