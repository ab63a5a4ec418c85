//! The addresses that new packets get for their sources.

ghost use Rattle.std.specs.Prelude.{◌≡◌, All, Contains, IfOk, OnOk};
ghost use Rattle.fws_ios_put_sources.specs.Picking.{Extends, HasSource, HasSources};
ghost use Rattle.fws_net.specs.declared.outcome.Outcome.TheVariants.{Accept};

use fws_net::{Outcome, Rewrite};
use fws_num::Memory;
use fws_tree::Tree;
use indexmap::IndexSet;
use std::alloc::Global;

// Puts the address behind the others, unless it is there. Fails if memory runs out.
fn put_address(addrs: &mut IndexSet<u32>, addr: u32) -> Result<(), Memory>
    ensures there { OnOk result (Contains addrs.new.keys addr) }
    ensures extends { Extends addrs.old.keys addrs.new.keys }
{
    addrs.insert_full(addr)?;
    Ok(())
}

// Puts the address of a source behind the others, if one is written and it isn't there. Fails if memory runs out.
fn put_source(addrs: &mut IndexSet<u32>, rewrite: &Rewrite) -> Result<(), Memory>
    ensures there { OnOk result (HasSource addrs.new.keys (Accept rewrite.now)) }
    ensures extends { Extends addrs.old.keys addrs.new.keys }
{
    match rewrite.src {
        None => Ok(()),
        Some(end) => put_address(addrs, end.addr),
    }
}

// Puts the address of the source of an outcome behind the others, if one is written and it isn't there. Fails if memory runs out.
fn put_leaf(addrs: &mut IndexSet<u32>, leaf: &Outcome) -> Result<(), Memory>
    ensures there { OnOk result (HasSource addrs.new.keys leaf.now) }
    ensures extends { Extends addrs.old.keys addrs.new.keys }
{
    match leaf {
        Outcome::Drop => Ok(()),
        Outcome::Accept(rewrite) => put_source(addrs, rewrite),
    }
}

// The addresses of the sources of outcomes, each once. Fails if memory runs out.
fn of_leaves(alloc: Global, leaves: &[Outcome]) -> Result<IndexSet<u32>, Memory>
    ensures { IfOk result (λ addrs. All (HasSource addrs.keys) leaves.now) }
{
    let mut addrs = IndexSet::new(alloc);
    for leaf in leaves {
        put_leaf(&mut addrs, leaf)?;
    }
    Ok(addrs)
}

/// The addresses that packets get for their sources, each once. Fails if memory runs out.
pub(crate) fn addresses(alloc: Global, crossing: &Tree<Outcome>) -> Result<IndexSet<u32>, Memory>
    ensures { IfOk result (λ addrs. HasSources addrs.keys crossing.now.1) }
{
    of_leaves(alloc, crossing.shared().leaves)
}
