//! The pools that lines of a text define, whether they are refused or not.

ghost use Rattle.std.specs.Prelude.{◌≡◌, [], OnOk};
ghost use Rattle.std.specs.Option.{option_map};
ghost use Rattle.fws_ios.specs.FileText.{with_defined};
ghost use Rattle.fws_ios.specs.NatText.{pool_named};

use fws_ios::Pool;
use fws_num::{Memory, Text};
use indexmap::IndexMap;
use std::alloc::Global;
use std::marker::Model;

/// The addresses of pools, by the pools' names. Contracts see the list.
#[derive(Drop)]
pub(crate) struct Pools {
    addrs: IndexMap<Text, u32>,
}

impl Model for Pools {
    ghost use Rattle.std.specs.Prelude.{List, map};
    ghost use Rattle.fws_ios.specs.declared.draft.Pool.{Pool};
    ghost use Rattle.fws_ios_read.specs.Keys.{pool_of};

    ghost Value = { List Pool };

    ghost view = { λ p. map pool_of p.addrs.entries };
}

impl Pools {
    /// No pools.
    pub(crate) fn new(alloc: Global) -> Pools
        ensures { result ≡ [] }
    {
        Pools {
            addrs: IndexMap::new(alloc),
        }
    }

    /// The address of the pool of this name.
    pub(crate) fn address_of(&self, name: &Text) -> Option<u32>
        ensures { result ≡ option_map (λ pool. pool.addr) (pool_named name.now self.now) }
    {
        self.addrs.get(name).copied()
    }

    /// Puts a pool behind the others, unless one of them has its name.
    pub(crate) fn put_if_new(&mut self, pool: Pool) -> Result<(), Memory>
        ensures { OnOk result (self.new ≡ with_defined pool self.old) }
    {
        if self.address_of(&pool.name).is_some() {
            return Ok(());
        }
        self.addrs.insert(pool.name, pool.addr)?;
        Ok(())
    }
}
