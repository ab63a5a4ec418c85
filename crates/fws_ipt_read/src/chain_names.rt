//! The chains of a text by their names.

ghost use Rattle.std.specs.Prelude.{◌≡◌, [], ◌++◌, ◌∷◌, List, position, IfOk, OnOk, OnErr};
ghost use Rattle.fws_ipt_read.specs.Keys.{is_key, with_key};

use fws_ipt::IptTable;
use fws_num::{Memory, Text};
use indexmap::IndexSet;
use std::alloc::Global;
use std::marker::Model;

/// What names a chain.
#[derive(Drop, PartialEq, Eq, Hash)]
pub(crate) struct ChainKey {
    table: IptTable,
    name: Text,
}

/// The names of chains, in the order of the chains.
#[derive(Drop)]
pub(crate) struct ChainNames {
    keys: IndexSet<ChainKey>,
}

impl Model for ChainNames {
    ghost use Rattle.std.specs.Prelude.{List};
    ghost use Rattle.fws_ipt_read.specs.declared.chain_names.ChainKey.{ChainKey};

    ghost Value = { List ChainKey };

    ghost view = { λ n. n.keys.keys };
}

impl ChainNames {
    /// The names of no chains.
    pub(crate) fn new(alloc: Global) -> ChainNames
        ensures { result ≡ [] }
    {
        ChainNames {
            keys: IndexSet::new(alloc),
        }
    }

    /// The place of the chain with this name, counted from 0. Fails if memory runs out, or at a place past 2^32 - 1.
    pub(crate) fn find(
        &self,
        alloc: Global,
        table: IptTable,
        name: &[u8],
    ) -> Result<Option<u32>, Memory>
        ensures { IfOk result (λ place. place ≡ position (is_key table name.now) self.now) }
    {
        let key = ChainKey {
            table,
            name: Text::of(alloc, name)?,
        };
        let Some(place) = self.keys.get_index_of(&key) else {
            return Ok(None);
        };
        match u32::try_from(place) {
            Ok(number) => Ok(Some(number)),
            Err(_) => Err(Memory),
        }
    }

    /// Puts the name behind the others, unless it is among them.
    pub(crate) fn put(&mut self, alloc: Global, table: IptTable, name: &[u8]) -> Result<(), Memory>
        ensures ok { OnOk result (self.new ≡ with_key table name.now self.old) }
        ensures err { OnErr result (self.new ≡ self.old) }
    {
        let key = ChainKey {
            table,
            name: Text::of(alloc, name)?,
        };
        self.keys.insert(key)?;
        Ok(())
    }

    /// Takes away the last name.
    pub(crate) fn remove_last(&mut self)
        ensures { (front : List ChainKey) (key : ChainKey) → self.old ≡ front ++ key ∷ [] → self.new ≡ front }
    {
        let _last = self.keys.pop();
    }
}
