//! The tables of a text, of which those that name one another in a circle share their addresses.

ghost use Rattle.std.specs.Prelude.{◌≡◌, [], IfOk, IfSome};
ghost use Rattle.fws_pf.specs.Tables.{has_table, table_set};
ghost use Rattle.fws_pf_words.specs.Circles.{IsSetAt};

use crate::circles::circle_sets;
use crate::setting::TableList;
use fws_iv::Ivs;
use fws_num::{Memory, Text};
use std::alloc::Global;
use std::marker::Model;

/// The tables of a text, in the order in which it defines them; the first of a name counts. Contracts see the list.
#[derive(Drop)]
pub struct Tables {
    list: TableList,
    /// At the places of tables, the addresses of those for which they were gathered ahead.
    sets: Vec<Option<Ivs>>,
}

impl Model for Tables {
    ghost use Rattle.std.specs.Prelude.{List};
    ghost use Rattle.fws_pf.specs.declared.tables.Table.{Table};
    ghost use Rattle.fws_pf_words.specs.Circles.{AreSetsOf};

    ghost Value = { List Table };

    ghost view = { λ t. t.list };

    ghost invariant = { λ t. AreSetsOf t.list t.sets.items };
}

/// Drops tables.
fn dismiss(_list: TableList) {}

impl Tables {
    /// No tables.
    pub fn new(alloc: Global) -> Tables
        ensures { result ≡ [] }
    {
        Tables {
            list: TableList::new(alloc),
            sets: Vec::new(alloc),
        }
    }

    /// These tables. The addresses of those that name one another in a circle are gathered. Fails if memory runs out.
    pub fn of(alloc: Global, list: TableList) -> Result<Tables, Memory>
        ensures { IfOk result (λ t. t ≡ list) }
    {
        match circle_sets(alloc, &list) {
            Ok(sets) => Ok(Tables { list, sets }),
            Err(Memory) => {
                dismiss(list);
                Err(Memory)
            }
        }
    }

    /// The tables.
    pub(crate) fn list(&self) -> &TableList
        ensures { result.now ≡ self.now }
    {
        &self.list
    }

    /// Whether there is a table of this name.
    pub fn has(&self, name: &Text) -> bool
        ensures { result ≡ has_table self.now name.now }
    {
        self.list.has(name)
    }

    /// The addresses at the place, if they were gathered ahead.
    fn set_at(&self, place: usize) -> Option<&Ivs>
        ensures { IfSome result (λ set. IsSetAt self.now set.now place) }
    {
        match self.sets.get(place) {
            Some(Some(set)) => Some(set),
            Some(None) => None,
            None => None,
        }
    }

    /// The addresses of the table with this name, if they were gathered ahead.
    pub(crate) fn gathered(&self, name: &Text) -> Option<&Ivs>
        ensures { IfSome result (λ set. set.now ≡ table_set self.now name.now) }
    {
        match self.list.position(name) {
            Some(place) => self.set_at(place),
            None => None,
        }
    }
}
