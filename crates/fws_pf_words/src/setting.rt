//! Where words are read: at a site, among tables and names that are taken.

ghost use Rattle.std.specs.Prelude.{◌≡◌, false, [], ◌∷◌, ◌++◌, position, Some, OnOk};
ghost use Rattle.std.specs.List.{list_any};
ghost use Rattle.std.specs.Option.{option_map};
ghost use Rattle.std.specs.Str.{bytes_eq};
ghost use Rattle.fws_pf.specs.Tables.{has_table};
ghost use Rattle.fws_pf.specs.Values.{is_table, is_taken};

use crate::known::Tables;
use crate::members::KnownTable;
use fws_net::Site;
use fws_num::{Items, Memory, Text};
use indexmap::{IndexMap, IndexSet};
use std::alloc::Global;
use std::marker::Model;

/// Tables in the order in which a text defines them; the first of a name counts. Contracts see the list.
#[derive(Drop)]
pub struct TableList {
    tables: Items<KnownTable>,
    /// The place of the first table of each name.
    places: IndexMap<Text, usize>,
}

impl Model for TableList {
    ghost use Rattle.std.specs.Prelude.{◌≡◌, ℕ, List, position};
    ghost use Rattle.std.specs.Map.{lookup};
    ghost use Rattle.std.specs.Str.{bytes_eq};
    ghost use Rattle.fws_pf.specs.declared.tables.Table.{Table};

    ghost Value = { List Table };

    ghost view = { λ t. t.tables };

    ghost invariant = { λ t. (name : List ℕ) → lookup (bytes_eq name) t.places.entries ≡ position (λ (u : Table). bytes_eq u.name name) t.tables };
}

/// Drops a table.
fn dismiss(_table: KnownTable) {}

impl TableList {
    /// No tables.
    pub fn new(alloc: Global) -> TableList
        ensures { result ≡ [] }
    {
        TableList {
            tables: Items::new(alloc),
            places: IndexMap::new(alloc),
        }
    }

    /// The tables.
    pub fn as_slice(&self) -> &[KnownTable]
        ensures { result.now ≡ self.now }
    {
        self.tables.as_slice()
    }

    /// The place of the first table of this name, counted from 0.
    pub fn position(&self, name: &Text) -> Option<usize>
        ensures { result ≡ position (λ t. bytes_eq t.name name.now) self.now }
    {
        self.places.get(name).copied()
    }

    /// Whether there is a table of this name.
    pub fn has(&self, name: &Text) -> bool
        ensures { result ≡ has_table self.now name.now }
    {
        self.position(name).is_some()
    }

    /// Puts the first table of this name behind the others.
    fn put_first(&mut self, name: Text, table: KnownTable) -> Result<(), Memory>
        requires name { name ≡ table.name }
        requires first { has_table self.old table.name ≡ false }
        ensures { OnOk result (self.new ≡ self.old ++ table ∷ []) }
    {
        let place = self.tables.len();
        match self.places.reserve(1) {
            Ok(()) => {
                self.tables.put(table)?;
                self.places.insert(name, place)?;
                Ok(())
            }
            Err(_) => {
                dismiss(table);
                Err(Memory)
            }
        }
    }

    /// Puts a table behind the others. Fails if memory runs out, and then the tables are as before.
    pub fn put(&mut self, alloc: Global, table: KnownTable) -> Result<(), Memory>
        ensures { OnOk result (self.new ≡ self.old ++ table ∷ []) }
    {
        if self.has(table.name()) {
            self.tables.put(table)?;
            return Ok(());
        }
        match table.name().copy(alloc) {
            Ok(name) => {
                self.put_first(name, table)?;
                Ok(())
            }
            Err(Memory) => {
                dismiss(table);
                Err(Memory)
            }
        }
    }
}

/// Names in their order. Contracts see the list.
#[derive(Drop)]
pub struct Names {
    names: Items<Text>,
    index: IndexSet<Text>,
}

impl Model for Names {
    ghost use Rattle.std.specs.Prelude.{◌≡◌, ℕ, List};
    ghost use Rattle.std.specs.List.{list_any};
    ghost use Rattle.std.specs.Str.{bytes_eq};

    ghost Value = { List (List ℕ) };

    ghost view = { λ n. n.names };

    ghost invariant = { λ n. (name : List ℕ) → list_any (bytes_eq name) n.index.keys ≡ list_any (bytes_eq name) n.names };
}

impl Names {
    /// No names.
    pub fn new(alloc: Global) -> Names
        ensures { result ≡ [] }
    {
        Names {
            names: Items::new(alloc),
            index: IndexSet::new(alloc),
        }
    }

    /// Whether the name is among them.
    pub fn has(&self, name: &Text) -> bool
        ensures { result ≡ list_any (bytes_eq name.now) self.now }
    {
        self.index.contains(name)
    }

    /// Puts a name behind the others. Fails if memory runs out, and then the names are as before.
    pub fn put(&mut self, alloc: Global, name: Text) -> Result<(), Memory>
        ensures { OnOk result (self.new ≡ self.old ++ name ∷ []) }
    {
        let key = name.copy(alloc)?;
        self.index.reserve(1)?;
        self.names.put(name)?;
        self.index.insert(key)?;
        Ok(())
    }
}

/// Where words are read: at a site, among the tables that the text defines, if they are known yet, of which those ahead
/// have taken their names.
#[derive(Drop)]
pub struct Setting<'a> {
    site: &'a Site,
    tables: Option<&'a Tables>,
    taken: &'a Names,
}

impl<'a> Model for Setting<'a> {
    ghost use Rattle.std.specs.Option.{option_map};
    ghost use Rattle.fws_pf.specs.Values.{Setting as Seen};

    ghost Value = { Seen };

    ghost view = { λ s. record { site = s.site.now; tables = option_map (λ t. t.now) s.tables; taken = s.taken.now } };
}

impl<'a> Setting<'a> {
    /// The setting with these.
    pub fn new(site: &'a Site, tables: Option<&'a Tables>, taken: &'a Names) -> Setting<'a>
        ensures { result ≡ record { site = site.now; tables = option_map (λ t. t.now) tables.entry; taken = taken.now } }
    {
        Setting {
            site,
            tables,
            taken,
        }
    }

    /// The site.
    pub fn site(&self) -> &Site
        ensures { result.now ≡ self.now.site }
    {
        self.site
    }

    /// Whether a table has this name; while they aren't known each name may be one.
    pub fn is_table(&self, name: &Text) -> bool
        ensures { result ≡ is_table self.now name.now }
    {
        match self.tables {
            Some(tables) => tables.has(name),
            None => true,
        }
    }

    /// Whether a table ahead has taken this name.
    pub fn is_taken(&self, name: &Text) -> bool
        ensures { result ≡ is_taken self.now name.now }
    {
        self.taken.has(name)
    }
}
