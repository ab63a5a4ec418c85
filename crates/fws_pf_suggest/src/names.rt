//! Names of interfaces as macros, and of sets of addresses as tables.

use fws_net::{Lang, Site};
use fws_num::{Memory, Text, put_dec};
use fws_suggest::interface_name;
use std::alloc::Global;

/// A table of addresses.
#[derive(Drop)]
pub(crate) struct Table {
    /// Its name.
    pub(crate) name: Text,
    /// Its members as they are written.
    pub(crate) members: Text,
}

/// The names that a text uses.
#[derive(Drop)]
pub(crate) struct Names<'a> {
    pub(crate) alloc: Global,
    pub(crate) site: &'a Site,
    /// Whether interfaces have macros: where each has one of its own.
    has_macros: bool,
    /// The entry numbers of interfaces whose macros are used.
    used: Vec<u32>,
    /// The tables.
    pub(crate) tables: Vec<Table>,
}

/// Whether a byte may stand in the name of a macro or a table.
fn is_letter(byte: u8) -> bool {
    byte.is_ascii_alphanumeric() || byte == b'_'
}

/// Appends a name, with `_` in place of what may not stand in a name.
fn put_plain(out: &mut Text, name: &[u8]) -> Result<(), Memory> {
    for byte in name {
        let byte = if is_letter(*byte) { *byte } else { b'_' };
        out.put(&[byte])?;
    }
    Ok(())
}

/// Appends the name that the site has for an interface, in letters, digits and `_`.
fn put_name(out: &mut Text, site: &Site, entry: u32) -> Result<(), Memory> {
    let Some(place) = entry.checked_sub(2) else {
        return out.put(b"lo");
    };
    match site.faces.as_slice().get(place as usize) {
        Some(face) => put_plain(out, face.name.as_slice()),
        None => Ok(()),
    }
}

/// Appends the macro of an interface, without `$`.
fn put_macro(out: &mut Text, site: &Site, entry: u32) -> Result<(), Memory> {
    put_name(out, site, entry)?;
    out.put(b"_if")
}

/// The macro of an interface, without `$`.
fn macro_name(alloc: Global, site: &Site, entry: u32) -> Result<Text, Memory> {
    let mut name = Text::new(alloc);
    put_macro(&mut name, site, entry)?;
    Ok(name)
}

/// How many entry numbers there are.
fn entries_of(site: &Site) -> u32 {
    u32::try_from(site.faces.len())
        .unwrap_or(0)
        .saturating_add(2)
}

/// Whether one of the texts is this one.
fn has_text(texts: &[Text], text: &[u8]) -> bool {
    texts.iter().any(|other| other.as_slice() == text)
}

/// Whether no two interfaces have the same macro.
fn are_apart(alloc: Global, site: &Site) -> Result<bool, Memory> {
    let mut names: Vec<Text> = Vec::new(alloc);
    for entry in 2..entries_of(site) {
        let name = macro_name(alloc, site, entry)?;
        if has_text(&names, name.as_slice()) {
            return Ok(false);
        }
        names.push(name)?;
    }
    Ok(true)
}

impl<'a> Names<'a> {
    /// No name is used.
    pub(crate) fn new(alloc: Global, site: &'a Site) -> Result<Names<'a>, Memory> {
        let has_macros = are_apart(alloc, site)?;
        Ok(Names {
            alloc,
            site,
            has_macros,
            used: Vec::new(alloc),
            tables: Vec::new(alloc),
        })
    }

    /// Appends the name of an interface, or its macro.
    pub(crate) fn put_interface(&mut self, out: &mut Text, entry: u32) -> Result<(), Memory> {
        if entry < 2 || !self.has_macros {
            return out.put(interface_name(self.site, Lang::Pf, entry));
        }
        if !self.used.contains(&entry) {
            self.used.push(entry)?;
        }
        out.put(b"$")?;
        put_macro(out, self.site, entry)
    }

    /// The name of an interface, or its macro.
    pub(crate) fn interface(&mut self, entry: u32) -> Result<Text, Memory> {
        let mut out = Text::new(self.alloc);
        self.put_interface(&mut out, entry)?;
        Ok(out)
    }

    /// Appends the macros that are used.
    pub(crate) fn put_macros(&self, out: &mut Text) -> Result<(), Memory> {
        for entry in 2..entries_of(self.site) {
            if self.used.contains(&entry) {
                put_macro(out, self.site, entry)?;
                out.put(b" = \"")?;
                out.put(interface_name(self.site, Lang::Pf, entry))?;
                out.put(b"\"\n")?;
            }
        }
        Ok(())
    }

    /// Appends the tables.
    pub(crate) fn put_tables(&self, out: &mut Text) -> Result<(), Memory> {
        for table in &self.tables {
            out.put(b"table <")?;
            out.put(table.name.as_slice())?;
            out.put(b"> const { ")?;
            out.put(table.members.as_slice())?;
            out.put(b" }\n")?;
        }
        Ok(())
    }

    /// Whether a table has the name.
    fn has_table(&self, name: &[u8]) -> bool {
        self.tables
            .iter()
            .any(|table| table.name.as_slice() == name)
    }

    /// The name of the table with these members, if there is one.
    fn table_with(&self, members: &[u8]) -> Result<Option<Text>, Memory> {
        for table in &self.tables {
            if table.members.as_slice() == members {
                return Ok(Some(table.name.copy(self.alloc)?));
            }
        }
        Ok(None)
    }

    /// What the name of a table begins with: the interface to which its members are routed, if it is one for all.
    fn table_base(&self, behind: Option<u32>) -> Result<Text, Memory> {
        let mut base = Text::new(self.alloc);
        if let Some(entry) = behind {
            put_name(&mut base, self.site, entry)?;
            base.put(b"_")?;
        }
        base.put(b"hosts")?;
        Ok(base)
    }

    /// The first name that no table has: the base, or the base with a number.
    fn free_name(&self, base: &Text) -> Result<Text, Memory> {
        let mut name = base.copy(self.alloc)?;
        for number in 2..10000u64 {
            if !self.has_table(name.as_slice()) {
                break;
            }
            name = base.copy(self.alloc)?;
            put_dec(&mut name, number)?;
        }
        Ok(name)
    }

    /// Notes a table.
    fn add_table(&mut self, name: &Text, members: Text) -> Result<(), Memory> {
        let name = name.copy(self.alloc)?;
        self.tables.push(Table { name, members })?;
        Ok(())
    }

    /// The name of the table with these members: that of one that is there, or of a new one. It is named by the interface to which
    /// the members are routed, if it is one for all.
    pub(crate) fn table(&mut self, members: Text, behind: Option<u32>) -> Result<Text, Memory> {
        if let Some(name) = self.table_with(members.as_slice())? {
            return Ok(name);
        }
        let base = self.table_base(behind)?;
        let name = self.free_name(&base)?;
        self.add_table(&name, members)?;
        Ok(name)
    }

    /// The members of the table of the host's own addresses.
    fn own_members(&self) -> Result<Text, Memory> {
        let mut members = Text::of(self.alloc, b"self, ")?;
        members.put(interface_name(self.site, Lang::Pf, 1))?;
        members.put(b":network")?;
        Ok(members)
    }

    /// The name of the table of the host's own addresses.
    pub(crate) fn own_table(&mut self) -> Result<Text, Memory> {
        let name = Text::of(self.alloc, b"self_and_lo")?;
        if !self.has_table(name.as_slice()) {
            let members = self.own_members()?;
            self.add_table(&name, members)?;
        }
        Ok(name)
    }
}
