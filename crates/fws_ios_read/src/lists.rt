//! Access lists by their names, and the lines that put entries into them (Cisco IOS).

ghost use Rattle.std.specs.Prelude.{◌≡◌, ◌≤◌, ◌∷◌, [], IfOk, OnOk};
ghost use Rattle.std.specs.Str.{bytes_eq};
ghost use Rattle.indexmap.specs.IndexMap.{insert_entry};
ghost use Rattle.fws_net.specs.Reading.{CauseGiven, StepGiven};
ghost use Rattle.fws_ios.specs.declared.draft.IosDraft.{IosDraft};
ghost use Rattle.fws_ios.specs.FileText.{entry_line, is_between, list_number, numbered_kind, remark_line, with_entry};

use crate::begins::says;
use crate::entry::entry_of;
use crate::values::is_number;
use fws_ios::{IosEntry, IosList};
use fws_net::{Cause, ReadFault};
use fws_num::{Items, Memory, Text, Word, are_sound, read_dec};
use indexmap::IndexMap;
use std::alloc::Global;
use std::marker::Model;

/// Access lists by their names, in the order of their first entries. Contracts see the list.
#[derive(Drop)]
pub(crate) struct Lists {
    entries: IndexMap<Text, Items<IosEntry>>,
}

impl Model for Lists {
    ghost use Rattle.std.specs.Prelude.{List, map};
    ghost use Rattle.fws_ios.specs.declared.config.IosList.{IosList};
    ghost use Rattle.fws_ios_read.specs.Keys.{list_of};

    ghost Value = { List IosList };

    ghost view = { λ l. map list_of l.entries.entries };
}

/// This entry alone.
fn single(alloc: Global, entry: IosEntry) -> Result<Items<IosEntry>, Memory>
    ensures { IfOk result (λ entries. entries ≡ entry ∷ []) }
{
    let mut entries = Items::new(alloc);
    entries.put(entry)?;
    Ok(entries)
}

/// Gives a name these entries, in place of others.
fn insert(
    alloc: Global,
    lists: &mut IndexMap<Text, Items<IosEntry>>,
    name: &Text,
    entries: Items<IosEntry>,
) -> Result<(), Memory>
    ensures { OnOk result (lists.new.entries ≡ insert_entry bytes_eq lists.old.entries name.now entries) }
{
    let name = name.copy(alloc)?;
    lists.insert(name, entries)?;
    Ok(())
}

impl Lists {
    /// No lists.
    pub(crate) fn new(alloc: Global) -> Lists
        ensures { result ≡ [] }
    {
        Lists {
            entries: IndexMap::new(alloc),
        }
    }

    /// Puts an entry behind those of the list of this name, which is the last one where none had the name.
    pub(crate) fn put(&mut self, alloc: Global, name: &Text, entry: IosEntry) -> Result<(), Memory>
        ensures { OnOk result (self.new ≡ with_entry name.now entry self.old) }
    {
        match self.entries.get_mut(name) {
            Some(entries) => {
                entries.put(entry)?;
                Ok(())
            }
            None => {
                let entries = single(alloc, entry)?;
                insert(alloc, &mut self.entries, name, entries)?;
                Ok(())
            }
        }
    }

    /// The lists, in their order.
    pub(crate) fn into_items(self, alloc: Global) -> Result<Items<IosList>, Memory>
        ensures { IfOk result (λ ls. ls ≡ self) }
    {
        let mut lists = Items::new(alloc);
        for (name, entries) in self.entries {
            lists.put(IosList { name, entries })?;
        }
        Ok(lists)
    }
}

/// Takes a remark, which is without effect.
fn remark_line(words: &[Word]) -> Result<(), ReadFault>
    ensures { (d : IosDraft) → StepGiven result d (remark_line words.now d) }
{
    if are_sound(words) {
        Ok(())
    } else {
        Err(ReadFault::Bad(Cause::Syntax))
    }
}

/// Takes the words of an entry of the list of this name, which is extended or not, and was opened or has a number; or of a remark.
pub(crate) fn entry_line(
    alloc: Global,
    lists: &mut Lists,
    name: &Text,
    extended: bool,
    opened: bool,
    words: &[Word],
) -> Result<(), ReadFault>
    ensures { (d : IosDraft) → d.lists ≡ lists.old → StepGiven result (record d { lists = lists.new }) (entry_line name.now extended opened words.now d) }
{
    let Some((word, rest)) = words.split_first() else {
        return Err(ReadFault::Bad(Cause::Syntax));
    };
    if says(word, b"remark") {
        return remark_line(rest);
    }
    let entry = entry_of(alloc, extended, opened, words)?;
    lists.put(alloc, name, entry)?;
    Ok(())
}

/// Whether the number lies between these.
fn is_between(lo: u32, hi: u32, n: u32) -> bool
    ensures { result ≡ is_between lo hi n }
{
    lo <= n && n <= hi
}

/// Whether the list with a number is an extended one; other numbers are left out.
fn numbered_kind(n: u32) -> Result<bool, ReadFault>
    ensures { CauseGiven result (numbered_kind n) }
{
    if is_between(1, 99, n) || is_between(1300, 1999, n) {
        Ok(false)
    } else if is_between(100, 199, n) || is_between(2000, 2699, n) {
        Ok(true)
    } else {
        Err(ReadFault::Bad(Cause::LeftOut))
    }
}

/// The number of a list, and whether that is an extended one.
pub(crate) fn list_number(text: &[u8]) -> Result<(u32, bool), ReadFault>
    ensures { CauseGiven result (list_number text.now) }
{
    match read_dec(text, 2699) {
        Some(n) => {
            let number = n as u32;
            let extended = numbered_kind(number)?;
            Ok((number, extended))
        }
        None => if is_number(text) {
            Err(ReadFault::Bad(Cause::LeftOut))
        } else {
            Err(ReadFault::Bad(Cause::Syntax))
        },
    }
}
