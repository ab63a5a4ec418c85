//! The names of tags.

ghost use Rattle.std.specs.Prelude.{◌≡◌, [], IfOk, OnOk};
ghost use Rattle.fws_pf.specs.RuleText.{place_of, with_name};

use fws_num::{Items, Memory, Text};
use indexmap::IndexSet;
use std::alloc::Global;
use std::marker::Model;
use std::mem;

/// The names of the tags of a text, in the order in which it first has them.
#[derive(Drop)]
pub struct Tags {
    names: IndexSet<Text>,
}

impl Model for Tags {
    ghost use Rattle.std.specs.Prelude.{List, ℕ};

    ghost Value = { List (List ℕ) };

    ghost view = { λ t. t.names.keys };
}

/// The place as a number of 32 bits.
fn number_of(place: usize) -> Result<u32, Memory>
    ensures { IfOk result (λ n. n ≡ place) }
{
    match u32::try_from(place) {
        Ok(number) => Ok(number),
        Err(_) => Err(Memory),
    }
}

impl Tags {
    /// No names.
    pub fn new(alloc: Global) -> Tags
        ensures { result ≡ [] }
    {
        Tags {
            names: IndexSet::new(alloc),
        }
    }

    /// Takes out all names.
    pub fn take(&mut self, alloc: Global) -> Tags
        ensures taken { result ≡ self.old }
        ensures left { self.new ≡ [] }
    {
        mem::replace(self, Tags::new(alloc))
    }

    /// The place of the name, counted from 0, which is put behind the others unless it is among them. Fails if memory runs out, or
    /// at a place past 2^32 - 1.
    pub fn place(&mut self, alloc: Global, name: &[u8]) -> Result<u32, Memory>
        ensures place { IfOk result (λ n. n ≡ place_of self.old name.now) }
        ensures names { OnOk result (self.new ≡ with_name self.old name.now) }
    {
        let (place, _) = self.names.insert_full(Text::of(alloc, name)?)?;
        number_of(place)
    }

    /// The names. Fails if memory runs out.
    pub fn into_items(self, alloc: Global) -> Result<Items<Text>, Memory>
        ensures { IfOk result (λ names. names ≡ self) }
    {
        let names: Vec<Text> = self.names.into_iter().collect(alloc)?;
        Ok(Items::from_vec(names))
    }
}
