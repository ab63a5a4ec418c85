//! The instances that lines of a text define, whether they are refused or not.

ghost use Rattle.std.specs.Prelude.{◌≡◌, [], OnOk};
ghost use Rattle.fws_ipfw.specs.FileText.{redirects_at, with_defined};
ghost use Rattle.fws_ipfw.specs.RuleText.{is_defined};

use fws_ipfw::Defined;
use fws_num::Memory;
use indexmap::IndexMap;
use std::alloc::Global;
use std::marker::Model;

/// The redirects of instances, by the instances' numbers.
#[derive(Drop)]
pub(crate) struct Known {
    redirects: IndexMap<u32, u32>,
}

impl Model for Known {
    ghost use Rattle.std.specs.Prelude.{List, map};
    ghost use Rattle.fws_ipfw.specs.declared.draft.Defined.{Defined};
    ghost use Rattle.fws_ipfw_read.specs.Keys.{defined_of};

    ghost Value = { List Defined };

    ghost view = { λ k. map defined_of k.redirects.entries };
}

impl Known {
    /// No instances.
    pub(crate) fn new(alloc: Global) -> Known
        ensures { result ≡ [] }
    {
        Known {
            redirects: IndexMap::new(alloc),
        }
    }

    /// Whether there is an instance of this number.
    pub(crate) fn has(&self, number: u32) -> bool
        ensures { result ≡ is_defined self.now number }
    {
        self.redirects.contains_key(&number)
    }

    /// The redirects of the instance of this number; 0 where there is none.
    pub(crate) fn redirects(&self, number: u32) -> u32
        ensures { result ≡ redirects_at self.now number }
    {
        match self.redirects.get(&number) {
            Some(count) => *count,
            None => 0,
        }
    }

    /// Puts an instance behind the others, unless one of them has its number.
    pub(crate) fn put(&mut self, each: Defined) -> Result<(), Memory>
        ensures { OnOk result (self.new ≡ with_defined each self.old) }
    {
        if self.has(each.number) {
            return Ok(());
        }
        self.redirects.insert(each.number, each.redirects)?;
        Ok(())
    }
}
