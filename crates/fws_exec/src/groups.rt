//! Classes with one view, in groups.

ghost use Rattle.std.specs.Prelude.{◌≡◌, ◌<◌, ◌||◌, nat_eq, ℕ, List, true, false, length, slice_get, Some, IfOk, IfSome, OnOk};
ghost use Rattle.fws_flat.specs.declared.code.Part.{Part};
ghost use Rattle.fws_flat.specs.Walk.{sees};
ghost use Rattle.fws_net.specs.declared.connection.Kind.{Kind};
ghost use Rattle.fws_net.specs.declared.site.Site.{Site};
ghost use Rattle.fws_net.specs.Conditions.{holds};
ghost use Rattle.fws_exec.specs.declared.spot.Class.{Class as AnyClass};
ghost use Rattle.fws_exec.specs.Classes.{transit_of};
ghost use Rattle.fws_exec.specs.Sheets.{among, IsUsed};
ghost use Rattle.fws_exec.specs.Views.{is_in, seen_by, tags_fit, AreAlike, AllFit};

use crate::roll::Roll;
use crate::views::{Sides, View};
use fws_net::Cond;
use fws_num::Memory;
use std::alloc::Global;
use std::collections::HashMap;

/// Classes with one view.
#[derive(Drop)]
pub(crate) struct Group {
    /// The view.
    pub view: View,
    /// Their numbers.
    pub numbers: Vec<u32>,
}

/// Groups, each with another view.
#[derive(Drop)]
pub(crate) struct Groups {
    /// The groups.
    pub all: Vec<Group>,
    // Where the group with a view may be.
    places: HashMap<View, usize>,
}

impl Group {
    /// The number of one of its classes. An error is a group of none.
    pub(crate) fn first(&self) -> Result<u32, Memory>
        ensures { IfOk result (λ n. among self.now.numbers.items n ≡ true) }
    {
        match self.numbers.first() {
            Some(number) => Ok(*number),
            None => Err(Memory),
        }
    }
}

impl Groups {
    /// No group.
    pub(crate) fn new(alloc: Global) -> Groups
        ensures { (n : ℕ) → is_in result.all.items n ≡ false }
    {
        Groups {
            all: Vec::new(alloc),
            places: HashMap::new(alloc),
        }
    }

    /// Whether the group at the place has the view.
    fn is_at(&self, place: usize, view: View) -> bool
        ensures { result ≡ true → place < length self.now.all.items }
    {
        match self.all.get(place) {
            Some(group) => group.view.same(view),
            None => false,
        }
    }

    /// Where the group with the view is, if there is one: most are asked for again at once.
    fn found(&self, view: View) -> Option<usize>
        ensures { IfSome result (λ place. place < length self.now.all.items) }
    {
        let last = self.all.len().saturating_sub(1);
        if self.is_at(last, view) {
            return Some(last);
        }
        let place = match self.places.get(&view) {
            Some(place) => *place,
            None => return None,
        };
        if self.is_at(place, view) {
            Some(place)
        } else {
            None
        }
    }

    /// Puts a group with the view and this number behind the others.
    fn append(&mut self, alloc: Global, view: View, number: u32) -> Result<(), Memory>
        ensures { OnOk result ((n : ℕ) → is_in self.new.all.items n ≡ (is_in self.old.all.items n || nat_eq n number)) }
    {
        let mut numbers = Vec::new(alloc);
        numbers.push(number)?;
        self.places.insert(view, self.all.len())?;
        self.all.push(Group { view, numbers })?;
        Ok(())
    }

    /// Puts the class with this number into the group with the view.
    pub(crate) fn put(&mut self, alloc: Global, view: View, number: u32) -> Result<(), Memory>
        ensures { OnOk result ((n : ℕ) → is_in self.new.all.items n ≡ (is_in self.old.all.items n || nat_eq n number)) }
    {
        match self.found(view) {
            Some(place) => self.all[place].numbers.push(number)?,
            None => self.append(alloc, view, number)?,
        }
        Ok(())
    }
}

impl Roll {
    /// Puts the class with this number into a group, unless the condition fails for it.
    fn group(
        &self,
        alloc: Global,
        groups: &mut Groups,
        number: u32,
        sides: Sides,
        cond: &Cond,
    ) -> Result<(), Memory>
        ensures inside { OnOk result ((n : ℕ) → is_in groups.new.all.items n ≡ true → (is_in groups.old.all.items n || nat_eq n number) ≡ true) }
        ensures kept { OnOk result ((n : ℕ) → is_in groups.old.all.items n ≡ true → is_in groups.new.all.items n ≡ true) }
        ensures left { OnOk result (is_in groups.new.all.items number ≡ false → (c : AnyClass) → slice_get self.now.classes.items number ≡ Some c → (site : Site) (kind : Kind) (part : Part) (p : List ℕ) → holds cond.now (sees site kind part (transit_of c.progress p)) ≡ false) }
    {
        let class = self.used(number)?;
        if class.progress.fails(cond) {
            return Ok(());
        }
        groups.put(alloc, View::of(&class.progress, sides, number), number)?;
        Ok(())
    }

    /// Groups of those of the classes at which the condition may hold.
    pub(crate) fn grouped(
        &self,
        alloc: Global,
        numbers: &[u32],
        sides: Sides,
        cond: &Cond,
    ) -> Result<Groups, Memory>
        ensures inside { IfOk result (λ groups. (n : ℕ) → is_in groups.all.items n ≡ true → among numbers.now n ≡ true) }
        ensures left { IfOk result (λ groups. (n : ℕ) (c : AnyClass) → among numbers.now n ≡ true → is_in groups.all.items n ≡ false → slice_get self.now.classes.items n ≡ Some c → (site : Site) (kind : Kind) (part : Part) (p : List ℕ) → holds cond.now (sees site kind part (transit_of c.progress p)) ≡ false) }
    {
        let mut groups = Groups::new(alloc);
        for number in numbers {
            self.group(alloc, &mut groups, *number, sides, cond)?;
        }
        Ok(groups)
    }

    /// Groups of the classes.
    pub(crate) fn grouped_all(
        &self,
        alloc: Global,
        numbers: &[u32],
        sides: Sides,
    ) -> Result<Groups, Memory>
        ensures { IfOk result (λ groups. (n : ℕ) → is_in groups.all.items n ≡ among numbers.now n) }
    {
        let mut groups = Groups::new(alloc);
        for number in numbers {
            let class = self.used(*number)?;
            groups.put(alloc, View::of(&class.progress, sides, *number), *number)?;
        }
        Ok(groups)
    }

    /// Whether each class of the group is used and has the group's view.
    pub(crate) fn are_alike(&self, group: &Group, sides: Sides) -> bool
        ensures { result ≡ true → AreAlike sides self.now.classes.items group.now }
    {
        for number in &group.numbers {
            if !self.has_view(*number, sides, group.view) {
                return false;
            }
        }
        true
    }

    /// Whether the class with this number is used and has the view.
    fn has_view(&self, number: u32, sides: Sides, view: View) -> bool
        ensures { result ≡ true → (c : AnyClass) × IsUsed self.now.classes.items number c × (seen_by c.progress sides number ≡ view) }
    {
        match self.classes.get(number as usize) {
            Some(class) => {
                if class.spot.is_unused() {
                    return false;
                }
                View::of(&class.progress, sides, number).same(view)
            }
            None => false,
        }
    }

    /// Whether the condition fails at no class of the group for its tags.
    pub(crate) fn all_fit(&self, group: &Group, cond: &Cond) -> bool
        ensures { result ≡ true → AllFit self.now.classes.items cond.now group.now }
    {
        for number in &group.numbers {
            if !self.fits(*number, cond) {
                return false;
            }
        }
        true
    }

    /// Whether the condition doesn't fail at the class with this number for its tags.
    fn fits(&self, number: u32, cond: &Cond) -> bool
        ensures { result ≡ true → (c : AnyClass) → slice_get self.now.classes.items number ≡ Some c → tags_fit c.progress.tags cond.now ≡ true }
    {
        match self.classes.get(number as usize) {
            Some(class) => !class.progress.fails(cond),
            None => false,
        }
    }
}
