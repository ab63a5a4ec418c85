//! Classes by number.

ghost use Rattle.std.specs.Prelude.{◌≡◌, ◌<◌, ◌≤◌, ℕ, [], ◌∷◌, true, false, Some, length, slice_get, IfOk, IfSome, OnOk};
ghost use Rattle.fws_tree.specs.Building.{Extends};
ghost use Rattle.fws_exec.specs.declared.progress.Progress.{Progress as AnyProgress};
ghost use Rattle.fws_exec.specs.declared.spot.Class.{Class as AnyClass};
ghost use Rattle.fws_exec.specs.declared.spot.Spot.TheVariants.{Unused, At};
ghost use Rattle.fws_exec.specs.Classes.{is_before, is_unused, same_spot};
ghost use Rattle.fws_exec.specs.Goings.{Goes};
ghost use Rattle.fws_exec.specs.Moving.{AddsAt};
ghost use Rattle.fws_exec.specs.Sheets.{among, stands, AllAt, AreSent, IsPut, IsUsed, StandsAt};

use crate::going::Going;
use crate::key::Key;
use crate::progress::Progress;
use crate::spot::{Class, Spot};
use fws_num::Memory;
use fws_tree::Values;
use std::alloc::Global;
use std::collections::HashMap;

/// Classes of packets, by number.
#[derive(Drop)]
pub(crate) struct Roll {
    /// The classes.
    pub classes: Vec<Class>,
    /// Numbers whose classes may be unused, to be given again.
    pub spares: Vec<u32>,
    /// The numbers of the classes that came to each place. Some may have gone on: nothing hangs on them but time.
    pub waiting: Vec<Vec<u32>>,
    /// Whether a class came to a place otherwise than from the place before, so that it may be equal to another there.
    pub arrivals: Vec<bool>,
    /// The number of the class that was the last one with this key, where one was asked for.
    pub found: HashMap<Key, u32>,
}

/// A bit for a class with this number.
pub(crate) fn bit_of(number: usize) -> u64 {
    2u64.pow((number % 64) as u32)
}

/// No arrivals at so many places.
fn no_arrivals(alloc: Global, places: usize) -> Result<Vec<bool>, Memory> {
    let mut arrivals = Vec::new(alloc);
    for _ in 0..places {
        arrivals.push(false)?;
    }
    Ok(arrivals)
}

/// No class at so many places.
fn none_waiting(alloc: Global, places: usize) -> Result<Vec<Vec<u32>>, Memory> {
    let mut waiting = Vec::new(alloc);
    for _ in 0..places {
        waiting.push(Vec::new(alloc))?;
    }
    Ok(waiting)
}

impl Roll {
    /// The one class, with code of so many places.
    pub(crate) fn of_one(alloc: Global, class: Class, places: usize) -> Result<Roll, Memory>
        ensures { IfOk result (λ r. r.classes.items ≡ class ∷ []) }
    {
        let waiting = none_waiting(alloc, places.saturating_add(1))?;
        let arrivals = no_arrivals(alloc, places)?;
        let mut classes = Vec::new(alloc);
        classes.push(class)?;
        Ok(Roll {
            classes,
            spares: Vec::new(alloc),
            waiting,
            arrivals,
            found: HashMap::new(alloc),
        })
    }

    /// How many classes there are. An error is a number that has no 32 bits.
    pub(crate) fn count(&self) -> Result<u32, Memory>
        ensures { IfOk result (λ n. n ≡ length self.now.classes.items) }
    {
        match u32::try_from(self.classes.len()) {
            Ok(count) => Ok(count),
            Err(_) => Err(Memory),
        }
    }

    /// Whether there is a class with this number, and it is unused.
    fn is_unused(&self, number: u32) -> bool
        ensures { result ≡ stands is_unused self.now.classes.items number }
    {
        match self.classes.get(number as usize) {
            Some(class) => class.spot.is_unused(),
            None => false,
        }
    }

    /// Lets the number of a class be given again that no point has.
    pub(crate) fn release(&mut self, alloc: Global, number: u32) -> Result<(), Memory>
        requires { number < length self.old.classes.items }
        ensures put { OnOk result ((g : AnyProgress) × IsPut number (record { spot = Unused; progress = g }) self.old.classes.items self.new.classes.items) }
        ensures count { length self.new.classes.items ≡ length self.old.classes.items }
    {
        self.spares.push(number)?;
        self.classes[number as usize] = Progress::entered(alloc).standing(Spot::Unused);
        Ok(())
    }

    /// The number of an unused class, if one is known.
    fn spare(&mut self) -> Option<u32>
        ensures unused { IfSome result (λ n. stands is_unused self.old.classes.items n ≡ true) }
        ensures classes { self.new.classes ≡ self.old.classes }
    {
        let number = self.spares.pop()?;
        if self.is_unused(number) {
            Some(number)
        } else {
            None
        }
    }

    /// The number of one more class. A value is added for the one behind it. Fails if memory runs out.
    fn add_number(&self, values: &mut Values) -> Result<u32, Memory>
        ensures number { IfOk result (λ n. n ≡ length self.now.classes.items) }
        ensures values { Extends values.old values.new }
    {
        let next = self.classes.len() + 1;
        let value = values.add(bit_of(next))?;
        // values are numbered one by one, and only here
        if value as usize != next {
            return Err(Memory);
        }
        Ok(value - 1)
    }

    /// Puts a class in the place of the one with this number, which is unused.
    fn give(&mut self, number: u32, class: Class)
        requires { stands is_unused self.old.classes.items number ≡ true }
        ensures put { IsPut number class self.old.classes.items self.new.classes.items }
        ensures adds { AddsAt class.spot self.old.classes.items self.new.classes.items }
    {
        self.classes[number as usize] = class;
    }

    /// Adds a class behind all others, and gives its number.
    fn append(&mut self, values: &mut Values, class: Class) -> Result<u32, Memory>
        ensures put { IfOk result (λ n. IsPut n class self.old.classes.items self.new.classes.items) }
        ensures adds { AddsAt class.spot self.old.classes.items self.new.classes.items }
        ensures values { Extends values.old values.new }
    {
        let number = self.add_number(values)?;
        self.classes.push(class)?;
        Ok(number)
    }

    /// Adds a class, and gives its number: one that was unused, or the next.
    fn add(&mut self, values: &mut Values, class: Class) -> Result<u32, Memory>
        ensures put { IfOk result (λ n. slice_get self.new.classes.items n ≡ Some class) }
        ensures adds { AddsAt class.spot self.old.classes.items self.new.classes.items }
        ensures values { Extends values.old values.new }
    {
        if let Some(number) = self.spare() {
            self.give(number, class);
            return Ok(number);
        }
        let number = self.append(values, class)?;
        Ok(number)
    }

    /// Whether the class with this number is like this one.
    pub(crate) fn is_like(&self, number: u32, class: &Class) -> bool
        ensures { result ≡ true → slice_get self.now.classes.items number ≡ Some class.now }
    {
        match self.classes.get(number as usize) {
            Some(own) => own.is(class.spot, &class.progress),
            None => false,
        }
    }

    /// The number of a class like this one, if the last one with the key is.
    fn recalled(&self, key: &Key, class: &Class) -> Option<u32>
        ensures { IfSome result (λ n. slice_get self.now.classes.items n ≡ Some class.now) }
    {
        let number = match self.found.get(key) {
            Some(number) => *number,
            None => return None,
        };
        if self.is_like(number, class) {
            Some(number)
        } else {
            None
        }
    }

    /// The number of a class like this one. It is added if none is found.
    pub(crate) fn target(&mut self, values: &mut Values, class: Class) -> Result<u32, Memory>
        ensures target { IfOk result (λ n. slice_get self.new.classes.items n ≡ Some class) }
        ensures adds { AddsAt class.spot self.old.classes.items self.new.classes.items }
        ensures values { Extends values.old values.new }
    {
        let key = Key::of(class.spot, &class.progress);
        if let Some(number) = self.recalled(&key, &class) {
            return Ok(number);
        }
        let spot = class.spot;
        let number = self.add(values, class)?;
        self.arrive(number, spot)?;
        self.found.insert(key, number)?;
        Ok(number)
    }

    /// The class with this number is found by its key from now on.
    fn find(&mut self, number: u32) -> Result<(), Memory>
        ensures { self.new.classes ≡ self.old.classes }
    {
        let class = self.used(number)?;
        let key = Key::of(class.spot, &class.progress);
        self.found.insert(key, number)?;
        Ok(())
    }

    /// The classes with these numbers are found by their keys from now on.
    pub(crate) fn find_all(&mut self, numbers: &[u32]) -> Result<(), Memory>
        ensures { self.new.classes ≡ self.old.classes }
    {
        for number in numbers {
            self.find(*number)?;
        }
        Ok(())
    }

    /// Notes that the class with this number came to the spot otherwise than from the place before.
    pub(crate) fn arrive(&mut self, number: u32, spot: Spot) -> Result<(), Memory>
        ensures { self.new.classes ≡ self.old.classes }
    {
        if let Spot::At(place) = spot {
            self.note(place);
            self.wait(number, place)?;
        }
        Ok(())
    }

    /// Notes that the class with this number is at the place. Fails if memory runs out, or at a place that isn't one of the code.
    fn wait(&mut self, number: u32, place: u32) -> Result<(), Memory>
        ensures { self.new.classes ≡ self.old.classes }
    {
        match self.waiting.get_mut(place as usize) {
            Some(numbers) => numbers.push(number)?,
            None => return Err(Memory),
        }
        Ok(())
    }

    /// Notes that the classes with these numbers are at the place.
    pub(crate) fn wait_all(&mut self, numbers: &[u32], place: u32) -> Result<(), Memory>
        ensures { self.new.classes ≡ self.old.classes }
    {
        for number in numbers {
            self.wait(*number, place)?;
        }
        Ok(())
    }

    /// Forgets which classes came to the place.
    pub(crate) fn wait_none(&mut self, alloc: Global, place: u32)
        ensures { self.new.classes ≡ self.old.classes }
    {
        if (place as usize) < self.waiting.len() {
            self.waiting[place as usize] = Vec::new(alloc);
        }
    }

    /// The numbers of the classes that came to the place.
    fn waiting(&self, place: u32) -> &[u32] {
        match self.waiting.get(place as usize) {
            Some(numbers) => numbers.as_slice(),
            None => &[],
        }
    }

    /// Whether a class came to the place, and nobody forgot it.
    pub(crate) fn is_waited(&self, place: u32) -> bool {
        !self.waiting(place).is_empty()
    }

    /// Those of the numbers whose classes stand at the place.
    pub(crate) fn standing(
        &self,
        alloc: Global,
        came: &[u32],
        place: u32,
    ) -> Result<Vec<u32>, Memory>
        ensures { IfOk result (λ numbers. AllAt (At place) self.now.classes.items (among numbers.items)) }
    {
        let mut numbers = Vec::new(alloc);
        for number in came {
            if !self.stands(*number, Spot::At(place)) {
                continue;
            }
            numbers.push(*number)?;
        }
        Ok(numbers)
    }

    /// The numbers of the classes that came to the place and are still there.
    pub(crate) fn waiting_at(&self, alloc: Global, place: u32) -> Result<Vec<u32>, Memory>
        ensures { IfOk result (λ numbers. AllAt (At place) self.now.classes.items (among numbers.items)) }
    {
        let numbers = self.standing(alloc, self.waiting(place), place)?;
        Ok(numbers)
    }

    /// Notes the place.
    fn note(&mut self, place: u32)
        ensures { self.new.classes ≡ self.old.classes }
    {
        if (place as usize) < self.arrivals.len() {
            self.arrivals[place as usize] = true;
        }
    }

    /// Whether a class came to the place otherwise than from the place before.
    pub(crate) fn has_arrivals(&self, place: u32) -> bool {
        match self.arrivals.get(place as usize) {
            Some(arrived) => *arrived,
            None => true,
        }
    }

    /// The class of the packets of the class with this number that go at the label. Fails if memory runs out, or at a class that
    /// isn't used.
    pub(crate) fn gone(
        &self,
        alloc: Global,
        going: Going,
        number: u32,
        label: u32,
    ) -> Result<Class, Memory>
        ensures gone { IfOk result (λ d. (c : AnyClass) × IsUsed self.now.classes.items number c × Goes going label c.progress d) }
        ensures used { IfOk result (λ d. is_unused d.spot ≡ false) }
    {
        let class = self.used(number)?;
        let gone = going.class(alloc, &class.progress, label)?;
        if gone.spot.is_unused() {
            return Err(Memory);
        }
        Ok(gone)
    }

    /// The class with this number. An error is one that isn't used.
    pub(crate) fn used(&self, number: u32) -> Result<&Class, Memory>
        ensures { IfOk result (λ class. IsUsed self.now.classes.items number class.now) }
    {
        match self.classes.get(number as usize) {
            Some(class) => if class.spot.is_unused() {
                Err(Memory)
            } else {
                Ok(class)
            },
            None => Err(Memory),
        }
    }

    /// Whether the class with this number stands at the spot.
    pub(crate) fn stands(&self, number: u32, spot: Spot) -> bool
        ensures { result ≡ stands (same_spot spot) self.now.classes.items number }
    {
        match self.classes.get(number as usize) {
            Some(class) => spot.is_spot(class.spot),
            None => false,
        }
    }

    /// The numbers of all classes that stand at the spot.
    pub(crate) fn all_at(&self, alloc: Global, spot: Spot) -> Result<Vec<u32>, Memory>
        ensures here { IfOk result (λ numbers. AllAt spot self.now.classes.items (among numbers.items)) }
        ensures all { IfOk result (λ numbers. (n : ℕ) → StandsAt spot self.now.classes.items n → among numbers.items n ≡ true) }
    {
        let mut numbers = Vec::new(alloc);
        for number in 0..self.count()? {
            if !self.stands(number, spot) {
                continue;
            }
            numbers.push(number)?;
        }
        Ok(numbers)
    }

    /// The class with this number goes to the spot.
    pub(crate) fn send(&mut self, number: u32, spot: Spot)
        requires { number < length self.old.classes.items }
        ensures { (c : AnyClass) → slice_get self.old.classes.items number ≡ Some c → IsPut number (record c { spot = spot }) self.old.classes.items self.new.classes.items }
    {
        self.classes[number as usize].spot = spot;
    }

    /// The classes with these numbers go to the spot.
    pub(crate) fn send_all(&mut self, numbers: &[u32], spot: Spot)
        requires { (n : ℕ) → among numbers.now n ≡ true → n < length self.old.classes.items }
        ensures sent { AreSent spot (among numbers.now) self.old.classes.items self.new.classes.items }
        ensures count { length self.new.classes.items ≡ length self.old.classes.items }
    {
        for number in numbers {
            self.classes[*number as usize].spot = spot;
        }
    }

    /// The first place to which a class came, from this one on and before the place past; else the place past.
    pub(crate) fn next_waited(&self, place: u32, past: u32) -> u32
        ensures low { place ≤ past → place ≤ result }
        ensures high { result ≤ past }
    {
        let mut next = place;
        while next < past {
            if self.is_waited(next) {
                return next;
            }
            next += 1;
        }
        past
    }

    /// Whether no class stands at an instruction before the place.
    pub(crate) fn are_past(&self, place: u32) -> bool
        ensures { result ≡ true → (n : ℕ) → stands (is_before place) self.now.classes.items n ≡ false }
    {
        for class in self.classes.as_slice() {
            if class.spot.is_before(place) {
                return false;
            }
        }
        true
    }
}
