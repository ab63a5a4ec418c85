//! The numbers of the rules that stand at places, looked up in place of searched.

ghost use Rattle.std.specs.Prelude.{◌≡◌, unwrap_or, None, [], ◌∷◌, ◌++◌, if◌then◌else◌, IfOk, OnOk};
ghost use Rattle.std.specs.HashMap.{get};
ghost use Rattle.fws_ifcl.specs.declared.diagram.Place.{Place};
ghost use Rattle.fws_ifcl.specs.Spots.{numbers_at};
ghost use Rattle.fws_why.specs.declared.numbers.Key.{Key};
ghost use Rattle.fws_why.specs.Numbers.{AreNumbersOf, key_of, key_eq, numbers_in};

use fws_ifcl::{Place, Spot};
use fws_num::{Items, Memory};
use std::alloc::Global;
use std::collections::HashMap;

/// A place as a key.
#[derive(Clone, Copy, PartialEq, Eq, Hash)]
pub struct Key {
    chain: u32,
    rule: u32,
}

impl Key {
    fn of(place: Place) -> Key
        ensures { result ≡ key_of place }
    {
        Key {
            chain: place.chain,
            rule: place.rule,
        }
    }
}

/// The numbers of the rules that stand at each place.
#[derive(Drop)]
pub(crate) struct Numbers {
    /// The numbers, in the order of the spots.
    pub at: HashMap<Key, Items<u32>>,
}

impl Numbers {
    /// Takes out the numbers at a place.
    fn take(&mut self, alloc: Global, key: &Key) -> Items<u32>
        ensures taken { result ≡ unwrap_or (get key_eq self.old.at key.now) [] }
        ensures left { (other : Key) → get key_eq self.new.at other ≡ (if key_eq key.now other then None else get key_eq self.old.at other) }
    {
        match self.at.remove(key) {
            Some(numbers) => numbers,
            None => Items::new(alloc),
        }
    }

    /// Notes the number of a spot behind those at its place.
    fn note(&mut self, alloc: Global, spot: Spot) -> Result<(), Memory>
        ensures { OnOk result ((place : Place) → numbers_in self.new place ≡ numbers_in self.old place ++ numbers_at (spot ∷ []) place) }
    {
        let key = Key::of(spot.at);
        let mut numbers = self.take(alloc, &key);
        numbers.put(spot.rule)?;
        self.at.insert(key, numbers)?;
        Ok(())
    }

    /// The numbers of the spots at each place.
    pub(crate) fn of(alloc: Global, spots: &[Spot]) -> Result<Numbers, Memory>
        ensures { IfOk result (λ numbers. AreNumbersOf numbers spots.now) }
    {
        let mut numbers = Numbers {
            at: HashMap::new(alloc),
        };
        for spot in spots {
            numbers.note(alloc, *spot)?;
        }
        Ok(numbers)
    }

    /// The numbers of the rules at a place.
    pub(crate) fn find(&self, place: Place) -> &[u32]
        ensures { result.now ≡ numbers_in self.now place }
    {
        match self.at.get(&Key::of(place)) {
            Some(numbers) => numbers.as_slice(),
            None => &[],
        }
    }
}
