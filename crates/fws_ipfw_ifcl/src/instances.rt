//! Instances by their numbers.

ghost use Rattle.std.specs.Prelude.{◌≡◌, nat_eq, true, Some, None, MatchOption};
ghost use Rattle.fws_ipfw.specs.Soundness.{are_apart};
ghost use Rattle.fws_ipfw.specs.Walk.{nat_numbered};

use fws_ipfw::IpfwNat;
use fws_num::Memory;
use indexmap::IndexMap;
use std::alloc::Global;

/// Where instances stand among others, by their numbers: hints, which are tested where they are used.
#[derive(Drop)]
pub(crate) struct Instances {
    places: IndexMap<u32, usize>,
}

impl Instances {
    /// Where these stand. Fails if memory runs out.
    pub(crate) fn of(alloc: Global, nats: &[IpfwNat]) -> Result<Instances, Memory> {
        let mut places = IndexMap::new(alloc);
        for (place, nat) in nats.iter().enumerate() {
            places.insert(nat.number, place)?;
        }
        Ok(Instances { places })
    }

    /// The place that is told for a number.
    fn place(&self, number: u32) -> usize {
        match self.places.get(&number) {
            Some(place) => *place,
            None => 0,
        }
    }

    /// The instance with this number.
    pub(crate) fn find<'n>(&self, nats: &'n [IpfwNat], number: u32) -> Option<&'n IpfwNat>
        requires { are_apart nats.now ≡ true }
        ensures { MatchOption result (nat_numbered number nats.now ≡ None) (λ nat. nat_numbered number nats.now ≡ Some nat.now) }
    {
        let place = self.place(number);
        if place < nats.len() {
            let nat = &nats[place];
            if has_number(nat, number) {
                return Some(nat);
            }
        }
        first_numbered(nats, number)
    }
}

/// Whether the instance has this number.
fn has_number(nat: &IpfwNat, number: u32) -> bool
    ensures { result ≡ nat_eq nat.now.number number }
{
    nat.number == number
}

/// The first instance with this number.
fn first_numbered(nats: &[IpfwNat], number: u32) -> Option<&IpfwNat>
    ensures { MatchOption result (nat_numbered number nats.now ≡ None) (λ nat. nat_numbered number nats.now ≡ Some nat.now) }
{
    for nat in nats {
        if nat.number == number {
            return Some(nat);
        }
    }
    None
}
