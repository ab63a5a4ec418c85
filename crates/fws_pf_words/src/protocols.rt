//! The protocols that have ports, flags and types of messages.

ghost use Rattle.std.specs.Prelude.{◌≡◌, nat_eq};
ghost use Rattle.std.specs.List.{list_all};
ghost use Rattle.fws_pf.specs.Drawn.{has_protocols, is_port_protocol, protocol_passes};

use crate::lists::ItemList;
use fws_pf::{Item, Part};

/// Whether it is this protocol alone.
fn is_protocol(number: u32, part: &Part) -> bool
    ensures { result ≡ protocol_passes (nat_eq number) part.now }
{
    match part {
        Part::Set(set) => match set.parts().first() {
            Some(range) => number == range.lo,
            None => false,
        },
        Part::Every | Part::Table(_) => false,
    }
}

/// Whether all are this protocol.
fn are_protocol(number: u32, items: &[Item]) -> bool
    ensures { result ≡ list_all (λ item. protocol_passes (nat_eq number) item.part) items.now }
{
    items.iter().all(|item| is_protocol(number, &item.part))
}

/// Whether the protocols that are named are this one, and there is one.
pub fn has_protocol(number: u32, items: &ItemList) -> bool
    ensures { result ≡ has_protocols (nat_eq number) items.now }
{
    1 <= items.len() && are_protocol(number, items.kept())
}

/// Whether it is a protocol that has ports.
fn is_port_protocol(part: &Part) -> bool
    ensures { result ≡ protocol_passes is_port_protocol part.now }
{
    match part {
        Part::Set(set) => match set.parts().first() {
            Some(range) => range.lo == 6 || range.lo == 17,
            None => false,
        },
        Part::Every | Part::Table(_) => false,
    }
}

/// Whether all are protocols that have ports.
fn are_port_protocols(items: &[Item]) -> bool
    ensures { result ≡ list_all (λ item. protocol_passes is_port_protocol item.part) items.now }
{
    items.iter().all(|item| is_port_protocol(&item.part))
}

/// Whether the protocols that are named have ports, and there is one.
pub fn has_port_protocol(items: &ItemList) -> bool
    ensures { result ≡ has_protocols is_port_protocol items.now }
{
    1 <= items.len() && are_port_protocols(items.kept())
}
