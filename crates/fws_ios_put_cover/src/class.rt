//! Packets that entries ask for in one way.

ghost use Rattle.std.specs.Prelude.{◌≡◌, ℕ, IfOk};
ghost use Rattle.fws_iv.specs.Ivs.{has};
ghost use Rattle.fws_ios_put_cover.specs.Classes.{asks_ports, asks_types, is_tcp, keeps, takes};

use fws_iv::{Iv, Ivs, one};
use fws_num::Memory;
use std::alloc::Global;

/// Packets that entries ask for in one way, by their protocols.
#[derive(Clone, Copy, Debug, PartialEq, Eq)]
pub(crate) enum Class {
    /// TCP.
    Tcp,
    /// TCP and UDP, with ports.
    Ports,
    /// ICMP, with types.
    Types,
    /// The other protocols.
    Others,
}

// The protocols that have neither ports nor types.
const OTHERS: [Iv; 4] = [
    Iv { lo: 0, hi: 0 },
    Iv { lo: 2, hi: 5 },
    Iv { lo: 7, hi: 16 },
    Iv { lo: 18, hi: 255 },
];

/// The protocols of the packets. Fails if memory runs out.
pub(crate) fn protocols(alloc: Global, class: Class) -> Result<Ivs, Memory>
    ensures { IfOk result (λ set. (v : ℕ) → has set v ≡ takes class v) }
{
    match class {
        Class::Tcp => one(alloc, 6, 6),
        Class::Ports => Ivs::of_parts(alloc, &[Iv { lo: 6, hi: 6 }, Iv { lo: 17, hi: 17 }]),
        Class::Types => one(alloc, 1, 1),
        Class::Others => Ivs::of_parts(alloc, &OTHERS),
    }
}

/// Whether `established` may be asked for.
pub(crate) fn is_tcp(class: Class) -> bool
    ensures { result ≡ is_tcp class }
{
    match class {
        Class::Tcp => true,
        Class::Ports | Class::Types | Class::Others => false,
    }
}

// Whether ports may be asked for.
fn asks_ports(class: Class) -> bool
    ensures { result ≡ asks_ports class }
{
    match class {
        Class::Tcp | Class::Ports => true,
        Class::Types | Class::Others => false,
    }
}

// Whether types may be asked for.
fn asks_types(class: Class) -> bool
    ensures { result ≡ asks_types class }
{
    match class {
        Class::Types => true,
        Class::Tcp | Class::Ports | Class::Others => false,
    }
}

/// Whether the set of the field is kept.
pub(crate) fn keeps(class: Class, f: usize) -> bool
    ensures { result ≡ keeps class f }
{
    f == 2 || f == 4 || asks_ports(class) && (f == 3 || f == 5) || asks_types(class) && f == 7
}
