//! Conditions of one piece.

ghost use Rattle.std.specs.Prelude.{◌≡◌, ◌≤◌, ◌≢◌, ◌∷◌, [], IfOk};
ghost use Rattle.fws_iv.specs.declared.iv.Iv.{Iv};
ghost use Rattle.fws_ipt_put_chains.specs.Conds.{lit_of, one_number, proto_lit, set_test, range_cond, value_cond, cube_cond, port_cond};

use fws_iv::{Cube, Iv, Ivs, one};
use fws_net::{Cond, Lit, Test};
use fws_num::Memory;
use fws_tree_seen::PacketField;
use std::alloc::Global;

// A test of a field for the members of a set.
fn test_of(field: PacketField, set: Ivs) -> Test
    ensures { result ≡ set_test field set }
{
    match field {
        PacketField::Proto => Test::Proto(set),
        PacketField::Dst => Test::Dst(set),
        PacketField::Dport => Test::Dport(set),
        PacketField::Src => Test::Src(set),
        PacketField::Sport => Test::Sport(set),
        PacketField::Flags => Test::Never,
        PacketField::Icmp => Test::Icmp(set),
    }
}

// The condition of one test.
fn alone(alloc: Global, test: Test) -> Result<Cond, Memory>
    ensures { IfOk result (λ cond. cond ≡ lit_of test ∷ []) }
{
    let mut cond = Cond::new(alloc);
    cond.put(Lit { not: false, test })?;
    Ok(cond)
}

// The condition of one test of packets with a protocol.
fn under(alloc: Global, proto: u32, test: Test) -> Result<Cond, Memory>
    ensures { IfOk result (λ cond. cond ≡ proto_lit proto ∷ lit_of test ∷ []) }
{
    let mut cond = alone(alloc, Test::Proto(one(alloc, proto, proto)?))?;
    cond.put(Lit { not: false, test })?;
    Ok(cond)
}

/// An address lies in the range.
pub(crate) fn in_range(alloc: Global, field: PacketField, range: Iv) -> Result<Cond, Memory>
    requires { range.lo ≤ range.hi }
    ensures { IfOk result (λ cond. cond ≡ range_cond field range) }
{
    let set = one(alloc, range.lo, range.hi)?;
    alone(alloc, test_of(field, set))
}

/// The field of a packet has this value.
pub(crate) fn has_value(alloc: Global, field: PacketField, v: u32) -> Result<Cond, Memory>
    ensures { IfOk result (λ cond. cond ≡ value_cond field v) }
{
    let set = one(alloc, v, v)?;
    match field {
        PacketField::Icmp => under(alloc, 1, Test::Icmp(set)),
        PacketField::Proto
        | PacketField::Dst
        | PacketField::Dport
        | PacketField::Src
        | PacketField::Sport
        | PacketField::Flags => alone(alloc, test_of(field, set)),
    }
}

/// The flags of a TCP packet lie in the cube.
pub(crate) fn in_cube(alloc: Global, cube: Cube) -> Result<Cond, Memory>
    ensures { IfOk result (λ cond. cond ≡ cube_cond cube) }
{
    under(
        alloc,
        6,
        Test::Flags {
            mask: cube.mask,
            want: cube.want,
        },
    )
}

/// The port of a packet with this protocol is a member.
pub(crate) fn has_port(
    alloc: Global,
    field: PacketField,
    proto: u32,
    set: &Ivs,
) -> Result<Cond, Memory>
    ensures { IfOk result (λ cond. cond ≡ port_cond field proto set.now) }
{
    let copied = set.copy(alloc)?;
    under(alloc, proto, test_of(field, copied))
}
