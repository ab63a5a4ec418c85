//! Pieces of sets: literals of which one holds where a field's value is a member.

ghost use Rattle.std.specs.Prelude.{◌≡◌, map, IfOk};
ghost use Rattle.fws_ipfw_put_rules.specs.Pieces.{set_lit, AreProtocolsBelow, ArePieces, IsProper};

use crate::groups::{address_groups, port_groups};
use fws_iv::{Ivs, cubes, one};
use fws_net::{Lit, Test};
use fws_num::{Items, Memory};
use fws_tree_seen::PacketField;
use std::alloc::Global;

// A literal that a field's value is a member.
fn has_member(field: PacketField, set: Ivs) -> Lit
    ensures { result ≡ set_lit field set }
{
    let test = match field {
        PacketField::Proto => Test::Proto(set),
        PacketField::Dst => Test::Dst(set),
        PacketField::Dport => Test::Dport(set),
        PacketField::Src => Test::Src(set),
        PacketField::Sport => Test::Sport(set),
        PacketField::Flags => Test::Never,
        PacketField::Icmp => Test::Icmp(set),
    };
    Lit { not: false, test }
}

// For each group, that the value is a member.
fn grouped(alloc: Global, field: PacketField, groups: Vec<Ivs>) -> Result<Items<Lit>, Memory>
    ensures { IfOk result (λ lits. lits ≡ map (set_lit field) groups.items) }
{
    let mut lits = Items::new(alloc);
    for group in groups {
        lits.put(has_member(field, group))?;
    }
    Ok(lits)
}

// The pieces of a set of sources.
fn sources(alloc: Global, set: &Ivs) -> Result<Items<Lit>, Memory>
    requires { IsProper PacketField.Src set.now }
    ensures { IfOk result (λ lits. ArePieces PacketField.Src set.now lits) }
{
    let groups = address_groups(alloc, set)?;
    grouped(alloc, PacketField::Src, groups)
}

// The pieces of a set of destinations.
fn destinations(alloc: Global, set: &Ivs) -> Result<Items<Lit>, Memory>
    requires { IsProper PacketField.Dst set.now }
    ensures { IfOk result (λ lits. ArePieces PacketField.Dst set.now lits) }
{
    let groups = address_groups(alloc, set)?;
    grouped(alloc, PacketField::Dst, groups)
}

// The pieces of a set of source ports.
fn source_ports(alloc: Global, set: &Ivs) -> Result<Items<Lit>, Memory>
    requires { IsProper PacketField.Sport set.now }
    ensures { IfOk result (λ lits. ArePieces PacketField.Sport set.now lits) }
{
    let groups = port_groups(alloc, set)?;
    grouped(alloc, PacketField::Sport, groups)
}

// The pieces of a set of destination ports.
fn destination_ports(alloc: Global, set: &Ivs) -> Result<Items<Lit>, Memory>
    requires { IsProper PacketField.Dport set.now }
    ensures { IfOk result (λ lits. ArePieces PacketField.Dport set.now lits) }
{
    let groups = port_groups(alloc, set)?;
    grouped(alloc, PacketField::Dport, groups)
}

// For each protocol of a set, that it is the packet's.
fn protocols(alloc: Global, set: &Ivs) -> Result<Items<Lit>, Memory>
    ensures { IfOk result (λ lits. AreProtocolsBelow set.now 256 lits) }
{
    let mut lits = Items::new(alloc);
    for v in 0..256 {
        if set.has(v) {
            let only = one(alloc, v, v)?;
            lits.put(has_member(PacketField::Proto, only))?;
        }
    }
    Ok(lits)
}

// The pieces of a set of ICMP types: one literal.
fn types(alloc: Global, set: &Ivs) -> Result<Items<Lit>, Memory>
    requires { IsProper PacketField.Icmp set.now }
    ensures { IfOk result (λ lits. ArePieces PacketField.Icmp set.now lits) }
{
    let _parts = set.parts();
    let mut lits = Items::new(alloc);
    let whole = set.copy(alloc)?;
    lits.put(has_member(PacketField::Icmp, whole))?;
    Ok(lits)
}

// The pieces of a set of flags: a literal for each cube.
fn flags(alloc: Global, set: &Ivs) -> Result<Items<Lit>, Memory>
    requires { IsProper PacketField.Flags set.now }
    ensures { IfOk result (λ lits. ArePieces PacketField.Flags set.now lits) }
{
    let all = cubes(alloc, set)?;
    let mut lits = Items::new(alloc);
    for cube in &all {
        lits.put(Lit {
            not: false,
            test: Test::Flags {
                mask: cube.mask,
                want: cube.want,
            },
        })?;
    }
    Ok(lits)
}

/// Literals of which one holds where the packet has the field and its value is a member. Fails if memory runs out.
pub(crate) fn pieces(alloc: Global, field: PacketField, set: &Ivs) -> Result<Items<Lit>, Memory>
    requires { IsProper field set.now }
    ensures { IfOk result (λ lits. ArePieces field set.now lits) }
{
    match field {
        PacketField::Proto => protocols(alloc, set),
        PacketField::Dst => destinations(alloc, set),
        PacketField::Dport => destination_ports(alloc, set),
        PacketField::Src => sources(alloc, set),
        PacketField::Sport => source_ports(alloc, set),
        PacketField::Flags => flags(alloc, set),
        PacketField::Icmp => types(alloc, set),
    }
}
