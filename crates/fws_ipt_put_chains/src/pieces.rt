//! Pieces of sets: conditions of which one holds where a field's value is a member.

ghost use Rattle.std.specs.Prelude.{◌≡◌, ℕ, ◌<◌, ◌≤◌, ◌++◌, true, map, IfOk, OnOk};
ghost use Rattle.std.specs.List.{list_all};
ghost use Rattle.fws_iv.specs.Ivs.{has};
ghost use Rattle.fws_ipt_print.specs.Printable.{are_ports};
ghost use Rattle.fws_ipt_put_chains.specs.Conds.{range_cond, cube_cond, port_cond, port_conds, AreValuesBelow, ArePortLists};
ghost use Rattle.fws_ipt_put_chains.specs.Pieces.{IsSpelled, ArePieces};
ghost use Rattle.fws_ipt_put_chains.specs.declared.coming.Coming.{Coming};

use crate::coming::Coming;
use crate::conds::{has_port, has_value, in_cube, in_range};
use crate::port_lists::port_lists;
use fws_iv::{Ivs, cubes};
use fws_net::Cond;
use fws_num::{Items, Memory};
use fws_tree_seen::PacketField;
use std::alloc::Global;

// For each interval of a set of addresses, that the address lies in it.
fn ranges(alloc: Global, field: PacketField, set: &Ivs) -> Result<Items<Cond>, Memory>
    ensures { IfOk result (λ conds. conds ≡ map (range_cond field) set.now) }
{
    let mut conds = Items::new(alloc);
    for range in set.parts() {
        conds.put(in_range(alloc, field, *range)?)?;
    }
    Ok(conds)
}

// The same as pieces of the set.
fn destinations(alloc: Global, set: &Ivs) -> Result<Items<Cond>, Memory>
    requires { IsSpelled PacketField.Dst set.now }
    ensures { IfOk result (λ conds. (coming : Coming) → ArePieces coming PacketField.Dst set.now conds) }
{
    let _parts = set.parts();
    ranges(alloc, PacketField::Dst, set)
}

// The same for sources.
fn sources(alloc: Global, set: &Ivs) -> Result<Items<Cond>, Memory>
    requires { IsSpelled PacketField.Src set.now }
    ensures { IfOk result (λ conds. (coming : Coming) → ArePieces coming PacketField.Src set.now conds) }
{
    let _parts = set.parts();
    ranges(alloc, PacketField::Src, set)
}

// For each protocol of a set, that it is the packet's.
fn protocols(alloc: Global, set: &Ivs) -> Result<Items<Cond>, Memory>
    requires { IsSpelled PacketField.Proto set.now }
    ensures { IfOk result (λ conds. AreValuesBelow PacketField.Proto set.now 256 conds) }
{
    let mut conds = Items::new(alloc);
    for v in 0..256 {
        if set.has(v) {
            conds.put(has_value(alloc, PacketField::Proto, v)?)?;
        }
    }
    Ok(conds)
}

// For each ICMP type of a set, that it is the packet's.
fn types(alloc: Global, set: &Ivs) -> Result<Items<Cond>, Memory>
    requires { IsSpelled PacketField.Icmp set.now }
    ensures { IfOk result (λ conds. AreValuesBelow PacketField.Icmp set.now 256 conds) }
{
    let mut conds = Items::new(alloc);
    for v in 0..256 {
        if set.has(v) {
            conds.put(has_value(alloc, PacketField::Icmp, v)?)?;
        }
    }
    Ok(conds)
}

// For each cube of a set of flags, that the packet's flags lie in it.
fn flags(alloc: Global, set: &Ivs) -> Result<Items<Cond>, Memory>
    requires { IsSpelled PacketField.Flags set.now }
    ensures { IfOk result (λ conds. (coming : Coming) → ArePieces coming PacketField.Flags set.now conds) }
{
    let all = cubes(alloc, set)?;
    let mut conds = Items::new(alloc);
    for cube in &all {
        conds.put(in_cube(alloc, *cube)?)?;
    }
    Ok(conds)
}

// Appends, for each list of ports, that the port of a packet with this protocol is a member.
fn put_lists(
    alloc: Global,
    conds: &mut Items<Cond>,
    field: PacketField,
    proto: u32,
    lists: &[Ivs],
) -> Result<(), Memory>
    ensures { OnOk result (conds.new ≡ conds.old ++ map (port_cond field proto) lists.now) }
{
    for list in lists {
        conds.put(has_port(alloc, field, proto, list)?)?;
    }
    Ok(())
}

// For each list of ports and for TCP and UDP, as far as these come, that the port is a member.
fn ports(
    alloc: Global,
    field: PacketField,
    coming: Coming,
    lists: &[Ivs],
) -> Result<Items<Cond>, Memory>
    ensures { IfOk result (λ conds. conds ≡ port_conds field coming lists.now) }
{
    let mut conds = Items::new(alloc);
    if coming.tcp {
        put_lists(alloc, &mut conds, field, 6, lists)?;
    }
    if coming.udp {
        put_lists(alloc, &mut conds, field, 17, lists)?;
    }
    Ok(conds)
}

// The same as pieces of a set.
fn destination_ports(alloc: Global, coming: Coming, set: &Ivs) -> Result<Items<Cond>, Memory>
    requires { IsSpelled PacketField.Dport set.now }
    ensures { IfOk result (λ conds. ArePieces coming PacketField.Dport set.now conds) }
{
    let lists = port_lists(alloc, set)?;
    ports(alloc, PacketField::Dport, coming, &lists)
}

// The same for source ports.
fn source_ports(alloc: Global, coming: Coming, set: &Ivs) -> Result<Items<Cond>, Memory>
    requires { IsSpelled PacketField.Sport set.now }
    ensures { IfOk result (λ conds. ArePieces coming PacketField.Sport set.now conds) }
{
    let lists = port_lists(alloc, set)?;
    ports(alloc, PacketField::Sport, coming, &lists)
}

/// Conditions of which one holds where the packet has the field and its value is a member, for packets that come. Fails if memory
/// runs out.
pub(crate) fn pieces(
    alloc: Global,
    field: PacketField,
    coming: Coming,
    set: &Ivs,
) -> Result<Items<Cond>, Memory>
    requires { IsSpelled field set.now }
    ensures { IfOk result (λ conds. ArePieces coming field set.now conds) }
{
    match field {
        PacketField::Proto => protocols(alloc, set),
        PacketField::Dst => destinations(alloc, set),
        PacketField::Dport => destination_ports(alloc, coming, set),
        PacketField::Src => sources(alloc, set),
        PacketField::Sport => source_ports(alloc, coming, set),
        PacketField::Flags => flags(alloc, set),
        PacketField::Icmp => types(alloc, set),
    }
}
