//! Conditions of which one holds where a packet hits a set.

ghost use Rattle.std.specs.Prelude.{◌≡◌, ◌∷◌, [], ◌++◌, ◌≤◌, IfOk, OnOk};
ghost use Rattle.fws_pf_put_filter.specs.Conds.{conds_for, conds_under, entry_cond, front_of, AreConds, IsTestable};
ghost use Rattle.fws_pf_put_filter.specs.Literals.{lit_of};
ghost use Rattle.fws_pf_put_filter.specs.declared.tested.Tested.{Tested};

use crate::set_pieces::pieces;
use crate::tested::Tested;
use fws_iv::{Ivs, one};
use fws_net::{Cond, Lit, Test};
use fws_num::{Items, Memory};
use fws_tree_seen::PacketField;
use std::alloc::Global;

const TCP: u32 = 6;

const UDP: u32 = 17;

const ICMP: u32 = 1;

// The condition of one test.
fn alone(alloc: Global, test: Test) -> Result<Cond, Memory>
    ensures { IfOk result (λ cond. cond ≡ lit_of test ∷ []) }
{
    let mut cond = Cond::new(alloc);
    cond.put(Lit { not: false, test })?;
    Ok(cond)
}

// That the packet has the protocol, if one is asked for.
fn front(alloc: Global, protocol: Option<u32>) -> Result<Cond, Memory>
    ensures { IfOk result (λ cond. cond ≡ front_of protocol) }
{
    match protocol {
        None => Ok(Cond::new(alloc)),
        Some(p) => alone(alloc, Test::Proto(one(alloc, p, p)?)),
    }
}

// Appends a condition for each literal, for packets of the protocol.
fn put_under(
    alloc: Global,
    conds: &mut Items<Cond>,
    protocol: Option<u32>,
    lits: &[Lit],
) -> Result<(), Memory>
    ensures { OnOk result (conds.new ≡ conds.old ++ conds_under protocol lits.now) }
{
    for lit in lits {
        let mut cond = front(alloc, protocol)?;
        cond.put(lit.copy(alloc)?)?;
        conds.put(cond)?;
    }
    Ok(())
}

// The conditions for literals of a field, which some protocols have.
fn conds_of(alloc: Global, field: PacketField, lits: &[Lit]) -> Result<Items<Cond>, Memory>
    ensures { IfOk result (λ conds. conds ≡ conds_for field lits.now) }
{
    let mut conds = Items::new(alloc);
    match field {
        PacketField::Proto | PacketField::Dst | PacketField::Src => {
            put_under(alloc, &mut conds, None, lits)?;
        }
        PacketField::Dport | PacketField::Sport => {
            put_under(alloc, &mut conds, Some(TCP), lits)?;
            put_under(alloc, &mut conds, Some(UDP), lits)?;
        }
        PacketField::Flags => put_under(alloc, &mut conds, Some(TCP), lits)?,
        PacketField::Icmp => put_under(alloc, &mut conds, Some(ICMP), lits)?,
    }
    Ok(conds)
}

// The conditions for a set of a field.
fn by_field(alloc: Global, field: PacketField, set: &Ivs) -> Result<Items<Cond>, Memory>
    requires { IsTestable (Tested.Field field) set.now }
    ensures { IfOk result (λ conds. AreConds (Tested.Field field) set.now conds) }
{
    let lits = pieces(alloc, field, set)?;
    conds_of(alloc, field, lits.as_slice())
}

// For each entry of the set from 1 to the greatest one, that the packet comes in by it.
fn by_entry(alloc: Global, top: u32, set: &Ivs) -> Result<Items<Cond>, Memory>
    requires { top ≤ 65535 }
    ensures { IfOk result (λ conds. AreConds (Tested.Entry top) set.now conds) }
{
    let mut conds = Items::new(alloc);
    for e in 1..top + 1 {
        if set.has(e) {
            conds.put(alone(alloc, Test::Via(one(alloc, e, e)?))?)?;
        }
    }
    Ok(conds)
}

/// Conditions of which one holds where a packet hits the set. Fails if memory runs out.
pub(crate) fn conditions(alloc: Global, tested: Tested, set: &Ivs) -> Result<Items<Cond>, Memory>
    requires { IsTestable tested set.now }
    ensures { IfOk result (λ conds. AreConds tested set.now conds) }
{
    match tested {
        Tested::Entry(top) => by_entry(alloc, top, set),
        Tested::Field(field) => by_field(alloc, field, set),
    }
}
