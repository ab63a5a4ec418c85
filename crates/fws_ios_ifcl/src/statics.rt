//! The rules to which static translations are unfolded.

ghost use Rattle.std.specs.Prelude.{◌≡◌, ◌++◌, ◌∷◌, [], length, if◌then◌else◌, IfOk, OnOk};
ghost use Rattle.fws_ifcl_rules.specs.Rules.{always, guarded};
ghost use Rattle.fws_rules.specs.Literals.{one, positive};
ghost use Rattle.fws_ios_ifcl.specs.Blocks.{at_end, static_cond, static_rules, statics_from};

use fws_ifcl::{Act, Rule};
use fws_ifcl_rules::{put_always, put_guard};
use fws_ios::IosNat;
use fws_iv::one;
use fws_net::{Cond, End, Lit, Test};
use fws_num::Memory;
use fws_rules::{positive, protocol_literal, put_literals};
use std::alloc::Global;

/// The literal of packets that come from an address, or go to it. Fails if memory runs out.
fn at_address(alloc: Global, outward: bool, addr: u32) -> Result<Lit, Memory>
    ensures { IfOk result (λ lit. lit ≡ positive (if outward then Test.Src (one addr addr) else Test.Dst (one addr addr))) }
{
    let set = one(alloc, addr, addr)?;
    if outward {
        Ok(positive(Test::Src(set)))
    } else {
        Ok(positive(Test::Dst(set)))
    }
}

/// The literal of packets that come from a port, or go to it. Fails if memory runs out.
fn at_port(alloc: Global, outward: bool, port: u16) -> Result<Lit, Memory>
    ensures { IfOk result (λ lit. lit ≡ positive (if outward then Test.Sport (one port port) else Test.Dport (one port port))) }
{
    let set = one(alloc, u32::from(port), u32::from(port))?;
    if outward {
        Ok(positive(Test::Sport(set)))
    } else {
        Ok(positive(Test::Dport(set)))
    }
}

/// Puts behind the others what holds of packets that come from an end, or go to it. Fails if memory runs out.
fn put_end(alloc: Global, cond: &mut Cond, outward: bool, end: End) -> Result<(), Memory>
    ensures { OnOk result (cond.new ≡ cond.old ++ at_end outward end) }
{
    cond.put(at_address(alloc, outward, end.addr)?)?;
    match end.port {
        Some(port) => {
            cond.put(at_port(alloc, outward, port)?)?;
            Ok(())
        }
        None => Ok(()),
    }
}

/// The condition of a static at one of its ends. Fails if memory runs out.
fn static_cond(alloc: Global, outward: bool, proto: Option<u8>, end: End) -> Result<Cond, Memory>
    ensures { IfOk result (λ c. c ≡ static_cond outward proto end) }
{
    let mut cond = Cond::new(alloc);
    put_literals(&mut cond, false, protocol_literal(alloc, proto)?)?;
    put_end(alloc, &mut cond, outward, end)?;
    Ok(cond)
}

/// Puts the rules behind the others that write an end where the condition holds. Fails if memory runs out.
fn put_writing(alloc: Global, rules: &mut Vec<Rule>, cond: Cond, writing: Act) -> Result<(), Memory>
    ensures { OnOk result (rules.new.items ≡ rules.old.items ++ guarded (length rules.old.items) cond (always writing ∷ always Act.Accept ∷ [])) }
{
    put_guard(alloc, rules, cond, 2)?;
    put_always(alloc, rules, writing)?;
    put_always(alloc, rules, Act::Accept)
}

/// Puts the rules of a translation behind the others if it is a static: as packets go out its outer end stands for the inner one as
/// the source, and as they come in the inner end stands for the outer one as the destination. Fails if memory runs out.
pub(crate) fn put_static(
    alloc: Global,
    rules: &mut Vec<Rule>,
    outward: bool,
    nat: &IosNat,
) -> Result<(), Memory>
    ensures { OnOk result (rules.new.items ≡ rules.old.items ++ static_rules outward (length rules.old.items) nat.now) }
{
    match nat {
        IosNat::Static {
            proto,
            local,
            global,
        } => {
            if outward {
                let cond = static_cond(alloc, true, *proto, *local)?;
                put_writing(alloc, rules, cond, Act::Src(*global))?;
                return Ok(());
            }
            let cond = static_cond(alloc, false, *proto, *global)?;
            put_writing(alloc, rules, cond, Act::Dst(*local))?;
            Ok(())
        }
        IosNat::List { .. } => Ok(()),
    }
}

/// Puts the rules of all statics behind the others. Fails if memory runs out.
pub(crate) fn put_statics(
    alloc: Global,
    rules: &mut Vec<Rule>,
    outward: bool,
    nats: &[IosNat],
) -> Result<(), Memory>
    ensures { OnOk result (rules.new.items ≡ rules.old.items ++ statics_from outward (length rules.old.items) nats.now) }
{
    for nat in nats {
        put_static(alloc, rules, outward, nat)?;
    }
    Ok(())
}
