//! The stages of the diagram.

ghost use Rattle.std.specs.Prelude.{◌≡◌, [], ◌∷◌, ◌++◌, IfOk, OnOk};
ghost use Rattle.std.specs.Option.{option_map_or};
ghost use Rattle.fws_ipt.specs.Walk.{arriving, delivered, forwarded, sent_out, policy_at};
ghost use Rattle.fws_ipt_ifcl.specs.Diagram.{own_stage, tracked_at, builtin_stage, stages_for};

use crate::numbers::OWN_CHAINS;
use fws_ifcl::Stage;
use fws_ifcl_rules::place_behind;
use fws_ipt::{Hook, IptChain, IptTable, builtin_at};
use fws_num::{Items, Memory};
use std::alloc::Global;

/// The number of the chain that puts the mark 0 in place.
const MARK: u32 = 0;

/// The number of the chain that puts the destination of a connection in place.
const DESTINATION: u32 = 1;

/// The number of the chain that puts the source of a connection in place.
const SOURCE: u32 = 2;

/// The stage of one of the diagram's own chains.
fn own_stage(chain: u32) -> Stage
    ensures { result ≡ own_stage chain }
{
    Stage {
        chain,
        shows_recv: false,
        shows_xmit: false,
        outward: false,
        end: true,
    }
}

/// The chain that a packet of a connection meets ahead of the rules of a table at a hook.
fn tracked_at(table: IptTable, hook: Hook) -> Option<Stage>
    ensures { option_map_or (λ stage. stage ∷ []) result [] ≡ tracked_at table hook }
{
    match (table, hook) {
        (IptTable::Nat, Hook::Prerouting | Hook::Output) => Some(own_stage(DESTINATION)),
        (IptTable::Nat, Hook::Input | Hook::Postrouting) => Some(own_stage(SOURCE)),
        (IptTable::Nat, Hook::Forward) => None,
        (IptTable::Filter | IptTable::Mangle, _) => None,
    }
}

/// Whether the chain with this number accepts at its end.
fn policy_at(chains: &[IptChain], c: usize) -> bool
    ensures { result ≡ policy_at chains.now c }
{
    match chains.get(c) {
        Some(chain) => chain.policy.unwrap_or(true),
        None => true,
    }
}

/// The stage of the built-in chain of a table at a hook; none where the file doesn't have it. Fails if memory runs out.
fn builtin_stage(chains: &[IptChain], table: IptTable, hook: Hook) -> Result<Option<Stage>, Memory>
    ensures { IfOk result (λ o. option_map_or (λ stage. stage ∷ []) o [] ≡ builtin_stage chains.now table hook) }
{
    let Some(c) = builtin_at(table, hook, chains) else {
        return Ok(None);
    };
    Ok(Some(Stage {
        chain: place_behind(c, OWN_CHAINS)?,
        shows_recv: hook.shows_recv(),
        shows_xmit: hook.shows_xmit(),
        outward: table == IptTable::Nat && hook.writes_src(),
        end: policy_at(chains, c),
    }))
}

/// Puts the stage behind the others, if there is one. Fails if memory runs out.
fn put_stage(stages: &mut Items<Stage>, stage: Option<Stage>) -> Result<(), Memory>
    ensures { OnOk result (stages.new ≡ stages.old ++ option_map_or (λ own. own ∷ []) stage []) }
{
    if let Some(stage) = stage {
        stages.put(stage)?;
    }
    Ok(())
}

/// Puts the stages of built-in chains behind the others, in their order. Fails if memory runs out.
fn put_stages(
    stages: &mut Items<Stage>,
    chains: &[IptChain],
    places: &[(IptTable, Hook)],
) -> Result<(), Memory>
    ensures { OnOk result (stages.new ≡ stages.old ++ stages_for chains.now places.now) }
{
    for (table, hook) in places {
        put_stage(stages, tracked_at(*table, *hook))?;
        put_stage(stages, builtin_stage(chains, *table, *hook)?)?;
    }
    Ok(())
}

/// What an arriving packet meets before it is routed. Fails if memory runs out.
pub(crate) fn arrive_stages(alloc: Global, chains: &[IptChain]) -> Result<Items<Stage>, Memory>
    ensures { IfOk result (λ stages. stages ≡ own_stage 0 ∷ stages_for chains.now arriving) }
{
    let mut stages = Items::new(alloc);
    stages.put(own_stage(MARK))?;
    let places = [
        (IptTable::Mangle, Hook::Prerouting),
        (IptTable::Nat, Hook::Prerouting),
    ];
    put_stages(&mut stages, chains, &places)?;
    Ok(stages)
}

/// What a packet meets that is delivered. Fails if memory runs out.
pub(crate) fn deliver_stages(alloc: Global, chains: &[IptChain]) -> Result<Items<Stage>, Memory>
    ensures { IfOk result (λ stages. stages ≡ stages_for chains.now delivered) }
{
    let mut stages = Items::new(alloc);
    let places = [
        (IptTable::Mangle, Hook::Input),
        (IptTable::Filter, Hook::Input),
        (IptTable::Nat, Hook::Input),
    ];
    put_stages(&mut stages, chains, &places)?;
    Ok(stages)
}

/// What a packet meets that is forwarded. Fails if memory runs out.
pub(crate) fn forward_stages(alloc: Global, chains: &[IptChain]) -> Result<Items<Stage>, Memory>
    ensures { IfOk result (λ stages. stages ≡ stages_for chains.now forwarded) }
{
    let mut stages = Items::new(alloc);
    let places = [
        (IptTable::Mangle, Hook::Forward),
        (IptTable::Filter, Hook::Forward),
        (IptTable::Mangle, Hook::Postrouting),
        (IptTable::Nat, Hook::Postrouting),
    ];
    put_stages(&mut stages, chains, &places)?;
    Ok(stages)
}

/// What a packet of the host itself meets. Fails if memory runs out.
pub(crate) fn send_stages(alloc: Global, chains: &[IptChain]) -> Result<Items<Stage>, Memory>
    ensures { IfOk result (λ stages. stages ≡ own_stage 0 ∷ stages_for chains.now sent_out) }
{
    let mut stages = Items::new(alloc);
    stages.put(own_stage(MARK))?;
    let places = [
        (IptTable::Mangle, Hook::Output),
        (IptTable::Nat, Hook::Output),
        (IptTable::Filter, Hook::Output),
        (IptTable::Mangle, Hook::Postrouting),
        (IptTable::Nat, Hook::Postrouting),
    ];
    put_stages(&mut stages, chains, &places)?;
    Ok(stages)
}
