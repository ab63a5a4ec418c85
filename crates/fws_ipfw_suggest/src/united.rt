//! One list for both directions.

use crate::lists::put_list;
use crate::script::Script;
use crate::writer::{Way, Writer};
use fws_net::Site;
use fws_suggest::{
    ACCEPT, DROP, DST, Diagram, ENTRY, Established, Meeting, Policy, Settings, Stop, Style, solved,
    verdict_task,
};

/// What is asked of packets wherever they come from. It gives up where something depends on that.
fn wherever(policy: &mut Policy) -> Result<Diagram, Stop> {
    let direct = policy.direct()?;
    let mut verdict = policy.verdict(direct)?;
    if !policy.forwarding {
        let foreign = policy.foreign()?;
        let lost = policy.arrivals().with(DST, foreign);
        verdict = policy.space.paint(verdict, &lost)?;
    }
    let diagram = policy.space.project(verdict, ENTRY, Meeting::Both)?;
    if policy.fails(diagram)? {
        return Err(Stop::Late);
    }
    Ok(diagram)
}

/// Appends the list for a diagram.
fn put_solved(
    script: &mut Script,
    writer: &Writer,
    policy: &mut Policy,
    style: &mut Style,
    diagram: Diagram,
) -> Result<(), Stop> {
    let mut task = verdict_task(policy.alloc, diagram, &[DROP, ACCEPT])?;
    let everywhere = policy.space.full(ENTRY);
    task.hints = policy.hints_from(everywhere)?;
    let list = solved(policy, style, &task)?;
    put_list(script, writer, policy, style, &list, Way::Both, 0)
}

/// Appends one list for both directions, where nothing is translated and nothing depends on where packets come in.
pub(crate) fn put_united(
    script: &mut Script,
    policy: &mut Policy,
    site: &Site,
    established: Established,
) -> Result<(), Stop> {
    let is_plain = policy.sources.len() == 1 && policy.destinations.len() == 1;
    if !is_plain || established.ahead.is_some() || established.behind.is_some() {
        return Err(Stop::Late);
    }
    let diagram = wherever(policy)?;
    script.put_check()?;
    let everywhere = policy.space.full(DST);
    let mut style = policy.style(Settings::ipfw(), everywhere)?;
    let writer = Writer::new(policy, site);
    put_solved(script, &writer, policy, &mut style, diagram)
}
