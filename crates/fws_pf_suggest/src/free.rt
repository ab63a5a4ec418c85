//! Interfaces on which all passes, by one rule ahead of all others.
//!
//! What comes in there passes without a tag. Where it leaves by another interface it is asked there, as what the host itself sends is.

use crate::names::Names;
use fws_num::{Memory, Text};
use fws_suggest::{ACCEPT, DST, Diagram, ENTRY, Exit, Meeting, Policy, Side, Stop};

/// The interfaces on which all passes.
#[derive(Drop)]
pub(crate) struct Free {
    /// Their entry numbers.
    pub(crate) numbers: Vec<u32>,
    /// The same as a side.
    pub(crate) entries: Side,
    /// The destinations of packets that leave by them.
    pub(crate) exits: Side,
}

impl Free {
    /// No interface.
    pub(crate) fn none(policy: &Policy) -> Free {
        Free {
            numbers: Vec::new(policy.alloc),
            entries: Side::EMPTY,
            exits: Side::EMPTY,
        }
    }

    /// Adds an interface.
    fn add(&mut self, policy: &mut Policy, exit: Exit) -> Result<(), Memory> {
        let entry = policy.space.range(ENTRY, exit.entry, exit.entry)?;
        self.entries = policy.space.either(self.entries, entry)?;
        self.exits = policy.space.either(self.exits, exit.side)?;
        self.numbers.push(exit.entry)?;
        Ok(())
    }

    /// The entries of packets that are asked as they come in.
    pub(crate) fn others(&self, policy: &mut Policy) -> Result<Side, Memory> {
        policy.space.minus(policy.arriving, self.entries)
    }

    /// What is said of all packets that are asked first where they leave, as of the host's own ones. Nothing is allowed where it is said
    /// of one and not of another one that looks the same.
    pub(crate) fn sent(&self, policy: &mut Policy, diagram: Diagram) -> Result<Diagram, Stop> {
        let departures = policy.departures();
        let own = policy.space.keep(diagram, &departures)?;
        if self.numbers.is_empty() || !policy.forwarding {
            return Ok(own);
        }
        let foreign = policy.foreign()?;
        let forwarded = policy
            .everything()
            .with(ENTRY, self.entries)
            .with(DST, foreign);
        let through = policy.space.keep(diagram, &forwarded)?;
        let both = policy.space.meet(own, through)?;
        let all = policy.space.project(both, ENTRY, Meeting::Both)?;
        policy.space.keep(all, &departures)
    }

    /// As `sent`, with anything allowed of what leaves where all passes.
    pub(crate) fn leaving(&self, policy: &mut Policy, diagram: Diagram) -> Result<Diagram, Stop> {
        let sent = self.sent(policy, diagram)?;
        let unasked = policy.everything().with(DST, self.exits);
        policy.space.paint(sent, &unasked)
    }

    /// Appends the names of the interfaces, in braces where there are several.
    pub(crate) fn put_names(&self, names: &mut Names, out: &mut Text) -> Result<(), Memory> {
        if let [only] = self.numbers.as_slice() {
            return names.put_interface(out, *only);
        }
        let mut before: &[u8] = b"{ ";
        for entry in &self.numbers {
            out.put(before)?;
            names.put_interface(out, *entry)?;
            before = b", ";
        }
        out.put(b" }")
    }
}

/// Whether all pass that come in by an interface to the host itself, and all that it sends there.
fn passes_all(policy: &mut Policy, verdict: Diagram, exit: Exit) -> Result<bool, Stop> {
    let entry = policy.space.range(ENTRY, exit.entry, exit.entry)?;
    let local = policy.local;
    let delivered = policy.everything().with(ENTRY, entry).with(DST, local);
    let sent = policy.departures().with(DST, exit.side);
    Ok(
        policy.space.is_allowed(verdict, &delivered, ACCEPT)?
            && policy.space.is_allowed(verdict, &sent, ACCEPT)?,
    )
}

/// The interfaces on which all may pass, as far as the verdict tells: loopback alone, or others too where some are left.
pub(crate) fn free_interfaces(
    policy: &mut Policy,
    verdict: Diagram,
    is_wide: bool,
) -> Result<Free, Stop> {
    let mut free = Free::none(policy);
    for place in 0..policy.exits.len() {
        let Some(exit) = policy.exits.get(place).copied() else {
            break;
        };
        if (is_wide || exit.entry == 1) && passes_all(policy, verdict, exit)? {
            free.add(policy, exit)?;
        }
    }
    Ok(if free.numbers.len() == policy.exits.len() {
        Free::none(policy)
    } else {
        free
    })
}
