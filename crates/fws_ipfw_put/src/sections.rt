//! Where the rules of a policy stand.

use fws_ipfw_put_rules::{Origin, Section};
use fws_tree_seen::Seen;

/// Packets of connections, as they arrive.
pub(crate) const KNOWN_ARRIVING: Section = Section {
    number: 1000,
    outward: false,
    origin: Origin::Arriving,
    seen: Seen::Entered,
};

/// Packets of connections, as they are forwarded.
pub(crate) const KNOWN_FORWARDED: Section = Section {
    number: 3000,
    outward: true,
    origin: Origin::Arriving,
    seen: Seen::Routed,
};

/// Packets of connections that the host sends.
pub(crate) const KNOWN_SENT: Section = Section {
    number: 4000,
    outward: true,
    origin: Origin::Host,
    seen: Seen::Routed,
};

/// New packets that arrive.
pub(crate) const NEW_ARRIVING: Section = Section {
    number: 6000,
    outward: false,
    origin: Origin::Arriving,
    seen: Seen::Entered,
};

/// New packets that the host sends.
pub(crate) const NEW_SENT: Section = Section {
    number: 7000,
    outward: true,
    origin: Origin::Host,
    seen: Seen::Entered,
};

/// The number of the rule by which new packets that arrived go on to the look-up as they leave.
pub(crate) const ARRIVED_LEAVE: u32 = 2000;

/// The number of the rule by which packets of the host go on to their own list.
pub(crate) const OWN_LEAVE: u32 = 2100;

/// The number of the rule that looks connections up.
pub(crate) const LOOKUP: u32 = 5000;

/// The number of the rule that gives new packets that arrive their tag.
pub(crate) const TAGGING: u32 = 5100;

/// The number of the rule by which new packets that arrived go on to the sources as they leave.
pub(crate) const TO_SOURCES: u32 = 5200;

/// The number of the rules for the first destination.
pub(crate) const DESTINATIONS: u32 = 10_000;

/// The number of the rules for sources.
pub(crate) const SOURCES: u32 = 60_000;

/// The tag of new packets that arrived.
pub(crate) const ARRIVED: u32 = 1;
