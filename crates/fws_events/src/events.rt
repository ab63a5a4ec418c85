//! Events, and what they are answered with.

use fws_net::{Fate, Packet};

/// What happens in a run.
#[derive(Clone, Copy, Debug, PartialEq, Eq)]
pub enum Event {
    /// A packet enters.
    Packet(Packet),
    /// The connection of this entry of the list expires, counted from 0.
    Expire(u32),
}

/// What an event is answered with.
#[derive(Clone, Copy, Debug, PartialEq, Eq)]
pub enum Answer {
    /// The packet belonged to no connection, and this became of it.
    New(Fate),
    /// The packet belonged to a connection, and this became of it.
    Est(Fate),
    /// The entry was listed, and isn't any more.
    Expired,
    /// The list had no such entry.
    NoEntry,
}
