//! What was read so far of a site file.

use crate::site::Site;

/// The form of a site file, by its first line.
#[derive(Clone, Copy, Debug, PartialEq, Eq)]
pub(crate) enum Form {
    /// `site 1`: one address to an interface, on its line, and no routes.
    First,
    /// `site 2`: addresses and routes on lines of their own.
    Second,
}

/// Which lines may come next.
#[derive(Clone, Copy, Debug, PartialEq, Eq)]
pub(crate) enum Stage {
    /// The first line.
    Header,
    /// Interfaces, and what stands behind them.
    Interfaces,
    /// Addresses, and what stands behind them.
    Addresses,
    /// Routes, and what stands behind them.
    Routes,
    /// The default interface.
    Default,
    /// Whether packets are forwarded.
    Forwarding,
    /// Whether a pass of ipfw ends at a translation.
    OnePass,
    /// No line.
    Ended,
}

/// What was read so far of a site file.
#[derive(Drop)]
pub(crate) struct Draft {
    /// Which lines may come next.
    pub(crate) stage: Stage,
    /// The form that the first line names.
    pub(crate) form: Form,
    /// The site, as far as it was read.
    pub(crate) site: Site,
}
