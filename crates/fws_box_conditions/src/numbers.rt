//! Entry numbers and protocols with a name.

/// The entry number of the host.
pub(crate) const HOST: u32 = 0;

/// The entry number of loopback.
pub(crate) const LOOPBACK: u32 = 1;

pub(crate) const ICMP: u32 = 1;

pub(crate) const TCP: u32 = 6;

pub(crate) const UDP: u32 = 17;
