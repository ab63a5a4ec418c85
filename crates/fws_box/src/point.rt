//! Points.

/// A value for each field: the eight fields of a packet, then the four of the packet as an established
/// connection sends it.
pub type Point = [u32; 12];
