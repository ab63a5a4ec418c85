//! The tops of a site.

/// The greatest value of each field, at a site of fourteen interfaces.
pub const TOPS: [u32; 12] = [
    15,
    255,
    u32::MAX,
    65535,
    u32::MAX,
    65535,
    63,
    255,
    u32::MAX,
    65535,
    u32::MAX,
    65535,
];
