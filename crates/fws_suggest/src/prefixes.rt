//! Networks as ranges of addresses.

use fws_iv::Iv;

/// The smallest network that has both addresses.
pub fn network_of(low: u32, high: u32) -> Iv {
    let differing = low ^ high;
    let mut host = 0u32;
    for _ in 0..32 {
        if host >= differing {
            break;
        }
        host = (host << 1) | 1;
    }
    Iv {
        lo: low & !host,
        hi: low | host,
    }
}

/// Whether the range is a network.
pub fn is_network(range: Iv) -> bool {
    network_of(range.lo, range.hi) == range
}
