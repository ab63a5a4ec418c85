//! A mark for each rewriting that new packets get.

use fws_net::Rewrite;
use fws_num::{Items, Prefix};

/// What is known of the packets that get a rewriting. Its mark is the number of the chain that sets it.
#[derive(Drop)]
pub struct Mark {
    /// The rewriting.
    pub rewrite: Rewrite,
    /// Whether there are packets of TCP among them.
    pub tcp: bool,
    /// Whether there are packets of UDP among them.
    pub udp: bool,
    /// Whether some of them arrive.
    pub arrives: bool,
    /// Whether some of them are the host's own.
    pub sends: bool,
    /// Blocks of addresses with all of their destinations, where a network is written over these.
    pub dst_blocks: Items<Prefix>,
    /// Blocks of addresses with all of their sources, where a network is written over these.
    pub src_blocks: Items<Prefix>,
}
