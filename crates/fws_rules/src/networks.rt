//! The end that a mapped network writes: NETMAP (iptables-extensions(8)) and `bitmask` (pf.conf(5)).

ghost use Rattle.std.specs.Prelude.{◌≡◌};
ghost use Rattle.fws_rules.specs.Networks.{written_len, net_end};

use fws_net::End;
use fws_num::Prefix;

/// How many bits are written.
fn written_len(len: u8) -> u8
    ensures { result ≡ written_len len }
{
    len.max(1).min(32)
}

/// The end that a mapped network writes: its first bits, without a port. A length that isn't 1 to
/// 32 counts as the nearest of these.
pub fn net_end(net: Prefix) -> End
    ensures { result ≡ net_end net }
{
    let len = written_len(net.len);
    let size = 2u64.pow(32 - u32::from(len));
    let addr = (u64::from(net.addr) / size * size) as u32;
    End::net(Prefix { addr, len })
}
