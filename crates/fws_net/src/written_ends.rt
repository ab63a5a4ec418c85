//! Ends.

ghost use Rattle.std.specs.Prelude.{◌≡◌, ◌≤◌, ◌+◌, ◌-◌, ◌%◌, ◌^◌, None};
ghost use Rattle.fws_net.specs.Ends.{host_end};

use crate::outcome::End;
use fws_num::Prefix;

impl End {
    /// A whole address, with a port or without one.
    pub fn host(addr: u32, port: Option<u16>) -> End
        ensures { result ≡ host_end addr port }
    {
        End {
            addr,
            len: 32,
            port,
        }
    }

    /// The first bits of the prefix, of 1 to 32, without a port.
    pub fn net(net: Prefix) -> End
        requires len_low { 1 ≤ net.len }
        requires len_high { net.len ≤ 32 }
        requires clear { net.addr % 2 ^ (32 - net.len) ≡ 0 }
        ensures addr { result.addr ≡ net.addr }
        ensures len { result.len ≡ net.len }
        ensures port { result.port ≡ None }
    {
        End {
            addr: net.addr,
            len: net.len,
            port: None,
        }
    }

    /// The address with the first bits of the end over it.
    #[tactic(auto, using(crate::proofs::Ends::end_fits))]
    pub fn over(&self, a: u32) -> u32
        ensures { result ≡ self.now.addr + a % 2 ^ (32 - self.now.len) }
    {
        let kept = a % 2u32.pow(32 - u32::from(self.len));
        self.addr + kept
    }
}
