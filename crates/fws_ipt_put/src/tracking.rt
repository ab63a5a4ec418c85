//! Whether configurations keep state.

ghost use Rattle.std.specs.Prelude.{◌≡◌};
ghost use Rattle.fws_ipt_put.specs.Placed.{tracks};

use fws_ipt::IptConfig;
use fws_net::Site;

/// Whether the configuration keeps state. Every configuration of iptables does.
pub fn tracks(_c: &IptConfig, _site: &Site) -> bool
    ensures { result ≡ tracks _site.now _c.now }
{
    true
}
