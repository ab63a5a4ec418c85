//! Whether configurations keep state.

ghost use Rattle.std.specs.Prelude.{◌≡◌, ◌||◌, not};
ghost use Rattle.fws_ipfw.specs.RuleText.{allows};
ghost use Rattle.fws_ipfw_put.specs.Placed.{tracks};

use fws_ipfw::{IpfwAct, IpfwConfig, IpfwRule};
use fws_net::Site;

/// Whether the rule keeps state, if it allows packets.
fn keeps_state(rule: &IpfwRule) -> bool
    ensures { result ≡ (not (allows rule.now.act) || rule.now.keep) }
{
    match rule.act {
        IpfwAct::Allow => rule.keep,
        IpfwAct::Deny | IpfwAct::Count | IpfwAct::Skip(_) | IpfwAct::Check | IpfwAct::Nat(_) =>
            true,
    }
}

/// Whether the configuration keeps state: each rule that allows packets does.
pub fn tracks(c: &IpfwConfig, _site: &Site) -> bool
    ensures { result ≡ tracks _site.now c.now }
{
    c.rules.as_slice().iter().all(|rule| keeps_state(rule))
}
