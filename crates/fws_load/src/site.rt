//! The text of a site.

ghost use Rattle.std.specs.Prelude.{◌≡◌, IfOk};
ghost use Rattle.fws_load.specs.Load.{site_text};

use fws_num::{Memory, Text};
use std::alloc::Global;

/// The text of a site with an inner and an outer interface. Fails if memory runs out.
#[tactic(auto, unfolding(crate::specs::Load::site_text))]
pub fn load_site(alloc: Global) -> Result<Text, Memory>
    ensures { IfOk result (λ text. text ≡ site_text) }
{
    Text::of(
        alloc,
        b"site 1\ninterface lan 10.0.0.1/24 ipt=eth0 ipfw=em0 pf=em0 ios=GigabitEthernet0/0 nat=inside\ninterface wan 203.0.113.2/30 ipt=eth1 ipfw=em1 pf=em1 ios=GigabitEthernet0/1 nat=outside\nloopback ipt=lo ipfw=lo0 pf=lo0 ios=Loopback0\ndefault wan\nforwarding yes\none_pass 1\n",
    )
}
