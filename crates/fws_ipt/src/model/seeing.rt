//! What a rule sees of a packet (iptables(8), iptables-extensions(8)).

ghost use Rattle.std.specs.Prelude.{◌≡◌, IfOk};
ghost use Rattle.fws_net.specs.Routes.{IsSound};
ghost use Rattle.fws_ipt.specs.Walk.{view_at};

use crate::hook::Hook;
use crate::passage::Passage;
use fws_net::{Site, View, sending_entry};
use fws_num::{Items, Memory};
use std::alloc::Global;

/// What a rule at the hook sees of a packet on its way.
pub(crate) fn view_at(
    alloc: Global,
    site: &Site,
    is_est: bool,
    hook: Hook,
    m: &Passage,
) -> Result<View, Memory>
    requires { IsSound site.now }
    ensures { IfOk result (λ v. v ≡ view_at site.now is_est hook m.now) }
{
    let mut tags = Items::new(alloc);
    tags.put(m.mark)?;
    Ok(View {
        packet: m.packet,
        recv: if hook.shows_recv() {
            m.packet.receiving()
        } else {
            None
        },
        xmit: if hook.shows_xmit() {
            sending_entry(site, &m.packet)
        } else {
            None
        },
        outward: false,
        est: is_est,
        tags,
    })
}
