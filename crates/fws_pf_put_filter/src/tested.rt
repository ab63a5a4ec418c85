//! What the rules of a node test.

ghost use Rattle.std.specs.Prelude.{◌≡◌, ◌+◌, ◌≤◌, length};
ghost use Rattle.fws_net.specs.declared.site.Site.{Site};
ghost use Rattle.fws_pf_put_filter.specs.Conds.{tested_at, way_of};

use fws_net::Site;
use fws_pf::Way;
use fws_tree_seen::{PacketField, Seen, packet_field};

/// What the rules of a node test.
#[derive(Clone, Copy, Debug, PartialEq, Eq)]
pub enum Tested {
    /// The interface by which the packet comes in, up to the one with the greatest number.
    Entry(u32),
    /// A field of the packet.
    Field(PacketField),
}

/// What rules test in place of a field of a point. The entry has so many values.
pub(crate) fn tested_by(top: u32, f: u8) -> Option<Tested>
    ensures { (site : Site) → top ≡ length site.faces + 1 → result ≡ tested_at site f }
{
    if f == 0 {
        return Some(Tested::Entry(top));
    }
    match packet_field(Seen::Entered, f) {
        Some(field) => Some(Tested::Field(field)),
        None => None,
    }
}

/// On which passes the rules of a node are met.
pub(crate) fn way_for(tested: Tested) -> Way
    ensures { result ≡ way_of tested }
{
    match tested {
        Tested::Entry(_) => Way::Inward,
        Tested::Field(_) => Way::Both,
    }
}
