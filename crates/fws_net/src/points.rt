//! The greatest values of a point's fields.

ghost use Rattle.std.specs.Prelude.{◌≡◌};
ghost use Rattle.fws_net.specs.Points.{tops_of};
ghost use Rattle.fws_net.specs.Routes.{IsSound};

use crate::site::Site;

const TOP_PORT: u32 = 65535;

const TOP_FLAGS: u32 = 63;

const TOP_BYTE: u32 = 255;

/// The greatest value of each field of a point: entry, protocol, destination and its port, source and
/// its port, flags, ICMP type, and destination, port, source and port as an established connection
/// sends the packet.
pub fn tops(site: &Site) -> [u32; 12]
    requires { IsSound site.now }
    ensures { result ≡ tops_of site.now }
{
    let top_entry = site.faces.as_slice().len() as u32 + 1;
    [
        top_entry,
        TOP_BYTE,
        u32::MAX,
        TOP_PORT,
        u32::MAX,
        TOP_PORT,
        TOP_FLAGS,
        TOP_BYTE,
        u32::MAX,
        TOP_PORT,
        u32::MAX,
        TOP_PORT,
    ]
}
