//! The interfaces with which a packet may be shown to a rule.

ghost use Rattle.std.specs.Prelude.{◌≡◌};
ghost use Rattle.fws_net.specs.Routes.{IsSound};
ghost use Rattle.fws_net.specs.Showing.{receiving, sending};

use crate::exit::Exit;
use crate::packet::Packet;
use crate::routes::exit_of;
use crate::site::Site;

impl Packet {
    /// The entry number of the receiving interface, which the host's own packets don't have.
    pub fn receiving(&self) -> Option<u8>
        ensures { result ≡ receiving self.now }
    {
        if self.entry == 0 {
            None
        } else {
            Some(self.entry)
        }
    }
}

/// The entry number of the interface by which a packet is sent, with its destination as it stands;
/// none where it is delivered or lost.
pub fn sending_entry(site: &Site, p: &Packet) -> Option<u8>
    requires { IsSound site.now }
    ensures { result ≡ sending site.now p.now }
{
    match exit_of(site, p.entry, p.dst) {
        Exit::Out(entry) => Some(entry),
        Exit::Deliver | Exit::Lost => None,
    }
}
