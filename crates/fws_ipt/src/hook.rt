//! Where a packet meets the built-in chains (iptables(8)).

ghost use Rattle.std.specs.Prelude.{◌≡◌};
ghost use Rattle.fws_ipt.specs.Walk.{hook_name, masquerades_at, shows_recv, shows_xmit, writes_dst_at, writes_src_at};

/// A place on a packet's way, with the built-in chains of its name.
#[derive(Clone, Copy, Debug, PartialEq, Eq)]
pub enum Hook {
    /// Before routing.
    Prerouting,
    /// Delivered to the host.
    Input,
    /// Forwarded.
    Forward,
    /// Sent by the host.
    Output,
    /// Before it leaves.
    Postrouting,
}

impl Hook {
    /// The name of the built-in chains there.
    pub fn name(self) -> &'static [u8]
        ensures { result.now ≡ hook_name self }
    {
        match self {
            Hook::Prerouting => b"PREROUTING",
            Hook::Input => b"INPUT",
            Hook::Forward => b"FORWARD",
            Hook::Output => b"OUTPUT",
            Hook::Postrouting => b"POSTROUTING",
        }
    }

    /// Whether rules there see the receiving interface.
    pub fn shows_recv(self) -> bool
        ensures { result ≡ shows_recv self }
    {
        match self {
            Hook::Prerouting | Hook::Input | Hook::Forward => true,
            Hook::Output | Hook::Postrouting => false,
        }
    }

    /// Whether rules there see the sending interface.
    pub fn shows_xmit(self) -> bool
        ensures { result ≡ shows_xmit self }
    {
        match self {
            Hook::Prerouting | Hook::Input => false,
            Hook::Forward | Hook::Output | Hook::Postrouting => true,
        }
    }

    /// Whether DNAT and REDIRECT act there, and NETMAP writes the destination.
    pub fn writes_dst(self) -> bool
        ensures { result ≡ writes_dst_at self }
    {
        match self {
            Hook::Prerouting | Hook::Output => true,
            Hook::Input | Hook::Forward | Hook::Postrouting => false,
        }
    }

    /// Whether SNAT acts there, and NETMAP writes the source.
    pub fn writes_src(self) -> bool
        ensures { result ≡ writes_src_at self }
    {
        match self {
            Hook::Input | Hook::Postrouting => true,
            Hook::Prerouting | Hook::Forward | Hook::Output => false,
        }
    }

    /// Whether MASQUERADE acts there.
    pub fn masquerades(self) -> bool
        ensures { result ≡ masquerades_at self }
    {
        match self {
            Hook::Postrouting => true,
            Hook::Prerouting | Hook::Input | Hook::Forward | Hook::Output => false,
        }
    }
}
