//! The kinds of texts that commands read.

use fws_num::Comments;

/// A kind of text.
#[derive(Clone, Copy, Debug, PartialEq, Eq)]
pub(crate) enum Kind {
    /// A site file.
    Site,
    /// A configuration of iptables.
    Iptables,
    /// A configuration of ipfw.
    Ipfw,
    /// A configuration of pf of FreeBSD.
    Pf,
    /// A configuration of pf of OpenBSD.
    Openbsd,
    /// A configuration of Cisco IOS.
    Ios,
    /// Tracked connections.
    Conns,
    /// Packets.
    Packets,
    /// Events.
    Events,
}

/// Why a line is refused.
#[derive(Clone, Copy, Debug, PartialEq, Eq)]
pub(crate) enum Why {
    /// A word isn't spelled as its place asks, or is missing.
    Syntax,
    /// It isn't read.
    LeftOut,
    /// The site has no such interface.
    NoInterface,
    /// The file has no such chain, table, macro, pool or instance.
    NoName,
    /// A jump goes backward.
    Backward,
    /// A protocol is missing.
    Shape,
    /// It is too large when it is written out.
    Expand,
    /// Networks of a site meet.
    Overlap,
    /// A name of a site is taken, or missing.
    Names,
    /// A site has too many of them.
    Count,
}

impl Kind {
    /// It is a text of pf, with joined lines and punctuation.
    pub(crate) fn is_pf(self) -> bool {
        self == Kind::Pf || self == Kind::Openbsd
    }

    /// The comments of such a text.
    pub(crate) fn comments(self) -> Comments {
        match self {
            Kind::Ipfw => Comments::Ipfw,
            Kind::Pf | Kind::Openbsd => Comments::Pf,
            Kind::Ios => Comments::Ios,
            _ => Comments::HashLine,
        }
    }

    /// The language of this name.
    pub(crate) fn of_lang(word: &[u8]) -> Option<Kind> {
        match word {
            b"iptables" => Some(Kind::Iptables),
            b"ipfw" => Some(Kind::Ipfw),
            b"pf" => Some(Kind::Pf),
            b"openbsd" => Some(Kind::Openbsd),
            b"ios" => Some(Kind::Ios),
            _ => None,
        }
    }

    /// The text is a configuration.
    pub(crate) fn is_configuration(self) -> bool {
        match self {
            Kind::Site | Kind::Conns | Kind::Packets | Kind::Events => false,
            _ => true,
        }
    }
}

impl Why {
    /// The cause as tables name it, which is how a refusal does.
    pub(crate) fn name(self) -> &'static [u8] {
        match self {
            Why::Syntax => b"syntax",
            Why::LeftOut => b"left-out",
            Why::NoInterface => b"no-interface",
            Why::NoName => b"no-name",
            Why::Backward => b"backward",
            Why::Shape => b"shape",
            Why::Expand => b"expand",
            Why::Overlap => b"overlap",
            Why::Names => b"names",
            Why::Count => b"count",
        }
    }

    /// The cause in the words of the field; none for `Shape`, which stands for several.
    pub(crate) fn words(self) -> &'static [u8] {
        match self {
            Why::Syntax => b"syntax error",
            Why::LeftOut => b"not supported",
            Why::NoInterface => b"unknown interface",
            Why::NoName => b"undefined name",
            Why::Backward => b"jump backward",
            Why::Shape => b"",
            Why::Expand => b"too large when written out",
            Why::Overlap => b"overlapping networks",
            Why::Names => b"bad name",
            Why::Count => b"too many",
        }
    }
}
