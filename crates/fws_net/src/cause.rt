//! Why a site or a configuration is refused.

ghost use Rattle.std.specs.Prelude.{◌≡◌};
ghost use Rattle.fws_net.specs.Causes.{first_cause};

use crate::answer::{LineFault, TextAnswer};

/// What is wrong with a line of a configuration.
#[derive(Clone, Copy, Debug, PartialEq, Eq)]
pub enum Cause {
    /// A word isn't spelled as its place asks, stands where none may stand, or lacks.
    Syntax = 1,
    /// A word or a combination that the system knows and this project leaves out.
    LeftOut = 2,
    /// An interface that the site doesn't have.
    NoInterface = 3,
    /// A chain, table, macro, pool or instance that the file doesn't have.
    NoName = 4,
    /// A jump to the rule itself or an earlier one.
    Backward = 5,
    /// A test that asks for a protocol that the rule doesn't name, or the like.
    Shape = 6,
    /// An expansion past its limit.
    Expand = 7,
}

/// What is wrong with a word or a line of a configuration, or that memory ran out.
pub type ReadFault = LineFault<Cause>;

/// Why a text gives no configuration.
pub type ReadAnswer = TextAnswer<Cause>;

/// What is wrong with a line of a site file.
#[derive(Clone, Copy, Debug, PartialEq, Eq)]
pub enum SiteCause {
    /// It isn't of the form that stands at this place, or the text ends too early or too late.
    Syntax,
    /// The address is taken, or the network meets or is that of an earlier line, or meets 127.0.0.0/8.
    Overlap,
    /// A name is taken, or the line names an interface that no line has.
    Names,
    /// It is an interface, an address or a route more than a site may have.
    Count,
}

/// What is wrong with a word or a line of a site file, or that memory ran out.
pub type SiteFault = LineFault<SiteCause>;

/// Why a site file gives no site.
pub type SiteAnswer = TextAnswer<SiteCause>;

/// The checks of a whole line that failed.
#[derive(Clone, Copy, Debug, PartialEq, Eq)]
pub struct Checks {
    /// A combination that is left out.
    pub left_out: bool,
    /// A jump backward.
    pub backward: bool,
    /// A test without the protocol that it asks for.
    pub shape: bool,
    /// An expansion past its limit.
    pub expand: bool,
}

impl Checks {
    /// The first check that failed, in the order in which they are tried: what is left out, a jump
    /// backward, a shape, an expansion.
    pub fn first(&self) -> Option<Cause>
        ensures { result ≡ first_cause self.now }
    {
        if self.left_out {
            Some(Cause::LeftOut)
        } else if self.backward {
            Some(Cause::Backward)
        } else if self.shape {
            Some(Cause::Shape)
        } else if self.expand {
            Some(Cause::Expand)
        } else {
            None
        }
    }
}
