//! Languages in which policies are written.

use crate::source::Source;
use fws_flat::Flat;
use fws_net::Site;
use fws_num::{Memory, Text};
use fws_place::PlaceAnswer;
use fws_tree::Tables;
use std::alloc::Global;

/// A language in which policies are written: when its system can hold the tables of a policy, the configuration that
/// does what they say, and its text; and texts that a person would rather keep, which may do so too.
pub trait Language: Source {
    ghost use Rattle.std.specs.Prelude.{◌≡◌, Bool, true, Ok, Err, IfOk, OnOk};
    ghost use Rattle.fws_net.specs.declared.packet.Lang.{Lang};
    ghost use Rattle.fws_net.specs.declared.site.Site.{Site};
    ghost use Rattle.fws_net.specs.Routes.{IsSound};
    ghost use Rattle.fws_net.specs.SiteLaws.{IsOrderly};
    ghost use Rattle.fws_place.specs.declared.breach.Breach.{Breach};
    ghost use Rattle.fws_place.specs.Fits.{Fits, IsBreach};
    ghost use Rattle.fws_top.specs.Translations.{GivesFates};
    ghost use Rattle.fws_tree.specs.Regular.{AreRegular};

    // The system whose placement condition is asked for.
    ghost system: { Lang };

    // Whether a configuration can be printed at a site.
    ghost printable: { Site → Self.Config → Bool };

    /// A configuration that gives the packets of the site the fates of the tables: `Ok` exactly where these fit the system,
    /// and else the first clause that they don't meet, with packets that show so.
    fn place(alloc: Global, t: &Tables, site: &Site) -> Result<Self::Config, PlaceAnswer>
        requires sound { IsSound site.now }
        requires orderly { IsOrderly site.now }
        requires regular { AreRegular site.now t.now }
        ensures fits { OnOk result (Fits system site.now t.now) }
        ensures printable { IfOk result (λ c. printable site.now c ≡ true) }
        ensures tracks { IfOk result (λ c. Self.tracks site.now c ≡ true) }
        ensures fates { IfOk result (λ c. GivesFates site.now t.now (Self.walk c site.now)) }
        ensures unfit { (b : Breach) → result ≡ Err (PlaceAnswer.Unfit b) → IsBreach system site.now t.now b };

    /// The text of a configuration that can be printed. It spells just this configuration.
    fn print(alloc: Global, c: &Self::Config, site: &Site) -> Result<Text, Memory>
        requires orderly { IsOrderly site.now }
        requires printable { printable site.now c.now ≡ true }
        ensures { IfOk result (λ text. Self.spelled site.now text ≡ Ok c.now) };

    /// Short texts that may do what the tables of a policy say, the best one first: three at most, and none where nothing is
    /// suggested. Nothing is promised of them, so that each has to be checked. The hints are code that does what the tables say.
    fn suggest(alloc: Global, t: &Tables, site: &Site, hints: &Flat) -> Result<Vec<Text>, Memory>
        requires sound { IsSound site.now }
        requires orderly { IsOrderly site.now }
        requires regular { AreRegular site.now t.now };
}
