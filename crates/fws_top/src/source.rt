//! Languages as sources of policies.

use fws_ifcl::{Ifcl, Spot};
use fws_net::{ReadAnswer, Site};
use fws_num::{Memory, Text};
use std::alloc::Global;

/// A language in which configurations are read: its reader, the control diagrams of its configurations, and what they
/// mean.
pub trait Source {
    /// What a text spells.
    type Config: Drop;

    ghost use Rattle.std.specs.Prelude.{◌≡◌, ℕ, Bool, List, length, Option, None, Ok, true, IfOk};
    ghost use Rattle.fws_ifcl.specs.Soundness.{ifcl_ok};
    ghost use Rattle.fws_ifcl.specs.Spots.{are_spots_of};
    ghost use Rattle.fws_net.specs.declared.site.Site.{Site};
    ghost use Rattle.fws_net.specs.Reading.{ReadGiven};
    ghost use Rattle.fws_net.specs.RegularWalks.{IsRegularWalk};
    ghost use Rattle.fws_net.specs.Routes.{IsSound};
    ghost use Rattle.fws_top.specs.Diagrams.{Draws, ShowsUses};
    ghost use Rattle.fws_top.specs.Judged.{ChainRefusal, HasText, Spelling, diagram_refusal};
    ghost use Rattle.fws_top.specs.Walked.{Uses, Walk};

    // What a text spells at a site, or its first refused line.
    ghost spelled: { Site → Spelling Self.Config };

    // Why the chains of a configuration can't be unfolded at a site, if they can't.
    ghost refusal: { Site → Self.Config → Option ChainRefusal };

    // What becomes of a packet of a class at a site.
    ghost walk: { Self.Config → Site → Walk };

    // Whether a configuration keeps state where it accepts, at a site: its runs list a connection for each new packet that it
    // accepts.
    ghost tracks: { Site → Self.Config → Bool };

    // The numbers of the rules that a packet's walk uses, in the order in which it comes to them; none in a language whose rules no
    // command asks for.
    ghost used: { Self.Config → Site → Uses };

    // The labels of the rules of a configuration, by their numbers; none in such a language.
    ghost labels: { Self.Config → List (List ℕ) };

    /// The configuration that a text spells at a site. `Refused` comes exactly where a line is refused, and has the first
    /// such line and its cause.
    fn read(alloc: Global, text: &[u8], site: &Site) -> Result<Self::Config, ReadAnswer>
        requires { IsSound site.now }
        ensures { ReadGiven result (spelled site.now text.now) };

    /// The diagram of a configuration that some text spells at the site. Unfolding refuses it where the configuration is
    /// refused, at a chain of the same name. Else it does with packets of the site what the configuration does.
    fn to_ifcl(alloc: Global, c: &Self::Config, site: &Site) -> Result<Ifcl, Memory>
        requires sound { IsSound site.now }
        requires from_text { HasText (spelled site.now) c.now }
        ensures ok { IfOk result (λ d. ifcl_ok d ≡ true) }
        ensures refused { IfOk result (λ d. diagram_refusal d ≡ refusal site.now c.now) }
        ensures means { IfOk result (λ d. refusal site.now c.now ≡ None → Draws d site.now (walk c.now site.now)) };

    /// Another diagram of it with the same clauses, and the spots of the rules in it. Where the configuration isn't refused,
    /// the rules at the places that a packet of the site uses are those that its walk uses, in their order.
    fn places(alloc: Global, c: &Self::Config, site: &Site) -> Result<(Ifcl, Vec<Spot>), Memory>
        requires sound { IsSound site.now }
        requires from_text { HasText (spelled site.now) c.now }
        ensures ok { IfOk result (λ x. ifcl_ok x.0 ≡ true) }
        ensures refused { IfOk result (λ x. diagram_refusal x.0 ≡ refusal site.now c.now) }
        ensures means { IfOk result (λ x. refusal site.now c.now ≡ None → Draws x.0 site.now (walk c.now site.now)) }
        ensures spots { IfOk result (λ x. are_spots_of x.0 (length (labels c.now)) x.1.items ≡ true) }
        ensures uses { IfOk result (λ x. refusal site.now c.now ≡ None → ShowsUses x.0 x.1.items site.now (used c.now site.now)) };

    /// The labels of the rules of a configuration.
    fn labels(alloc: Global, c: &Self::Config) -> Result<Vec<Text>, Memory>
        ensures { IfOk result (λ all. all.items ≡ labels c.now) };

    /// Whether the configuration keeps state where it accepts, so that a connection is listed for each new packet that it
    /// accepts. It takes no memory.
    fn tracks(c: &Self::Config, site: &Site) -> bool
        ensures { result ≡ tracks site.now c.now };

    /// The walk of every configuration that a text spells is regular: a law, with nothing to do.
    fn spelled_walks_are_regular()
        ensures { (site : Site) (text : List ℕ) (config : Self.Config) → spelled site text ≡ Ok config → IsRegularWalk site (walk config site) };
}
