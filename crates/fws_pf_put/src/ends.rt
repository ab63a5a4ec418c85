//! The sources that new packets get, each once, and the addresses over which they are written.

ghost use Rattle.std.specs.Prelude.{◌≡◌, option_and_then, option_copied, position, slice_get};
ghost use Rattle.fws_pf_put.specs.Sources.{same_end};

use fws_iv::Ivs;
use fws_net::End;
use indexmap::IndexSet;

/// Sources, and for each of them the addresses over which it is written.
#[derive(Drop)]
pub struct Sources {
    /// The sources.
    pub ends: IndexSet<End>,
    /// The addresses, at the places of the sources.
    pub sets: Vec<Ivs>,
}

/// The addresses over which the source is written, if it is among them.
pub(crate) fn set_of<'a>(sources: &'a Sources, end: End) -> Option<&'a Ivs>
    ensures { option_copied result ≡ option_and_then (λ i. slice_get sources.now.sets.items i) (position (same_end end) sources.now.ends.keys) }
{
    match sources.ends.get_index_of(&end) {
        Some(place) => sources.sets.get(place),
        None => None,
    }
}
