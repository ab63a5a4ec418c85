//! Laws over configurations and their texts: functions with nothing to do.

ghost use Rattle.fws_pf.specs.Regular.{FittingWalksAreRegular, SpelledWalksAreRegular};
ghost use Rattle.fws_pf.specs.Soundness.{SpelledFits};

use fws_rules::{
    alike_packets_stay_alike, alike_walks_are_regular, regular_parts_make_alike_walks,
};

/// Every configuration that a text spells is fitting: a law, with nothing to do.
pub fn spelled_fits()
    ensures { SpelledFits }
{}

/// The walk of every fitting configuration is regular: a law, with nothing to do.
pub fn fitting_walks_are_regular()
    ensures { FittingWalksAreRegular }
{
    alike_packets_stay_alike();
    regular_parts_make_alike_walks();
    alike_walks_are_regular();
}

/// The walk of every configuration that a text spells is regular: a law, with nothing to do.
pub fn spelled_walks_are_regular()
    ensures { SpelledWalksAreRegular }
{
    alike_packets_stay_alike();
    regular_parts_make_alike_walks();
    alike_walks_are_regular();
}
