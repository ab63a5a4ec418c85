//! Laws over configurations and their texts: functions with nothing to do.

ghost use Rattle.fws_ipt.specs.Loops.{FittingNamesChains, LoopsAreFound, LoopsAreReal, RefusedLoopsAreReal, SizesStandStill, SizesUnfold, UnrefusedHaveNoLoop, WalksStandStill, WalksUnfold};
ghost use Rattle.fws_ipt.specs.Regular.{AskedWalksAreRegular, SpelledWalksAreRegular};
ghost use Rattle.fws_ipt.specs.Soundness.{SpelledChains, SpelledFits};
ghost use Rattle.fws_ipt.specs.Spelled.{SpelledConditions, SpelledNetworks};

use fws_rules::{
    alike_packets_stay_alike, alike_walks_are_regular, regular_parts_make_alike_walks,
};

/// Every configuration that a text spells is fitting: a law, with nothing to do.
pub fn spelled_fits()
    ensures { SpelledFits }
{}

/// Among the chains that a text spells those with the name of a built-in chain of their table have a
/// policy, and no others, and no two have the same table and name: a law, with nothing to do.
pub fn spelled_chains()
    ensures { SpelledChains }
{}

/// In each rule that a text spells stand only tests that options mean, with ports, flags and ICMP types
/// under their protocols: a law, with nothing to do.
pub fn spelled_conditions()
    ensures { SpelledConditions }
{}

/// Each NETMAP that a text spells stands in a built-in chain of nat, and its rule names the addresses over
/// which it writes by a prefix that is as long or longer: a law, with nothing to do.
pub fn spelled_networks()
    ensures { SpelledNetworks }
{}

/// A chain that reaches itself over jumps and gotos is found, although no more steps are tried than
/// there are chains: a law, with nothing to do.
pub fn loops_are_found()
    ensures { LoopsAreFound }
{}

/// A chain that is found to reach itself does: a law, with nothing to do.
pub fn loops_are_real()
    ensures { LoopsAreReal }
{}

/// What is refused for a loop at a chain has that loop: a law, with nothing to do.
pub fn refused_loops_are_real()
    ensures { RefusedLoopsAreReal }
{}

/// What isn't refused has no loop: a law, with nothing to do.
pub fn unrefused_have_no_loop()
    ensures { UnrefusedHaveNoLoop }
{}

/// In a fitting configuration rules name its own chains: a law, with nothing to do.
pub fn fitting_names_chains()
    ensures { FittingNamesChains }
{}

/// Without loops no size changes where more chains may be entered than there are: a law, with nothing
/// to do.
pub fn sizes_stand_still()
    ensures { SizesStandStill }
{}

/// Without loops a chain's size is its width and the sizes of the chains that it names: a law, with
/// nothing to do.
pub fn sizes_unfold()
    ensures { SizesUnfold }
{}

/// Without loops no walk changes where more chains may be entered than there are: a law, with nothing
/// to do.
pub fn walks_stand_still()
    ensures { WalksStandStill }
{}

/// Without loops the walk through a chain is the walk of its rules, where each chain that they name is
/// entered likewise: a law, with nothing to do.
pub fn walks_unfold()
    ensures { WalksUnfold }
{}

/// Where each rule that writes a port asks for TCP or for UDP, the walk is regular: a law, with
/// nothing to do.
pub fn asked_walks_are_regular()
    ensures { AskedWalksAreRegular }
{
    alike_packets_stay_alike();
    regular_parts_make_alike_walks();
    alike_walks_are_regular();
}

/// The walk of every configuration that a text spells is regular: a law, with nothing to do.
pub fn spelled_walks_are_regular()
    ensures { SpelledWalksAreRegular }
{
    alike_packets_stay_alike();
    regular_parts_make_alike_walks();
    alike_walks_are_regular();
}
