//! Laws of diagrams: functions with nothing to do.

ghost use Rattle.fws_ifcl.specs.Loops.{LoopsAreFound, LoopsAreReal, OkDiagramsNameChains, RefusedLoopsAreReal, SizesStandStill, SizesUnfold, UnrefusedHaveNoLoop, UsesUnfold, WalksStandStill, WalksUnfold};

/// A chain that reaches itself over calls and gotos is found, although no more steps are tried than
/// there are chains: a law, with nothing to do.
pub fn loops_are_found()
    ensures { LoopsAreFound }
{}

/// A chain that is found to reach itself does: a law, with nothing to do.
pub fn loops_are_real()
    ensures { LoopsAreReal }
{}

/// What is refused for a loop at a chain has that loop: a law, with nothing to do.
pub fn refused_loops_are_real()
    ensures { RefusedLoopsAreReal }
{}

/// What isn't refused has no loop: a law, with nothing to do.
pub fn unrefused_have_no_loop()
    ensures { UnrefusedHaveNoLoop }
{}

/// In a diagram that is ok rules name its own chains: a law, with nothing to do.
pub fn ok_diagrams_name_chains()
    ensures { OkDiagramsNameChains }
{}

/// Without loops no size changes where more chains may be entered than there are: a law, with nothing
/// to do.
pub fn sizes_stand_still()
    ensures { SizesStandStill }
{}

/// Without loops a chain's size is the number of its rules and the sizes of the chains that it names: a
/// law, with nothing to do.
pub fn sizes_unfold()
    ensures { SizesUnfold }
{}

/// Without loops what is used in a chain is what its rules use, where in each chain that they name it is
/// used likewise: a law, with nothing to do.
pub fn uses_unfold()
    ensures { UsesUnfold }
{}

/// Without loops no walk changes where more chains may be entered than there are: a law, with nothing
/// to do.
pub fn walks_stand_still()
    ensures { WalksStandStill }
{}

/// Without loops the walk through a chain is the walk of its rules, where each chain that they name is
/// entered likewise: a law, with nothing to do.
pub fn walks_unfold()
    ensures { WalksUnfold }
{}
