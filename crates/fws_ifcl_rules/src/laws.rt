//! Laws over diagrams that are put together of rules: functions with nothing to do.

ghost use Rattle.fws_ifcl_rules.specs.Places.{WalksGoByPlaces};
ghost use Rattle.fws_ifcl_rules.specs.Right.{RulesAreRightByParts};
ghost use Rattle.fws_ifcl_rules.specs.Straight.{StraightDiagramsUnfold};
ghost use Rattle.fws_ifcl_rules.specs.UsedPlaces.{TellsOfUses};

/// Where rules stand in a chain, the walk goes through them and on behind them, and each of their parts
/// stands there too: a law, with nothing to do.
pub fn walks_go_by_places()
    ensures { WalksGoByPlaces }
{}

/// Numbers are right in rules that are put together of parts in which they are: a law, with nothing to do.
pub fn rules_are_right_by_parts()
    ensures { RulesAreRightByParts }
{}

/// A diagram whose skips go forward and of which no rule calls a chain or goes to one can be unfolded: a law, with nothing
/// to do.
pub fn straight_diagrams_unfold()
    ensures { StraightDiagramsUnfold }
{}

/// What walks use is told by places and by stages, where spots stand beside rules: a law, with nothing to do.
pub fn uses_are_told_by_places()
    ensures { TellsOfUses }
{}
