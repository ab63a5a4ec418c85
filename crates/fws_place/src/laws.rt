//! Laws of placement conditions.

ghost use Rattle.fws_place.specs.FitLaws.{BreachesRefuteFits, FittingDropsAreSeen, FittingPairsAreTold, LostPairsAreDropped, PointsAreOfPairs};
ghost use Rattle.fws_place.specs.TellingLaws.{PointsAreSeen, ViewsAreTold};

/// Tables of which a clause is broken don't fit. The call does nothing: its contract is the law.
pub fn breaches_refute_fits()
    ensures { BreachesRefuteFits }
{}

/// Where tables fit iptables, a pair that isn't lost is accepted exactly where its packet is in some connection and
/// some pair that looks like it behind routing is. The call does nothing: its contract is the law.
pub fn fitting_drops_are_seen()
    ensures { FittingDropsAreSeen }
{}

/// The same by the trees that tell what is seen. The call does nothing: its contract is the law.
pub fn fitting_pairs_are_told()
    ensures { FittingPairsAreTold }
{}

/// Lost pairs are dropped. The call does nothing: its contract is the law.
pub fn lost_pairs_are_dropped()
    ensures { LostPairsAreDropped }
{}

/// A point of a site is that of its packet and its ends. The call does nothing: its contract is the law.
pub fn points_are_of_pairs()
    ensures { PointsAreOfPairs }
{}

/// The packet of a pair is seen as the pair's point, as it enters and behind routing. The call does nothing: its contract
/// is the law.
pub fn points_are_seen()
    ensures { PointsAreSeen }
{}

/// Of regular tables rules can tell what becomes of new packets, and what they see of established ones. The call does
/// nothing: its contract is the law.
pub fn views_are_told()
    ensures { ViewsAreTold }
{}
