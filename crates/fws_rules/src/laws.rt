//! Laws over names, conditions and walks: functions with nothing to do.

ghost use Rattle.fws_rules.specs.Alike.{ConditionsHoldAlike};
ghost use Rattle.fws_rules.specs.AlikeWays.{AlikePacketsStayAlike};
ghost use Rattle.fws_rules.specs.Names.{OrderlySitesAreNamed};
ghost use Rattle.fws_rules.specs.Regular.{AlikeWalksAreRegular, RegularPartsMakeAlikeWalks};

/// A condition holds of two packets or of neither where they differ but in ports, flags and ICMP types at
/// protocols that have none: a law, with nothing to do.
pub fn conditions_hold_alike()
    ensures { ConditionsHoldAlike }
{}

/// Two such packets stay alike in all that rules do, and end alike: a law, with nothing to do.
pub fn alike_packets_stay_alike()
    ensures { AlikePacketsStayAlike }
{}

/// A walk is regular that gives such packets one outcome, writes no port where there is none, doesn't
/// rewrite established packets, leaves, and drops where the exit is lost: a law, with nothing to do.
pub fn alike_walks_are_regular()
    ensures { AlikeWalksAreRegular }
{}

/// A walk in four regular parts (before routing, where a packet is delivered, forwarded, and sent by the
/// host) is such a walk: a law, with nothing to do.
pub fn regular_parts_make_alike_walks()
    ensures { RegularPartsMakeAlikeWalks }
{}

/// The names of an orderly site's interfaces in each system are plain words, and each leads to its entry: a
/// law, with nothing to do.
pub fn orderly_sites_are_named()
    ensures { OrderlySitesAreNamed }
{}
