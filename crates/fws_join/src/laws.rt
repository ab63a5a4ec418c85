//! Laws over decisions that stand for others: functions with nothing to do.

ghost use Rattle.fws_join.specs.Deciding.{StandsByParts};

/// Decisions stand for others one part behind the other: a law, with nothing to do.
pub fn decisions_stand_by_parts()
    ensures { StandsByParts }
{}
