//! Laws of what is told of flat code: functions with nothing to do.

ghost use Rattle.fws_unfold.specs.Told.{ToldEach};

/// A rule is among those that instructions stand for exactly where one of the instructions stands for
/// it: a law, with nothing to do.
pub fn told_each()
    ensures { ToldEach }
{}
