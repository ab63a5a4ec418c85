//! What is known of whether something holds.

ghost use Rattle.std.specs.Prelude.{◌≡◌, ◌&&◌, not, Bool, true, false, if◌then◌else◌};
ghost use Rattle.fws_exec.specs.Looks.{Tells};

/// What is known of whether something holds.
#[derive(Clone, Copy)]
pub(crate) enum Truth {
    /// It doesn't.
    Fails,
    /// It does.
    Holds,
    /// Nothing.
    Open,
}

impl Truth {
    /// It holds, or it doesn't.
    pub(crate) fn of(holds: bool) -> Truth
        ensures { Tells result holds }
    {
        if holds { Truth::Holds } else { Truth::Fails }
    }

    /// The same of its opposite.
    fn opposite(self) -> Truth
        ensures { (b : Bool) → Tells self b → Tells result (not b) }
    {
        match self {
            Truth::Fails => Truth::Holds,
            Truth::Holds => Truth::Fails,
            Truth::Open => Truth::Open,
        }
    }

    /// The same of its opposite, if that is asked for.
    pub(crate) fn negated_if(self, negated: bool) -> Truth
        ensures { (b : Bool) → Tells self b → Tells result (if negated then not b else b) }
    {
        if negated { self.opposite() } else { self }
    }

    /// Of this and of something of which nothing is known, together.
    pub(crate) fn with_open(self) -> Truth
        ensures { (a b : Bool) → Tells self b → Tells result (a && b) }
    {
        match self {
            Truth::Fails => Truth::Fails,
            _ => Truth::Open,
        }
    }

    /// Of this and of something that doesn't fail for sure, together.
    pub(crate) fn beside(self, other: Truth) -> Truth
        ensures { (a b : Bool) → Tells self b → Tells other a → Tells result (a && b) }
    {
        match other {
            Truth::Holds => self,
            _ => self.with_open(),
        }
    }

    /// Whether it is known not to hold.
    pub(crate) fn is_failed(self) -> bool
        ensures { result ≡ true → (b : Bool) → Tells self b → b ≡ false }
    {
        match self {
            Truth::Fails => true,
            Truth::Holds => false,
            Truth::Open => false,
        }
    }

    /// Whether it is known to hold.
    pub(crate) fn is_held(self) -> bool
        ensures { result ≡ true → (b : Bool) → Tells self b → b ≡ true }
    {
        match self {
            Truth::Holds => true,
            Truth::Fails => false,
            Truth::Open => false,
        }
    }
}
