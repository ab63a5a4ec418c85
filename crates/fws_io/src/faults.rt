//! Counts of faults, and lists of calls that are to fail.

ghost use Rattle.std.specs.Prelude.{◌≡◌, ◌+◌, ◌-◌, ◌^◌, ◌<◌, ◌≤◌, min};
ghost use Rattle.fws_io.specs.Outside.{Rose, is_listed};

use fws_num::Items;

/// A count that rises at each fault and stays at its last value.
#[derive(Clone, Copy)]
pub(crate) struct FaultCount {
    pub(crate) count: u64,
}

impl FaultCount {
    /// No fault so far.
    pub(crate) fn none() -> FaultCount
        ensures { result.count ≡ 0 }
    {
        FaultCount { count: 0 }
    }

    /// Counts one fault.
    pub(crate) fn raise(&mut self)
        ensures counted { self.new.count ≡ min (self.old.count + 1) (2 ^ 64 - 1) }
        ensures rose { Rose self.old.count self.new.count }
        ensures never_falls { self.old.count ≤ self.new.count }
    {
        self.count = self.count.saturating_add(1);
    }
}

/// The numbers, from 1, of the calls that are to fail, and how many calls were made.
#[derive(Drop)]
pub(crate) struct FailingCalls {
    pub(crate) listed: Items<u64>,
    pub(crate) made: u64,
}

impl FailingCalls {
    /// No call was made.
    pub(crate) fn new(listed: Items<u64>) -> FailingCalls
        ensures list { result.listed ≡ listed }
        ensures none { result.made ≡ 0 }
    {
        FailingCalls { listed, made: 0 }
    }

    /// Counts one call, whose number stays at its last value, and says whether it is to fail.
    pub(crate) fn next_fails(&mut self) -> bool
        ensures list { self.new.listed ≡ self.old.listed }
        ensures number { self.new.made ≡ min (self.old.made + 1) (2 ^ 64 - 1) }
        ensures listed { result ≡ is_listed self.old.listed self.new.made }
    {
        self.made = self.made.saturating_add(1);
        let made = self.made;
        self.listed.as_slice().iter().any(|number| *number == made)
    }
}
