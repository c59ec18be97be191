//! Which calls of an outside in memory fail, and how often it failed.
ghost use Rattle.std.specs.Prelude.{◌≡◌, IsTrue, false};
ghost use Rattle.zone_devices.specs.Calls.{Rose, no_calls, with_fault, fails_next, after_call};

use std::marker::Model;

/// A list of the calls that are to fail, numbered from 1, and a count of faults that never falls.
#[derive(Drop)]
pub struct Failures {
    failing: Vec<u64>,
    made: u64,
    faults: u64,
}

impl Model for Failures {
    ghost use Rattle.zone_devices.specs.Calls.{Calls};

    ghost Value = { Calls };

    ghost view = { λ f. record { failing = f.failing.items; made = f.made; faults = f.faults } };
}

impl Failures {
    /// No call was made yet; those of the list will fail.
    pub fn new(failing: Vec<u64>) -> Failures
        ensures { result ≡ no_calls failing.items }
    {
        Failures {
            failing,
            made: 0,
            faults: 0,
        }
    }

    /// Counts a fault.
    pub fn count_fault(&mut self)
        ensures counted { self.new ≡ with_fault self.old }
        ensures rose { Rose self.old.faults self.new.faults }
    {
        self.faults = self.faults.saturating_add(1);
    }

    /// Counts a call, and a fault where it is one that is to fail.
    pub fn is_next_failing(&mut self) -> bool
        ensures says { result ≡ fails_next self.old }
        ensures counted { self.new ≡ after_call self.old }
        ensures failed { IsTrue result → Rose self.old.faults self.new.faults }
        ensures steady { result ≡ false → self.new.faults ≡ self.old.faults }
    {
        self.made = self.made.saturating_add(1);
        if self.failing.contains(&self.made) {
            self.count_fault();
            return true;
        }
        false
    }
}
