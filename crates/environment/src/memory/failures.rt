ghost use Rattle.std.specs.Prelude.{◌≡◌, ◌≤◌};
ghost use Rattle.ens_base.specs.Causes.{Rose, counted};
ghost use Rattle.environment.specs.Failures.{planned, next_failure, called};

use crate::memory::failing_call::{FailingCall, Leaves};
use std::marker::Model;

/// The planned failures of a store, with its counts of calls and of faults.
#[derive(Drop)]
pub(crate) struct Failures {
    listed: Vec<FailingCall>,
    calls: u64,
    faults: u64,
}

impl Model for Failures {
    ghost use Rattle.environment.specs.Failures.{Plan};

    ghost Value = { Plan };

    ghost view = { λ f. record { listed = f.listed.items; calls = f.calls; faults = f.faults } };
}

/// Returns what the call of this number leaves behind if it is planned to fail.
fn planned(call: u64, listed: &[FailingCall]) -> Option<Leaves>
    ensures { result ≡ Rattle.environment.specs.Failures.planned call listed.now }
{
    for fault in listed {
        if fault.call == call {
            return Some(fault.leaves);
        }
    }
    None
}

impl Failures {
    pub(crate) fn new(listed: Vec<FailingCall>) -> Self
        ensures { result ≡ record { listed = listed.items; calls = 0; faults = 0 } }
    {
        Failures {
            listed,
            calls: 0,
            faults: 0,
        }
    }

    pub(crate) fn faults(&self) -> u64
        ensures { result ≡ self.now.faults }
    {
        self.faults
    }

    /// Counts a call. Returns what it leaves behind if it is planned to fail.
    pub(crate) fn call(&mut self) -> Option<Leaves>
        ensures failure { result ≡ next_failure self.old }
        ensures plan { self.new ≡ called self.old }
    {
        self.calls = self.calls.saturating_add(1);
        planned(self.calls, &self.listed)
    }

    /// Counts a fault.
    pub(crate) fn fail(&mut self)
        ensures plan { self.new ≡ record self.old { faults = counted self.old.faults } }
        ensures rose { (self.old.faults ≤ self.new.faults) × Rose self.old.faults self.new.faults }
    {
        self.faults = self.faults.saturating_add(1);
    }
}
