ghost use Rattle.std.specs.Prelude.{◌≡◌, ◌≤◌, None};
ghost use Rattle.ens_base.specs.Causes.{Rose};
ghost use Rattle.world_stores.specs.Faults.{awaiting, no_faults, spent};

use environment::Leaves;

/// The failure that the next write of a store meets, and the number of calls that failed, which
/// stays at the greatest u64.
#[derive(Clone, Copy, Debug)]
pub struct Faults {
    pub pending: Option<Leaves>,
    pub count: u64,
}

impl Faults {
    /// No failure waits, and none has happened.
    pub(crate) fn none() -> Faults
        ensures { result ≡ no_faults }
    {
        Faults {
            pending: None,
            count: 0,
        }
    }

    /// Makes the next write fail. Replaces a failure that waits.
    pub(crate) fn fail_next(&mut self, leaves: Leaves)
        ensures { self.new ≡ awaiting leaves self.old }
    {
        self.pending = Some(leaves);
    }

    /// Counts a call that failed. No failure waits any more.
    pub(crate) fn spend(&mut self)
        ensures faults { self.new ≡ spent self.old }
        ensures rose { (self.old.count ≤ self.new.count) × Rose self.old.count self.new.count }
    {
        self.pending = None;
        self.count = self.count.saturating_add(1);
    }
}
