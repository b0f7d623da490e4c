ghost use Rattle.std.specs.Prelude.{◌≡◌};
ghost use Rattle.slot_disk.specs.Failing.{fate_of};

use std::alloc::Global;

/// The planned outcome of a call.
#[derive(Clone, Copy, Debug, PartialEq, Eq)]
pub enum Fate {
    /// The call works, if there is room.
    Works,
    /// The call fails without effect.
    Fails,
    /// The call takes effect and fails all the same.
    FailsDone,
}

/// The calls that are planned to fail. The first call is number 1.
#[derive(Debug, Drop)]
pub struct Failing {
    /// The calls that fail without effect.
    pub undone: Vec<u64>,
    /// The calls that take effect and fail all the same. A call in both lists has no effect.
    pub done: Vec<u64>,
}

impl Failing {
    /// Plans no failures.
    pub fn never(alloc: Global) -> Failing
        ensures undone { result.undone.items ≡ Rattle.std.specs.Prelude.[] }
        ensures done { result.done.items ≡ Rattle.std.specs.Prelude.[] }
    {
        Failing {
            undone: Vec::new(alloc),
            done: Vec::new(alloc),
        }
    }

    /// Returns the planned outcome of the call of this number.
    pub fn fate(&self, call: u64) -> Fate
        ensures { result ≡ fate_of self.now.undone.items self.now.done.items call }
    {
        if self.undone.contains(&call) {
            return Fate::Fails;
        }
        if self.done.contains(&call) {
            return Fate::FailsDone;
        }
        Fate::Works
    }
}
