ghost use Rattle.std.specs.Prelude.{◌≡◌, [], OnOk};
ghost use Rattle.register_checker.specs.Stamps.{has, within, with_stamp};

use crate::error::RunError;
use ens_base::Version;
use indexmap::IndexSet;
use std::alloc::Global;
use std::marker::Model;

/// A set of stamps. Contracts see the list of them, in the order in which they were added.
#[derive(Drop)]
pub struct Stamps {
    set: IndexSet<Version>,
}

impl Model for Stamps {
    ghost use Rattle.std.specs.Prelude.{List};
    ghost use Rattle.ens_base.specs.declared.epoch.Version.{Version};

    ghost Value = { List Version };

    ghost view = { λ s. s.set.keys };
}

impl Stamps {
    /// Makes an empty set.
    pub fn new(alloc: Global) -> Stamps
        ensures { result ≡ [] }
    {
        Stamps {
            set: IndexSet::new(alloc),
        }
    }

    /// Returns whether the set contains the stamp.
    pub fn has(&self, stamp: Version) -> bool
        ensures { result ≡ has self.now stamp }
    {
        self.set.contains(&stamp)
    }

    /// Adds the stamp, unless the set contains it.
    pub fn add(&mut self, stamp: Version) -> Result<(), RunError>
        ensures { OnOk result (self.new ≡ with_stamp self.old stamp) }
    {
        self.set.insert(stamp)?;
        Ok(())
    }
}

/// Returns whether the stamp is in the list.
pub fn has(stamps: &[Version], stamp: Version) -> bool
    ensures { result ≡ has stamps.now stamp }
{
    stamps.contains(&stamp)
}

/// Returns whether each stamp of `some` is in `all`.
pub fn within(some: &[Version], all: &[Version]) -> bool
    ensures { result ≡ within some.now all.now }
{
    some.iter().all(|stamp| all.contains(stamp))
}
