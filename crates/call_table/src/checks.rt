ghost use Rattle.std.specs.Prelude.{◌≡◌, [], OnOk, Some, option_map};
ghost use Rattle.call_table.specs.Rows.{check_at, with_check, without_check};

use ens_base::Key;
use std::alloc::{AllocError, Global};
use std::collections::BTreeMap;
use std::marker::Model;

/// The keys whose running call is checking, by the round of the check.
#[derive(Drop)]
pub struct Checks {
    keys: BTreeMap<u64, Key>,
}

impl Model for Checks {
    ghost use Rattle.std.specs.Prelude.{ℕ, List};

    ghost Value = { List (ℕ × List ℕ) };

    ghost view = { λ c. c.keys.entries };
}

impl Checks {
    /// Makes an empty map: no key is checking.
    pub fn new(alloc: Global) -> Checks
        ensures { result ≡ [] }
    {
        Checks {
            keys: BTreeMap::new(alloc),
        }
    }

    /// Returns the key that checks in this round, if there is one.
    #[tactic(auto, unfolding(crate::specs::Rows::check_at))]
    pub fn key(&self, round: u64) -> Option<&Key>
        ensures { check_at round self.now ≡ option_map (λ k. k.now) result }
    {
        self.keys.get(&round)
    }

    /// Records that `key` checks in this round. Fails only when out of memory.
    #[tactic(auto, unfolding(crate::specs::Rows::with_check))]
    pub fn begin(&mut self, round: u64, key: Key) -> Result<(), AllocError>
        ensures { OnOk result (self.new ≡ with_check round key self.old) }
    {
        self.keys.insert(round, key)?;
        Ok(())
    }

    /// Removes the check of this round, if there is one.
    #[tactic(auto, unfolding(crate::specs::Rows::without_check))]
    pub fn end(&mut self, round: u64)
        ensures { self.new ≡ without_check (Some round) self.old }
    {
        self.keys.remove(&round);
    }
}
