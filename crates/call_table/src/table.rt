ghost use Rattle.std.specs.Prelude.{◌≡◌, ◌++◌, ◌∷◌, [], IfOk, OnOk, option_map, map, Some};
ghost use Rattle.call_table.specs.Calls.{has_calls, waiting_on, running, older, due};
ghost use Rattle.call_table.specs.Rows.{row_at, check_at, with_known, with_stage, with_check, without_check, check_round};
ghost use Rattle.call_table.specs.Tables.{empty_table, rested, ended, rested_if, rested_all, without_due, late_put};

use crate::calls::Calls;
use crate::checks::Checks;
use crate::row::{Known, Stage};
use crate::rows::Rows;
use crate::waiting::{DueCall, Waiting};
use ens_base::{CopyError, Key};
use std::alloc::{AllocError, Global};

/// The table of a leader: its unanswered calls in order of arrival, the row of each key, and the
/// key that checks in each round. After a call that failed, its contents are unspecified.
#[derive(Drop)]
pub struct CallTable {
    calls: Calls,
    rows: Rows,
    checks: Checks,
}

impl CallTable {
    /// Makes an empty table: no call, and nothing is known.
    pub fn new(alloc: Global) -> CallTable
        ensures { result ≡ empty_table }
    {
        CallTable {
            calls: Calls::new(alloc),
            rows: Rows::new(alloc),
            checks: Checks::new(alloc),
        }
    }

    /// Whether any call is unanswered.
    pub fn unanswered(&self) -> bool
        ensures { result ≡ has_calls self.now.calls }
    {
        self.calls.any()
    }

    /// Returns the number of unanswered calls on the key.
    pub fn waiting_on(&self, key: &Key) -> usize
        ensures { result ≡ waiting_on key.now self.now.calls }
    {
        self.calls.waiting_on(key)
    }

    /// Returns a copy of the running call of the key, if there is one. Fails only when out of
    /// memory.
    pub fn running(&self, alloc: Global, key: &Key) -> Result<Option<Waiting>, CopyError>
        ensures { IfOk result (λ w. w ≡ running key.now self.now.calls) }
    {
        match self.calls.running(key) {
            None => Ok(None),
            Some(call) => Ok(Some(call.copy(alloc)?)),
        }
    }

    /// Returns what is known of the key.
    pub fn known(&self, key: &Key) -> Known
        ensures { result ≡ (row_at key.now self.now.rows).known }
    {
        self.rows.known(key)
    }

    /// Returns a copy of the stage of the key. Fails only when out of memory.
    pub fn stage(&self, alloc: Global, key: &Key) -> Result<Stage, CopyError>
        ensures { IfOk result (λ s. s ≡ (row_at key.now self.now.rows).stage) }
    {
        match self.rows.stage(key) {
            None => Ok(Stage::Idle),
            Some(stage) => stage.copy(alloc),
        }
    }

    /// Returns the key that checks in this round, if there is one.
    pub fn check_key(&self, round: u64) -> Option<&Key>
        ensures { check_at round self.now.checks ≡ option_map (λ k. k.now) result }
    {
        self.checks.key(round)
    }

    /// Adds a call at the end. Fails only when out of memory.
    pub fn join(&mut self, alloc: Global, call: Waiting) -> Result<(), CopyError>
        ensures { OnOk result (self.new ≡ record self.old { calls = self.old.calls ++ call ∷ [] }) }
    {
        self.calls.push(alloc, call)
    }

    /// Sets what is known of the key. Fails only when out of memory.
    pub fn set_known(&mut self, alloc: Global, key: &Key, known: Known) -> Result<(), CopyError>
        ensures { OnOk result (self.new ≡ record self.old { rows = with_known key.now known self.old.rows }) }
    {
        self.rows.set_known(alloc, key, known)
    }

    /// Sets the stage of the key. Fails only when out of memory.
    pub fn set_stage(&mut self, alloc: Global, key: &Key, stage: Stage) -> Result<(), CopyError>
        ensures { OnOk result (self.new ≡ record self.old { rows = with_stage key.now stage self.old.rows }) }
    {
        self.rows.set_stage(alloc, key, stage)
    }

    /// Records that `key` checks in this round. Fails only when out of memory.
    pub fn begin_check(&mut self, round: u64, key: Key) -> Result<(), AllocError>
        ensures { OnOk result (self.new ≡ record self.old { checks = with_check round key self.old.checks }) }
    {
        self.checks.begin(round, key)
    }

    #[tactic(auto, unfolding(crate::specs::Rows::without_check))]
    fn forget(&mut self, round: Option<u64>)
        ensures { self.new ≡ record self.old { checks = without_check round self.old.checks } }
    {
        if let Some(round) = round {
            self.checks.end(round);
        }
    }

    /// Makes the key idle, and ends its check if it has one. Fails only when out of memory.
    #[tactic(auto, unfolding(crate::specs::Tables::rested))]
    pub fn rest(&mut self, alloc: Global, key: &Key) -> Result<(), CopyError>
        ensures { OnOk result (self.new ≡ rested key.now self.old) }
    {
        let round = check_round_of(&self.rows, key);
        self.forget(round);
        self.rows.set_stage(alloc, key, Stage::Idle)
    }

    /// Removes the running call of the key and returns it, makes the key idle, and ends its check
    /// if it has one. Fails only when out of memory.
    #[tactic(auto, unfolding(crate::specs::Tables::ended))]
    pub fn end_running(&mut self, alloc: Global, key: &Key) -> Result<Option<Waiting>, CopyError>
        ensures table { OnOk result (self.new ≡ ended key.now self.old) }
        ensures call { IfOk result (λ w. w ≡ running key.now self.old.calls) }
    {
        let call = self.calls.take_running(key);
        self.rest(alloc, key)?;
        Ok(call)
    }

    /// Adds one tick to the age of each call, up to 255.
    pub fn grow_older(&mut self)
        ensures { self.new ≡ record self.old { calls = map older self.old.calls } }
    {
        self.calls.grow_older();
    }

    /// Whether a running call that is due has a put that is not settled.
    #[tactic(auto, unfolding(crate::specs::Tables::late_put))]
    pub fn has_late_put(&self) -> bool
        ensures { result ≡ late_put self.now }
    {
        self.calls.has_late_put(&self.rows)
    }

    fn rest_if(&mut self, alloc: Global, key: &Option<Key>) -> Result<(), CopyError>
        ensures { OnOk result (self.new ≡ rested_if key.now self.old) }
    {
        match key {
            None => Ok(()),
            Some(key) => self.rest(alloc, key),
        }
    }

    fn rest_all(&mut self, alloc: Global, due: &[DueCall]) -> Result<(), CopyError>
        ensures { OnOk result (self.new ≡ rested_all due.now self.old) }
    {
        for i in 0..due.len() {
            self.rest_if(alloc, &due[i].running)?;
        }
        Ok(())
    }

    /// Removes the calls that are due and returns them, and makes idle each key whose running call
    /// is one of them. Fails only when out of memory.
    #[tactic(auto, unfolding(crate::specs::Tables::without_due))]
    pub fn drop_due(&mut self, alloc: Global) -> Result<Vec<DueCall>, CopyError>
        ensures table { OnOk result (self.new ≡ without_due self.old) }
        ensures due { IfOk result (λ ds. ds.items ≡ due self.old.calls) }
    {
        let due = self.calls.due(alloc)?;
        self.rest_all(alloc, &due)?;
        self.calls.drop_due(alloc)?;
        Ok(due)
    }

    /// Returns the unanswered calls, in order of arrival. Fails only when out of memory.
    pub fn into_calls(self, alloc: Global) -> Result<Vec<Waiting>, AllocError>
        ensures { IfOk result (λ v. v.items ≡ self.calls) }
    {
        let CallTable {
            calls,
            rows: _rows,
            checks: _checks,
        } = self;
        calls.into_vec(alloc)
    }
}

/// Returns the round of the check of the key, if its running call is checking.
fn check_round_of(rows: &Rows, key: &Key) -> Option<u64>
    ensures { result ≡ check_round (row_at key.now rows.now).stage }
{
    match rows.stage(key) {
        Some(stage) => stage.check_round(),
        None => None,
    }
}
