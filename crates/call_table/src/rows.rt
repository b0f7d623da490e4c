ghost use Rattle.std.specs.Prelude.{◌≡◌, [], MatchOption, OnOk};
ghost use Rattle.std.specs.BTreeMap.{insert_entry};
ghost use Rattle.ens_base.specs.Lists.{bytes_cmp};
ghost use Rattle.call_table.specs.declared.row.Stage.TheVariants.{Idle};
ghost use Rattle.call_table.specs.Rows.{has_put, row_at, with_known, with_stage};

use crate::row::{KeyRow, Known, Stage};
use ens_base::{CopyError, Key};
use std::alloc::Global;
use std::collections::BTreeMap;
use std::marker::Model;

/// The rows of the keys that were named. Contracts see a list of keys with their rows, ordered by
/// key.
#[derive(Drop)]
pub struct Rows {
    rows: BTreeMap<Key, KeyRow>,
}

impl Model for Rows {
    ghost use Rattle.std.specs.Prelude.{ℕ, List};
    ghost use Rattle.call_table.specs.declared.row.KeyRow.{KeyRow as Row};

    ghost Value = { List (List ℕ × Row) };

    ghost view = { λ r. r.rows.entries };
}

impl Rows {
    /// Makes an empty map: nothing is known of any key.
    pub fn new(alloc: Global) -> Rows
        ensures { result ≡ [] }
    {
        Rows {
            rows: BTreeMap::new(alloc),
        }
    }

    /// Returns what is known of the key.
    #[tactic(auto, unfolding(crate::specs::Rows::row_at))]
    pub fn known(&self, key: &Key) -> Known
        ensures { result ≡ (row_at key.now self.now).known }
    {
        match self.rows.get(key) {
            Some(row) => row.known,
            None => Known::Unknown,
        }
    }

    /// Returns the stage of the key. `None` stands for `Idle`.
    #[tactic(auto, unfolding(crate::specs::Rows::row_at))]
    pub fn stage(&self, key: &Key) -> Option<&Stage>
        ensures { MatchOption result ((row_at key.now self.now).stage ≡ Idle) (λ s. (row_at key.now self.now).stage ≡ s.now) }
    {
        match self.rows.get(key) {
            Some(row) => Some(&row.stage),
            None => None,
        }
    }

    /// Whether a put of the key waits for acknowledgements.
    pub fn has_put(&self, key: &Key) -> bool
        ensures { result ≡ has_put (row_at key.now self.now).stage }
    {
        match self.stage(key) {
            Some(stage) => stage.has_put(),
            None => false,
        }
    }

    /// Inserts the row of a key that has none. Fails only when out of memory.
    fn add(&mut self, alloc: Global, key: &Key, row: KeyRow) -> Result<(), CopyError>
        ensures { OnOk result (self.new ≡ insert_entry bytes_cmp self.old key.now row) }
    {
        self.rows.insert(key.copy(alloc)?, row)?;
        Ok(())
    }

    /// Sets what is known of the key. Fails only when out of memory.
    #[tactic(auto, unfolding(crate::specs::Rows::with_known, crate::specs::Rows::row_at))]
    pub fn set_known(&mut self, alloc: Global, key: &Key, known: Known) -> Result<(), CopyError>
        ensures { OnOk result (self.new ≡ with_known key.now known self.old) }
    {
        if let Some(row) = self.rows.get_mut(key) {
            row.known = known;
            return Ok(());
        }
        self.add(
            alloc,
            key,
            KeyRow {
                known,
                stage: Stage::Idle,
            },
        )
    }

    /// Sets the stage of the key. Fails only when out of memory.
    #[tactic(auto, unfolding(crate::specs::Rows::with_stage, crate::specs::Rows::row_at))]
    pub fn set_stage(&mut self, alloc: Global, key: &Key, stage: Stage) -> Result<(), CopyError>
        ensures { OnOk result (self.new ≡ with_stage key.now stage self.old) }
    {
        if let Some(row) = self.rows.get_mut(key) {
            row.stage = stage;
            return Ok(());
        }
        self.add(
            alloc,
            key,
            KeyRow {
                known: Known::Unknown,
                stage,
            },
        )
    }
}
