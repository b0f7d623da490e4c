ghost use Rattle.std.specs.Prelude.{◌≡◌, ◌++◌, ◌∷◌, [], List, ℕ, take, IfOk, OnOk, OnErr};
ghost use Rattle.ens_base.specs.Lists.{bytes_cmp};
ghost use Rattle.register_model.specs.Orders.{order};
ghost use Rattle.history_scribe.specs.Lists.{list_at};
ghost use Rattle.history_scribe.specs.Marks.{marks_on};

use crate::lists::Lists;
use crate::mark::{Mark, key_of, mark_of};
use crate::told::Told;
use ens_base::{Key, Seq};
use register_model::{History, Note};
use std::alloc::{AllocError, Global};

/// Keeps the notes of leaders, and returns the history of each key.
#[derive(Drop)]
pub struct Scribe {
    notes: Vec<Note>,
    marks: Lists<Key, Mark>,
    ghost marked: { (key : List ℕ) → list_at bytes_cmp marks.lists key ≡ marks_on notes.items key },
}

impl Scribe {
    /// Makes a scribe without notes.
    pub fn new(alloc: Global) -> Scribe
        ensures { result.notes.items ≡ [] }
    {
        Scribe {
            notes: Vec::new(alloc),
            marks: Lists::new(alloc),
        }
    }

    /// Returns all notes in the order in which they came.
    pub fn notes(&self) -> &[Note]
        ensures { result.now ≡ self.now.notes.items }
    {
        self.notes.as_slice()
    }

    /// Adds a note. When out of memory, leaves the notes unchanged.
    pub fn note(&mut self, alloc: Global, note: Note) -> Result<(), AllocError>
        ensures ok { OnOk result (self.new.notes.items ≡ self.old.notes.items ++ note ∷ []) }
        ensures err { OnErr result (self.new.notes.items ≡ self.old.notes.items) }
    {
        self.notes.reserve(1)?;
        let key = key_of(&note).copy(alloc)?;
        self.marks.push(alloc, key, mark_of(&note))?;
        self.notes.push(note).unwrap();
        Ok(())
    }

    /// Adds these notes in order. When out of memory, a prefix of them has been added.
    pub fn note_all(&mut self, alloc: Global, notes: Vec<Note>) -> Result<(), AllocError>
        ensures ok { OnOk result (self.new.notes.items ≡ self.old.notes.items ++ notes.items) }
        ensures err { OnErr result ((taken : ℕ) × (self.new.notes.items ≡ self.old.notes.items ++ take taken notes.items)) }
    {
        for note in notes {
            self.note(alloc, note)?;
        }
        Ok(())
    }

    /// Returns the history of a key: the calls on it in the order that follows from the notes.
    /// Fails only when out of memory.
    pub fn history(&self, alloc: Global, key: &Key) -> Result<History, AllocError>
        ensures key { IfOk result (λ h. h.key ≡ key.now) }
        ensures calls { IfOk result (λ h. h.calls ≡ order self.now.notes.items key.now) }
    {
        let told = Told::of(alloc, self.marks.of(key))?;
        let calls = told.order(alloc)?;
        Ok(History {
            key: key.copy(alloc)?,
            calls: Seq::new(calls),
        })
    }
}
