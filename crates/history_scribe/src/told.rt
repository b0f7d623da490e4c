ghost use Rattle.std.specs.Prelude.{◌≡◌, ◌++◌, ◌∷◌, ◌<◌, ℕ, List, max, reverse, map, if◌then◌else◌, Option, None, Some, IfOk, OnOk};
ghost use Rattle.std.specs.Option.{option_or};
ghost use Rattle.std.specs.Ordering.{is_eq};
ghost use Rattle.ens_base.specs.Epochs.{version_cmp};
ghost use Rattle.ens_base.specs.declared.epoch.Version.{Version as AVersion};
ghost use Rattle.register_model.specs.Orders.{rank, rank_or_none, parent_in, call_in, lower_or_none, write_of, block, settled_chain, order};
ghost use Rattle.register_model.specs.declared.note.Note.{Note};
ghost use Rattle.history_scribe.specs.Marks.{noted, all_noted};
ghost use Rattle.history_scribe.specs.Told.{proposal_at, TellsBefore, Tells};

use crate::lists::Lists;
use crate::mark::Mark;
use ens_base::Version;
use std::alloc::{AllocError, Global};
use std::collections::BTreeMap;

/// The proposal of a version.
#[derive(Clone, Copy, Debug, PartialEq, Eq)]
pub struct Proposal {
    /// The version that it was made from, if any.
    pub parent: Option<Version>,
    /// The call that the version is the write of; `None` for a rewrite.
    pub call: Option<u64>,
}

/// What the marks of one key say, gathered.
#[derive(Drop)]
pub struct Told {
    /// The greatest settled version.
    newest: Option<Version>,
    /// The first proposal of each version.
    proposals: BTreeMap<Version, Proposal>,
    /// The calls that read each base, in the order of their marks.
    reads: Lists<Option<Version>, u64>,
}

impl Told {
    fn new(alloc: Global) -> Told
        ensures { (notes : List Note) (key : List ℕ) → TellsBefore result notes notes key }
    {
        Told {
            newest: None,
            proposals: BTreeMap::new(alloc),
            reads: Lists::new(alloc),
        }
    }

    /// Gathers these marks.
    pub fn of(alloc: Global, marks: &[Mark]) -> Result<Told, AllocError>
        ensures { (key : List ℕ) → IfOk result (λ t. Tells t (all_noted key marks.now) key) }
    {
        let mut told = Told::new(alloc);
        for mark in marks {
            told.take(alloc, *mark)?;
        }
        Ok(told)
    }

    /// Adds a mark.
    fn take(&mut self, alloc: Global, mark: Mark) -> Result<(), AllocError>
        ensures { (rest all : List Note) (key : List ℕ) → TellsBefore self.old (noted key mark ∷ rest) all key → OnOk result (TellsBefore self.new rest all key) }
    {
        match mark {
            Mark::Proposed {
                version,
                parent,
                call,
            } => self.propose(version, Proposal { parent, call }),
            Mark::Settled(version) => {
                self.newest = greater(self.newest, Some(version));
                Ok(())
            }
            Mark::Read { id, base } => self.reads.push(alloc, base, id),
        }
    }

    /// Keeps a proposal, unless the version has one already.
    fn propose(&mut self, version: Version, proposal: Proposal) -> Result<(), AllocError>
        ensures proposals { OnOk result ((v : AVersion) → proposal_at self.new v ≡ option_or (proposal_at self.old v) (if is_eq (version_cmp version v) then Some proposal else None)) }
        ensures newest { self.new.newest ≡ self.old.newest }
        ensures reads { self.new.reads ≡ self.old.reads }
    {
        if !self.proposals.contains_key(&version) {
            self.proposals.insert(version, proposal)?;
        }
        Ok(())
    }

    /// Returns the parent of a version, if it is below the version.
    fn parent_of(&self, version: Version) -> Option<Version>
        ensures below { rank_or_none result < rank version }
        ensures told { (notes : List Note) (key : List ℕ) → Tells self.now notes key → rank_or_none result ≡ parent_in notes key (rank version) }
    {
        below(self.proposals.get(&version)?.parent, version)
    }

    /// Returns the call that a version is the write of.
    fn call_of(&self, version: Version) -> Option<u64>
        ensures { (notes : List Note) (key : List ℕ) → Tells self.now notes key → result ≡ call_in notes key (rank version) }
    {
        self.proposals.get(&version)?.call
    }

    /// Returns the greatest settled version and its ancestors, the newest first.
    fn chain(&self, alloc: Global) -> Result<Vec<Version>, AllocError>
        ensures { (notes : List Note) (key : List ℕ) → Tells self.now notes key → IfOk result (λ vs. reverse (map rank vs.items) ≡ settled_chain notes key) }
    {
        let mut versions = Vec::new(alloc);
        let mut next = self.newest;
        while let Some(version) = next {
            versions.push(version)?;
            next = self.parent_of(version);
        }
        Ok(versions)
    }

    /// Appends the call that wrote the version, followed by the reads of the version.
    fn write_block(&self, version: Version, calls: &mut Vec<u64>) -> Result<(), AllocError>
        ensures { (notes : List Note) (key : List ℕ) → Tells self.now notes key → OnOk result (calls.new.items ≡ calls.old.items ++ block notes key (rank version)) }
    {
        push_write(self.call_of(version), calls)?;
        calls.extend_from_slice(self.reads.of(&Some(version)))?;
        Ok(())
    }

    /// Returns the calls on the key in order: the reads that found nothing, and then the block of
    /// each version of the chain, the oldest first.
    pub fn order(&self, alloc: Global) -> Result<Vec<u64>, AllocError>
        ensures { (notes : List Note) (key : List ℕ) → Tells self.now notes key → IfOk result (λ calls. calls.items ≡ order notes key) }
    {
        let mut versions = self.chain(alloc)?;
        let mut calls = Vec::from_slice(alloc, self.reads.of(&None))?;
        while let Some(version) = versions.pop() {
            self.write_block(version, &mut calls)?;
        }
        Ok(calls)
    }
}

/// Returns the parent, if it is below its child.
fn below(parent: Option<Version>, child: Version) -> Option<Version>
    ensures { rank_or_none result ≡ lower_or_none (rank_or_none parent) (rank child) }
{
    let parent = parent?;
    if parent < child { Some(parent) } else { None }
}

/// Returns the greater of two versions; `None` is below each.
fn greater(a: Option<Version>, b: Option<Version>) -> Option<Version>
    ensures { rank_or_none result ≡ max (rank_or_none a) (rank_or_none b) }
{
    a.max(b)
}

/// Appends the call of a write, and nothing for a rewrite.
fn push_write(call: Option<u64>, calls: &mut Vec<u64>) -> Result<(), AllocError>
    ensures { OnOk result (calls.new.items ≡ calls.old.items ++ write_of call) }
{
    if let Some(call) = call {
        calls.push(call)?;
    }
    Ok(())
}
