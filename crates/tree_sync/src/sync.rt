ghost use Rattle.std.specs.Prelude.{◌≡◌, [], IfOk, OnOk, OnErr};
ghost use Rattle.tree_node.specs.Entries.{AreAbove};
ghost use Rattle.quorums.specs.Quorums.{is_majority, has_all};
ghost use Rattle.tree_sync.specs.Merges.{merged};
ghost use Rattle.tree_sync.specs.Syncs.{
  begun,
  is_clean,
  is_source,
  is_trusted_source,
  is_own_source,
  has_finished,
  is_trusted,
  is_awaited,
  with_source,
  all_entries,
  is_over,
  outcome_of,
  MayBeBuilt,
  needs_build as is_build_needed,
  same_entries,
};

use crate::error::SyncError;
use crate::merging::Merge;
use ens_base::{Entry, PeerId, Seq, View};
use quorums::is_in;
use std::alloc::Global;
use stored_formats::Fact;
use tree_node::Scan;

/// A source that has finished: every entry of its tree that the peer itself does not have was
/// received.
#[derive(Debug, Drop)]
pub struct Source {
    /// The number of the source.
    pub peer: PeerId,
    /// Whether each of its answers said that it trusts its tree.
    pub trusted: bool,
    /// The entries received.
    pub entries: Seq<Entry>,
}

/// The sources of a sync that have finished.
#[derive(Debug, Drop)]
pub struct Sync {
    /// The view whose members are the sources.
    pub view: View,
    /// The peer that syncs.
    pub me: PeerId,
    /// Whether it trusts its own tree.
    pub trusted: bool,
    /// The scan of its own tree from the start of the sync.
    pub scan: Scan,
    /// The other sources that have finished, in the order in which they did.
    pub sources: Seq<Source>,
}

/// What a sync has come to.
#[derive(Debug, Drop)]
pub enum Outcome {
    /// The sources that have finished do not suffice.
    Pending,
    /// They suffice. Holds the merged entries: of the peer's own verified entries and those of all
    /// finished sources the greatest of each key, by version and then by digest, in the order of
    /// the keys.
    Trusted(Seq<Entry>),
}

#[tactic(auto, using(crate::proofs::Sources::source_next, crate::proofs::Sources::source_end))]
fn is_source(sources: &[Source], peer: PeerId) -> bool
    ensures { result ≡ is_source sources.now peer }
{
    for source in sources {
        if source.peer == peer {
            return true;
        }
    }
    false
}

#[tactic(auto, using(crate::proofs::Sources::trusted_next, crate::proofs::Sources::trusted_end))]
fn is_trusted_source(sources: &[Source], peer: PeerId) -> bool
    ensures { result ≡ is_trusted_source sources.now peer }
{
    for source in sources {
        if source.peer == peer && source.trusted {
            return true;
        }
    }
    false
}

fn copy_entries(alloc: Global, entries: &[Entry]) -> Result<Vec<Entry>, SyncError>
    ensures { IfOk result (λ es. es.items ≡ entries.now) }
{
    let mut copies = Vec::new(alloc);
    for entry in entries {
        copies.push(entry.copy(alloc)?)?;
    }
    Ok(copies)
}

impl Sync {
    /// Begins a sync on this fact. Its sources are the members of the fact's last view, and none has
    /// finished but `me`, if it is a member and its scan shows no damage.
    pub fn start(alloc: Global, fact: &Fact, me: PeerId, trusted: bool, scan: Scan) -> Sync
        ensures { result ≡ begun fact.now me trusted scan }
    {
        Sync {
            view: fact.views.last(),
            me,
            trusted,
            scan,
            sources: Seq::new(Vec::new(alloc)),
        }
    }

    /// Whether the peer is a source that has not finished, and not `me`.
    pub fn awaits(&self, peer: PeerId) -> bool
        ensures { result ≡ is_awaited self.now peer }
    {
        is_in(&self.view, peer) && peer != self.me && !is_source(self.sources.as_slice(), peer)
    }

    /// Counts a source as finished, with what it sent. A peer that is not awaited changes nothing.
    /// Fails only when out of memory, and leaves the sync unchanged.
    pub fn finish(
        &mut self,
        alloc: Global,
        peer: PeerId,
        trusted: bool,
        entries: &[Entry],
    ) -> Result<(), SyncError>
        ensures ok { OnOk result (self.new ≡ with_source peer trusted entries.now self.old) }
        ensures err { OnErr result (self.new ≡ self.old) }
    {
        if self.awaits(peer) {
            let entries = Seq::new(copy_entries(alloc, entries)?);
            self.sources.push(Source {
                peer,
                trusted,
                entries,
            })?;
        }
        Ok(())
    }

    /// The scan of the peer's own tree from the start of the sync.
    pub fn scan(&self) -> &Scan
        ensures { result.now ≡ self.now.scan }
    {
        &self.scan
    }

    fn is_own_source(&self, peer: PeerId) -> bool
        ensures { result ≡ is_own_source self.now peer }
    {
        peer == self.me && is_clean(&self.scan)
    }

    fn has_finished(&self, peer: PeerId) -> bool
        ensures { result ≡ has_finished self.now peer }
    {
        self.is_own_source(peer) || is_source(self.sources.as_slice(), peer)
    }

    fn is_trusted(&self, peer: PeerId) -> bool
        ensures { result ≡ is_trusted self.now peer }
    {
        (self.is_own_source(peer) && self.trusted)
            || is_trusted_source(self.sources.as_slice(), peer)
    }

    fn has_trusted_majority(&self) -> bool
        ensures { result ≡ is_majority (is_trusted self.now) self.now.view }
    {
        let members = self.view.members();
        let trusted = members
            .iter()
            .filter(|m| self.is_trusted(PeerId(u32::from(**m))))
            .count();
        trusted > members.len() / 2
    }

    fn have_all_finished(&self) -> bool
        ensures { result ≡ has_all (has_finished self.now) self.now.view }
    {
        self.view
            .members()
            .iter()
            .all(|m| self.has_finished(PeerId(u32::from(*m))))
    }

    /// Whether the sources that have finished suffice: more than half of the view with trusted
    /// trees, or all of it.
    pub fn is_over(&self) -> bool
        ensures { result ≡ is_over self.now }
    {
        self.has_trusted_majority() || self.have_all_finished()
    }

    fn merged(&self, alloc: Global) -> Result<Vec<Entry>, SyncError>
        ensures entries { IfOk result (λ es. es.items ≡ merged (all_entries self.now)) }
        ensures above { IfOk result (λ es. AreAbove [] es.items) }
    {
        let mut merge = Merge::new(alloc);
        merge.add_all(alloc, self.scan.entries.as_slice())?;
        for source in self.sources.as_slice() {
            merge.add_all(alloc, source.entries.as_slice())?;
        }
        merge.into_entries(alloc)
    }

    /// Returns what the sync has come to. A tree can be built from the merged entries. Fails only
    /// when out of memory.
    pub fn outcome(&self, alloc: Global) -> Result<Outcome, SyncError>
        ensures outcome { IfOk result (λ o. o ≡ outcome_of self.now) }
        ensures above { IfOk result (λ o. MayBeBuilt o) }
    {
        if self.is_over() {
            Ok(Outcome::Trusted(Seq::new(self.merged(alloc)?)))
        } else {
            Ok(Outcome::Pending)
        }
    }
}

/// Whether the scan shows no damage.
pub fn is_clean(scan: &Scan) -> bool
    ensures { result ≡ is_clean scan.now }
{
    scan.damaged.as_slice().is_empty()
}

fn are_same(a: &[Entry], b: &[Entry]) -> bool
    ensures { result ≡ same_entries a.now b.now }
{
    a == b
}

/// Whether the tree is to be built from the merged entries: if the own scan shows damage, or the
/// merged entries are not those of the scan.
pub fn needs_build(scan: &Scan, merged: &[Entry]) -> bool
    ensures { result ≡ is_build_needed scan.now merged.now }
{
    !(is_clean(scan) && are_same(scan.entries.as_slice(), merged))
}
