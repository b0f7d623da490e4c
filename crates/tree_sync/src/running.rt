ghost use Rattle.std.specs.Prelude.{◌≡◌, ◌<◌, ◌≤◌, length, IfOk, OnOk, IfSome, map, slice_get};
ghost use Rattle.tree_node.specs.Positions.{IsPosition};
ghost use Rattle.tree_sync.specs.Syncs.{outcome_of, MayBeBuilt};
ghost use Rattle.tree_sync.specs.Asks.{is_other, asks_of, resumed, question_of, questions, place_of};
ghost use Rattle.tree_sync.specs.Rows.{row_start, row_resume, row_take, taken_by, concluded, with_finished, needs_own_node};

use crate::asking::{Asking, Give, Stage};
use crate::error::SyncError;
use crate::sync::{Outcome, Sync};
use ens_base::{Bytes, Epoch, PeerId, Seq, View};
use leader_output::Outgoing;
use quorums::is_in;
use std::alloc::Global;
use std::marker::Model;
use stored_formats::Fact;
use tree_exchange::Step;
use tree_node::{Scan, TreeVersion};

/// A sync that runs: the fact it is on, the sources that have finished, and the ask of each source.
/// After a call that failed, its contents are unspecified.
#[derive(Drop)]
pub struct RunningSync {
    fact: Fact,
    sync: Sync,
    asks: Vec<Asking>,
}

impl Model for RunningSync {
    ghost use Rattle.tree_sync.specs.Running.{Running};

    ghost Value = { Running };

    ghost view = { λ r. record { fact = r.fact; sync = r.sync; asks = r.asks.items } };
}

/// Whether the peer is a member of the view other than `me`.
fn is_other(me: PeerId, view: &View, peer: PeerId) -> bool
    ensures { result ≡ is_other me view.now peer }
{
    is_in(view, peer) && peer != me
}

/// Makes an ask of each member of the view but `me`. Fails only when out of memory.
#[tactic(auto, unfolding(crate::specs::Asks::asks_up_to))]
fn asks_of(alloc: Global, me: PeerId, view: &View) -> Result<Vec<Asking>, SyncError>
    ensures { IfOk result (λ all. all.items ≡ asks_of me view.now) }
{
    let mut asks = Vec::new(alloc);
    for below in 0..31 {
        let peer = PeerId(below + 1);
        if is_other(me, view, peer) {
            asks.push(Asking::anew(alloc, Stage::Open, peer))?;
        }
    }
    Ok(asks)
}

/// Returns the messages that ask the open questions. Fails only when out of memory.
fn questions(alloc: Global, ballot: Epoch, asks: &[Asking]) -> Result<Seq<Outgoing>, SyncError>
    ensures { IfOk result (λ sends. sends ≡ questions ballot asks.now) }
{
    let mut sends = Vec::new(alloc);
    for asking in asks {
        asking.push_question(alloc, ballot, &mut sends)?;
    }
    Ok(Seq::new(sends))
}

/// Returns the message that asks the open question of an ask. Fails only when out of memory.
fn question(alloc: Global, ballot: Epoch, asking: &Asking) -> Result<Seq<Outgoing>, SyncError>
    ensures { IfOk result (λ sends. sends ≡ question_of ballot asking.now) }
{
    let mut sends = Vec::new(alloc);
    asking.push_question(alloc, ballot, &mut sends)?;
    Ok(Seq::new(sends))
}

/// Lets each ask go on.
fn resume_all(asks: &mut [Asking])
    ensures { asks.new ≡ map resumed asks.old }
{
    for i in 0..asks.len() {
        asks[i].resume();
    }
}

/// Returns the place of the peer's ask, or the number of asks if it has none.
#[tactic(auto, using(crate::proofs::Places::place_next, crate::proofs::Places::place_end))]
fn place_of(asks: &[Asking], peer: PeerId) -> usize
    ensures place { result ≡ place_of peer asks.now }
    ensures most { result ≤ length asks.now }
{
    for place in 0..asks.len() {
        if asks[place].peer == peer {
            return place;
        }
    }
    asks.len()
}

impl RunningSync {
    /// Begins a sync on the first fact of an epoch. Returns it with the messages that ask each member
    /// of the fact's last view but `me` for its root. `scan` is a scan of the peer's own tree, and
    /// `trusted` says whether it trusts that tree. Fails only when out of memory.
    pub fn start(
        alloc: Global,
        fact: Fact,
        me: PeerId,
        trusted: bool,
        scan: Scan,
    ) -> Result<(RunningSync, Seq<Outgoing>), SyncError>
        ensures { IfOk result (λ r. r ≡ row_start fact me trusted scan) }
    {
        let asks = asks_of(alloc, me, &fact.views.last())?;
        let sends = questions(alloc, fact.epoch, &asks)?;
        let sync = Sync::start(alloc, &fact, me, trusted, scan);
        Ok((RunningSync { fact, sync, asks }, sends))
    }

    /// Returns the fact that the sync is on.
    pub fn fact(&self) -> Fact
        ensures { result ≡ self.now.fact }
    {
        self.fact
    }

    /// Returns the scan of the peer's own tree from the start of the sync.
    pub fn scan(&self) -> &Scan
        ensures { result.now ≡ self.now.sync.scan }
    {
        self.sync.scan()
    }

    /// Goes on: returns the messages that ask each source that has not finished its open question
    /// again, and each dropped one for its root. Fails only when out of memory.
    pub fn resume(&mut self, alloc: Global) -> Result<Seq<Outgoing>, SyncError>
        ensures { IfOk result (λ sends. (self.new, sends) ≡ row_resume self.old) }
    {
        resume_all(&mut self.asks);
        questions(alloc, self.fact.epoch, &self.asks)
    }

    /// Whether the own node at the position of the answer, in the own tree of this version, must be read
    /// before [`RunningSync::take`].
    pub fn needs_own(&self, tree: TreeVersion, from: PeerId, give: &Give) -> bool
        ensures { result ≡ needs_own_node tree from give.now self.now }
    {
        if give.ballot != self.fact.epoch {
            return false;
        }
        match self.asks.get(place_of(&self.asks, from)) {
            None => false,
            Some(asking) => asking.needs_own(tree, give),
        }
    }

    /// Takes an answer of a source, given the version of the own tree, and the bytes of its node at the
    /// position if they are needed and the position verifies. Returns the next question to that source,
    /// if there is one. An answer that does not count changes nothing. Fails only when out of memory.
    pub fn take(
        &mut self,
        alloc: Global,
        tree: TreeVersion,
        from: PeerId,
        give: &Give,
        own: &Option<Bytes>,
    ) -> Result<Seq<Outgoing>, SyncError>
        requires { IsPosition tree give.now.question.position }
        ensures { IfOk result (λ sends. (self.new, sends) ≡ row_take tree from give.now own.now self.old) }
    {
        if give.ballot != self.fact.epoch {
            return Ok(Seq::new(Vec::new(alloc)));
        }
        let place = place_of(&self.asks, from);
        if place >= self.asks.len() {
            return Ok(Seq::new(Vec::new(alloc)));
        }
        self.take_at(alloc, tree, place, give, own)
    }

    /// Lets the ask at `place` take an answer.
    fn take_at(
        &mut self,
        alloc: Global,
        tree: TreeVersion,
        place: usize,
        give: &Give,
        own: &Option<Bytes>,
    ) -> Result<Seq<Outgoing>, SyncError>
        requires place { place < length self.old.asks }
        requires position { IsPosition tree give.now.question.position }
        ensures { IfOk result (λ sends. (self.new, sends) ≡ taken_by tree place (slice_get self.old.asks place) give.now own.now self.old) }
    {
        let step = self.asks[place].take(alloc, tree, self.sync.scan(), own, give)?;
        self.conclude(alloc, step, place)
    }

    /// Returns the next question after a step of the ask at `place`, or keeps what its source sent.
    fn conclude(
        &mut self,
        alloc: Global,
        step: Step,
        place: usize,
    ) -> Result<Seq<Outgoing>, SyncError>
        requires { place < length self.old.asks }
        ensures { IfOk result (λ sends. IfSome (slice_get self.old.asks place) (λ a. (self.new, sends) ≡ concluded step a self.old)) }
    {
        match step {
            Step::Next => question(alloc, self.fact.epoch, &self.asks[place]),
            Step::Done => {
                self.finish(alloc, place)?;
                Ok(Seq::new(Vec::new(alloc)))
            }
            Step::Dropped | Step::Ignored => Ok(Seq::new(Vec::new(alloc))),
        }
    }

    /// Counts the source of the ask at `place` as finished.
    fn finish(&mut self, alloc: Global, place: usize) -> Result<(), SyncError>
        requires { place < length self.old.asks }
        ensures { OnOk result (IfSome (slice_get self.old.asks place) (λ a. self.new ≡ with_finished a self.old)) }
    {
        let asking = &self.asks[place];
        self.sync
            .finish(alloc, asking.peer, asking.trusted, asking.ask.entries())
    }

    /// Returns what the sync has come to. A tree can be built from the merged entries. Fails only
    /// when out of memory.
    pub fn outcome(&self, alloc: Global) -> Result<Outcome, SyncError>
        ensures outcome { IfOk result (λ o. o ≡ outcome_of self.now.sync) }
        ensures above { IfOk result (λ o. MayBeBuilt o) }
    {
        self.sync.outcome(alloc)
    }
}
