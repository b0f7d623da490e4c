ghost use Rattle.std.specs.Prelude.{◌≡◌, [], true, IsOk, IfOk, IfErr, OnOk};
ghost use Rattle.ens_base.specs.View.{IsPeer};
ghost use Rattle.step_plans.specs.Calls.{ScanTree, ReadNode, Install};
ghost use Rattle.step_plans.specs.Outboxes.{Grows, out_of};
ghost use Rattle.step_plans.specs.Plans.{asked};
ghost use Rattle.tree_node.specs.declared.version.TreeVersion.TheVariants.{Two};
ghost use Rattle.tree_node.specs.Entries.{AreAbove};
ghost use Rattle.tree_node.specs.Positions.{IsPosition};
ghost use Rattle.peer_state.specs.NoAllocation.{ends_step};
ghost use Rattle.peer_machine.specs.Outcomes.{Acts};
ghost use Rattle.peer_state.specs.Moves.{keeps_seal};
ghost use Rattle.peer_spec.specs.Syncs.{
  sealed_if,
  and_sends,
  installed,
  accepted,
  accepted_in,
  end_sync,
  by_outcome,
  go_on,
  start_sync,
  resume_sync,
  followed_on,
  own_node,
  shown_node,
  needs_node,
  take_give,
  tree_give,
};
ghost use Rattle.peer_spec.specs.Drives.{got_ask, in_tree};
ghost use Rattle.peer_spec.specs.TreeCalls.{has_position};
ghost use Rattle.tree_sync.specs.Syncs.{MayBeBuilt};

use crate::machine::Machine;
use ens_base::{Bytes, Entry, Epoch, Key, PeerId, Seq};
use leader_output::Outgoing;
use peer_spec::{body_given, give_of, has_position, needs_node, question_of, reached_node};
use peer_state::{Phase, resume_sync, start_sync, sync_outcome, take_give};
use phase_rows::{PhaseRule, Then};
use phase_rules::Election;
use std::alloc::Global;
use std::thread::Threads;
use step_plans::{Outbox, PeerError, Store, Tasks, Walked};
use stored_formats::{Change, Fact};
use tree_exchange::Question;
use tree_node::{Position, Scan, TreeBody, TreeVersion};
use tree_sync::{Give, Outcome, RunningSync, needs_build};
use wire_frames::Message;

impl<S> Machine<S> {
    #[tactic(auto, using(peer_spec::proofs::Parts::asked_did))]
    fn scan<H, R: Threads + Sync>(
        &mut self,
        hasher: &mut H,
        rt: &R,
        alloc: Global,
        out: &Outbox,
    ) -> Result<Scan, PeerError>
    where
        S: Store<H>,
        ensures { Acts S.does S.refuses (asked ScanTree) self.old hasher.old out.now result self.new hasher.new out.now }
    {
        self.stores.scan_tree(hasher, rt, alloc)
    }

    #[tactic(auto, using(peer_spec::proofs::Parts::asked_did))]
    fn read_node<H>(
        &mut self,
        hasher: &mut H,
        alloc: Global,
        out: &Outbox,
        at: Position,
    ) -> Result<Walked<Option<Bytes>>, PeerError>
    where
        S: Store<H>,
        requires { IsPosition Two at }
        ensures { Acts S.does S.refuses (asked (ReadNode at)) self.old hasher.old out.now result self.new hasher.new out.now }
    {
        self.stores.read_node(hasher, alloc, at)
    }

    #[tactic(auto, using(peer_spec::proofs::Parts::asked_did))]
    fn build<H, R: Threads + Sync>(
        &mut self,
        hasher: &mut H,
        rt: &R,
        alloc: Global,
        out: &Outbox,
        entries: &[Entry],
    ) -> Result<(), PeerError>
    where
        S: Store<H>,
        requires { AreAbove [] entries.now }
        ensures { Acts S.does S.refuses (asked (Install entries.now)) self.old hasher.old out.now result self.new hasher.new out.now }
    {
        self.stores.install(hasher, rt, alloc, entries)
    }

    /// Builds the tree of these entries and installs it, if that is needed.
    #[tactic(auto, using(peer_spec::proofs::Parts::cut))]
    fn install<H, R: Threads + Sync>(
        &mut self,
        hasher: &mut H,
        rt: &R,
        alloc: Global,
        out: &Outbox,
        needed: bool,
        entries: &[Entry],
    ) -> Result<(), PeerError>
    where
        S: Store<H>,
        requires { AreAbove [] entries.now }
        ensures { Acts S.does S.refuses (installed needed entries.now) self.old hasher.old out.now result self.new hasher.new out.now }
    {
        if needed {
            self.build(hasher, rt, alloc, out, entries)?;
        }
        Ok(())
    }

    /// The node at the position, if it is needed.
    #[tactic(auto, using(peer_spec::proofs::Parts::cut))]
    fn own_node<H>(
        &mut self,
        hasher: &mut H,
        alloc: Global,
        out: &Outbox,
        needed: bool,
        at: Position,
    ) -> Result<Option<Bytes>, PeerError>
    where
        S: Store<H>,
        requires { IsPosition Two at }
        ensures { Acts S.does S.refuses (own_node needed at) self.old hasher.old out.now result self.new hasher.new out.now }
    {
        if needed {
            let walked = self.read_node(hasher, alloc, out, at)?;
            Ok(reached_node(walked))
        } else {
            Ok(None)
        }
    }

    /// What the peer sends for a question, if it is answered.
    #[tactic(auto, using(peer_spec::proofs::Parts::cut, tree_node::proofs::TreeVersionLaws::position_deepest))]
    fn shown_node<H>(
        &mut self,
        hasher: &mut H,
        alloc: Global,
        out: &Outbox,
        answered: bool,
        question: &Question,
    ) -> Result<Option<TreeBody>, PeerError>
    where
        S: Store<H>,
        requires { IsPosition self.old.state.mode.tree question.now.position }
        ensures { Acts S.does S.refuses (shown_node self.old.state.mode.tree answered question.now) self.old hasher.old out.now result self.new hasher.new out.now }
    {
        let tree = self.state.mode.tree;
        if answered {
            let walked = self.read_node(hasher, alloc, out, question.position)?;
            let body = body_given(alloc, tree, question, walked)?;
            Ok(Some(body))
        } else {
            Ok(None)
        }
    }
}

impl<S> Machine<S> {
    /// Sends the acceptance of a follower to the peer that leads the epoch of the fact, if that is
    /// another peer. Fails only when out of memory.
    fn send_accepted(&self, out: &mut Outbox, me: PeerId, new: &Fact) -> Result<(), PeerError>
        ensures sends { OnOk result (out_of out.new ≡ and_sends (out_of out.old) (accepted me new.now)) }
        ensures notes { out.new.notes ≡ out.old.notes }
        ensures grows { Grows out.old out.new }
        ensures memory { IfErr result (λ e. e ≡ PeerError.Memory) }
    {
        let leader = new.leader;
        if leader.0 >= 1 && leader.0 <= 31 && leader != me {
            out.send(leader, Message::Accepted(new.epoch, 1))?;
        }
        Ok(())
    }

    /// The fact of a sync was accepted: a starting peer counts itself, and a follower sends its
    /// acceptance.
    #[tactic(auto, using(peer_spec::proofs::Parts::cut))]
    #[inline(never)]
    fn accept<H>(
        &mut self,
        hasher: &H,
        alloc: Global,
        out: &mut Outbox,
        me: PeerId,
        new: &Fact,
    ) -> Result<Tasks, PeerError>
    where
        S: Store<H>,
        requires { IsPeer me }
        ensures acts { Acts S.does S.refuses (λ x o next. accepted_in me new.now x.phase x o next) self.old hasher.now out.old result self.new hasher.now out.new }
        ensures grows { Grows out.old out.new }
    {
        match &mut self.state.phase {
            Phase::Electing(Election::Starting { accepts, .. }) => {
                accepts.insert(me);
                Ok(Tasks::named(alloc, Then::Rule(PhaseRule::EnoughAccepted))?)
            }
            Phase::Following(_) => {
                self.send_accepted(out, me, new)?;
                Ok(Tasks::none(alloc))
            }
            _ => Ok(Tasks::none(alloc)),
        }
    }

    /// Saves the fact of a sync, with the root of the tree as its seal if the peer keeps one.
    #[tactic(auto, using(peer_spec::proofs::Parts::cut))]
    fn save_synced<H>(&mut self, hasher: &mut H, out: &Outbox, new: Fact) -> Result<(), PeerError>
    where
        S: Store<H>,
        ensures { Acts S.does S.refuses (λ x o next. sealed_if (keeps_seal x) new x o next) self.old hasher.old out.now result self.new hasher.new out.now }
    {
        if self.state.keeps_seal() {
            self.seal(hasher, out, new)
        } else {
            self.save(hasher, out, Some(new))
        }
    }

    /// Ends a sync with these merged entries.
    #[tactic(auto, using(peer_spec::proofs::Parts::cut))]
    #[inline(never)]
    fn end_sync<H, R: Threads + Sync>(
        &mut self,
        hasher: &mut H,
        rt: &R,
        alloc: Global,
        out: &mut Outbox,
        me: PeerId,
        running: RunningSync,
        entries: &[Entry],
    ) -> Result<Tasks, PeerError>
    where
        S: Store<H>,
        requires me { IsPeer me }
        requires above { AreAbove [] entries.now }
        ensures acts { Acts S.does S.refuses (end_sync me running entries.now) self.old hasher.old out.old result self.new hasher.new out.new }
        ensures grows { Grows out.old out.new }
    {
        self.state.sync = None;
        let needed = needs_build(running.scan(), entries);
        let new = running.fact();
        self.install(hasher, rt, alloc, out, needed, entries)?;
        self.save_synced(hasher, out, new)?;
        self.state.trusted = true;
        let tasks = self.accept(hasher, alloc, out, me, &new)?;
        Ok(tasks)
    }

    /// Lets a sync run on, or ends it.
    #[tactic(auto, using(peer_spec::proofs::Parts::cut))]
    fn by_outcome<H, R: Threads + Sync>(
        &mut self,
        hasher: &mut H,
        rt: &R,
        alloc: Global,
        out: &mut Outbox,
        me: PeerId,
        running: RunningSync,
        outcome: Outcome,
    ) -> Result<Tasks, PeerError>
    where
        S: Store<H>,
        requires me { IsPeer me }
        requires above { MayBeBuilt outcome }
        ensures acts { Acts S.does S.refuses (by_outcome me running outcome) self.old hasher.old out.old result self.new hasher.new out.new }
        ensures grows { Grows out.old out.new }
    {
        match outcome {
            Outcome::Pending => {
                self.state.sync = Some(running);
                Ok(Tasks::none(alloc))
            }
            Outcome::Trusted(entries) => {
                self.end_sync(hasher, rt, alloc, out, me, running, entries.as_slice())
            }
        }
    }

    /// Sends the messages of a sync, which then runs on, or ends if its sources suffice.
    #[tactic(auto, using(peer_spec::proofs::Parts::cut))]
    fn go_on<H, R: Threads + Sync>(
        &mut self,
        hasher: &mut H,
        rt: &R,
        alloc: Global,
        out: &mut Outbox,
        me: PeerId,
        running: RunningSync,
        sends: Seq<Outgoing>,
    ) -> Result<Tasks, PeerError>
    where
        S: Store<H>,
        requires { IsPeer me }
        ensures acts { Acts S.does S.refuses (go_on me (running, sends)) self.old hasher.old out.old result self.new hasher.new out.new }
        ensures grows { Grows out.old out.new }
    {
        out.send_all(sends.into_vec())?;
        let outcome = sync_outcome(alloc, &running)?;
        self.by_outcome(hasher, rt, alloc, out, me, running, outcome)
    }

    /// Begins a sync on a fact.
    #[tactic(auto, using(peer_spec::proofs::Parts::cut))]
    #[inline(never)]
    fn start_sync<H, R: Threads + Sync>(
        &mut self,
        hasher: &mut H,
        rt: &R,
        alloc: Global,
        out: &mut Outbox,
        me: PeerId,
        new: Fact,
    ) -> Result<Tasks, PeerError>
    where
        S: Store<H>,
        requires { IsPeer me }
        ensures acts { Acts S.does S.refuses (start_sync me new) self.old hasher.old out.old result self.new hasher.new out.new }
        ensures grows { Grows out.old out.new }
    {
        let scan = self.scan(hasher, rt, alloc, out)?;
        let (running, sends) = start_sync(alloc, new, me, self.state.trusted, scan)?;
        self.go_on(hasher, rt, alloc, out, me, running, sends)
    }

    /// Resumes the sync that runs, if one does.
    #[tactic(auto, using(peer_spec::proofs::Parts::cut))]
    #[inline(never)]
    fn resume_sync<H>(
        &mut self,
        hasher: &H,
        alloc: Global,
        out: &mut Outbox,
    ) -> Result<Tasks, PeerError>
    where
        S: Store<H>,
        ensures acts { Acts S.does S.refuses (λ x o next. resume_sync x.sync x o next) self.old hasher.now out.old result self.new hasher.now out.new }
        ensures grows { Grows out.old out.new }
    {
        match &mut self.state.sync {
            None => Ok(Tasks::none(alloc)),
            Some(running) => {
                let sends = resume_sync(alloc, running)?;
                out.send_all(sends.into_vec())?;
                Ok(Tasks::none(alloc))
            }
        }
    }

    /// Runs what follows the message of a row: a sync begins or resumes, or the named rule runs next.
    #[tactic(auto, using(peer_spec::proofs::Parts::cut))]
    #[inline(never)]
    pub(crate) fn follow_on<H, R: Threads + Sync>(
        &mut self,
        hasher: &mut H,
        rt: &R,
        alloc: Global,
        out: &mut Outbox,
        me: PeerId,
        then: &Then,
    ) -> Result<Tasks, PeerError>
    where
        S: Store<H>,
        requires { IsPeer me }
        ensures acts { Acts S.does S.refuses (followed_on me then.now) self.old hasher.old out.old result self.new hasher.new out.new }
        ensures grows { Grows out.old out.new }
        ensures none { ends_step then.now ≡ true → IfOk result (λ tasks. tasks ≡ []) }
        ensures fits { ends_step then.now ≡ true → IsOk result }
    {
        match then {
            Then::SyncOn(new) => self.start_sync(hasher, rt, alloc, out, me, *new),
            Then::Resume => self.resume_sync(hasher, alloc, out),
            Then::Rule(_) => Ok(Tasks::named(alloc, *then)?),
            Then::Stay
            | Then::Follow
            | Then::Lead(_)
            | Then::Untrust
            | Then::Put
            | Then::OnKeys(_) => Ok(Tasks::none(alloc)),
        }
    }

    /// Answers a peer that syncs, which asks for a node of the tree.
    #[tactic(auto, using(peer_spec::proofs::Parts::cut))]
    #[inline(never)]
    fn tree_ask<H, R: Threads + Sync>(
        &mut self,
        hasher: &mut H,
        rt: &R,
        alloc: Global,
        out: &mut Outbox,
        me: PeerId,
        from: PeerId,
        ballot: Epoch,
        question: Question,
    ) -> Result<Tasks, PeerError>
    where
        S: Store<H>,
        requires me { IsPeer me }
        requires from { IsPeer from }
        requires position { IsPosition self.old.state.mode.tree question.position }
        ensures acts { Acts S.does S.refuses (got_ask me from ballot question) self.old hasher.old out.old result self.new hasher.new out.new }
        ensures grows { Grows out.old out.new }
    {
        let answered = ballot == self.state.fact.ballot;
        let body = self.shown_node(hasher, alloc, out, answered, &question)?;
        let row = self.state.rule_23(from, ballot, question, body)?;
        let tasks = self.row_done(hasher, rt, alloc, out, me, row)?;
        Ok(tasks)
    }

    /// Rule 23: a peer that syncs asks for a node of the tree. Nothing happens where the peer's own tree
    /// does not have the position.
    #[tactic(auto, using(peer_spec::proofs::Parts::cut))]
    pub(crate) fn ask_in_tree<H, R: Threads + Sync>(
        &mut self,
        hasher: &mut H,
        rt: &R,
        alloc: Global,
        out: &mut Outbox,
        me: PeerId,
        from: PeerId,
        ballot: Epoch,
        at: Position,
        after: &Option<Key>,
    ) -> Result<Tasks, PeerError>
    where
        S: Store<H>,
        requires me { IsPeer me }
        requires from { IsPeer from }
        requires position { IsPosition Two at }
        ensures acts { Acts S.does S.refuses (λ x o next. in_tree (has_position x.mode.tree at)
            (got_ask me from ballot (record { position = at; after = after.now })) x o next) self.old hasher.old
            out.old result self.new hasher.new out.new }
        ensures grows { Grows out.old out.new }
    {
        if has_position(self.state.mode.tree, at) {
            let question = question_of(alloc, at, after)?;
            self.tree_ask(hasher, rt, alloc, out, me, from, ballot, question)
        } else {
            Ok(Tasks::none(alloc))
        }
    }

    /// Lets the sync that runs, if one does, take an answer, in a tree of this version.
    #[tactic(auto, using(peer_spec::proofs::Parts::cut, peer_spec::proofs::Syncs::go_on_without))]
    fn take_give<H, R: Threads + Sync>(
        &mut self,
        hasher: &mut H,
        rt: &R,
        alloc: Global,
        out: &mut Outbox,
        tree: TreeVersion,
        me: PeerId,
        from: PeerId,
        give: &Give,
        own: &Option<Bytes>,
    ) -> Result<Tasks, PeerError>
    where
        S: Store<H>,
        requires me { IsPeer me }
        requires position { IsPosition tree give.now.question.position }
        ensures acts { Acts S.does S.refuses (λ x o next. take_give tree me from give.now own.now x.sync x o next) self.old hasher.old out.old result self.new hasher.new out.new }
        ensures grows { Grows out.old out.new }
    {
        match self.state.sync.take() {
            None => Ok(Tasks::none(alloc)),
            Some(running) => {
                let mut running = running;
                let sends = take_give(alloc, tree, &mut running, from, give, own)?;
                self.go_on(hasher, rt, alloc, out, me, running, sends)
            }
        }
    }

    /// Takes what a source of the sync sent of a position of the own tree.
    #[tactic(auto, using(peer_spec::proofs::Parts::cut, tree_node::proofs::TreeVersionLaws::position_deepest))]
    #[inline(never)]
    fn tree_give<H, R: Threads + Sync>(
        &mut self,
        hasher: &mut H,
        rt: &R,
        alloc: Global,
        out: &mut Outbox,
        me: PeerId,
        from: PeerId,
        give: &Give,
    ) -> Result<Tasks, PeerError>
    where
        S: Store<H>,
        requires me { IsPeer me }
        requires position { IsPosition self.old.state.mode.tree give.now.question.position }
        ensures acts { Acts S.does S.refuses (tree_give me from give.now) self.old hasher.old out.old result self.new hasher.new out.new }
        ensures grows { Grows out.old out.new }
    {
        let tree = self.state.mode.tree;
        let needed = needs_node(&self.state, from, give);
        let own = self.own_node(hasher, alloc, out, needed, give.question.position)?;
        let tasks = self.take_give(hasher, rt, alloc, out, tree, me, from, give, &own)?;
        Ok(tasks)
    }
    /// A source of the sync sent what it has of a node. Nothing happens where the peer's own tree does not
    /// have the position: no question for it is open.
    #[tactic(auto, using(peer_spec::proofs::Parts::cut))]
    pub(crate) fn give_in_tree<H, R: Threads + Sync>(
        &mut self,
        hasher: &mut H,
        rt: &R,
        alloc: Global,
        out: &mut Outbox,
        me: PeerId,
        from: PeerId,
        ballot: Epoch,
        at: Position,
        after: &Option<Key>,
        trusted: bool,
        body: &TreeBody,
    ) -> Result<Tasks, PeerError>
    where
        S: Store<H>,
        requires me { IsPeer me }
        requires position { IsPosition Two at }
        ensures acts { Acts S.does S.refuses (λ x o next. in_tree (has_position x.mode.tree at)
            (tree_give me from (record {
              ballot = ballot;
              question = record { position = at; after = after.now };
              trusted = trusted;
              body = body.now;
            })) x o next) self.old hasher.old out.old result self.new hasher.new
            out.new }
        ensures grows { Grows out.old out.new }
    {
        if has_position(self.state.mode.tree, at) {
            let give = give_of(alloc, ballot, at, after, trusted, body)?;
            self.tree_give(hasher, rt, alloc, out, me, from, &give)
        } else {
            Ok(Tasks::none(alloc))
        }
    }
}
