ghost use Rattle.std.specs.Prelude.{◌≡◌, [], true, Bool, IsOk, IfOk, IfErr, OnOk, IsErrOf};
ghost use Rattle.ens_base.specs.View.{IsPeer};
ghost use Rattle.step_plans.specs.Outboxes.{FitsIn, Grows};
ghost use Rattle.step_plans.specs.Calls.{Root, Save};
ghost use Rattle.step_plans.specs.Plans.{asked};
ghost use Rattle.step_plans.specs.Saved.{with_seal};
ghost use Rattle.peer_spec.specs.Drives.{performed, row_done, task_done, driven};
ghost use Rattle.peer_state.specs.Moves.{turned, turned_answers, ends_leading};
ghost use Rattle.peer_spec.specs.Syncs.{saved, sealed, followed_on};
ghost use Rattle.peer_state.specs.NoAllocation.{ends_step, EndsQuietly, IsFreeRow, IsFreeTask};
ghost use Rattle.peer_machine.specs.Outcomes.{Acts};

use ens_base::{Digest, PeerId};
use peer_state::State;
use phase_rows::{PhaseOut, Seen, Then};
use std::alloc::Global;
use std::thread::Threads;
use step_plans::{Outbox, PeerError, Store, Task, Tasks};
use stored_formats::{Change, Fact, SavedFact};
use wire_frames::Message;

/// The state of a peer and its stores.
#[derive(Drop)]
pub struct Machine<S> {
    pub state: State,
    pub stores: S,
}

impl<S> Machine<S> {
    /// Saves the fact with this seal.
    #[tactic(auto, using(peer_spec::proofs::Parts::asked_did))]
    fn save_fact<H>(
        &mut self,
        hasher: &mut H,
        out: &Outbox,
        fact: &Fact,
        seal: &Option<Digest>,
    ) -> Result<(), PeerError>
    where
        S: Store<H>,
        ensures acts { Acts S.does S.refuses (asked (Save (with_seal seal.now fact.now))) self.old hasher.old out.now result self.new hasher.new out.now }
        ensures only { IfErr result (λ e. e ≡ PeerError.StoreFault) }
        ensures state { self.new.state ≡ self.old.state }
    {
        let saved = SavedFact {
            fact: *fact,
            seal: *seal,
        };
        self.stores.save(hasher, &saved)
    }

    /// Asks for the root of the running tree.
    #[tactic(auto, using(peer_spec::proofs::Parts::asked_did))]
    fn root<H>(&mut self, hasher: &mut H, out: &Outbox) -> Result<Option<Digest>, PeerError>
    where
        S: Store<H>,
        ensures acts { Acts S.does S.refuses (asked Root) self.old hasher.old out.now result self.new hasher.new out.now }
        ensures state { self.new.state ≡ self.old.state }
    {
        self.stores.root(hasher)
    }

    /// Saves the fact with the root of the tree as its seal, and both become those of the peer.
    #[tactic(auto, using(peer_spec::proofs::Parts::cut))]
    pub(crate) fn seal<H>(
        &mut self,
        hasher: &mut H,
        out: &Outbox,
        fact: Fact,
    ) -> Result<(), PeerError>
    where
        S: Store<H>,
        ensures { Acts S.does S.refuses (sealed fact) self.old hasher.old out.now result self.new hasher.new out.now }
    {
        let root = self.root(hasher, out)?;
        self.save_fact(hasher, out, &fact, &root)?;
        self.state.fact = fact;
        self.state.seal = root;
        Ok(())
    }

    /// Saves the fact with the peer's seal, if there is one.
    #[tactic(auto, using(peer_spec::proofs::Parts::cut))]
    #[inline(never)]
    pub(crate) fn save<H>(
        &mut self,
        hasher: &mut H,
        out: &Outbox,
        save: Option<Fact>,
    ) -> Result<(), PeerError>
    where
        S: Store<H>,
        ensures acts { Acts S.does S.refuses (saved save) self.old hasher.old out.now result self.new hasher.new out.now }
        ensures only { IfErr result (λ e. e ≡ PeerError.StoreFault) }
        ensures phase { OnOk result (self.new.state.phase ≡ self.old.state.phase) }
    {
        match save {
            None => Ok(()),
            Some(fact) => {
                let seal = self.state.seal;
                self.save_fact(hasher, out, &fact, &seal)?;
                self.state.fact = fact;
                Ok(())
            }
        }
    }

    /// Applies a row, except for what follows it: a leader steps down if asked, the fact is saved,
    /// and the message is sent.
    #[tactic(auto, using(peer_spec::proofs::Parts::cut, peer_state::proofs::Quiet::still_quiet))]
    fn perform<H>(
        &mut self,
        hasher: &mut H,
        alloc: Global,
        out: &mut Outbox,
        row: PhaseOut,
    ) -> Result<(), PeerError>
    where
        S: Store<H>,
        ensures acts { Acts S.does S.refuses (performed row) self.old hasher.old out.old result self.new hasher.new out.new }
        ensures grows { Grows out.old out.new }
        ensures quiet { OnOk result ((ends : Bool) → EndsQuietly ends self.old.state.phase → EndsQuietly ends self.new.state.phase) }
        ensures fits { FitsIn out.old row.to row.message → EndsQuietly row.leave self.old.state.phase → ¬ IsErrOf result PeerError.Memory }
    {
        let PhaseOut {
            leave,
            save,
            to,
            message,
            then: _,
        } = row;
        self.state.leave(alloc, out, leave)?;
        self.save(hasher, out, save)?;
        out.send_to(alloc, to, message)?;
        Ok(())
    }

    /// Applies what follows the message of a row, with the sync that it begins or resumes. Returns the
    /// rule that runs next.
    #[tactic(auto, using(peer_spec::proofs::Parts::cut))]
    fn turn<H, R: Threads + Sync>(
        &mut self,
        hasher: &mut H,
        rt: &R,
        alloc: Global,
        out: &mut Outbox,
        me: PeerId,
        then: Then,
    ) -> Result<Tasks, PeerError>
    where
        S: Store<H>,
        requires { IsPeer me }
        ensures acts { Acts S.does S.refuses (λ x o next. followed_on me then (turned me then x) (turned_answers then x o) next) self.old hasher.old out.old result self.new hasher.new out.new }
        ensures grows { Grows out.old out.new }
        ensures none { ends_step then ≡ true → IfOk result (λ tasks. tasks ≡ []) }
        ensures fits { ends_step then ≡ true → EndsQuietly (ends_leading then) self.old.state.phase → IsOk result }
    {
        self.state.turn(alloc, out, me, then)?;
        let tasks = self.follow_on(hasher, rt, alloc, out, me, &then)?;
        Ok(tasks)
    }

    /// Applies a row, with the sync that it begins or resumes. Returns the rule that runs next.
    #[tactic(auto, using(peer_spec::proofs::Parts::cut))]
    pub(crate) fn row_done<H, R: Threads + Sync>(
        &mut self,
        hasher: &mut H,
        rt: &R,
        alloc: Global,
        out: &mut Outbox,
        me: PeerId,
        row: PhaseOut,
    ) -> Result<Tasks, PeerError>
    where
        S: Store<H>,
        requires { IsPeer me }
        ensures acts { Acts S.does S.refuses (row_done me row) self.old hasher.old out.old result self.new hasher.new out.new }
        ensures grows { Grows out.old out.new }
        ensures none { ends_step row.then ≡ true → IfOk result (λ tasks. tasks ≡ []) }
        ensures fits { IsFreeRow out.old self.old.state.phase row → ¬ IsErrOf result PeerError.Memory }
    {
        let then = row.then;
        self.perform(hasher, alloc, out, row)?;
        let tasks = self.turn(hasher, rt, alloc, out, me, then)?;
        Ok(tasks)
    }

    /// Runs the rule of one task, and returns the rules that its row names.
    #[tactic(auto, using(peer_spec::proofs::Parts::cut))]
    pub(crate) fn task_done<H, R: Threads + Sync>(
        &mut self,
        hasher: &mut H,
        rt: &R,
        alloc: Global,
        out: &mut Outbox,
        me: PeerId,
        task: Task,
    ) -> Result<Tasks, PeerError>
    where
        S: Store<H>,
        requires { IsPeer me }
        ensures acts { Acts S.does S.refuses (task_done me task) self.old hasher.old out.old result self.new hasher.new out.new }
        ensures grows { Grows out.old out.new }
        ensures none { IsFreeTask out.old me task self.old.state → IfOk result (λ tasks. tasks ≡ []) }
        ensures fits { IsFreeTask out.old me task self.old.state → ¬ IsErrOf result PeerError.Memory }
    {
        match task {
            Task::Phase(rule) => {
                let row = self.state.phase_row(rule, me);
                self.row_done(hasher, rt, alloc, out, me, row)
            }
            Task::Remind => self.remind(hasher, alloc, out),
            Task::Key(rule, key) => self.key_done(
                hasher,
                alloc,
                out,
                me,
                rule,
                &key,
                &Seen::Nothing,
            ),
            Task::Again(rule, key, seen) => self.key_done(
                hasher, alloc, out, me, rule, &key, &seen,
            ),
        }
    }

    /// Runs `tasks`, at most `turns` of them. The rules that a row names run before the tasks that
    /// were left. Returns the tasks that are left.
    #[tactic(auto, using(peer_spec::proofs::Parts::cut))]
    pub(crate) fn drive<H, R: Threads + Sync>(
        &mut self,
        hasher: &mut H,
        rt: &R,
        alloc: Global,
        out: &mut Outbox,
        me: PeerId,
        turns: u64,
        tasks: Tasks,
    ) -> Result<Tasks, PeerError>
    where
        S: Store<H>,
        requires { IsPeer me }
        ensures acts { Acts S.does S.refuses (driven me turns tasks) self.old hasher.old out.old result self.new hasher.new out.new }
        ensures grows { Grows out.old out.new }
        ensures none { tasks ≡ [] → IsOk result }
    {
        let mut tasks = tasks;
        for turn in 0..turns {
            match tasks.take() {
                None => return Ok(tasks),
                Some(task) => {
                    let more = match self.task_done(hasher, rt, alloc, out, me, task) {
                        Ok(more) => more,
                        Err(error) => return Err(error),
                    };
                    match tasks.put_all(more) {
                        Ok(()) => {}
                        Err(_) => return Err(PeerError::Memory),
                    }
                }
            }
        }
        Ok(tasks)
    }
}
