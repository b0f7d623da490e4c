ghost use Rattle.std.specs.Prelude.{◌≡◌, ◌↔◌, true, false};
ghost use Rattle.ens_base.specs.View.{IsPeer};
ghost use Rattle.peer_state.specs.Ages.{is_young};
ghost use Rattle.peer_spec.specs.Kept.{IsOwn};
ghost use Rattle.peer_spec.specs.Own.{own_props};
ghost use Rattle.peer_state.specs.NoAllocation.{IsSteady};

use ens_base::{PeerId, View};
use environment::{Backend, NodeStore};
use fact_store::FactKeeper;
use hash_book::Hasher16;
use peer_machine::{Machine, start};
use peer_state::{Event, Mode, State};
use peer_stores::Stores;
use std::alloc::Global;
use std::thread::Threads;
use step_plans::{Outbox, PeerError};

/// A peer over its stores. A halted peer takes no step.
#[derive(Drop)]
pub struct Peer<B, N, F> {
    pub(crate) me: PeerId,
    pub(crate) machine: Machine<Stores<B, N, F>>,
    pub(crate) halted: bool,
    ghost is_peer: { IsPeer me },
    ghost young: { halted ≡ false → is_young machine.state.phase ≡ true },
    ghost steady: { halted ≡ false → IsSteady machine.state },
    ghost own: { halted ≡ false → IsOwn me machine.state } by { Prim.hlevel own_props },
}

/// A peer without its stores. The stores may be changed before the peer resumes.
#[derive(Drop)]
pub struct Suspended {
    me: PeerId,
    state: State,
    halted: bool,
    ghost is_peer: { IsPeer me },
    ghost young: { halted ≡ false → is_young state.phase ≡ true },
    ghost steady: { halted ≡ false → IsSteady state },
    ghost own: { halted ≡ false → IsOwn me state } by { Prim.hlevel own_props },
}

/// Why a peer did not start, and the stores that it was given.
#[derive(Drop)]
pub struct StartError<B, N, F> {
    pub error: PeerError,
    pub held: Stores<B, N, F>,
}

impl<B: Backend, N: NodeStore, F: FactKeeper> Peer<B, N, F> {
    ghost use Rattle.std.specs.Prelude.{◌≤◌, ◌+◌, [], length, IfOk, IfErr, OnOk, OnErr, IsErrOf};
    ghost use Rattle.step_plans.specs.Outboxes.{out_of, room, spare};
    ghost use Rattle.step_plans.specs.Plans.{Finished, Stopped, Runs, nothing};
    ghost use Rattle.step_plans.specs.Steps.{Steps};
    ghost use Rattle.peer_spec.specs.Drives.{MayCome, step_of};
    ghost use Rattle.peer_spec.specs.Kept.{AllMayGo, IsStepError};
    ghost use Rattle.peer_state.specs.Moves.{waits};
    ghost use Rattle.peer_state.specs.NoAllocation.{IsAllocationFree};
    ghost use Rattle.peer_spec.specs.Starts.{IsStartError, start_of};
    ghost use Rattle.peer_stores.specs.Stores.{IsCause, stores_do, stores_refuse};

    /// Rule 1: starts the peer `me`, 1 to 31, on its stores. If they keep no fact, the peer saves
    /// the opening fact of an ensemble with the view `opening`, and starts with an empty tree, which
    /// it trusts, in the version of the mode; with `sealing` the fact has the root of that tree as its
    /// seal. Otherwise the peer continues from the kept fact, and opens its tree, which it does not trust:
    /// if the fact has a seal and the top record differs from it, the root of the tree is damaged. A tree
    /// of version one that is whole first migrates to version two, if that is the version of the mode; a
    /// fact with a seal is then saved with the new root. The peer follows.
    ///
    /// # Errors
    ///
    /// `BadFact` exactly if the fact keeper reports it, `StoreFault` only if the count of faults of
    /// a store rose in this call, `Clash` or `BookFull` only if the hasher refused a string and
    /// counted that, and `Memory` when out of memory. The stores are returned: the backend as it
    /// was, and the tree and the fact as the failed call left them.
    pub fn start<H: Hasher16, R: Threads + Sync>(
        rt: &R,
        alloc: Global,
        me: PeerId,
        opening: View,
        mode: Mode,
        stores: Stores<B, N, F>,
        hasher: &mut H,
    ) -> Result<Peer<B, N, F>, StartError<B, N, F>>
        requires { IsPeer me }
        ensures me { IfOk result (λ p. (p.me ≡ me) × (p.halted ≡ false)) }
        ensures started { IfOk result (λ p. Runs (stores_do B.may_answer B.fault_count N.may_answer N.top_record
            N.fault_count F.may_answer F.kept F.fault_count H.kept H.clashes H.fulls)
            (stores_refuse B.may_refuse B.fault_count N.may_answer N.may_refuse N.top_record N.fault_count
            F.may_refuse F.kept F.fault_count H.kept H.clashes H.fulls) (start_of mode opening) (stores, hasher.old)
            [] (Finished p.machine.state nothing) (p.machine.stores, hasher.new) []) }
        ensures stopped { IfErr result (λ r. Runs (stores_do B.may_answer B.fault_count N.may_answer N.top_record
            N.fault_count F.may_answer F.kept F.fault_count H.kept H.clashes H.fulls)
            (stores_refuse B.may_refuse B.fault_count N.may_answer N.may_refuse N.top_record N.fault_count
            F.may_refuse F.kept F.fault_count H.kept H.clashes H.fulls) (start_of mode opening) (stores, hasher.old)
            [] (Stopped r.error) (r.held, hasher.new) []) }
        ensures untouched { IfErr result (λ r. r.held.backend ≡ stores.backend) }
        ensures causes { IfErr result (λ r. IsCause B.fault_count N.fault_count F.fault_count H.clashes H.fulls (stores, hasher.old) (r.held, hasher.new) r.error) }
        ensures only { IfErr result (λ r. IsStartError r.error) }
    {
        let mut stores = stores;
        match start(&mut stores, hasher, rt, alloc, mode, opening) {
            Ok(state) => Ok(Peer {
                me,
                machine: Machine { state, stores },
                halted: false,
            }),
            Err(error) => Err(StartError {
                error,
                held: stores,
            }),
        }
    }

    /// Takes one step on an event. Its messages, answers, notes and replies to requests to change
    /// the view are added to the end of the outbox. The sender of a message is another peer, 1 to
    /// 31, and the message obeys the grammar of frames. On a Prepare, Check or Beat the step sends
    /// at most one message, and needs no heap memory if the outbox has room for one more and no call
    /// is unanswered.
    ///
    /// # Errors
    ///
    /// `Halted` exactly if the peer was halted; nothing changes. `StoreFault` only if the count of
    /// faults of a store rose in this call, `Clash` or `BookFull` only if the hasher refused a string
    /// and counted that, and `Memory` when out of memory: the peer is then halted, the step adds
    /// nothing but its notes to the outbox, and the stores are as the step left them.
    pub fn step<H: Hasher16, R: Threads + Sync>(
        &mut self,
        rt: &R,
        alloc: Global,
        event: Event,
        hasher: &mut H,
        out: &mut Outbox,
    ) -> Result<(), PeerError>
        requires { MayCome self.old.me event }
        ensures took { (IsErrOf result PeerError.Halted → ⊥)
            → Steps (stores_do B.may_answer B.fault_count N.may_answer N.top_record N.fault_count F.may_answer
            F.kept F.fault_count H.kept H.clashes H.fulls)
            (stores_refuse B.may_refuse B.fault_count N.may_answer N.may_refuse N.top_record N.fault_count
            F.may_refuse F.kept F.fault_count H.kept H.clashes H.fulls)
            (step_of self.old.me event self.old.machine.state) (self.old.machine.stores, hasher.old) out.old result
            self.new.machine.state (self.new.machine.stores, hasher.new) out.new }
        ensures goes_on { OnOk result (self.new.halted ≡ false) }
        ensures halts { OnErr result (self.new.halted ≡ true) }
        ensures halted { IsErrOf result PeerError.Halted ↔ (self.old.halted ≡ true) }
        ensures still { IsErrOf result PeerError.Halted → (self.new ≡ self.old) × (out.new ≡ out.old) × (hasher.new ≡ hasher.old) }
        ensures causes { (IsErrOf result PeerError.Halted → ⊥)
            → IfErr result (λ e. IsCause B.fault_count N.fault_count F.fault_count H.clashes H.fulls
            (self.old.machine.stores, hasher.old) (self.new.machine.stores, hasher.new) e) }
        ensures only { IfErr result IsStepError }
        ensures one { IsAllocationFree event → length out.new.sends.items ≤ length out.old.sends.items + 1 }
        ensures no_allocation { IsAllocationFree event → waits self.old.machine.state.phase ≡ false → 1 ≤ spare out.old → ¬ IsErrOf result PeerError.Memory }
        ensures room { room out.old ≤ room out.new }
        ensures may_go { OnOk result (AllMayGo self.old.me (out_of out.old) → AllMayGo self.old.me (out_of out.new)) }
        ensures me { self.new.me ≡ self.old.me }
    {
        if self.halted {
            return Err(PeerError::Halted);
        }
        let result = self.machine.step(hasher, rt, alloc, out, self.me, &event);
        self.halted = result.is_err();
        result
    }
}

impl<B, N, F> Peer<B, N, F> {
    /// Returns the state of the peer.
    pub fn state(&self) -> &State
        ensures { result.now ≡ self.now.machine.state }
    {
        &self.machine.state
    }

    /// Returns the stores. Needs no heap memory.
    pub fn into_stores(self) -> Stores<B, N, F>
        ensures { result ≡ self.machine.stores }
    {
        let Peer {
            me: _,
            machine,
            halted: _,
        } = self;
        let Machine { state: _, stores } = machine;
        stores
    }

    /// Separates the peer from its stores, so that they can be changed before it resumes. Needs no
    /// heap memory.
    pub fn suspend(self) -> (Suspended, Stores<B, N, F>)
        ensures peer { (result.0.me ≡ self.me) × (result.0.state ≡ self.machine.state) × (result.0.halted ≡ self.halted) }
        ensures stores { result.1 ≡ self.machine.stores }
    {
        let Peer {
            me,
            machine,
            halted,
        } = self;
        let Machine { state, stores } = machine;
        (Suspended { me, state, halted }, stores)
    }
}

impl Suspended {
    /// Continues over these stores, in the same state as before. Needs no heap memory.
    pub fn resume<B, N, F>(self, stores: Stores<B, N, F>) -> Peer<B, N, F>
        ensures peer { (result.me ≡ self.me) × (result.machine.state ≡ self.state) × (result.halted ≡ self.halted) }
        ensures stores { result.machine.stores ≡ stores }
    {
        let Suspended { me, state, halted } = self;
        Peer {
            me,
            machine: Machine { state, stores },
            halted,
        }
    }
}
