ghost use Rattle.std.specs.Prelude.{◌≡◌, IsOk, OnOk, IfOk, IfErr, false, true, []};
ghost use Rattle.leader.specs.Leaders.{new_leader};
ghost use Rattle.step_plans.specs.Outboxes.{Grows, out_of};
ghost use Rattle.peer_state.specs.Moves.{
  keeps_seal,
  follower,
  waits,
  timeouts,
  and_answers,
  stopped_leading,
  without_candidacy,
  without_sync,
  accepts_of,
  accepts_in,
  leading,
  left,
  left_answers,
  turned,
  ends_leading,
  turned_answers,
  stood,
  sought,
  waiting_phase,
  waiting_for,
};
ghost use Rattle.peer_state.specs.NoAllocation.{EndsQuietly};
ghost use Rattle.peer_state.specs.declared.state.ChangeState.TheVariants.{Settled};

use ens_base::{Digest, PeerId, PeerSet};
use leader::Leader;
use phase_rows::Then;
use phase_rules::{Election, Finishing, Follower, Probing};
use std::alloc::Global;
use std::mem::replace;
use step_plans::{AnswerOut, Outbox, PeerError};
use stored_formats::{Change, Fact};
use tree_sync::RunningSync;
use wire_frames::TreeVersion;

/// How far a leader is with a change of the view.
#[derive(Debug, Drop)]
pub enum ChangeState {
    /// No change has begun.
    Settled,
    /// Rule 25 begins this change in the same step.
    Wanted(Change),
    /// The second fact of the epoch is saved, and the epoch is ending.
    Finishing(Finishing),
}

/// A leading peer: what it keeps of its epoch and its calls, and the change of the view.
#[derive(Drop)]
pub struct Leadership {
    pub leader: Leader,
    pub change: ChangeState,
}

/// What a peer is doing.
#[derive(Drop)]
pub enum Phase {
    Following(Follower),
    Probing(Probing),
    Electing(Election),
    Leading(Leadership),
}

/// How a peer was started.
#[derive(Clone, Copy, Debug, PartialEq, Eq)]
pub struct Mode {
    /// The fact keeps a seal, the digest of the tree's top record: from the first start on empty
    /// stores on, or else from the end of the next sync on.
    pub sealing: bool,
    /// The version of the peer's tree. A start migrates a whole tree of version one to version two.
    pub tree: TreeVersion,
}

/// A peer without its number and its stores: the last saved fact and the seal that it was saved with,
/// how the peer was started, whether it trusts its tree, its phase, and the sync that runs, if one
/// does.
#[derive(Drop)]
pub struct State {
    pub fact: Fact,
    pub seal: Option<Digest>,
    pub mode: Mode,
    pub trusted: bool,
    pub phase: Phase,
    pub sync: Option<RunningSync>,
}

/// The peers that accepted the epoch that is starting.
fn accepts_of_election(election: &Election) -> PeerSet
    ensures { result ≡ accepts_of election.now }
{
    match election {
        Election::Preparing { .. } => PeerSet::empty(),
        Election::Starting { accepts, .. } => *accepts,
    }
}

/// The answers to the unanswered calls of a leader that steps down.
#[tactic(auto, using(crate::proofs::Quiet::no_timeouts))]
fn timeouts_of(phase: Phase, alloc: Global) -> Result<Vec<AnswerOut>, PeerError>
    ensures ok { IfOk result (λ v. v.items ≡ timeouts phase) }
    ensures none { waits phase ≡ false → IsOk result × IfOk result (λ v. v.items ≡ []) }
    ensures memory { IfErr result (λ e. e ≡ PeerError.Memory) }
{
    match phase {
        Phase::Leading(leadership) => Ok(leadership.leader.leave(alloc)?),
        _ => Ok(Vec::new(alloc)),
    }
}

impl Phase {
    /// The phase of a following peer that has counted no quiet tick.
    pub fn follower() -> Phase
        ensures { result ≡ follower }
    {
        Phase::Following(Follower { quiet: 0 })
    }

    fn accepts(&self) -> PeerSet
        ensures { result ≡ accepts_in self.now }
    {
        match self {
            Phase::Electing(election) => accepts_of_election(election),
            _ => PeerSet::empty(),
        }
    }

    /// Steps down a leader, whose unanswered calls are answered. Any other phase stays. Fails only
    /// when out of memory.
    fn leave_leading(&mut self, alloc: Global, out: &mut Outbox) -> Result<(), PeerError>
        ensures phase { OnOk result (self.new ≡ stopped_leading self.old) }
        ensures told { OnOk result (out_of out.new ≡ and_answers (out_of out.old) (timeouts self.old)) }
        ensures rest { (out.new.sends ≡ out.old.sends) × (out.new.notes ≡ out.old.notes) × (out.new.changes ≡ out.old.changes) }
        ensures grows { Grows out.old out.new }
        ensures fits { waits self.old ≡ false → IsOk result }
        ensures memory { IfErr result (λ e. e ≡ PeerError.Memory) }
    {
        if let Phase::Leading(_) = self {
            let phase = replace(self, Phase::follower());
            out.answer_all(timeouts_of(phase, alloc)?)?;
        }
        Ok(())
    }

    /// Makes a peer that waits for a sync follow. A leader stays.
    fn wait(&mut self)
        ensures { self.new ≡ waiting_phase self.old }
    {
        match self {
            Phase::Leading(_) => {}
            Phase::Following(_) | Phase::Probing(_) | Phase::Electing(_) => *self =
                Phase::follower(),
        }
    }

    /// Makes a starting peer follow. Any other phase stays.
    fn leave_starting(&mut self)
        ensures { self.new ≡ without_candidacy self.old }
    {
        if let Phase::Electing(Election::Starting { .. }) = self {
            *self = Phase::follower();
        }
    }
}

/// Whether the peer no longer leads as it did, after what follows the message of a rule.
fn ends_the_lead(then: &Then) -> bool
    ensures { result ≡ ends_leading then.now }
{
    match then {
        Then::Follow | Then::Lead(_) | Then::Untrust => true,
        Then::Stay | Then::Put | Then::Resume | Then::SyncOn(_) | Then::Rule(_) | Then::OnKeys(_) =>
            false,
    }
}

impl State {
    /// Whether the peer keeps a seal from the end of its next sync on: its fact has one, or it was
    /// started to make one.
    pub fn keeps_seal(&self) -> bool
        ensures { result ≡ keeps_seal self.now }
    {
        self.mode.sealing || self.seal.is_some()
    }

    /// Steps down a leader, if `leave` is true; its unanswered calls are answered. Fails only when
    /// out of memory.
    pub fn leave(&mut self, alloc: Global, out: &mut Outbox, leave: bool) -> Result<(), PeerError>
        ensures state { OnOk result (self.new ≡ left leave self.old) }
        ensures told { OnOk result (out_of out.new ≡ left_answers leave self.old (out_of out.old)) }
        ensures rest { (out.new.sends ≡ out.old.sends) × (out.new.notes ≡ out.old.notes) × (out.new.changes ≡ out.old.changes) }
        ensures grows { Grows out.old out.new }
        ensures fits { EndsQuietly leave self.old.phase → IsOk result }
        ensures memory { IfErr result (λ e. e ≡ PeerError.Memory) }
    {
        if leave {
            self.phase.leave_leading(alloc, out)?;
        }
        Ok(())
    }

    /// Leads the epoch whose first fact is `fact`, which `accepts` accepted so far. No sync runs.
    fn lead(&mut self, alloc: Global, me: PeerId, fact: Fact, accepts: PeerSet)
        ensures { self.new ≡ leading (record { leader = new_leader fact me accepts; change = Settled }) (without_sync self.old) }
    {
        self.sync = None;
        self.phase = Phase::Leading(Leadership {
            leader: Leader::new(alloc, fact, me, accepts),
            change: ChangeState::Settled,
        });
    }

    /// Applies what follows the message of a rule, except that it runs no rule, and begins or resumes
    /// no sync. If leading ends, the unanswered calls are answered. Fails only when out of memory.
    pub fn turn(
        &mut self,
        alloc: Global,
        out: &mut Outbox,
        me: PeerId,
        then: Then,
    ) -> Result<(), PeerError>
        ensures state { OnOk result (self.new ≡ turned me then self.old) }
        ensures told { OnOk result (out_of out.new ≡ turned_answers then self.old (out_of out.old)) }
        ensures rest { (out.new.sends ≡ out.old.sends) × (out.new.notes ≡ out.old.notes) × (out.new.changes ≡ out.old.changes) }
        ensures grows { Grows out.old out.new }
        ensures fits { EndsQuietly (ends_leading then) self.old.phase → IsOk result }
        ensures memory { IfErr result (λ e. e ≡ PeerError.Memory) }
    {
        let accepts = self.phase.accepts();
        self.leave(alloc, out, ends_the_lead(&then))?;
        match then {
            Then::Follow => {
                self.phase = Phase::follower();
                self.sync = None;
                Ok(())
            }
            Then::Lead(fact) => {
                self.lead(alloc, me, fact, accepts);
                Ok(())
            }
            Then::Untrust => {
                self.trusted = false;
                self.sync = None;
                self.phase.leave_starting();
                Ok(())
            }
            Then::Stay
            | Then::Put
            | Then::Resume
            | Then::SyncOn(_)
            | Then::Rule(_)
            | Then::OnKeys(_) => Ok(()),
        }
    }

    /// Begins to probe, if `probing` is given. Then no sync runs.
    pub(crate) fn seek(&mut self, probing: Option<Probing>)
        ensures { self.new ≡ sought probing self.old }
    {
        if let Some(probing) = probing {
            self.phase = Phase::Probing(probing);
            self.sync = None;
        }
    }

    /// Begins an election, if `election` is given. Then no sync runs.
    pub(crate) fn stand(&mut self, election: Option<Election>)
        ensures { self.new ≡ stood election self.old }
    {
        if let Some(election) = election {
            self.phase = Phase::Electing(election);
            self.sync = None;
        }
    }

    /// Waits for the end of a sync, if a sync begins or resumes: a peer follows, with no quiet tick. A
    /// leader stays, and steps down when its row is applied.
    pub(crate) fn wait_for(&mut self, then: &Then)
        ensures { self.new ≡ waiting_for then.now self.old }
    {
        match then {
            Then::SyncOn(_) | Then::Resume => self.phase.wait(),
            Then::Stay
            | Then::Follow
            | Then::Lead(_)
            | Then::Untrust
            | Then::Put
            | Then::Rule(_)
            | Then::OnKeys(_) => {}
        }
    }
}

impl ChangeState {
    ghost use Rattle.peer_state.specs.Rows.{has_begun};

    fn has_begun(&self) -> bool
        ensures { result ≡ has_begun self.now }
    {
        match self {
            ChangeState::Settled => false,
            ChangeState::Wanted(_) | ChangeState::Finishing(_) => true,
        }
    }
}

impl Phase {
    ghost use Rattle.peer_state.specs.Rows.{leads, changes};

    /// Whether the peer leads.
    pub fn leads(&self) -> bool
        ensures { result ≡ leads self.now }
    {
        match self {
            Phase::Leading(_) => true,
            _ => false,
        }
    }

    /// Whether the peer leads, and a change has begun.
    pub fn changes(&self) -> bool
        ensures { result ≡ changes self.now }
    {
        match self {
            Phase::Leading(leadership) => leadership.change.has_begun(),
            _ => false,
        }
    }
}
