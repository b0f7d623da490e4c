ghost use Rattle.std.specs.Prelude.{◌≡◌, ◌≢◌, ◌+◌, ◌≤◌, ℕ, true, ◌++◌, ◌∷◌, [], IsOk, OnOk, OnErr, IfErr, IfSome, IfNone};
ghost use Rattle.ens_base.specs.PeerSet.{holds};
ghost use Rattle.ens_base.specs.View.{IsPeer};
ghost use Rattle.phase_rows.specs.Peers.{alone as alone_set};
ghost use Rattle.step_plans.specs.Outboxes.{HasNotesAlone, out_of, room, spare, Grows, IsMark, FitsIn};
ghost use Rattle.step_plans.specs.Sends.{posted, posted_to};
ghost use Rattle.step_plans.specs.declared.outbox.Outbox.{Outbox};

use crate::error::PeerError;
use ens_base::{PeerId, PeerSet, Reply};
use leader_output::{AnswerOut, Note, Outgoing};
use phase_rows::{Message, alone};
use std::alloc::Global;

/// How long the lists of an outbox are, without the notes.
#[derive(Clone, Copy, Debug)]
pub struct Mark {
    sends: usize,
    answers: usize,
    changes: usize,
}

/// Returns `peer`, 1 to 31, which is in the set, if the set has no other, and `None` if it has.
fn if_alone(set: &PeerSet, peer: PeerId) -> Option<PeerId>
    requires peer { IsPeer peer }
    requires member { holds set.now peer ≡ true }
    ensures some { IfSome result (λ p. IsPeer p × (set.now ≡ alone_set p)) }
    ensures none { IfNone result ((p : ℕ) → IsPeer p → set.now ≢ alone_set p) }
{
    if *set == alone(peer) {
        Some(peer)
    } else {
        None
    }
}

/// Returns the peer of a set of one peer, 1 to 31, and `None` for any other set.
fn only_member(set: &PeerSet) -> Option<PeerId>
    ensures some { IfSome result (λ p. IsPeer p × (set.now ≡ alone_set p)) }
    ensures none { IfNone result ((p : ℕ) → IsPeer p → set.now ≢ alone_set p) }
{
    for number in 1..32 {
        let peer = PeerId(number);
        if set.has(peer) {
            return if_alone(set, peer);
        }
    }
    None
}

/// The output of steps: messages, answers to calls, notes, and replies to requests to change the
/// view, `true` if the request is taken. Each step appends to these lists.
#[derive(Drop)]
pub struct Outbox {
    pub sends: Vec<Outgoing>,
    pub answers: Vec<AnswerOut>,
    pub notes: Vec<Note>,
    pub changes: Vec<bool>,
}

impl Outbox {
    /// Makes an empty outbox. Needs no heap memory.
    pub fn new(alloc: Global) -> Outbox
        ensures alone { HasNotesAlone result }
        ensures notes { result.notes.items ≡ [] }
    {
        Outbox {
            sends: Vec::new(alloc),
            answers: Vec::new(alloc),
            notes: Vec::new(alloc),
            changes: Vec::new(alloc),
        }
    }

    /// Reserves room for `sends` more messages, and leaves the lists as they were.
    ///
    /// # Errors
    ///
    /// `Memory` when out of memory, and no other error.
    pub fn reserve(&mut self, sends: u32) -> Result<(), PeerError>
        ensures spare { OnOk result (sends ≤ spare self.new) }
        ensures sends { self.new.sends.items ≡ self.old.sends.items }
        ensures rest { (self.new.answers ≡ self.old.answers) × (self.new.notes ≡ self.old.notes) × (self.new.changes ≡ self.old.changes) }
        ensures memory { IfErr result (λ e. e ≡ PeerError.Memory) }
    {
        self.sends.reserve(sends as usize)?;
        Ok(())
    }

    /// Returns how long the lists are, without the notes.
    pub fn mark(&self) -> Mark
        ensures { IsMark result self.now }
    {
        Mark {
            sends: self.sends.len(),
            answers: self.answers.len(),
            changes: self.changes.len(),
        }
    }

    /// Shortens the lists to their lengths at the mark, except the notes. Needs no heap memory.
    pub fn cut_back(&mut self, mark: Mark)
        ensures back { (before : Outbox) → IsMark mark before → Grows before self.old → out_of self.new ≡ out_of before }
        ensures notes { self.new.notes ≡ self.old.notes }
        ensures room { room self.new ≡ room self.old }
    {
        self.sends.truncate(mark.sends);
        self.answers.truncate(mark.answers);
        self.changes.truncate(mark.changes);
    }

    /// Sends `message` to the peer `to`. Sends nothing when out of memory.
    ///
    /// # Errors
    ///
    /// `Memory` when out of memory, and no other error.
    pub fn send(&mut self, to: PeerId, message: Message) -> Result<(), PeerError>
        ensures sends { OnOk result (self.new.sends.items ≡ self.old.sends.items ++ record { to = to; message = message } ∷ []) }
        ensures rest { (self.new.answers ≡ self.old.answers) × (self.new.notes ≡ self.old.notes) × (self.new.changes ≡ self.old.changes) }
        ensures kept { OnErr result (self.new.sends.items ≡ self.old.sends.items) }
        ensures grows { Grows self.old self.new }
        ensures fits { 1 ≤ spare self.old → IsOk result }
        ensures memory { IfErr result (λ e. e ≡ PeerError.Memory) }
    {
        if self.sends.push(Outgoing { to, message }).is_err() {
            return Err(PeerError::Memory);
        }
        Ok(())
    }

    /// Sends a message to each peer of the set, in ascending order.
    #[tactic(auto, unfolding(crate::specs::Sends::posted))]
    fn send_copies(
        &mut self,
        alloc: Global,
        to: &PeerSet,
        message: &Message,
    ) -> Result<(), PeerError>
        ensures sends { OnOk result (self.new.sends.items ≡ self.old.sends.items ++ posted (holds to.now) (λ p. message.now) 31) }
        ensures rest { (self.new.answers ≡ self.old.answers) × (self.new.notes ≡ self.old.notes) × (self.new.changes ≡ self.old.changes) }
        ensures grows { Grows self.old self.new }
        ensures memory { IfErr result (λ e. e ≡ PeerError.Memory) }
    {
        for below in 0..31 {
            let peer = PeerId(below + 1);
            if to.has(peer) {
                let copy = message.copy(alloc)?;
                self.send(peer, copy)?;
            }
        }
        Ok(())
    }

    /// Sends the message, if there is one, to each peer of the set, in ascending order. Needs no
    /// heap memory for one receiver, if there is room for one more message.
    ///
    /// # Errors
    ///
    /// `Memory` when out of memory, and no other error.
    pub fn send_to(
        &mut self,
        alloc: Global,
        to: PeerSet,
        message: Option<Message>,
    ) -> Result<(), PeerError>
        ensures sends { OnOk result (self.new.sends.items ≡ self.old.sends.items ++ posted_to to message) }
        ensures rest { (self.new.answers ≡ self.old.answers) × (self.new.notes ≡ self.old.notes) × (self.new.changes ≡ self.old.changes) }
        ensures grows { Grows self.old self.new }
        ensures fits { FitsIn self.old to message → IsOk result }
        ensures memory { IfErr result (λ e. e ≡ PeerError.Memory) }
    {
        match message {
            None => Ok(()),
            Some(message) => match only_member(&to) {
                Some(peer) => self.send(peer, message),
                None => self.send_copies(alloc, &to, &message),
            },
        }
    }

    /// Appends the messages in `more`. Appends none when out of memory.
    ///
    /// # Errors
    ///
    /// `Memory` when out of memory, and no other error.
    pub fn send_all(&mut self, more: Vec<Outgoing>) -> Result<(), PeerError>
        ensures sends { OnOk result (self.new.sends.items ≡ self.old.sends.items ++ more.items) }
        ensures kept { OnErr result (self.new.sends.items ≡ self.old.sends.items) }
        ensures rest { (self.new.answers ≡ self.old.answers) × (self.new.notes ≡ self.old.notes) × (self.new.changes ≡ self.old.changes) }
        ensures grows { Grows self.old self.new }
        ensures memory { IfErr result (λ e. e ≡ PeerError.Memory) }
    {
        let mut more = more;
        self.sends.append(&mut more)?;
        Ok(())
    }

    /// Answers the call `id` of the client `from`. Answers nothing when out of memory.
    ///
    /// # Errors
    ///
    /// `Memory` when out of memory, and no other error.
    pub fn answer(&mut self, from: u32, id: u64, reply: Reply) -> Result<(), PeerError>
        ensures answers { OnOk result (self.new.answers.items ≡ self.old.answers.items ++ record { caller = from; id = id; reply = reply } ∷ []) }
        ensures kept { OnErr result (self.new.answers.items ≡ self.old.answers.items) }
        ensures rest { (self.new.sends ≡ self.old.sends) × (self.new.notes ≡ self.old.notes) × (self.new.changes ≡ self.old.changes) }
        ensures grows { Grows self.old self.new }
        ensures memory { IfErr result (λ e. e ≡ PeerError.Memory) }
    {
        if self
            .answers
            .push(AnswerOut {
                caller: from,
                id,
                reply,
            })
            .is_err()
        {
            return Err(PeerError::Memory);
        }
        Ok(())
    }

    /// Appends the answers in `more`. Appends none when out of memory.
    ///
    /// # Errors
    ///
    /// `Memory` when out of memory, and no other error.
    pub fn answer_all(&mut self, more: Vec<AnswerOut>) -> Result<(), PeerError>
        ensures answers { OnOk result (self.new.answers.items ≡ self.old.answers.items ++ more.items) }
        ensures kept { OnErr result (self.new.answers.items ≡ self.old.answers.items) }
        ensures rest { (self.new.sends ≡ self.old.sends) × (self.new.notes ≡ self.old.notes) × (self.new.changes ≡ self.old.changes) }
        ensures grows { Grows self.old self.new }
        ensures fits { more.items ≡ [] → IsOk result }
        ensures memory { IfErr result (λ e. e ≡ PeerError.Memory) }
    {
        let mut more = more;
        self.answers.append(&mut more)?;
        Ok(())
    }

    /// Replies to a request to change the view: `true` if the request is taken. Replies nothing when
    /// out of memory.
    ///
    /// # Errors
    ///
    /// `Memory` when out of memory, and no other error.
    pub fn tell_change(&mut self, taken: bool) -> Result<(), PeerError>
        ensures changes { OnOk result (self.new.changes.items ≡ self.old.changes.items ++ taken ∷ []) }
        ensures kept { OnErr result (self.new.changes.items ≡ self.old.changes.items) }
        ensures rest { (self.new.sends ≡ self.old.sends) × (self.new.answers ≡ self.old.answers) × (self.new.notes ≡ self.old.notes) }
        ensures grows { Grows self.old self.new }
        ensures memory { IfErr result (λ e. e ≡ PeerError.Memory) }
    {
        if self.changes.push(taken).is_err() {
            return Err(PeerError::Memory);
        }
        Ok(())
    }

    /// Appends the notes in `more`. Appends none when out of memory.
    ///
    /// # Errors
    ///
    /// `Memory` when out of memory, and no other error.
    pub fn note_all(&mut self, more: Vec<Note>) -> Result<(), PeerError>
        ensures notes { OnOk result (self.new.notes.items ≡ self.old.notes.items ++ more.items) }
        ensures kept { OnErr result (self.new.notes.items ≡ self.old.notes.items) }
        ensures rest { (self.new.sends ≡ self.old.sends) × (self.new.answers ≡ self.old.answers) × (self.new.changes ≡ self.old.changes) }
        ensures memory { IfErr result (λ e. e ≡ PeerError.Memory) }
    {
        let mut more = more;
        self.notes.append(&mut more)?;
        Ok(())
    }
}
