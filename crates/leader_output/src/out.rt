ghost use Rattle.std.specs.Prelude.{◌≡◌, OnOk, IfOk};
ghost use Rattle.leader_output.specs.Outs.{
  comes,
  rests as rests_row,
  leaves as leaves_row,
  leads_on as leads_on_row,
  and_key,
  and_then,
  and_answer,
  and_note,
  and_send,
  and_own,
  asked_by as asked_by_rule,
};
ghost use Rattle.leader_output.specs.Sends.{is_other_in, sent_up_to, tells_all as tells_all_row};

use crate::error::LeadError;
use object_commands::{Key, Note, Object, PeerId, PeerSet, Reply, Seq, Views};
use phase_rows::{KeyRule, Message, Then};
use quorums::members;
use std::alloc::Global;

/// A message and its receiver.
#[derive(Debug, Drop)]
pub struct Outgoing {
    pub to: PeerId,
    pub message: Message,
}

/// The answer to a call: who called, the number of the call, and the reply.
#[derive(Debug, Drop)]
pub struct AnswerOut {
    pub caller: u32,
    pub id: u64,
    pub reply: Reply,
}

/// What a rule asks of the peer's own tree and backend. The rule runs again with what they
/// returned.
#[derive(Debug, Drop)]
pub enum Own {
    /// Rule 28: fetch the object of the key from the backend, whatever the tree has.
    Fetch(Key),
    /// Rule 29: look up the entry of the key in the tree, and its object in the backend.
    Look(Key),
    /// Rule 35: write the object, after its entry.
    Put(Object),
}

impl Own {
    /// Returns the rule that asks this, and runs again with what the stores returned.
    pub fn asked_by(&self) -> KeyRule
        ensures { result ≡ asked_by_rule self.now }
    {
        match self {
            Own::Fetch(_key) => KeyRule::StartCall,
            Own::Look(_key) => KeyRule::Read,
            Own::Put(_object) => KeyRule::Put,
        }
    }
}

/// The answer of a rule of a leader. A leader that steps down answers its calls first. Then the
/// messages are sent, the calls are answered and the notes are made. Then `own` is asked, or the
/// rule that `then` names runs on each of the keys, in order. After a call that failed, its contents
/// are unspecified.
#[derive(Debug, Drop)]
pub struct LeadOut {
    pub leave: bool,
    pub sends: Seq<Outgoing>,
    pub answers: Seq<AnswerOut>,
    pub notes: Seq<Note>,
    pub own: Option<Own>,
    pub then: Then,
    pub keys: Seq<Key>,
}

impl LeadOut {
    /// Makes an answer that only says what follows.
    pub fn comes(alloc: Global, then: Then) -> LeadOut
        ensures { result ≡ comes then }
    {
        LeadOut {
            leave: false,
            sends: Seq::new(Vec::new(alloc)),
            answers: Seq::new(Vec::new(alloc)),
            notes: Seq::new(Vec::new(alloc)),
            own: None,
            then,
            keys: Seq::new(Vec::new(alloc)),
        }
    }

    /// Makes an answer by which nothing happens.
    pub fn rests(alloc: Global) -> LeadOut
        ensures { result ≡ rests_row }
    {
        LeadOut::comes(alloc, Then::Stay)
    }

    /// Makes an answer by which the leader steps down.
    pub fn leaves(alloc: Global) -> LeadOut
        ensures { result ≡ leaves_row }
    {
        let mut out = LeadOut::comes(alloc, Then::Stay);
        out.leave = true;
        out
    }

    /// Makes an answer by which this rule runs next on this key. Fails only when out of memory.
    pub fn leads_on(alloc: Global, rule: KeyRule, key: &Key) -> Result<LeadOut, LeadError>
        ensures { IfOk result (λ o. o ≡ leads_on_row rule key.now) }
    {
        let mut out = LeadOut::comes(alloc, Then::OnKeys(rule));
        out.key(key.copy(alloc)?)?;
        Ok(out)
    }

    /// Adds a key on which the next rule runs, after the others. Fails only when out of memory.
    pub fn key(&mut self, key: Key) -> Result<(), LeadError>
        ensures { OnOk result (self.new ≡ and_key key self.old) }
    {
        self.keys.push(key)?;
        Ok(())
    }

    /// Makes this rule run next, and adds a key on which it runs. Fails only when out of memory.
    pub fn then(&mut self, rule: KeyRule, key: Key) -> Result<(), LeadError>
        ensures { OnOk result (self.new ≡ and_then rule key self.old) }
    {
        self.keys.push(key)?;
        self.then = Then::OnKeys(rule);
        Ok(())
    }

    /// Adds an answer to a call. Fails only when out of memory.
    pub fn answer(&mut self, from: u32, id: u64, reply: Reply) -> Result<(), LeadError>
        ensures { OnOk result (self.new ≡ and_answer from id reply self.old) }
    {
        self.answers.push(AnswerOut {
            caller: from,
            id,
            reply,
        })?;
        Ok(())
    }

    /// Adds a note. Fails only when out of memory.
    pub fn note(&mut self, note: Note) -> Result<(), LeadError>
        ensures { OnOk result (self.new ≡ and_note note self.old) }
    {
        self.notes.push(note)?;
        Ok(())
    }

    /// Adds a message to the peer `to`. Fails only when out of memory.
    pub fn send(&mut self, to: PeerId, message: Message) -> Result<(), LeadError>
        ensures { OnOk result (self.new ≡ and_send to message self.old) }
    {
        self.sends.push(Outgoing { to, message })?;
        Ok(())
    }

    /// Sets what is asked of the peer's own tree and backend.
    pub fn ask(&mut self, own: Own)
        ensures { self.new ≡ and_own own self.old }
    {
        self.own = Some(own);
    }

    /// Adds the message to each member of the views except `me`, in ascending order. Fails only
    /// when out of memory.
    #[tactic(auto, unfolding(crate::specs::Sends::sent_up_to))]
    pub fn tell_all(
        &mut self,
        alloc: Global,
        me: PeerId,
        views: &Views,
        message: &Message,
    ) -> Result<(), LeadError>
        ensures { OnOk result (self.new ≡ tells_all_row me views.now message.now self.old) }
    {
        let members = members(views);
        for below in 0..31 {
            let peer = PeerId(below + 1);
            if is_other_of(me, &members, peer) {
                self.send(peer, message.copy(alloc)?)?;
            }
        }
        Ok(())
    }
}

/// Whether `peer` is in the set and is not `me`.
pub fn is_other_of(me: PeerId, members: &PeerSet, peer: PeerId) -> bool
    ensures { result ≡ is_other_in me members.now peer }
{
    members.has(peer) && peer != me
}
