ghost use Rattle.std.specs.Prelude.{◌≡◌, ◌++◌, IfOk, OnOk, Some};
ghost use Rattle.tree_node.specs.Positions.{IsPosition};
ghost use Rattle.tree_exchange.specs.Asks.{taken};
ghost use Rattle.tree_sync.specs.Asks.{anew as anew_at, after_step, answered, resumed, question_of, is_open, is_finished, needs_node};

use crate::error::SyncError;
use ens_base::{Bytes, Epoch, PeerId, copy_key};
use leader_output::{Message, Outgoing};
use std::alloc::Global;
use tree_exchange::{Ask, Question, Step};
use tree_node::{Scan, TreeBody, TreeVersion};

/// How far the ask of a source has come.
#[derive(Clone, Copy, Debug, PartialEq, Eq)]
pub enum Stage {
    /// A question is open.
    Open,
    /// Nothing is left to ask.
    Finished,
    /// The source reported damage. It is asked anew when the sync resumes.
    Dropped,
}

/// The ask of one source.
#[derive(Debug, Drop)]
pub struct Asking {
    /// The number of the source.
    pub peer: PeerId,
    /// What was asked, and what was received.
    pub ask: Ask,
    /// Whether each answer to this ask said that the source trusts its tree.
    pub trusted: bool,
    /// How far the ask has come.
    pub stage: Stage,
}

/// What a source sends of its tree.
#[derive(Debug, Drop)]
pub struct Give {
    /// The ballot at which it was asked.
    pub ballot: Epoch,
    /// The question that it answers.
    pub question: Question,
    /// Whether the source trusts its tree.
    pub trusted: bool,
    /// What it sends.
    pub body: TreeBody,
}

impl Asking {
    /// Makes a new ask of the peer, at this stage.
    pub fn anew(alloc: Global, stage: Stage, peer: PeerId) -> Asking
        ensures { result ≡ anew_at stage peer }
    {
        Asking {
            peer,
            ask: Ask::start(alloc),
            trusted: true,
            stage,
        }
    }

    /// Whether a question is open.
    pub fn is_open(&self) -> bool
        ensures { result ≡ is_open self.now.stage }
    {
        match self.stage {
            Stage::Open => true,
            Stage::Finished => false,
            Stage::Dropped => false,
        }
    }

    /// Whether nothing is left to ask.
    pub fn is_finished(&self) -> bool
        ensures { result ≡ is_finished self.now.stage }
    {
        match self.stage {
            Stage::Open => false,
            Stage::Finished => true,
            Stage::Dropped => false,
        }
    }

    /// Goes on as the sync resumes.
    pub fn resume(&mut self)
        ensures { self.new ≡ resumed self.old }
    {
        if !self.is_finished() {
            self.stage = Stage::Open;
        }
    }

    /// Whether the own node at the position, in the own tree of this version, is needed to take the
    /// answer.
    pub fn needs_own(&self, tree: TreeVersion, give: &Give) -> bool
        ensures { result ≡ needs_node tree give.now (Some self.now) }
    {
        self.is_open() && self.ask.needs_own(&give.question, &give.body, tree)
    }

    /// Appends the message that asks the open question, if nothing is finished. Fails only when out
    /// of memory.
    pub fn push_question(
        &self,
        alloc: Global,
        ballot: Epoch,
        sends: &mut Vec<Outgoing>,
    ) -> Result<(), SyncError>
        ensures { OnOk result (sends.new.items ≡ sends.old.items ++ question_of ballot self.now) }
    {
        if self.is_finished() {
            return Ok(());
        }
        match self.ask.question() {
            None => Ok(()),
            Some(question) => {
                let after = copy_key(alloc, &question.after)?;
                let message = Message::TreeAsk(ballot, question.position, after);
                sends.push(Outgoing {
                    to: self.peer,
                    message,
                })?;
                Ok(())
            }
        }
    }

    /// Takes the source's answer, given the version of the own tree and the bytes of its node at the
    /// position. Fails only when out of memory.
    pub fn take(
        &mut self,
        alloc: Global,
        tree: TreeVersion,
        scan: &Scan,
        own: &Option<Bytes>,
        give: &Give,
    ) -> Result<Step, SyncError>
        requires { IsPosition tree give.now.question.position }
        ensures step { IfOk result (λ step. step ≡ (answered tree scan.now own.now give.now self.old).0) }
        ensures ask { OnOk result (self.new ≡ (answered tree scan.now own.now give.now self.old).1) }
    {
        if !self.is_open() {
            return Ok(Step::Ignored);
        }
        let step = take_body(alloc, tree, &mut self.ask, scan, own, give)?;
        self.conclude(alloc, step, give.trusted);
        Ok(step)
    }

    /// Keeps what follows a step of the ask.
    fn conclude(&mut self, alloc: Global, step: Step, flag: bool)
        ensures { self.new ≡ after_step step flag self.old }
    {
        match step {
            Step::Next => self.trusted = self.trusted && flag,
            Step::Done => {
                self.trusted = self.trusted && flag;
                self.stage = Stage::Finished;
            }
            Step::Dropped => *self = Asking::anew(alloc, Stage::Dropped, self.peer),
            Step::Ignored => {}
        }
    }
}

/// Lets the ask take the body.
fn take_body(
    alloc: Global,
    tree: TreeVersion,
    ask: &mut Ask,
    scan: &Scan,
    own: &Option<Bytes>,
    give: &Give,
) -> Result<Step, SyncError>
    requires { IsPosition tree give.now.question.position }
    ensures step { IfOk result (λ step. step ≡ (taken tree scan.now own.now give.now.question give.now.body ask.old).0) }
    ensures ask { OnOk result (ask.new ≡ (taken tree scan.now own.now give.now.question give.now.body ask.old).1) }
{
    match ask.take_read(alloc, tree, own, scan, &give.question, &give.body) {
        Ok(step) => Ok(step),
        Err(_) => Err(SyncError::Memory),
    }
}
