ghost use Rattle.std.specs.Prelude.{◌≡◌, [], ◌∷◌, IfOk, OnOk, MatchOption};
ghost use Rattle.register_checker.specs.declared.guess.Guess.TheVariants.{Absent};
ghost use Rattle.register_checker.specs.Walks.{PassesSilent, PassesAnswered};

use crate::error::RunError;
use crate::guess::{Guess, Possible};
use crate::stamps::Stamps;
use crate::steps::{all_answered, all_silent, learn};
use ens_base::{Command, Reply, Seq};
use std::alloc::Global;

/// A walk along an order of calls: what the register may hold after the calls passed so far.
#[derive(Drop)]
pub struct Walk {
    /// The stamps that printed replies have shown.
    pub known: Stamps,
    /// The possible registers.
    pub possible: Vec<Possible>,
}

impl Walk {
    /// Begins before the first call, where the register is absent.
    pub fn new(alloc: Global) -> Result<Walk, RunError>
        ensures { IfOk result (λ w. (w.known ≡ []) × (w.possible.items ≡ record { held = Absent; named = [] } ∷ [])) }
    {
        let first = Possible {
            held: Guess::Absent,
            named: Seq::new(Vec::new(alloc)),
        };
        let mut possible = Vec::new(alloc);
        possible.push(first)?;
        Ok(Walk {
            known: Stamps::new(alloc),
            possible,
        })
    }

    /// Passes a call without a printed reply.
    fn pass_silent(&mut self, alloc: Global, command: &Command) -> Result<(), RunError>
        ensures { OnOk result (PassesSilent self.old command.now self.new) }
    {
        self.possible = all_silent(alloc, &self.known, command, &self.possible)?;
        Ok(())
    }

    /// Passes a call with this printed reply.
    fn pass_answered(
        &mut self,
        alloc: Global,
        command: &Command,
        reply: &Reply,
    ) -> Result<(), RunError>
        ensures { OnOk result (PassesAnswered self.old command.now reply.now self.new) }
    {
        self.possible = all_answered(alloc, &self.known, command, reply, &self.possible)?;
        learn(&mut self.known, command, reply)
    }

    /// Passes the next call of the order, with its printed reply if it has one.
    pub fn pass(
        &mut self,
        alloc: Global,
        command: &Command,
        reply: Option<&Reply>,
    ) -> Result<(), RunError>
        ensures { OnOk result (MatchOption reply.entry (PassesSilent self.old command.now self.new) (λ r. PassesAnswered self.old command.now r.now self.new)) }
    {
        match reply {
            None => self.pass_silent(alloc, command),
            Some(reply) => self.pass_answered(alloc, command, reply),
        }
    }
}
