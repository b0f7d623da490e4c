ghost use Rattle.std.specs.Prelude.{◌≡◌, ◌++◌, ◌∷◌, [], IsOk, OnOk, OnErr, IfOk, IfErr, map, option_to_list, IfNone};
ghost use Rattle.step_plans.specs.Tasks.{named, keyed};
ghost use Rattle.step_plans.specs.declared.tasks.Task.TheVariants.{Key as OnKey, Again};

use crate::error::PeerError;
use ens_base::Key;
use phase_rows::{KeyRule, PhaseRule, Seen, Then};
use std::alloc::{AllocError, Global};
use std::marker::Model;

/// A rule that a step still has to run.
#[derive(Debug, Drop)]
pub enum Task {
    /// The rule, on the state.
    Phase(PhaseRule),
    /// Rule 5 (d) and (e), once the calls of a tick have gone on: a leader reminds the other members
    /// of its epoch, and a change that is wanted begins.
    Remind,
    /// The rule, on a key of a leader.
    Key(KeyRule, Key),
    /// The rule once more, on a key, with what the stores returned.
    Again(KeyRule, Key, Seen),
}

/// The rules that a step still has to run. Contracts see a list with the next task first.
#[derive(Drop)]
pub struct Tasks {
    /// The tasks in reverse: the next one is last.
    stack: Vec<Task>,
}

impl Model for Tasks {
    ghost use Rattle.std.specs.Prelude.{List, reverse};
    ghost use Rattle.step_plans.specs.declared.tasks.Task.{Task};

    ghost Value = { List Task };

    ghost view = { λ t. reverse t.stack.items };
}

impl Tasks {
    /// Makes an empty list of tasks. Needs no heap memory.
    pub fn none(alloc: Global) -> Tasks
        ensures { result ≡ [] }
    {
        Tasks {
            stack: Vec::new(alloc),
        }
    }

    /// Puts `task` in front of all others. Leaves the tasks as they were when out of memory.
    ///
    /// # Errors
    ///
    /// `Memory` when out of memory, and no other error.
    pub fn put_first(&mut self, task: Task) -> Result<(), PeerError>
        ensures ok { OnOk result (self.new ≡ task ∷ self.old) }
        ensures kept { OnErr result (self.new ≡ self.old) }
        ensures memory { IfErr result (λ e. e ≡ PeerError.Memory) }
    {
        if self.stack.push(task).is_err() {
            return Err(PeerError::Memory);
        }
        Ok(())
    }

    /// Puts the tasks of `more` in front of all others, in their order. Leaves the tasks as they were
    /// when out of memory.
    ///
    /// # Errors
    ///
    /// `AllocError` when out of memory.
    pub fn put_all(&mut self, more: Tasks) -> Result<(), AllocError>
        ensures ok { OnOk result (self.new ≡ more ++ self.old) }
        ensures kept { OnErr result (self.new ≡ self.old) }
    {
        let mut more = more;
        self.stack.append(&mut more.stack)?;
        Ok(())
    }

    /// Removes and returns the first task, or returns `None` if there is none.
    pub fn take(&mut self) -> Option<Task>
        ensures items { self.old ≡ option_to_list result ++ self.new }
        ensures none { IfNone result (self.old ≡ []) }
    {
        self.stack.pop()
    }

    /// Returns the task of the rule that the row of a phase names, if it names one.
    ///
    /// # Errors
    ///
    /// `Memory` when out of memory, and no other error.
    pub fn named(alloc: Global, then: Then) -> Result<Tasks, PeerError>
        ensures ok { IfOk result (λ t. t ≡ named then) }
        ensures none { named then ≡ [] → IsOk result }
        ensures memory { IfErr result (λ e. e ≡ PeerError.Memory) }
    {
        let mut tasks = Tasks::none(alloc);
        match then {
            Then::Rule(rule) => tasks.put_first(Task::Phase(rule))?,
            _ => {}
        }
        Ok(tasks)
    }

    /// Returns the tasks of the rule that the row of a leader names, one for each key, if it names
    /// one.
    ///
    /// # Errors
    ///
    /// `Memory` when out of memory, and no other error.
    pub fn keyed(alloc: Global, then: Then, keys: Vec<Key>) -> Result<Tasks, PeerError>
        ensures ok { IfOk result (λ t. t ≡ keyed then keys.items) }
        ensures memory { IfErr result (λ e. e ≡ PeerError.Memory) }
    {
        match then {
            Then::OnKeys(rule) => Tasks::on_keys(alloc, rule, keys),
            _ => Ok(Tasks::none(alloc)),
        }
    }

    /// Returns the tasks of the rule for each of the keys, in order.
    fn on_keys(alloc: Global, rule: KeyRule, keys: Vec<Key>) -> Result<Tasks, PeerError>
        ensures ok { IfOk result (λ t. t ≡ map (OnKey rule) keys.items) }
        ensures memory { IfErr result (λ e. e ≡ PeerError.Memory) }
    {
        let mut keys = keys;
        let mut tasks = Tasks::none(alloc);
        for done in 0..keys.len() {
            if let Some(key) = keys.pop() {
                tasks.put_first(Task::Key(rule, key))?;
            }
        }
        Ok(tasks)
    }

    /// Returns the task that runs the rule on the key once more, with what the stores returned.
    ///
    /// # Errors
    ///
    /// `Memory` when out of memory, and no other error.
    pub fn again(alloc: Global, rule: KeyRule, key: &Key, seen: Seen) -> Result<Tasks, PeerError>
        ensures ok { IfOk result (λ t. t ≡ Again rule key.now seen ∷ []) }
        ensures memory { IfErr result (λ e. e ≡ PeerError.Memory) }
    {
        let mut tasks = Tasks::none(alloc);
        tasks.put_first(Task::Again(rule, key.copy(alloc)?, seen))?;
        Ok(tasks)
    }
}
