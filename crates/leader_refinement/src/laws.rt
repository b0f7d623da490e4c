ghost use Rattle.std.specs.Prelude.{ℕ, List};
ghost use Rattle.protocol_laws.specs.Protocol.{Step, IsRun, state_after};
ghost use Rattle.leader_refinement.specs.Laws.{
  LeadersBegin,
  LeadersLeave,
  LeadersAreSeen,
  KeysChange,
  TicksPass,
  CallsJoin,
  CallsStart,
  ReadsStart,
  ReadsCount,
  RepliesAreRead,
  WritesGoOut,
  RewritesGoOut,
  ChecksBegin,
  ChecksCount,
  TasksApply,
  PutsGoIn,
  PutsAreStored,
  PutsCount,
  NextIsSought,
  StepsKeep,
  AcksAreShown,
  FitsStay,
};

/// In each state of a run a leader that begins is a leader of the theory, and each of these rules is a
/// list of moves of the theory, or the leader steps down. The clauses are in the order of the rules 5
/// and 27 to 36; a clause `counts` is of the replies to what the rule has asked, and `goes_in` of the
/// version that rule 35 puts into the tree of the leader's own peer.
pub fn rules_are_moves()
    ensures begins { (view : List ℕ) (steps : List Step) → IsRun view steps → LeadersBegin (state_after view steps) }
    ensures ticks { (view : List ℕ) (steps : List Step) → IsRun view steps → TicksPass (state_after view steps) }
    ensures joins { (view : List ℕ) (steps : List Step) → IsRun view steps → CallsJoin (state_after view steps) }
    ensures starts { (view : List ℕ) (steps : List Step) → IsRun view steps → CallsStart (state_after view steps) }
    ensures reads { (view : List ℕ) (steps : List Step) → IsRun view steps → ReadsStart (state_after view steps) }
    ensures reads_count { (view : List ℕ) (steps : List Step) → IsRun view steps → ReadsCount (state_after view steps) }
    ensures evaluates { (view : List ℕ) (steps : List Step) → IsRun view steps → RepliesAreRead (state_after view steps) }
    ensures writes { (view : List ℕ) (steps : List Step) → IsRun view steps → WritesGoOut (state_after view steps) }
    ensures rewrites { (view : List ℕ) (steps : List Step) → IsRun view steps → RewritesGoOut (state_after view steps) }
    ensures checks { (view : List ℕ) (steps : List Step) → IsRun view steps → ChecksBegin (state_after view steps) }
    ensures checks_count { (view : List ℕ) (steps : List Step) → IsRun view steps → ChecksCount (state_after view steps) }
    ensures applies { (view : List ℕ) (steps : List Step) → IsRun view steps → TasksApply (state_after view steps) }
    ensures goes_in { (view : List ℕ) (steps : List Step) → IsRun view steps → PutsGoIn (state_after view steps) }
    ensures puts { (view : List ℕ) (steps : List Step) → IsRun view steps → PutsAreStored (state_after view steps) }
    ensures puts_count { (view : List ℕ) (steps : List Step) → IsRun view steps → PutsCount (state_after view steps) }
    ensures next { (view : List ℕ) (steps : List Step) → IsRun view steps → NextIsSought (state_after view steps) }
{}

/// A leader is seen the same whatever the ages of its calls are and, if it has no task, whatever the
/// key is. So in each state of a run a leader without a task that is at work on one key is at work on
/// each.
pub fn leaders_are_seen()
    ensures alike { LeadersAreSeen }
    ensures keys { (view : List ℕ) (steps : List Step) → IsRun view steps → KeysChange (state_after view steps) }
{}

/// In each state of a run a leader that leaves owes each of its unanswered calls a timeout, in order
/// of arrival.
pub fn leaders_leave()
    ensures { (view : List ℕ) (steps : List Step) → IsRun view steps → LeadersLeave (state_after view steps) }
{}

/// The steps that a leader takes propose, settle and acknowledge versions, and note reads. So they
/// keep the ledger, the trees of the peers and their trust, and what is recorded of calls, answers
/// and times. The leader's own peer alone acknowledges, and only what its tree showed when the rule
/// began. And what fits of a leader stays so through each step that keeps the views of its epoch.
pub fn leader_steps_keep()
    ensures steps { StepsKeep }
    ensures acks { AcksAreShown }
    ensures fits { FitsStay }
{}
