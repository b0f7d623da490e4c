ghost use Rattle.std.specs.Prelude.{◌≡◌, ◌≤◌, ◌<◌, ℕ, true, false, Option, Some, List};
ghost use Rattle.ens_base.specs.declared.command.Command.{Command as Words};
ghost use Rattle.ens_base.specs.declared.epoch.Version.{Version};
ghost use Rattle.ens_base.specs.declared.reply.Reply.TheVariants as replies;
ghost use Rattle.stored_formats.specs.declared.object.Object.{Object};
ghost use Rattle.object_commands.specs.Commands.{register_of};
ghost use Rattle.register_model.specs.Registers.{outcome};
ghost use Rattle.register_model.specs.declared.register.Register.TheVariants as registers;
ghost use Rattle.phase_rows.specs.declared.phase.Seen.{Seen};
ghost use Rattle.phase_rows.specs.declared.phase.Seen.TheVariants as seens;
ghost use Rattle.phase_rows.specs.declared.rules.KeyRule.TheVariants as key_rules;
ghost use Rattle.call_table.specs.Calls.{running, waiting_on};
ghost use Rattle.call_table.specs.Rows.{row_at};
ghost use Rattle.call_table.specs.declared.row.Known.TheVariants as knowns;
ghost use Rattle.call_table.specs.declared.waiting.Waiting.{Waiting};
ghost use Rattle.leader_output.specs.Outs.{rests, leads_on, and_own, and_answer};
ghost use Rattle.leader_output.specs.declared.out.Own.TheVariants.{Fetch};
ghost use Rattle.step_laws.specs.Answers.{NeedsValue, IsAbsent, IsSettledObject, decides, Waits};
ghost use Rattle.leader.specs.Starts.{row_27, row_28};
ghost use Rattle.leader.specs.declared.leader.Leader.{Leader};

/// A call that arrives is answered `unavailable` exactly if the leader finishes a change, and `busy`
/// exactly if its key has 16 unanswered calls. Any other call waits, after all others, and starts
/// exactly if its key has no other call.
pub fn calls_are_refused_or_wait()
    ensures unavailable { (from id : ℕ) (key : List ℕ) (command : Words) (l : Leader) → row_27 from id key command true l ≡ (l, and_answer from id replies.Unavailable rests) }
    ensures busy { (from id : ℕ) (key : List ℕ) (command : Words) (l : Leader) → 16 ≤ waiting_on key l.table.calls → row_27 from id key command false l ≡ (l, and_answer from id replies.Busy rests) }
    ensures waits { (from id : ℕ) (key : List ℕ) (command : Words) (l : Leader) → waiting_on key l.table.calls < 16 → Waits from id key command l (row_27 from id key command false l) }
{}

/// How a call starts (rule 28), by what is settled of its key. An unknown key is read. Where the key
/// holds nothing, the command is applied to that. Where it holds a value, a command that does not
/// depend on the value is applied to its stamp. Any other command is applied to the value that the
/// peer's own backend keeps, if that is the settled one, and else the key is read again.
pub fn calls_start_by_what_is_settled()
    ensures unknown { (key : List ℕ) (seen : Seen) (w : Waiting) (l : Leader) → running key l.table.calls ≡ Some w
        → (row_at key l.table.rows).known ≡ knowns.Unknown → row_28 key seen l ≡ (l, leads_on key_rules.Read key) }
    ensures absent { (key : List ℕ) (seen : Seen) (w : Waiting) (l : Leader) → running key l.table.calls ≡ Some w
        → IsAbsent (row_at key l.table.rows).known
        → row_28 key seen l ≡ decides (outcome w.command registers.Absent) key l }
    ensures stamp { (key : List ℕ) (seen : Seen) (w : Waiting) (version stamp : Version) (digest bytes : List ℕ)
        (l : Leader) → running key l.table.calls ≡ Some w
        → (row_at key l.table.rows).known ≡ knowns.Present version stamp digest false
        → ¬ NeedsValue w.command → row_28 key seen l ≡ decides (outcome w.command (registers.Present stamp bytes)) key l }
    ensures fetches { (key : List ℕ) (w : Waiting) (version stamp : Version) (digest : List ℕ) (l : Leader)
        → running key l.table.calls ≡ Some w
        → (row_at key l.table.rows).known ≡ knowns.Present version stamp digest false
        → NeedsValue w.command → row_28 key seens.Nothing l ≡ (l, and_own (Fetch key) rests) }
    ensures value { (key : List ℕ) (kept : Option (Object × List ℕ)) (o : Object) (w : Waiting)
        (version stamp : Version) (digest : List ℕ) (l : Leader) → running key l.table.calls ≡ Some w
        → (row_at key l.table.rows).known ≡ knowns.Present version stamp digest false
        → NeedsValue w.command → IsSettledObject key version digest kept o → row_28 key (seens.Kept kept) l ≡ decides (outcome w.command (register_of o)) key l }
    ensures other_value { (key : List ℕ) (kept : Option (Object × List ℕ)) (w : Waiting) (version stamp : Version)
        (digest : List ℕ) (l : Leader) → running key l.table.calls ≡ Some w
        → (row_at key l.table.rows).known ≡ knowns.Present version stamp digest false
        → NeedsValue w.command → ((o : Object) → ¬ IsSettledObject key version digest kept o) → row_28 key (seens.Kept kept) l ≡ (l, leads_on key_rules.Read key) }
{}
