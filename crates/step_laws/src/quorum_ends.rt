ghost use Rattle.std.specs.Prelude.{◌≡◌, ◌≢◌, ℕ, true, false, Bool, Option, Some, None, List, [], ◌∷◌};
ghost use Rattle.ens_base.specs.View.{IsPeer};
ghost use Rattle.ens_base.specs.declared.entry.Entry.{Entry};
ghost use Rattle.ens_base.specs.declared.epoch.Epoch.{Epoch};
ghost use Rattle.ens_base.specs.declared.epoch.Version.{Version};
ghost use Rattle.ens_base.specs.declared.reply.Reply.{Reply as Answer};
ghost use Rattle.ens_base.specs.declared.reply.Reply.TheVariants as answers;
ghost use Rattle.stored_formats.specs.declared.object.Object.{Object};
ghost use Rattle.quorums.specs.Quorums.{is_quorum, HasEvery};
ghost use Rattle.quorums.specs.declared.round.Round.{Round};
ghost use Rattle.register_model.specs.Registers.{outcome, Keeps, Writes};
ghost use Rattle.register_model.specs.declared.note.Note.TheVariants.{Settled, Read};
ghost use Rattle.phase_rows.specs.declared.phase.Seen.TheVariants as seens;
ghost use Rattle.phase_rows.specs.declared.rules.KeyRule.TheVariants as key_rules;
ghost use Rattle.call_table.specs.Calls.{running};
ghost use Rattle.call_table.specs.Rows.{row_at};
ghost use Rattle.call_table.specs.declared.row.Known.TheVariants as knowns;
ghost use Rattle.call_table.specs.declared.row.Stage.TheVariants as stages;
ghost use Rattle.call_table.specs.declared.waiting.Waiting.{Waiting};
ghost use Rattle.leader_output.specs.Outs.{leads_on};
ghost use Rattle.step_laws.specs.Answers.{
  IsAnswered,
  MakesQuorum,
  IsQuorumAlone,
  Evaluates,
  IsSettled,
  IsToApply,
  GetReply,
  has_replied,
  IsReading,
  HaveNoEntry,
  HaveGreatest,
  HaveObject,
  Overwrites,
  NeedsObject,
};
ghost use Rattle.leader.specs.Leaders.{idle, with_task, knows, settled_as, base, is_spent};
ghost use Rattle.leader.specs.Puts.{row_35, row_35_reply};
ghost use Rattle.leader.specs.Rounds.{row_29, row_29_reply, row_30, row_33, row_33_reply, register_at, row_34};
ghost use Rattle.step_laws.specs.Whole.{IsWhole};
ghost use Rattle.leader.specs.declared.leader.Leader.{Leader};
ghost use Rattle.leader.specs.declared.pending.Pending.TheVariants as tasks;

/// A round of checking that reaches a quorum answers its call with the reply that waited: at the
/// reply that makes the quorum, or at once if the leader alone is one.
pub fn a_quorum_ends_a_check()
    ensures reply { (from round : ℕ) (votes : Round) (reply : Answer) (key : List ℕ) (w : Waiting) (l : Leader)
        → IsWhole l → running key l.table.calls ≡ Some w
        → (row_at key l.table.rows).stage ≡ stages.Checking round votes reply
        → MakesQuorum from votes l → IsAnswered w reply (Read w.id key (base key l) ∷ []) key l (row_33_reply from l.fact.epoch round l) }
    ensures alone { (reply : Answer) (key : List ℕ) (w : Waiting) (l : Leader) → running key l.table.calls ≡ Some w → l.task ≡ tasks.Check reply → is_spent l.round ≡ false
        → IsQuorumAlone l → IsAnswered w reply (Read w.id key (base key l) ∷ []) key l (row_33 key l) }
{}

/// A put that reaches a quorum settles its key: at the reply that makes the quorum, or at once if the
/// leader alone is one. A write is then answered `ok` with its stamp. After a rewrite the command of
/// the call is applied to the object.
pub fn a_quorum_settles_a_put()
    ensures settled { (from : ℕ) (o : Object) (digest : List ℕ) (acks : Round) (rewrite : Bool) (key : List ℕ)
        (l : Leader) → IsWhole l → (row_at key l.table.rows).stage ≡ stages.Putting o digest acks rewrite
        → MakesQuorum from acks l → IsSettled o digest key (row_35_reply from l.fact.epoch key o.version l) }
    ensures written { (from : ℕ) (o : Object) (digest : List ℕ) (acks : Round) (key : List ℕ) (w : Waiting)
        (l : Leader) → IsWhole l → running key l.table.calls ≡ Some w
        → (row_at key l.table.rows).stage ≡ stages.Putting o digest acks false
        → MakesQuorum from acks l → IsAnswered w (answers.Ok o.stamp) (Settled key o.version ∷ []) key l (row_35_reply from l.fact.epoch key o.version l) }
    ensures rewritten { (from : ℕ) (o : Object) (digest : List ℕ) (acks : Round) (key : List ℕ) (l : Leader) → IsWhole l → (row_at key l.table.rows).stage ≡ stages.Putting o digest acks true
        → MakesQuorum from acks l → IsToApply o key (row_35_reply from l.fact.epoch key o.version l) }
    ensures alone { (o : Object) (digest : List ℕ) (parent : Option Version) (call : Option ℕ) (key : List ℕ)
        (l : Leader) → l.task ≡ tasks.Propose o parent call → IsQuorumAlone l
        → IsSettled o digest key (row_35 key (seens.Stored digest) l) }
    ensures written_alone { (o : Object) (digest : List ℕ) (parent : Option Version) (id : ℕ) (key : List ℕ)
        (w : Waiting) (l : Leader) → running key l.table.calls ≡ Some w → l.task ≡ tasks.Propose o parent (Some id)
        → IsQuorumAlone l → IsAnswered w (answers.Ok o.stamp) (Settled key o.version ∷ []) key l (row_35 key (seens.Stored digest) l) }
    ensures rewritten_alone { (o : Object) (digest : List ℕ) (parent : Option Version) (key : List ℕ) (l : Leader)
        → l.task ≡ tasks.Propose o parent None → IsQuorumAlone l
        → IsToApply o key (row_35 key (seens.Stored digest) l) }
{}

/// A round of reading has the replies that came for it, the leader's own first, and rule 30 runs after
/// each. A reply of another epoch or round changes nothing.
pub fn replies_are_gathered()
    ensures own { (key : List ℕ) (w : Waiting) (entry : Option Entry) (object : Option Object) (l : Leader) → IsPeer l.me → running key l.table.calls ≡ Some w
        → IsReading key l.round (record { from = l.me; entry = entry; object = object } ∷ []) (row_29 key (seens.Held entry object) l).0 × Evaluates key (row_29 key (seens.Held entry object) l).1 }
    ensures more { (from round : ℕ) (key : List ℕ) (entry : Option Entry) (object : Option Object) (replies : List GetReply) (l : Leader) → IsWhole l → IsPeer from → IsReading key round replies l
        → IsReading key round (record { from = from; entry = entry; object = object } ∷ replies)
        (row_29_reply from l.fact.epoch round key entry object l).0
        × Evaluates key (row_29_reply from l.fact.epoch round key entry object l).1 }
    ensures others { (from asked round : ℕ) (ballot : Epoch) (key : List ℕ) (entry : Option Entry) (object : Option Object) (replies : List GetReply) (l : Leader) → IsReading key round replies l
        → ¬ ((ballot ≡ l.fact.epoch) × (asked ≡ round)) → row_29_reply from ballot asked key entry object l ≡ idle l }
{}

/// What the replies of a round of reading come to, from the replies alone (rule 30). Without a
/// quorum the leader waits. A quorum without an entry shows that the key is absent. An overwrite or a
/// delete is written upon the greatest entry of the replies. Any other command needs the object of
/// that entry: if a reply has it, it is settled if it is of this epoch, and otherwise rewritten. If no
/// reply has it, the answer is `lost` once every member has replied.
pub fn a_quorum_ends_a_read()
    ensures waits { (key : List ℕ) (round : ℕ) (replies : List GetReply) (l : Leader) → IsWhole l
        → IsReading key round replies l → is_quorum (has_replied replies) l.fact.views ≡ false → row_30 key l ≡ idle l }
    ensures absent { (key : List ℕ) (round : ℕ) (replies : List GetReply) (w : Waiting) (l : Leader) → IsWhole l
        → IsReading key round replies l → running key l.table.calls ≡ Some w
        → is_quorum (has_replied replies) l.fact.views ≡ true
        → HaveNoEntry replies → row_30 key l ≡ (with_task (tasks.Apply None) (knows key knowns.Absent l), leads_on key_rules.Apply key) }
    ensures overwrites { (key : List ℕ) (round : ℕ) (replies : List GetReply) (w : Waiting) (u : Entry)
        (content : Option (List ℕ)) (l : Leader) → IsWhole l → IsReading key round replies l
        → running key l.table.calls ≡ Some w → is_quorum (has_replied replies) l.fact.views ≡ true
        → HaveGreatest replies u → Overwrites w.command content → row_30 key l ≡ (with_task (tasks.Write content (Some u.version)) l, leads_on key_rules.Write key) }
    ensures settles { (key : List ℕ) (round : ℕ) (replies : List GetReply) (w : Waiting) (u : Entry) (o : Object)
        (l : Leader) → IsWhole l → IsReading key round replies l → running key l.table.calls ≡ Some w
        → is_quorum (has_replied replies) l.fact.views ≡ true
        → HaveGreatest replies u → NeedsObject w.command → HaveObject replies u o → u.version.epoch ≡ l.fact.epoch
        → (p : Object) × HaveObject replies u p × (row_30 key l ≡ (with_task (tasks.Apply (Some p)) (knows key (settled_as u.version p u.digest) l), leads_on key_rules.Apply key)) }
    ensures rewrites { (key : List ℕ) (round : ℕ) (replies : List GetReply) (w : Waiting) (u : Entry) (o : Object)
        (l : Leader) → IsWhole l → IsReading key round replies l → running key l.table.calls ≡ Some w
        → is_quorum (has_replied replies) l.fact.views ≡ true
        → HaveGreatest replies u → NeedsObject w.command → HaveObject replies u o → u.version.epoch ≢ l.fact.epoch
        → (p : Object) × HaveObject replies u p × (row_30 key l ≡ (with_task (tasks.Rewrite p) l, leads_on key_rules.Rewrite key)) }
    ensures lost { (key : List ℕ) (round : ℕ) (replies : List GetReply) (w : Waiting) (u : Entry) (l : Leader)
        → IsWhole l → IsReading key round replies l → running key l.table.calls ≡ Some w
        → is_quorum (has_replied replies) l.fact.views ≡ true
        → HaveGreatest replies u → NeedsObject w.command → ((o : Object) → ¬ HaveObject replies u o) → HasEvery (has_replied replies) l.fact.views
        → IsAnswered w answers.Lost [] key l (row_30 key l) }
    ensures waits_for_the_object { (key : List ℕ) (round : ℕ) (replies : List GetReply) (w : Waiting) (u : Entry)
        (l : Leader) → IsWhole l → IsReading key round replies l → running key l.table.calls ≡ Some w
        → HaveGreatest replies u → NeedsObject w.command → ((o : Object) → ¬ HaveObject replies u o) → ¬ HasEvery (has_replied replies) l.fact.views → row_30 key l ≡ idle l }
{}

/// After a round the command is applied to the object that was found or settled (rule 34). A command
/// that writes nothing is answered with its reply: `failed` exactly if it does not apply.
pub fn rounds_end_in_the_command()
    ensures answers { (current : Option Object) (reply : Answer) (key : List ℕ) (w : Waiting) (l : Leader)
        → running key l.table.calls ≡ Some w → l.task ≡ tasks.Apply current
        → outcome w.command (register_at current) ≡ Keeps reply
        → IsAnswered w reply (Read w.id key (base key l) ∷ []) key l (row_34 key l) }
    ensures writes { (current : Option Object) (content : Option (List ℕ)) (key : List ℕ) (w : Waiting) (l : Leader)
        → running key l.table.calls ≡ Some w → l.task ≡ tasks.Apply current
        → outcome w.command (register_at current) ≡ Writes content
        → row_34 key l ≡ (with_task (tasks.Write content (base key l)) l, leads_on key_rules.Write key) }
{}
