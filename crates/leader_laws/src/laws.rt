ghost use Rattle.std.specs.Prelude.{◌≡◌, ◌≤◌, ◌<◌, ◌+◌, ◌||◌, ℕ, Bool, false, All, Option, List, if◌then◌else◌};
ghost use Rattle.ens_base.specs.Lists.{◌∈◌};
ghost use Rattle.ens_base.specs.declared.command.Command.{Command as Words};
ghost use Rattle.ens_base.specs.declared.entry.Entry.{Entry};
ghost use Rattle.ens_base.specs.declared.epoch.Epoch.{Epoch};
ghost use Rattle.ens_base.specs.declared.epoch.Version.{Version};
ghost use Rattle.stored_formats.specs.declared.object.Object.{Object};
ghost use Rattle.wire_frames.specs.StoredFormats.{Fact};
ghost use Rattle.register_model.specs.declared.note.Note.TheVariants.{Settled};
ghost use Rattle.phase_rows.specs.declared.phase.Seen.{Seen};
ghost use Rattle.phase_rows.specs.declared.phase.Seen.TheVariants as seens;
ghost use Rattle.phase_rows.specs.declared.phase.Then.TheVariants.{OnKeys};
ghost use Rattle.phase_rows.specs.declared.rules.KeyRule.{KeyRule};
ghost use Rattle.phase_rows.specs.declared.rules.KeyRule.TheVariants as key_rules;
ghost use Rattle.call_table.specs.Calls.{has_calls};
ghost use Rattle.call_table.specs.Tables.{late_put};
ghost use Rattle.leader_output.specs.Outs.{leaves, comes};
ghost use Rattle.leader.specs.Leaders.{idle, new_leader};
ghost use Rattle.leader_laws.specs.Measure.{turns_seen, turns_after, weight};
ghost use Rattle.leader.specs.Puts.{row_35, row_35_reply};
ghost use Rattle.leader.specs.Rounds.{row_29_reply, row_33_reply};
ghost use Rattle.leader.specs.Rules.{lead_row};
ghost use Rattle.leader.specs.Starts.{row_27};
ghost use Rattle.leader_laws.specs.Steps.{
  MayGo,
  NamesOn,
  AsksOn,
  Serves,
  KeepsOthers,
  Numbers,
  ProposesAt,
  IsReady,
  IsReadyFor,
  IsCalm,
  IsAtRest,
  IsTimely,
  SettlesNothing,
  SettlesAlone,
  SettlesWith,
  CountsInOwnViews,
};
ghost use Rattle.leader.specs.Ticks.{Finishing, is_late, aged, row_5_calls, row_5_rest};
ghost use Rattle.leader.specs.declared.leader.Leader.{Leader};

/// The messages of a leader go to other peers, and obey the grammar of frames.
pub fn messages_may_go()
    ensures key { (rule : KeyRule) (key : List ℕ) (seen : Seen) (l : Leader) → All (MayGo l.me) (lead_row rule key seen l).1.sends }
    ensures got { (from : ℕ) (ballot : Epoch) (round : ℕ) (key : List ℕ) (entry : Option Entry)
        (object : Option Object) (l : Leader)
        → All (MayGo l.me) (row_29_reply from ballot round key entry object l).1.sends }
    ensures checked { (from : ℕ) (ballot : Epoch) (round : ℕ) (l : Leader) → All (MayGo l.me) (row_33_reply from ballot round l).1.sends }
    ensures put { (from : ℕ) (ballot : Epoch) (key : List ℕ) (version : Version) (l : Leader) → All (MayGo l.me) (row_35_reply from ballot key version l).1.sends }
    ensures tick { (finishing : Finishing) (fact : Fact) (l : Leader) → All (MayGo l.me) (row_5_rest finishing fact l).sends }
{}

/// A rule on a key goes on to a rule on the same key. Only rules 28, 29 and 35 ask the stores.
pub fn rules_stay_on_their_key()
    ensures names { (rule : KeyRule) (key : List ℕ) (seen : Seen) (l : Leader) → NamesOn key (lead_row rule key seen l).1.then (lead_row rule key seen l).1.keys }
    ensures asks { (rule : KeyRule) (key : List ℕ) (seen : Seen) (l : Leader) → AsksOn rule key (lead_row rule key seen l).1.own }
    ensures got { (from : ℕ) (ballot : Epoch) (round : ℕ) (key : List ℕ) (entry : Option Entry)
        (object : Option Object) (l : Leader)
        → NamesOn key (row_29_reply from ballot round key entry object l).1.then
        (row_29_reply from ballot round key entry object l).1.keys }
    ensures put { (from : ℕ) (ballot : Epoch) (key : List ℕ) (version : Version) (l : Leader)
        → NamesOn key (row_35_reply from ballot key version l).1.then (row_35_reply from ballot key version l).1.keys }
{}

/// A step of a leader ends: each rule lowers the number of rules that can still run. For each
/// unanswered call at most 13 more run. A joined call adds at most 25, a reply at most 8, and a tick
/// none.
pub fn steps_end()
    ensures key { (rule : KeyRule) (key : List ℕ) (seen : Seen) (l : Leader) → turns_after (lead_row rule key seen l).1 + weight (lead_row rule key seen l).0 < turns_seen rule seen + weight l }
    ensures joined { (from id : ℕ) (key : List ℕ) (command : Words) (finishing : Bool) (l : Leader)
        → turns_after (row_27 from id key command finishing l).1 + weight (row_27 from id key command finishing l).0
        ≤ 25 + weight l }
    ensures got { (from : ℕ) (ballot : Epoch) (round : ℕ) (key : List ℕ) (entry : Option Entry)
        (object : Option Object) (l : Leader)
        → turns_after (row_29_reply from ballot round key entry object l).1 + weight
        (row_29_reply from ballot round key entry object l).0 < 9 + weight l }
    ensures checked { (from : ℕ) (ballot : Epoch) (round : ℕ) (l : Leader) → turns_after (row_33_reply from ballot round l).1 + weight (row_33_reply from ballot round l).0 < 1 + weight l }
    ensures put { (from : ℕ) (ballot : Epoch) (key : List ℕ) (version : Version) (l : Leader)
        → turns_after (row_35_reply from ballot key version l).1 + weight (row_35_reply from ballot key version l).0
        < 5 + weight l }
    ensures tick { (finishing : Finishing) (l : Leader) → turns_after (row_5_calls finishing l).1 + weight (row_5_calls finishing l).0 ≤ weight l }
{}

/// A leader without calls that is at rest does nothing, except for the messages of a tick.
pub fn without_calls_nothing_happens()
    ensures key { (rule : KeyRule) (key : List ℕ) (seen : Seen) (l : Leader) → has_calls l.table.calls ≡ false → IsAtRest l → lead_row rule key seen l ≡ idle l }
    ensures got { (from : ℕ) (ballot : Epoch) (round : ℕ) (key : List ℕ) (entry : Option Entry)
        (object : Option Object) (l : Leader) → has_calls l.table.calls ≡ false → IsAtRest l
        → row_29_reply from ballot round key entry object l ≡ idle l }
    ensures checked { (from : ℕ) (ballot : Epoch) (round : ℕ) (l : Leader) → has_calls l.table.calls ≡ false → IsAtRest l → row_33_reply from ballot round l ≡ idle l }
    ensures put { (from : ℕ) (ballot : Epoch) (key : List ℕ) (version : Version) (l : Leader) → has_calls l.table.calls ≡ false → IsAtRest l → row_35_reply from ballot key version l ≡ idle l }
    ensures tick { (finishing : Finishing) (l : Leader) → has_calls l.table.calls ≡ false
        → row_5_calls finishing l ≡ (l, if is_late finishing then leaves else comes (OnKeys key_rules.StartNextCall)) }
{}

/// A rule on a key answers at most one call: the running call of the key, which is then gone. No
/// other call goes. The answer is `lost`, or it follows a noted read, or it is `ok` and the version
/// is settled.
pub fn answered_calls_were_waiting()
    ensures key { (rule : KeyRule) (key : List ℕ) (seen : Seen) (l : Leader)
        → Serves key l.table (lead_row rule key seen l).0.table (lead_row rule key seen l).1.answers
        (lead_row rule key seen l).1.notes }
    ensures got { (from : ℕ) (ballot : Epoch) (round : ℕ) (key : List ℕ) (entry : Option Entry)
        (object : Option Object) (l : Leader)
        → Serves key l.table (row_29_reply from ballot round key entry object l).0.table
        (row_29_reply from ballot round key entry object l).1.answers
        (row_29_reply from ballot round key entry object l).1.notes }
    ensures checked { (from : ℕ) (ballot : Epoch) (round : ℕ) (l : Leader) → (key : List ℕ)
        × Serves key l.table (row_33_reply from ballot round l).0.table (row_33_reply from ballot round l).1.answers
        (row_33_reply from ballot round l).1.notes }
    ensures put { (from : ℕ) (ballot : Epoch) (key : List ℕ) (version : Version) (l : Leader)
        → Serves key l.table (row_35_reply from ballot key version l).0.table
        (row_35_reply from ballot key version l).1.answers (row_35_reply from ballot key version l).1.notes }
    // Of a tick, exactly the calls that have waited for 8 ticks are answered.
    ensures tick { (finishing : Finishing) (l : Leader) → IsTimely (late_put (aged l.table) || is_late finishing) l (row_5_calls finishing l) }
{}

/// The versions that a leader proposes ascend: the number of the last write rises by 1 with each
/// object that is to be put, and rule 35 proposes the version of that number.
pub fn proposed_versions_ascend()
    ensures numbers { (rule : KeyRule) (key : List ℕ) (seen : Seen) (l : Leader) → Numbers l (lead_row rule key seen l).0 }
    ensures proposed { (key : List ℕ) (l : Leader) → IsReady key_rules.Put key l → ProposesAt l (row_35 key seens.Nothing l).1.notes }
{}

/// A rule on a key leaves what is known and asked of every other key.
pub fn keys_are_apart()
    ensures key { (rule : KeyRule) (key : List ℕ) (seen : Seen) (l : Leader) → KeepsOthers key l.table (lead_row rule key seen l).0.table }
    ensures joined { (from id : ℕ) (key : List ℕ) (command : Words) (finishing : Bool) (l : Leader) → KeepsOthers key l.table (row_27 from id key command finishing l).0.table }
    ensures got { (from : ℕ) (ballot : Epoch) (round : ℕ) (key : List ℕ) (entry : Option Entry)
        (object : Option Object) (l : Leader)
        → KeepsOthers key l.table (row_29_reply from ballot round key entry object l).0.table }
    ensures put { (from : ℕ) (ballot : Epoch) (key : List ℕ) (version : Version) (l : Leader) → KeepsOthers key l.table (row_35_reply from ballot key version l).0.table }
{}

/// Each rule finds the task that it takes, if the rules run in the order in which they are named:
/// after a rule, the leader is ready for what comes next. A key without a call stays idle.
pub fn rules_find_their_tasks()
    ensures key { (rule : KeyRule) (key : List ℕ) (seen : Seen) (l : Leader) → IsReady rule key l
        → IsReadyFor key (lead_row rule key seen l).1.own (lead_row rule key seen l).1.then
        (lead_row rule key seen l).0 }
    ensures calm { (rule : KeyRule) (key : List ℕ) (seen : Seen) (l : Leader) → IsReady rule key l → IsCalm l.table → IsCalm (lead_row rule key seen l).0.table }
    ensures got { (from : ℕ) (ballot : Epoch) (round : ℕ) (key : List ℕ) (entry : Option Entry)
        (object : Option Object) (l : Leader) → IsAtRest l
        → IsReadyFor key (row_29_reply from ballot round key entry object l).1.own
        (row_29_reply from ballot round key entry object l).1.then
        (row_29_reply from ballot round key entry object l).0 }
    ensures put { (from : ℕ) (ballot : Epoch) (key : List ℕ) (version : Version) (l : Leader) → IsAtRest l
        → IsReadyFor key (row_35_reply from ballot key version l).1.own
        (row_35_reply from ballot key version l).1.then (row_35_reply from ballot key version l).0 }
{}

/// A put settles once a quorum of the views of the leader's epoch has acknowledged it. Rule 35 notes
/// that: when its own stores have the object, if the leader alone is a quorum, and otherwise at the
/// reply that completes one. No other rule notes a version as settled.
pub fn puts_settle_by_a_quorum()
    ensures key { (rule : KeyRule) (key : List ℕ) (seen : Seen) (l : Leader) (k : List ℕ) (settled : Version)
        → Settled k settled ∈ (lead_row rule key seen l).1.notes → (rule ≡ key_rules.Put) × (k ≡ key)
        × SettlesAlone settled seen l }
    ensures put { (from : ℕ) (ballot : Epoch) (key : List ℕ) (version : Version) (l : Leader) (k : List ℕ)
        (settled : Version) → CountsInOwnViews l
        → Settled k settled ∈ (row_35_reply from ballot key version l).1.notes → (k ≡ key) × (settled ≡ version)
        × SettlesWith from ballot key version l }
    ensures joined { (from id : ℕ) (key : List ℕ) (command : Words) (finishing : Bool) (l : Leader) → SettlesNothing (row_27 from id key command finishing l).1.notes }
    ensures got { (from : ℕ) (ballot : Epoch) (round : ℕ) (key : List ℕ) (entry : Option Entry)
        (object : Option Object) (l : Leader)
        → SettlesNothing (row_29_reply from ballot round key entry object l).1.notes }
    ensures checked { (from : ℕ) (ballot : Epoch) (round : ℕ) (l : Leader) → SettlesNothing (row_33_reply from ballot round l).1.notes }
    ensures tick { (finishing : Finishing) (l : Leader) → SettlesNothing (row_5_calls finishing l).1.notes }
    ensures rest { (finishing : Finishing) (fact : Fact) (l : Leader) → SettlesNothing (row_5_rest finishing fact l).notes }
{}

/// The acknowledgements of each put are counted in the views of the leader's epoch: a new leader has
/// no put, and each rule keeps it so.
pub fn puts_count_in_the_views_of_the_epoch()
    ensures new { (fact : Fact) (me : ℕ) (accepts : List Bool) → CountsInOwnViews (new_leader fact me accepts) }
    ensures key { (rule : KeyRule) (key : List ℕ) (seen : Seen) (l : Leader) → CountsInOwnViews l → CountsInOwnViews (lead_row rule key seen l).0 }
    ensures joined { (from id : ℕ) (key : List ℕ) (command : Words) (finishing : Bool) (l : Leader) → CountsInOwnViews l → CountsInOwnViews (row_27 from id key command finishing l).0 }
    ensures got { (from : ℕ) (ballot : Epoch) (round : ℕ) (key : List ℕ) (entry : Option Entry)
        (object : Option Object) (l : Leader) → CountsInOwnViews l
        → CountsInOwnViews (row_29_reply from ballot round key entry object l).0 }
    ensures checked { (from : ℕ) (ballot : Epoch) (round : ℕ) (l : Leader) → CountsInOwnViews l → CountsInOwnViews (row_33_reply from ballot round l).0 }
    ensures put { (from : ℕ) (ballot : Epoch) (key : List ℕ) (version : Version) (l : Leader) → CountsInOwnViews l → CountsInOwnViews (row_35_reply from ballot key version l).0 }
    ensures tick { (finishing : Finishing) (l : Leader) → CountsInOwnViews l → CountsInOwnViews (row_5_calls finishing l).0 }
{}
