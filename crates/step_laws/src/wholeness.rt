ghost use Rattle.std.specs.Prelude.{ℕ, Bool, All, Option, List};
ghost use Rattle.ens_base.specs.declared.command.Command.{Command as Words};
ghost use Rattle.ens_base.specs.declared.entry.Entry.{Entry};
ghost use Rattle.ens_base.specs.declared.epoch.Epoch.{Epoch};
ghost use Rattle.ens_base.specs.declared.epoch.Version.{Version};
ghost use Rattle.stored_formats.specs.declared.object.Object.{Object};
ghost use Rattle.stored_formats.specs.declared.fact.Fact.{Fact};
ghost use Rattle.phase_rows.specs.declared.phase.Seen.{Seen};
ghost use Rattle.phase_rows.specs.declared.rules.KeyRule.{KeyRule};
ghost use Rattle.leader.specs.Leaders.{new_leader};
ghost use Rattle.leader.specs.Puts.{row_35_reply};
ghost use Rattle.leader.specs.Rounds.{row_29_reply, row_33_reply};
ghost use Rattle.leader.specs.Rules.{lead_row};
ghost use Rattle.leader.specs.Starts.{row_27};
ghost use Rattle.leader_laws.specs.Steps.{IsCalm};
ghost use Rattle.leader.specs.Ticks.{Finishing, row_5_calls};
ghost use Rattle.step_laws.specs.Whole.{IsWhole, IsClear, StaysWhole, AreGiven};
ghost use Rattle.leader.specs.declared.leader.Leader.{Leader};

/// The table of a leader is whole, and each rule keeps it so: each round counts the votes of the
/// leader's own views, a reply that waits for a check is that of a read, and the index of checks has
/// a key for a round exactly if the key checks in it. A rule runs on no key that checks.
pub fn tables_stay_whole()
    ensures new { (fact : Fact) (me : ℕ) (accepts : List Bool) → IsWhole (new_leader fact me accepts) }
    ensures key { (rule : KeyRule) (key : List ℕ) (seen : Seen) (l : Leader) → IsWhole l → IsClear l key → StaysWhole key (lead_row rule key seen l) }
    ensures joined { (from id : ℕ) (key : List ℕ) (command : Words) (finishing : Bool) (l : Leader) → IsWhole l → IsCalm l.table → StaysWhole key (row_27 from id key command finishing l) }
    ensures got { (from : ℕ) (ballot : Epoch) (round : ℕ) (key : List ℕ) (entry : Option Entry)
        (object : Option Object) (l : Leader) → IsWhole l
        → StaysWhole key (row_29_reply from ballot round key entry object l) }
    ensures checked { (from : ℕ) (ballot : Epoch) (round : ℕ) (l : Leader) → IsWhole l → (key : List ℕ) × StaysWhole key (row_33_reply from ballot round l) }
    ensures put { (from : ℕ) (ballot : Epoch) (key : List ℕ) (version : Version) (l : Leader) → IsWhole l → StaysWhole key (row_35_reply from ballot key version l) }
    ensures tick { (finishing : Finishing) (l : Leader) → IsWhole l → IsWhole (row_5_calls finishing l).0 × All (IsClear (row_5_calls finishing l).0) (row_5_calls finishing l).1.keys }
{}

/// A reply that a rule on a key gives, or a reply of a member brings about, comes with its notes:
/// `lost` with none, `ok` with a settled version, and `value`, `notfound` and `failed` with a read.
/// No such rule gives another reply.
pub fn replies_come_with_their_notes()
    ensures key { (rule : KeyRule) (key : List ℕ) (seen : Seen) (l : Leader) → IsWhole l → IsClear l key → AreGiven (lead_row rule key seen l).1 }
    ensures got { (from : ℕ) (ballot : Epoch) (round : ℕ) (key : List ℕ) (entry : Option Entry)
        (object : Option Object) (l : Leader) → IsWhole l
        → AreGiven (row_29_reply from ballot round key entry object l).1 }
    ensures checked { (from : ℕ) (ballot : Epoch) (round : ℕ) (l : Leader) → IsWhole l → AreGiven (row_33_reply from ballot round l).1 }
    ensures put { (from : ℕ) (ballot : Epoch) (key : List ℕ) (version : Version) (l : Leader) → IsWhole l → AreGiven (row_35_reply from ballot key version l).1 }
{}
