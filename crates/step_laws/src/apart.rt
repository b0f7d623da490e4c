ghost use Rattle.std.specs.Prelude.{◌≡◌, ℕ, map, Some, None, List};
ghost use Rattle.ens_base.specs.declared.epoch.Epoch.{Epoch};
ghost use Rattle.call_table.specs.Calls.{older};
ghost use Rattle.call_table.specs.Rows.{row_at, check_at};
ghost use Rattle.leader.specs.Leaders.{idle};
ghost use Rattle.leader.specs.Rounds.{row_33_reply};
ghost use Rattle.leader_laws.specs.Steps.{KeepsOthers};
ghost use Rattle.leader.specs.Ticks.{Finishing, row_5_calls};
ghost use Rattle.leader.specs.declared.leader.Leader.{Leader};
ghost use Rattle.step_laws.specs.Answers.{IsRunningDue};

/// A reply to a check leaves what is known and asked of every key but the one that checks in its
/// round, and does nothing if none does. A tick leaves it of every key whose running call is not due.
pub fn keys_stay_apart()
    ensures checked { (from : ℕ) (ballot : Epoch) (round : ℕ) (key : List ℕ) (l : Leader)
        → check_at round l.table.checks ≡ Some key
        → KeepsOthers key l.table (row_33_reply from ballot round l).0.table }
    ensures not_checked { (from : ℕ) (ballot : Epoch) (round : ℕ) (l : Leader) → check_at round l.table.checks ≡ None → row_33_reply from ballot round l ≡ idle l }
    ensures tick { (finishing : Finishing) (k : List ℕ) (l : Leader) → ¬ IsRunningDue k (map older l.table.calls) → row_at k (row_5_calls finishing l).0.table.rows ≡ row_at k l.table.rows }
{}
