ghost use Rattle.std.specs.Prelude.{ℕ, List, Option, Some};
ghost use Rattle.cluster.specs.Ends.{PrintsRecord};
ghost use Rattle.run_laws.specs.Records.{IsReplayed, IsAudited};
ghost use Rattle.ens_base.specs.declared.peer_words.ClusterWords.{ClusterWords};
ghost use Rattle.ens_base.specs.declared.status.Status.{Status};
ghost use Rattle.run_laws.specs.Recorded.{IsWellRecorded};
ghost use Rattle.cluster.specs.Replay.{Prints};

/// The record that is made of a schedule that a replay runs to its end and of the text that the
/// replay prints is read without a fault. It has the answers and the histories of the run, and its
/// report has no fault.
pub fn a_replay_is_well_recorded()
    ensures { (schedule text : List ℕ) → Prints (Some schedule) Status.Done text → IsWellRecorded schedule text }
{}

/// The schedule that stands before the line `answers` of a record can be replayed, and a replay of it that
/// ends with status 0 prints what stands behind that line.
pub fn a_cluster_is_replayed()
    ensures { (w : ClusterWords) (source : Option (List ℕ)) (text : List ℕ) → PrintsRecord w source Status.Done text → IsReplayed text }
{}

/// A record is read without a fault, and its report has none.
pub fn a_cluster_is_well_recorded()
    ensures { (w : ClusterWords) (source : Option (List ℕ)) (text : List ℕ) → PrintsRecord w source Status.Done text → IsAudited text }
{}
