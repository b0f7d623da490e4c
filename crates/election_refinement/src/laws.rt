ghost use Rattle.std.specs.Prelude.{◌<◌, ◌≤◌, ℕ, suc, List};
ghost use Rattle.protocol_laws.specs.Protocol.{Step};
ghost use Rattle.ens_base.specs.View.{IsView};
ghost use Rattle.schedule_text.specs.Spelling.{MayStand, AllMayStand};
ghost use Rattle.schedule_text.specs.declared.event.ScheduleEvent.{ScheduleEvent};
ghost use Rattle.schedule_text.specs.declared.form.Form.{Form};
ghost use Rattle.world_spec.specs.Runs.{Run};
ghost use Rattle.world_spec.specs.Lines.{applied, run_of_schedule};
ghost use Rattle.election_refinement.specs.Worlds.{
  ledger_after,
  AllSpare,
  IsRefinement,
  HasRun,
  GoesOn,
  IsRunning,
  IsKeeping,
  BallotsRise,
  FactsAgree,
  EpochsHaveOneLeader,
  FactsAreComplete,
  LedEpochsAreKept,
  ViewsAreShared,
};

/// The world after the events of a schedule refines a run of the abstract protocol. If a world
/// refines a run, the world after one more event refines an extension of this run.
pub fn worlds_refine_the_protocol()
    ensures schedule { (form : Form) (peers : ℕ) (view : List ℕ) (events : List ScheduleEvent) → peers ≤ 31
        → IsView view → AllMayStand peers events → HasRun view (run_of_schedule form peers view events) }
    ensures event { (view : List ℕ) (steps : List Step) (peers : ℕ) (event : ScheduleEvent) (w : Run) → peers ≤ 31
        → MayStand peers event → IsRefinement view steps w → GoesOn view steps (applied event w) }
{}

/// Every peer keeps a fact, whether it runs or is down, and a running peer keeps the fact of its
/// state. A peer runs throughout if no line stops it or makes one of its writes fail.
pub fn peers_run()
    ensures kept { (form : Form) (peers : ℕ) (view : List ℕ) (events : List ScheduleEvent) (place : ℕ) → peers ≤ 31
        → IsView view → AllMayStand peers events → place < peers
        → IsKeeping (run_of_schedule form peers view events) place }
    ensures spared { (form : Form) (peers : ℕ) (view : List ℕ) (events : List ScheduleEvent) (place : ℕ)
        → peers ≤ 31 → IsView view → AllMayStand peers events → AllSpare (suc place) events → place < peers
        → IsRunning (run_of_schedule form peers view events) place }
{}

/// No peer's ballot decreases from one event to the next.
pub fn ballots_rise()
    ensures { (form : Form) (peers : ℕ) (view : List ℕ) (events : List ScheduleEvent) (event : ScheduleEvent)
        → peers ≤ 31 → IsView view → AllMayStand peers events → MayStand peers event
        → BallotsRise (run_of_schedule form peers view events)
        (applied event (run_of_schedule form peers view events)) }
{}

/// Two facts with the same epoch and sequence number agree in leader, views and change, whichever
/// peers keep them.
pub fn facts_agree()
    ensures { (form : Form) (peers : ℕ) (view : List ℕ) (events : List ScheduleEvent) → peers ≤ 31 → IsView view → AllMayStand peers events → FactsAgree (run_of_schedule form peers view events) }
{}

/// Two peers that lead the same epoch are the same peer.
pub fn epochs_have_one_leader()
    ensures { (form : Form) (peers : ℕ) (view : List ℕ) (events : List ScheduleEvent) → peers ≤ 31 → IsView view
        → AllMayStand peers events → EpochsHaveOneLeader (run_of_schedule form peers view events) }
{}

/// If peers keep facts of two epochs, then the greater epoch is based on a fact no older than the
/// one of the lower epoch, or no quorum can accept that fact any more. If a peer leads the lower
/// epoch, the greater one is based on it or on a later epoch.
pub fn facts_are_complete()
    ensures facts { (view : List ℕ) (steps : List Step) (w : Run) → IsRefinement view steps w → FactsAreComplete (ledger_after view steps) w }
    ensures leaders { (view : List ℕ) (steps : List Step) (w : Run) → IsRefinement view steps w → LedEpochsAreKept (ledger_after view steps) w }
{}

/// The views of a fact that a peer keeps share a view with those of the last lower epoch that some
/// quorum accepted or may still accept. So quorums of the two epochs have a peer in common.
pub fn lists_share_a_view()
    ensures { (view : List ℕ) (steps : List Step) (w : Run) → IsRefinement view steps w → ViewsAreShared (ledger_after view steps) w }
{}
