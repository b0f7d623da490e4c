ghost use Rattle.std.specs.Prelude.{◌≡◌, ◌≤◌, ◌++◌, [], ◌∷◌, ℕ, List, All};
ghost use Rattle.ens_base.specs.View.{IsPeer};
ghost use Rattle.world_spec.specs.Held.{HeldStores};
ghost use Rattle.network.specs.Mail.{MayBeSent};
ghost use Rattle.peer_state.specs.Ages.{IsYoung};
ghost use Rattle.world_spec.specs.PeerSpec.{step_of, MayCome};
ghost use Rattle.peer_state.specs.declared.event.Event.{Event};
ghost use Rattle.peer_state.specs.declared.state.State.{State};
ghost use Rattle.schedule_text.specs.Spelling.{AllMayStand};
ghost use Rattle.schedule_text.specs.Starts.{has_sealing};
ghost use Rattle.schedule_text.specs.declared.event.ScheduleEvent.{ScheduleEvent};
ghost use Rattle.schedule_text.specs.declared.event.ScheduleEvent.TheVariants.{Calm, CalmAmong};
ghost use Rattle.schedule_text.specs.declared.form.Form.{Form};
ghost use Rattle.world_spec.specs.Deepening.{tree_by_lines};
ghost use Rattle.world_spec.specs.Laws.{IsFinished, NoneWaits};
ghost use Rattle.world_spec.specs.Lines.{applied, everyone, set_of, run_of_schedule};
ghost use Rattle.world_spec.specs.Messages.{IsCalm};
ghost use Rattle.world_spec.specs.Nodes.{run_over};
ghost use Rattle.world_spec.specs.Runs.{Run, in_front, mode_at};

/// The step of a peer ends well if no write of its stores is to fail, and none is to fail after it.
pub fn steps_end_well()
    ensures { (me : ℕ) (event : Event) (x : State) (s : HeldStores) → IsPeer me → MayCome me event → IsYoung x.phase → NoneWaits s → IsFinished (run_over (step_of me event x) s) }
{}

/// A peer starts with sealing on exactly where its schedule says so (`has_sealing`): in every form but
/// `ensemble 1`, and behind a line `upgrade` of the peer.
pub fn starts_seal_by_the_lines()
    ensures { (form : Form) (peers : ℕ) (view : List ℕ) (events : List ScheduleEvent) (p : ℕ) → peers ≤ 31
        → IsPeer p → AllMayStand peers events
        → (mode_at p (run_of_schedule form peers view events)).sealing ≡ has_sealing form events p }
{}

/// A peer starts with a tree of version two exactly where its schedule says so (`tree_by_lines`): in form 3,
/// and behind a line `deepen` that came while all peers were down.
pub fn starts_have_trees_by_the_lines()
    ensures { (form : Form) (peers : ℕ) (view : List ℕ) (events : List ScheduleEvent) (p : ℕ) → (mode_at p (run_of_schedule form peers view events)).tree ≡ tree_by_lines form peers view events }
{}

/// Every message in the run of every schedule goes from a peer to another and obeys the grammar of
/// frames.
pub fn messages_obey()
    ensures { (form : Form) (peers : ℕ) (view : List ℕ) (events : List ScheduleEvent) → peers ≤ 31 → AllMayStand peers events → All MayBeSent (run_of_schedule form peers view events).mail.sent }
{}

/// After a calm line no message waits between its peers, if the run sent at most 500,000 messages.
pub fn a_calm_leaves_none_waiting()
    ensures all { (form : Form) (peers : ℕ) (view : List ℕ) (events : List ScheduleEvent) → IsCalm everyone (run_of_schedule form peers view (events ++ Calm ∷ [])) }
    ensures some { (form : Form) (peers : ℕ) (view : List ℕ) (events : List ScheduleEvent) (members : List ℕ)
        → IsCalm (set_of members) (run_of_schedule form peers view (events ++ CalmAmong members ∷ [])) }
{}

/// The strings hashed before a line make no difference to it: it hashes its own after them.
pub fn hashed_strings_are_forgotten()
    ensures { (event : ScheduleEvent) (strings : List (List ℕ)) (w : Run) → applied event (in_front strings w) ≡ in_front strings (applied event w) }
{}
