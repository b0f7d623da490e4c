ghost use Rattle.std.specs.Prelude.{◌≡◌, ◌≤◌, ◌+◌, ◌++◌, ◌∷◌, ℕ, List, [], Option, None, Some, length};
ghost use Rattle.ens_base.specs.Lists.{AreDistinct, ◌∈◌};
ghost use Rattle.scripts.specs.Scripts.{IsScript, script_events};
ghost use Rattle.scripts.specs.declared.line.ScriptLine.{ScriptLine};
ghost use Rattle.cluster.specs.Recordings.{Follows, IsRunOf, Recording, deliveries, found, heard, nothing_recorded, without_deliveries};
ghost use Rattle.schedule_text.specs.declared.event.ScheduleEvent.TheVariants.{Deliver};

/// The run that was recorded is that of the recorded events as a schedule, whatever lines were followed and
/// whatever the looks gave.
pub fn a_recording_is_a_run()
    ensures first { (peers : ℕ) (view : List ℕ) → IsRunOf peers view (nothing_recorded peers view) }
    ensures follows { (peers : ℕ) (view : List ℕ) (lines : List ScriptLine) (looks : List (Option (List ℕ))) (r s : Recording) → Follows lines looks r s → IsRunOf peers view r → IsRunOf peers view s }
{}

/// A look records a line exactly if it gave the bytes of a message that was sent and not yet delivered. The line
/// delivers the oldest such message.
pub fn looks_deliver_the_oldest()
    ensures one { (look : Option (List ℕ)) (r : Recording) (n : ℕ) → found look r.run ≡ Some n → (heard look r).events ≡ r.events ++ Deliver (n + 1) ∷ [] }
    ensures none { (look : Option (List ℕ)) (r : Recording) → found look r.run ≡ None → heard look r ≡ r }
{}

/// But for deliveries, what is recorded are the events of the script in the order of its lines.
pub fn a_recording_keeps_the_script()
    ensures { (lines : List ScriptLine) (looks : List (Option (List ℕ))) (r s : Recording) → Follows lines looks r s
        → without_deliveries s.events ≡ without_deliveries r.events ++ without_deliveries (script_events lines) }
{}

/// No message is delivered twice, and none that was not sent.
pub fn each_message_is_delivered_once()
    ensures { (peers : ℕ) (view : List ℕ) (lines : List ScriptLine) (looks : List (Option (List ℕ))) (r : Recording)
        → IsScript peers lines → Follows lines looks (nothing_recorded peers view) r
        → AreDistinct (deliveries r.events)
        × ((n : ℕ) → n ∈ deliveries r.events → (1 ≤ n) × (n ≤ length r.run.mail.sent)) }
{}
