ghost use Rattle.std.specs.Prelude.{◌≡◌, ◌∷◌, [], ℕ, All, List, map};
ghost use Rattle.call_table.specs.declared.waiting.Waiting.{Waiting};
ghost use Rattle.ens_base.specs.declared.reply.Reply.TheVariants as replies;
ghost use Rattle.ens_base.specs.Lists.{◌∈◌};
ghost use Rattle.leader_output.specs.declared.out.AnswerOut.{AnswerOut};
ghost use Rattle.peer_spec.specs.Drives.{step_of};
ghost use Rattle.peer_spec.specs.Kept.{IsStepCall};
ghost use Rattle.peer_state.specs.declared.event.CallIn.{CallIn};
ghost use Rattle.peer_state.specs.declared.event.Event.{Event};
ghost use Rattle.peer_state.specs.declared.event.Event.TheVariants as events;
ghost use Rattle.peer_state.specs.declared.state.Leadership.{Leadership};
ghost use Rattle.peer_state.specs.declared.state.Phase.TheVariants as phases;
ghost use Rattle.peer_state.specs.declared.state.State.{State};
ghost use Rattle.wire_frames.specs.declared.message.Message.{Message};
ghost use Rattle.step_laws.specs.Answering.{AnswersCall, AnswersTick, AreAnswered, IsKept, Leads, LeadsIntoChange, ServesNoCall, refusal_of, timeout_of};
ghost use Rattle.step_laws.specs.Reached.{unanswered};
ghost use Rattle.step_laws.specs.Resting.{IsResting, LeadsWhole};
ghost use Rattle.step_plans.specs.Plans.{Done, Follows};

/// A call at a peer that does not lead is answered `unavailable`, and the step does nothing else. A call at
/// a leader that has begun a change is answered `unavailable` first, and any other answer of that step is
/// the `timeout` of a call that waited, which the leader gives only if it stops leading.
pub fn calls_without_a_leader_are_unavailable()
    ensures elsewhere { (me : ℕ) (call : CallIn) (x : State) → ¬ Leads x.phase → step_of me (events.Call call) x ≡ Done x (record { sends = []; answers = refusal_of call ∷ []; changes = [] }) }
    ensures changing { (me : ℕ) (call : CallIn) (x : State) → LeadsIntoChange x.phase
        → Follows IsStepCall (λ y out. (more : List AnswerOut) × (out.answers ≡ refusal_of call ∷ more)
        × All (λ a. a.reply ≡ replies.Timeout) more) (step_of me (events.Call call) x) }
{}

/// No step drops a call. Whatever the stores answer, each call that was unanswered before a step is
/// answered in it or still unanswered after it, and so is the call that the step began with. So a peer that
/// leads no more after a step has answered each of them.
pub fn no_call_is_dropped()
    ensures waiting { (me : ℕ) (event : Event) (x : State) (w : Waiting) → w ∈ unanswered x.phase
        → Follows IsStepCall (λ y out. IsKept w.from w.id (unanswered y.phase) out.answers) (step_of me event x) }
    ensures arrived { (me : ℕ) (call : CallIn) (x : State) → Follows IsStepCall (λ y out. IsKept call.from call.id (unanswered y.phase) out.answers) (step_of me (events.Call call) x) }
{}

/// A message that is no reply to a round, or a request to change the view, serves no call. If the peer leads
/// no more after the step, each call that was unanswered is answered `timeout`, in order of arrival, and
/// nobody else is answered.
pub fn leaders_that_stop_answer_timeout()
    ensures { (me : ℕ) (event : Event) (x : State) → ServesNoCall event → Follows IsStepCall (λ y out. ¬ Leads y.phase → out.answers ≡ map timeout_of (unanswered x.phase)) (step_of me event x) }
{}

/// Each answer of a leader's step has its rule, whatever the stores answer. A message, also a reply to a
/// round, and a request to change the view may have calls served by the rules on their keys, each once; the
/// others stay, or are answered `timeout` if the leader stops. A call that comes is refused first, or waits
/// behind the others, and a tick answers first those calls that are due.
///
/// The leader is at rest and its table whole, as each peer has them between its steps
/// ([`peers_rest_between_steps`](super::peers_rest_between_steps),
/// [`tables_are_whole_between_steps`](super::tables_are_whole_between_steps)).
pub fn leaders_answer_by_their_rules()
    ensures message { (me from : ℕ) (message : Message) (x : State) → IsResting x.phase → LeadsWhole x.phase
        → Follows IsStepCall (λ y out. AreAnswered [] (unanswered x.phase) (unanswered y.phase) out.answers)
        (step_of me (events.Deliver from message) x) }
    ensures change { (me : ℕ) (view : List ℕ) (x : State) → IsResting x.phase → LeadsWhole x.phase
        → Follows IsStepCall (λ y out. AreAnswered [] (unanswered x.phase) (unanswered y.phase) out.answers)
        (step_of me (events.Change view) x) }
    ensures call { (me : ℕ) (call : CallIn) (l : Leadership) (x : State) → x.phase ≡ phases.Leading l
        → IsResting x.phase → LeadsWhole x.phase
        → Follows IsStepCall (λ y out. AnswersCall call l (unanswered y.phase) out.answers)
        (step_of me (events.Call call) x) }
    ensures tick { (me : ℕ) (l : Leadership) (x : State) → x.phase ≡ phases.Leading l → IsResting x.phase
        → LeadsWhole x.phase → Follows IsStepCall (λ y out. AnswersTick l (unanswered y.phase) out.answers)
        (step_of me events.Tick x) }
{}
