ghost use Rattle.std.specs.Prelude.{List};
ghost use Rattle.process_laws.specs.Laws.{AreLegal, IsRunOfProtocol, KeepsRealTime, WereGiven};
ghost use Rattle.process_laws.specs.Moments.{Group};
ghost use Rattle.process_laws.specs.Premises.{IsSound};
ghost use Rattle.register_model.specs.declared.answer.Answer.{Answer};

/// The processes of a group that meets the premises are one run of the abstract protocol, in whatever
/// order their moments come.
pub fn groups_refine_the_protocol()
    ensures { (g : Group) → IsSound g → IsRunOfProtocol g }
{}

/// So for every key the order that follows from the notes is a legal history of the calls that came
/// and of any of the answers that were given: those that were heard, for one. A call that was completed
/// before another one came stands before it.
pub fn groups_have_legal_histories()
    ensures legal { (g : Group) → IsSound g → (heard : List Answer) → WereGiven g heard → AreLegal g heard }
    ensures in_time { (g : Group) → IsSound g → KeepsRealTime g }
{}
