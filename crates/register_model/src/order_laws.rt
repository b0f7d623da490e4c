ghost use Rattle.std.specs.Prelude.{◌≡◌, ℕ, List};
ghost use Rattle.register_model.specs.Histories.{IsLegal};
ghost use Rattle.register_model.specs.declared.answer.Answer.{Answer};
ghost use Rattle.register_model.specs.declared.call.Call.{Call};
ghost use Rattle.register_model.specs.Served.{AreServed, ids_on};

/// If each call is completed before the next one begins, then a legal history of a key has the
/// calls on it in their order.
pub fn calm_histories_are_in_order()
    ensures { (calls : List Call) (answers : List Answer) (key order : List ℕ) → AreServed calls answers → IsLegal calls answers key order → order ≡ ids_on key calls }
{}
