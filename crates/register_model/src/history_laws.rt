ghost use Rattle.std.specs.Prelude.{ℕ, List, map};
ghost use Rattle.ens_base.specs.Lists.{AreDistinct};
ghost use Rattle.register_model.specs.Histories.{IsLegal};
ghost use Rattle.register_model.specs.declared.answer.Answer.{Answer};
ghost use Rattle.register_model.specs.declared.call.Call.{Call};
ghost use Rattle.register_model.specs.Openings.{AreOpenings, HaveOneValue};
ghost use Rattle.register_model.specs.Parts.{ArePart, RiseWith, numbered_answer, numbered_call};

/// A legal history stays legal where the events of its calls and answers get other numbers that rise with
/// the numbers before.
pub fn histories_keep_with_the_numbers_of_events()
    ensures { (number : ℕ → ℕ) (most : ℕ) (calls : List Call) (answers : List Answer) (key order : List ℕ)
        → RiseWith number most calls answers → IsLegal calls answers key order
        → IsLegal (map (numbered_call number) calls) (map (numbered_answer number) answers) key order }
{}

/// A history that is legal among some calls and answers is legal among more, if the others have no part in
/// it: none is a call of the history or an answer to one, and none completes a call on the key.
pub fn histories_are_legal_among_more_calls()
    ensures { (calls more_calls : List Call) (answers more_answers : List Answer) (key order : List ℕ)
        → ArePart calls answers more_calls more_answers key order → IsLegal calls answers key order
        → IsLegal more_calls more_answers key order }
{}

/// Where the calls on a key are `once` and `get` alone, and its history is legal, every `ok` and every value
/// that was answered stands for one value.
pub fn opened_keys_have_one_value()
    ensures { (calls : List Call) (answers : List Answer) (key order : List ℕ) → AreDistinct (map (λ c. c.id) calls)
        → AreOpenings calls key → IsLegal calls answers key order → HaveOneValue calls answers key }
{}
