ghost use Rattle.std.specs.Prelude.{◌≡◌, ◌≢◌, ℕ, ◌↔◌, List, Option, Some, None, Ok, IsTrue, IsFalse, false, codes};
ghost use Rattle.ens_base.specs.Limits.{IsVersion};
ghost use Rattle.ens_base.specs.declared.epoch.Version.{Version};
ghost use Rattle.ens_base.specs.declared.reply.Reply.{Reply};
ghost use Rattle.ens_base.specs.declared.command.Command.TheVariants.{Update, Get as get_value};
ghost use Rattle.http1.specs.Fields.{Header};
ghost use Rattle.http_calls.specs.declared.answer.Leader.{Leader};
ghost use Rattle.http_calls.specs.declared.call.Call.{Call};
ghost use Rattle.http_calls.specs.declared.call.Asked.TheVariants as asks;
ghost use Rattle.http_calls.specs.declared.method.Method.{Method};
ghost use Rattle.http_calls.specs.declared.problem.Problem.{Problem};
ghost use Rattle.http_calls.specs.Answers.{answer_of, problem_answer};
ghost use Rattle.http_calls.specs.Calls.{asked_by};
ghost use Rattle.http_calls.specs.Fields.{field_of};
ghost use Rattle.http_calls.specs.Meanings.{meaning_of, status_says, is_success, is_unchanged, is_silent};
ghost use Rattle.http_calls.specs.Methods.{is_write};
ghost use Rattle.http_calls.specs.Stamps.{stamp_of, tag_text};

/// The status of the answer to a call says just what its reply says of the call: 2xx or 304 that it is
/// completed as it was asked; 404, 409 or 412 that it is completed and changed nothing; 307, 500 or 503
/// that it had no effect; 504 that nobody knows. And no problem is told as a success, nor as a call that
/// is completed and changed nothing, but for a path that names nothing; 504 is told of a silent call alone.
pub fn statuses_tell()
    ensures replies { (call : Call) (target : List ℕ) (reply : Reply) (leader : Option Leader)
        → status_says (answer_of call target reply leader).status ≡ Some (meaning_of reply) }
    ensures problems { (p : Problem) → is_success (problem_answer p).status ≡ false }
    ensures silence { (p : Problem) → ((problem_answer p).status ≡ 504) ↔ IsTrue (is_silent p) }
{}

/// A tag is that of one stamp, and each stamp is read from its tag.
pub fn stamps_are_tags()
    ensures read { (text : List ℕ) (v : Version) → stamp_of text ≡ Some v → text ≡ tag_text v }
    ensures written { (v : Version) → IsVersion v → stamp_of (tag_text v) ≡ Some v }
{}

/// A condition is never dropped: a request with `If-Match` makes an update of the stamp that it names, or
/// no call. And a GET or a HEAD makes no call but a get.
pub fn update_is_kept()
    ensures update { (method : Method) (target body tag : List ℕ) (fields : List Header) (call : Call)
        → asked_by method target fields body ≡ Ok (asks.Call call) → field_of (codes "if-match") fields ≡ Ok (Some tag)
        → (v : Version) × (tag ≡ tag_text v) × (call.command ≡ Update v body) }
    ensures reads { (method : Method) (target body : List ℕ) (fields : List Header) (call : Call)
        → asked_by method target fields body ≡ Ok (asks.Call call) → IsFalse (is_write method) → call.command ≡ get_value }
{}
