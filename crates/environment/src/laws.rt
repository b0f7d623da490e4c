ghost use Rattle.std.specs.Prelude.{◌≡◌, ◌≢◌, ◌↔◌, ℕ, List, [], ◌++◌, ◌∷◌, Some, None, map, length, ◌+◌};
ghost use Rattle.ens_base.specs.Lists.{◌∈◌};
ghost use Rattle.environment.specs.Maps.{Entries, value_at, with_value};
ghost use Rattle.environment.specs.Failures.{planned};
ghost use Rattle.environment.specs.MemQueue.{frame_at};
ghost use Rattle.environment.specs.declared.memory.failing_call.FailingCall.{FailingCall};

/// A lookup finds the bytes that were last stored under its key, and storing under one key changes
/// no other key. The empty map has no entry.
pub fn what_was_put_is_found()
    ensures found { (key bytes : List ℕ) (es : Entries) → value_at key (with_value key bytes es) ≡ Some bytes }
    ensures others { (key other bytes : List ℕ) (es : Entries) → other ≢ key → value_at other (with_value key bytes es) ≡ value_at other es }
    ensures empty { (key : List ℕ) → value_at key [] ≡ None }
{}

/// Exactly the calls whose numbers are listed are planned to fail.
pub fn exactly_the_listed_fail()
    ensures { (call : ℕ) (listed : List FailingCall) → (planned call listed ≢ None) ↔ (call ∈ map (λ f. f.call) listed) }
{}

/// After as many looks as frames were sent before a frame, that frame is given next, whatever was
/// sent after it; after as many looks as frames were sent, none is.
pub fn frames_come_in_order()
    ensures next { (before after : List (ℕ × List ℕ)) (to : ℕ) (frame : List ℕ) → frame_at (length before) (before ++ (to, frame) ∷ after) ≡ Some frame }
    ensures none { (sent : List (ℕ × List ℕ)) → frame_at (length sent) sent ≡ None }
{}
