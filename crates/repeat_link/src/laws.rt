ghost use Rattle.std.specs.Prelude.{◌≡◌, ◌<◌, ◌++◌, ℕ, List, [], map, true};
ghost use Rattle.ens_base.specs.Lists.{◌∈◌, AreDistinct};
ghost use Rattle.repeat_link.specs.Received.{came, Took};
ghost use Rattle.repeat_link.specs.Queues.{Queue};
ghost use Rattle.repeat_link.specs.Runs.{Step, Acknowledge, after, run, numbers, entry, frames_from};
ghost use Rattle.repeat_link.specs.Headers.{IsHeader, header_bytes, header_in};
ghost use Rattle.repeat_link.specs.declared.received.Received.{Received};
ghost use Rattle.repeat_link.specs.declared.header.Header.{Header};

/// However often and late numbers come, each is taken at most once.
pub fn each_number_is_taken_once()
    ensures { (r s : Received) → (numbers : List ℕ) → Took r numbers s → AreDistinct numbers }
{}

/// What is written as a header is read as that header, whatever follows it.
pub fn a_header_is_read_as_written()
    ensures { (h : Header) → (rest : List ℕ) → IsHeader h → header_in (header_bytes h ++ rest) ≡ Some h }
{}

/// Whatever is called on a queue: a number that was given and does not wait never waits again. What is told
/// to have come does not wait.
pub fn what_went_never_waits_again()
    ensures gone { (q : Queue) → (steps : List Step) → (n : ℕ) → n < q.next → ¬ (n ∈ numbers q.queued) → ¬ (n ∈ numbers (run q steps).queued) }
    ensures acknowledged { (q : Queue) → (r : Received) → (n : ℕ) → came r n ≡ true → ¬ (n ∈ numbers (after q (Acknowledge r)).queued) }
{}

/// Whatever is called on a queue, each frame that waits was pushed under its number, and no two were pushed
/// under one.
pub fn each_number_is_of_one_frame()
    ensures pushed { (steps : List Step) → (e : ℕ × List ℕ) → e ∈ map entry (run (record { next = 1; queued = [] }) steps).queued → e ∈ frames_from 1 steps }
    ensures distinct { (steps : List Step) → AreDistinct (map (λ e. e.0) (frames_from 1 steps)) }
{}
