ghost use Rattle.std.specs.Prelude.{◌≡◌, ℕ, List, [], length};
ghost use Rattle.http_exchange.specs.Requests.{RequestParts, BeginsWithAll};
ghost use Rattle.http_exchange.specs.Runs.{Act, IsRun, stream_of, requests_of};

/// However what a connection receives is cut into reads, and whenever it is asked: the requests that it
/// handed out are the first requests of the stream, in order, each once, and the unread bytes follow them.
pub fn first_requests()
    ensures { (acts : List Act) (unread : List ℕ) → IsRun [] acts unread
        → BeginsWithAll (stream_of acts) (requests_of acts) unread }
{}

/// A stream has one sequence of requests: as many first requests are the same ones, and leave the same rest.
pub fn one_sequence()
    ensures { (stream : List ℕ) (a b : List RequestParts) (rest left : List ℕ) → BeginsWithAll stream a rest
        → BeginsWithAll stream b left → length a ≡ length b → (a ≡ b) × (rest ≡ left) }
{}
