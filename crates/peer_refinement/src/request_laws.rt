ghost use Rattle.std.specs.Prelude.{ℕ, List};
ghost use Rattle.protocol_laws.specs.Protocol.{State, Step, IsRun, state_after};
ghost use Rattle.peer_refinement.specs.RequestLaws.{
  DecodedAreNamed,
  SpelledAreNamed,
  EntriesAreOne,
  LooksSay,
  KeptAreNamed,
  RepliesAreNamed,
  PeersServe,
  RepliesToChecks,
  RepliesToGets,
  RepliesToPuts,
  PutsAreEntries,
  WritesShow,
  EntriesStaySo,
  MapsStaySo,
  RepliesStaySo,
};

/// If no two different strings that were hashed have one MD5, an object that matches an entry is the
/// object of the entry's version. This holds of objects that were decoded and of objects that were
/// spelled; so what the rules 21, 28 and 29 find, and what comes with a reply to a read and is
/// confirmed, is what a leader relies on.
pub fn entries_name_objects()
    ensures decoded { (s : State) → DecodedAreNamed s }
    ensures spelled { (s : State) → SpelledAreNamed s }
    ensures one { (s : State) → EntriesAreOne s }
    ensures looks { (s : State) → LooksSay s }
    ensures kept { (s : State) → KeptAreNamed s }
    ensures confirmed { (s : State) → RepliesAreNamed s }
{}

/// In each state of a run a peer with this saved fact and this map replies what holds to a check and
/// to a read, and a put ends as a write and an acknowledgement, as an acknowledgement, or as nothing.
pub fn peers_reply()
    ensures serve { (view : List ℕ) (steps : List Step) → IsRun view steps → PeersServe (state_after view steps) }
    ensures checks { (view : List ℕ) (steps : List Step) → IsRun view steps → RepliesToChecks (state_after view steps) }
    ensures gets { (view : List ℕ) (steps : List Step) → IsRun view steps → RepliesToGets (state_after view steps) }
    ensures puts { (view : List ℕ) (steps : List Step) → IsRun view steps → RepliesToPuts (state_after view steps) }
{}

/// The object of a put gives an entry that says what holds, and a write of an entry shows it in the
/// map. What entries, maps and replies say stays so, while steps come and more strings are hashed.
pub fn replies_stay()
    ensures puts { (s : State) → PutsAreEntries s }
    ensures writes { (s : State) → WritesShow s }
    ensures entries { (s : State) → EntriesStaySo s }
    ensures maps { (s : State) → MapsStaySo s }
    ensures replies { (view : List ℕ) (steps : List Step) → IsRun view steps → RepliesStaySo (state_after view steps) }
{}
