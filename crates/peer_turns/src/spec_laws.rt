ghost use Rattle.std.specs.Prelude.{◌≡◌, ◌≤◌, ◌+◌, ◌++◌, List, Some, length};
ghost use Rattle.ens_base.specs.declared.peer_words.PeerWords.{PeerWords};
ghost use Rattle.peer_turns.specs.PeerSpec.{MayCome};
ghost use Rattle.peer_state.specs.declared.event.Event.{Event};
ghost use Rattle.peer_turns.specs.Ends.{ComesFrom};
ghost use Rattle.peer_turns.specs.Turns.{Turn, event_in, events_of, ignored_in, is_client, looked_in, taken_in, ticks_in};
ghost use Rattle.wire_frames.specs.Messages.{Obeys};
ghost use Rattle.wire_frames.specs.declared.frame.Frame.{Frame};

/// Each frame that a look gave is taken or ignored. Each event of some turns is a frame that was taken
/// or a tick, and later turns come after them.
pub fn turns_add_up()
    ensures frames { (w : PeerWords) (ts : List Turn) → taken_in w ts + ignored_in w ts ≡ looked_in ts }
    ensures events { (w : PeerWords) (ts : List Turn) → length (events_of w ts) ≡ taken_in w ts + ticks_in ts }
    ensures later { (w : PeerWords) (ts us : List Turn) → events_of w (ts ++ us) ≡ events_of w ts ++ events_of w us }
{}

/// A frame that is taken may come to the peer: a message has another peer as its sender, and a call a
/// client as its caller.
pub fn taken_frames_may_come()
    ensures { (w : PeerWords) (f : Frame) (e : Event) → w.peers ≤ 31 → Obeys f.message → event_in w f ≡ Some e → MayCome w.me e × ComesFrom is_client e }
{}
