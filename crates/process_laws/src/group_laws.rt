ghost use Rattle.std.specs.Prelude.{◌≡◌, List, [], ◌∷◌};
ghost use Rattle.process_laws.specs.Acts.{Execution, Life, answers_from, group_of};
ghost use Rattle.process_laws.specs.Alone.{ServedOnce, ServedTwice};
ghost use Rattle.process_laws.specs.Joined.{AreInOrder, AreOnDisks, ProcessesAreLinearizable, ProcessesAreOneGroup, ProcessesKeepTime, ProcessesRefine, WereGiven};
ghost use Rattle.process_laws.specs.Processes.{ServedPeersJoin};
ghost use Rattle.process_laws.specs.JoinedServed.{ServedLivesJoin};
ghost use Rattle.process_laws.specs.Story.{two_peers};
ghost use Rattle.process_laws.specs.ProcessWitness.{AreInMemory, IsInvented, a_lost_fact, an_unsent_message, two_lives, two_processes};
ghost use Rattle.process_laws.specs.Moments.{Found};
ghost use Rattle.process_laws.specs.GroupStory.{story_answers};
ghost use Rattle.process_laws.specs.GroupWitness.{StartsOnOlder};
ghost use Rattle.register_model.specs.declared.answer.Answer.{Answer};
ghost use Rattle.register_model.specs.declared.call.Call.{Call};
ghost use Rattle.register_model.specs.declared.note.Note.{Note};
ghost use Rattle.step_plans.specs.Plans.{Out};
ghost use Rattle.wire_frames.specs.declared.message.Message.{Message};

use environment::{Link, Ticker};
use slot_disk::Disk;

/// Processes that lived on disks that tell their bytes, and are joined, are the processes of a sound
/// group, which sends, answers and notes what their steps did.
pub fn processes_are_one_group<D: Disk>()
    ensures { ProcessesAreOneGroup D.seen D.fault_count }
{}

/// So they are one run of the abstract protocol.
pub fn processes_refine_the_protocol<D: Disk>()
    ensures { ProcessesRefine D.seen D.fault_count }
{}

/// And for every key the order that follows from what their steps noted is a legal history of the
/// calls that came and of any of the answers that they gave: those that were heard, for one. A call that
/// was sent after a client had heard that another one was completed does not stand before that one.
pub fn processes_are_linearizable<D: Disk>()
    ensures legal { ProcessesAreLinearizable D.seen D.fault_count }
    ensures in_time { ProcessesKeepTime D.seen D.fault_count }
{}

/// What `serve` promises of a peer, over disks that tell their bytes, is such a life: of what the disks
/// held, with the steps of which others know. And the fact that the next process finds, after a crash
/// at the end or at any moment, is that of such a life.
pub fn served_lives_may_be_joined<D: Disk, L: Link, T: Ticker>()
    ensures { ServedLivesJoin D.seen D.may_leave D.moment D.left_since D.fault_count L.sent L.given L.fault_count T.coming }
{}

/// So it is with any number of processes of several peers, each of which found in its file of facts what
/// the one before it left there: in whatever order they did what they did, they meet all premises but
/// those of the network, of the clients and of MD5. Of a process that was killed `serve` promises
/// nothing, and its life is assumed.
pub fn served_peers_may_be_joined<D: Disk, L: Link, T: Ticker>()
    ensures { ServedPeersJoin D.seen D.may_leave D.moment D.left_since D.fault_count L.sent L.given L.fault_count T.coming }
{}

/// So the premises can be met on disks. If the only peer of an ensemble served, and perhaps a second time on
/// what a crash left of its facts and on any nodes and objects, it meets all of them but two of which it
/// cannot know: its clients repeat no id, and no two strings that it hashed have one MD5.
pub fn a_lone_peer_may_serve_twice<D: Disk, L: Link, T: Ticker>()
    ensures once { ServedOnce D.seen D.may_leave D.moment D.left_since D.fault_count L.sent L.given L.fault_count T.coming }
    ensures twice { ServedTwice D.seen D.may_leave D.moment D.left_since D.fault_count L.sent L.given L.fault_count T.coming }
{}

/// The premises can be met: a lone peer starts over what a process left that had saved no fact, takes a
/// step, loses its nodes and objects, takes another step and is cut off, and starts again on a disk of
/// facts that survived and two empty disks. Its stores stand in memory.
pub fn a_lone_process_may_live_twice()
    ensures { AreInMemory two_lives }
{}

/// Two peers meet them too: they elect the first one, and complete a write; then the second one is killed
/// and starts again, and a read returns what was written.
pub fn two_peers_may_complete_calls()
    ensures joined { AreInMemory two_peers }
    ensures answers { answers_from 1 two_peers.acts ≡ story_answers }
{}

/// A message that comes without having been put out, a process that starts while another one of its
/// peer runs, a start without the fact that was saved or with an older one, and an answer that completes
/// a call that has no place in its history: each breaks a premise.
pub fn premises_can_be_broken<D: Disk>()
    ensures unsent { (first second : Found) (message : Message) (out : Out) (notes : List Note)
        → AreInOrder (an_unsent_message first second message out notes)
        × ¬ AreOnDisks D.seen D.fault_count (an_unsent_message first second message out notes) }
    ensures second { (lives : List Life) (found : Found) → ¬ AreOnDisks D.seen D.fault_count (two_processes lives found) }
    ensures lost { ¬ AreInMemory a_lost_fact }
    ensures older { (e : Execution) → StartsOnOlder (group_of e) → ¬ AreOnDisks D.seen D.fault_count e }
    ensures invented { (e : Execution) → AreOnDisks D.seen D.fault_count e → (c : Call) (a : Answer) → IsInvented e c a → ¬ WereGiven e (a ∷ []) }
{}
