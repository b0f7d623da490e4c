ghost use Rattle.std.specs.Prelude.{◌≡◌, ◌<◌, ◌^◌, length};
ghost use Rattle.process_laws.specs.Moments.{Group, answers_of, calls_of};
ghost use Rattle.process_laws.specs.Premises.{AreFew, IsSound};
ghost use Rattle.process_laws.specs.GroupStory.{story, story_answers, story_calls};
ghost use Rattle.process_laws.specs.GroupWitness.{StartsOnOlder, a_lost_fact, an_unsent_message, two_lives, two_processes};
ghost use Rattle.wire_frames.specs.declared.message.Message.{Message};

/// A group of fewer than 2^32 moments has few calls, on few keys.
pub fn fewer_moments_have_few_calls()
    ensures { (g : Group) → length g.moments < 2 ^ 32 → AreFew (calls_of g) }
{}

/// The premises can be met: a lone peer starts over what a process left that had saved no fact, takes a
/// step, loses its nodes and objects, takes another step and is cut off, and starts again on a disk of
/// facts that survived and two empty disks.
pub fn a_lone_peer_may_live_twice()
    ensures { IsSound two_lives }
{}

/// Two peers meet them too: they elect the first one, and complete a write; then the second one is killed
/// and starts again, and a read returns what was written.
pub fn a_group_may_complete_calls()
    ensures sound { IsSound story }
    ensures calls { calls_of story ≡ story_calls }
    ensures answers { answers_of story ≡ story_answers }
{}

/// A message that comes without having been sent, a second process of a peer that runs, and a start
/// without the fact that was saved, or with an older one: each breaks a premise.
pub fn group_premises_can_be_broken()
    ensures unsent { (message : Message) → ¬ IsSound (an_unsent_message message) }
    ensures second { ¬ IsSound two_processes }
    ensures lost { ¬ IsSound a_lost_fact }
    ensures older { (g : Group) → StartsOnOlder g → ¬ IsSound g }
{}
