ghost use Rattle.std.specs.Prelude.{◌<◌};

use crate::phase_builders::{Answer, Said, epoch, silent, summary, tells, view};
use ens_base::{Digest, Entry, Epoch, Key, PeerId, Seq, Version, Views};
use phase_rows::{PhaseRule, Seen, Then};
use phase_rules::{Follower, rule_16, rule_18, rule_19, rule_20, rule_21, rule_22, rule_23};
use std::alloc::Global;
use std::test::Fail;
use stored_formats::{Change, Fact, Object};
use tree_node::{Position, TreeBody};
use wire_frames::NackCause;

/// A segment of the tree.
const PLACE: Position = Position { level: 3, index: 9 };

/// What a peer sees whose tree has no entry of a key.
fn absent() -> Seen {
    Seen::Held {
        entry: None,
        object: None,
    }
}

/// The fact number `seq` of this epoch, at this ballot, on the view 1 2 3.
fn fact(ballot: Epoch, epoch: Epoch, seq: u64) -> Result<Fact, Fail> {
    Ok(Fact {
        ballot,
        epoch,
        seq,
        leader: PeerId(2),
        views: Views::one(view(&[1, 2, 3])?),
        change: Change::None,
    })
}

/// The first fact of a joint epoch of the new view 1 2 3 and the old view 3 4 5.
fn joint(epoch: Epoch) -> Result<Fact, Fail> {
    Ok(Fact {
        views: Views::two(view(&[1, 2, 3])?, view(&[3, 4, 5])?),
        ..fact(epoch, epoch, 1)?
    })
}

/// The answer that tells peer 4 that its epoch is below the ballot.
fn refuses(epoch: Epoch, ballot: Epoch) -> Answer {
    tells(4, Said::Nack(epoch, NackCause::Greater(ballot)), Then::Stay)
}

/// The answer that tells peer 4 that the tree is not trusted.
fn distrusts(epoch: Epoch) -> Answer {
    tells(4, Said::Nack(epoch, NackCause::Untrusted), Then::Stay)
}

/// The answer that tells peer 4 of damage: a leader steps down, and trust in the tree ends.
fn damaged(said: Said) -> Answer {
    Answer {
        leave: true,
        ..tells(4, said, Then::Untrust)
    }
}

/// Ticks a follower, and returns the answer and its quiet ticks afterwards.
fn tick(fact: &Fact, me: u32, quiet: u8) -> (Answer, u8)
    requires { quiet < 6 }
{
    let mut follower = Follower { quiet };
    let answer = summary(follower.rule_2(*fact, PeerId(me)));
    (answer, follower.quiet)
}

#[test]
fn a_member_probes_after_six_quiet_ticks(rt: HostRuntime) -> Result<(), Fail> {
    let joint = joint(epoch(2, 2))?;
    let probes = Then::Rule(PhaseRule::BeginProbing);
    for (me, quiet, then, after) in [
        (5, 4, Then::Stay, 5),
        (5, 5, probes, 6),
        (1, 5, probes, 6),
        (6, 5, Then::Stay, 5),
    ] {
        assert!(rt; quiet < 6);
        let (answer, ticks) = tick(&joint, me, quiet);
        assert!(rt; answer == silent(then) && ticks == after, "{me} {quiet}");
    }
    Ok(())
}

/// The answer to an announcement by peer 4, of a peer at ballot 4.2 that accepted epoch 3.2.
fn announced(me: u32, trusted: bool, sync_runs: bool, new: Fact) -> Result<Answer, Fail> {
    let saved = fact(epoch(4, 2), epoch(3, 2), 2)?;
    Ok(summary(rule_16(saved, PeerId(me), trusted, sync_runs, PeerId(4), new)))
}

/// The answer that accepts the fact: a leader steps down, and the peer follows.
fn accepts(new: &Fact) -> Answer {
    Answer {
        leave: true,
        save: Some(*new),
        ..tells(4, Said::Accepted(new.epoch, 1), Then::Follow)
    }
}

/// The answer of a leader that steps down for a sync, after it saved this fact.
fn syncs(save: Option<Fact>, then: Then) -> Answer {
    Answer {
        leave: true,
        save,
        ..silent(then)
    }
}

#[test]
fn a_new_epoch_is_accepted_or_waits_for_a_sync(rt: HostRuntime) -> Result<(), Fail> {
    let below = fact(epoch(4, 1), epoch(4, 1), 1)?;
    let equal = fact(epoch(4, 2), epoch(4, 2), 1)?;
    let above = fact(epoch(4, 3), epoch(4, 3), 1)?;
    let old = fact(epoch(3, 2), epoch(3, 2), 1)?;
    let joint = joint(epoch(4, 2))?;
    let promised = fact(epoch(4, 3), epoch(3, 2), 2)?;
    for (me, trusted, sync_runs, new, expected) in [
        (1, true, false, below, refuses(epoch(4, 1), epoch(4, 2))),
        (1, true, false, equal, accepts(&equal)),
        (1, true, true, above, accepts(&above)),
        (1, false, false, equal, syncs(None, Then::SyncOn(equal))),
        (1, false, true, equal, syncs(None, Then::Resume)),
        (
            1,
            false,
            true,
            above,
            syncs(Some(promised), Then::SyncOn(above)),
        ),
        (3, true, false, joint, syncs(None, Then::SyncOn(joint))),
        (4, true, false, joint, accepts(&joint)),
    ] {
        assert!(rt; announced(me, trusted, sync_runs, new)? == expected, "{me}");
    }
    let again = rule_16(old, PeerId(1), false, true, PeerId(4), old);
    assert!(rt; summary(again) == tells(4, Said::Accepted(epoch(3, 2), 1), Then::Follow));
    Ok(())
}

/// The answer to a commit of peer 4.
fn committing(saved: &Fact, trusted: bool, commit: &Fact) -> Answer {
    summary(rule_18(*saved, trusted, PeerId(4), *commit))
}

/// The answer to a beat of peer 4 in the epoch 3.2.
fn beating(saved: &Fact, trusted: bool) -> Answer {
    summary(rule_19(*saved, trusted, PeerId(4), epoch(3, 2)))
}

#[test]
fn a_commit_and_a_beat(rt: HostRuntime) -> Result<(), Fail> {
    let second = fact(epoch(3, 2), epoch(3, 2), 2)?;
    let again = tells(4, Said::Accepted(epoch(3, 2), 2), Then::Follow);
    let saves = Answer {
        save: Some(second),
        ..tells(4, Said::Accepted(epoch(3, 2), 2), Then::Follow)
    };
    for (seq, trusted, committed, beaten) in [
        (1, true, saves, silent(Then::Follow)),
        (2, true, again, silent(Then::Follow)),
        (1, false, distrusts(epoch(3, 2)), silent(Then::Stay)),
    ] {
        let saved = fact(epoch(3, 2), epoch(3, 2), seq)?;
        let second = fact(epoch(3, 2), epoch(3, 2), 2)?;
        assert!(rt; committing(&saved, trusted, &second) == committed);
        assert!(rt; beating(&saved, trusted) == beaten);
    }
    Ok(())
}

#[test]
fn a_check_at_each_ballot(rt: HostRuntime) -> Result<(), Fail> {
    let confirms = tells(4, Said::CheckReply(epoch(4, 2), 7), Then::Stay);
    for (d, expected) in [
        (epoch(4, 1), refuses(epoch(4, 1), epoch(4, 2))),
        (epoch(4, 2), confirms),
        (epoch(4, 3), silent(Then::Stay)),
    ] {
        let saved = fact(epoch(4, 2), epoch(3, 2), 1)?;
        assert!(rt; summary(rule_20(saved, PeerId(4), d, 7)) == expected, "{d}");
    }
    Ok(())
}

/// The answer to a Get of the key `k` in round 7, of a peer that accepted the epoch 4.2.
fn got(alloc: Global, trusted: bool, d: Epoch, seen: Seen) -> Result<Answer, Fail> {
    let fact = fact(epoch(4, 2), epoch(4, 2), 1)?;
    match rule_21(fact, trusted, PeerId(4), d, 7, Key::new(alloc, b"k")?, seen) {
        Ok(out) => Ok(summary(out)),
        Err(_) => Err("no memory")?,
    }
}

#[test]
fn a_get_is_answered_at_its_epoch(rt: HostRuntime) -> Result<(), Fail> {
    let alloc = rt.alloc();
    let d = epoch(4, 2);
    let replies = tells(4, Said::GetReply(d, 7, false), Then::Stay);
    let reports = damaged(Said::Nack(d, NackCause::Damaged(PLACE)));
    for (trusted, d, seen, expected) in [
        (true, d, absent(), replies),
        (true, d, Seen::Damaged(PLACE), reports),
        (false, d, Seen::Nothing, distrusts(d)),
        (true, epoch(4, 3), Seen::Nothing, silent(Then::Stay)),
    ] {
        assert!(rt; got(alloc, trusted, d, seen)? == expected, "{d} {trusted}");
    }
    Ok(())
}

fn version(seq: u64) -> Version {
    Version {
        epoch: epoch(4, 2),
        seq,
    }
}

/// What a peer sees whose tree holds the key `k` at the version 4.2.`seq`.
fn held(alloc: Global, seq: u64) -> Result<Seen, Fail> {
    let entry = Entry {
        key: Key::new(alloc, b"k")?,
        version: version(seq),
        digest: Digest([0; 16]),
    };
    Ok(Seen::Held {
        entry: Some(entry),
        object: None,
    })
}

/// The answer to a Put of the tombstone of the key `k` at version 4.2.5, of a peer that accepted the
/// epoch 4.2.
fn put(alloc: Global, trusted: bool, seen: Seen) -> Result<Answer, Fail> {
    let fact = fact(epoch(4, 2), epoch(4, 2), 1)?;
    let object = Object {
        version: version(5),
        stamp: version(5),
        key: Key::new(alloc, b"k")?,
        value: None,
    };
    match rule_22(alloc, fact, trusted, PeerId(4), epoch(4, 2), &object, seen) {
        Ok(out) => Ok(summary(out)),
        Err(_) => Err("no memory")?,
    }
}

#[test]
fn a_put_is_written_over_a_lower_version(rt: HostRuntime) -> Result<(), Fail> {
    let alloc = rt.alloc();
    let said = Said::PutReply(epoch(4, 2), version(5));
    let reports = damaged(Said::Nack(epoch(4, 2), NackCause::Damaged(PLACE)));
    for (seq, expected) in [
        (4, tells(4, said, Then::Put)),
        (5, tells(4, said, Then::Stay)),
        (6, silent(Then::Stay)),
    ] {
        assert!(rt; put(alloc, true, held(alloc, seq)?)? == expected, "{seq}");
    }
    for (trusted, seen, expected) in [
        (true, absent(), tells(4, said, Then::Put)),
        (true, Seen::Damaged(PLACE), reports),
        (false, Seen::Nothing, distrusts(epoch(4, 2))),
    ] {
        assert!(rt; put(alloc, trusted, seen)? == expected, "{trusted}");
    }
    Ok(())
}

/// The answer to a request for a node, of a peer that promised the ballot 4.2.
fn asked(trusted: bool, d: Epoch, body: Option<TreeBody>) -> Result<Answer, Fail> {
    let fact = fact(epoch(4, 2), epoch(3, 2), 1)?;
    match rule_23(fact, trusted, PeerId(4), d, PLACE, None, body) {
        Ok(out) => Ok(summary(out)),
        Err(_) => Err("no memory")?,
    }
}

#[test]
fn a_node_is_sent_with_the_trust_of_its_sender(rt: HostRuntime) -> Result<(), Fail> {
    let d = epoch(4, 2);
    let page = TreeBody::Page {
        entries: Seq::new(Vec::new(rt.alloc())),
        more: false,
    };
    let gives = tells(4, Said::TreeGive(d, true, false), Then::Stay);
    let reports = damaged(Said::TreeGive(d, false, true));
    for (d, body, expected) in [
        (d, Some(page), gives),
        (d, Some(TreeBody::Damaged(PLACE)), reports),
        (epoch(4, 1), None, refuses(epoch(4, 1), d)),
    ] {
        assert!(rt; asked(true, d, body)? == expected, "{d}");
    }
    Ok(())
}
