ghost use Rattle.std.specs.Prelude.{◌<◌};
ghost use Rattle.ens_base.specs.View.{IsPeer};

use crate::phase_builders::{Answer, Said, epoch, set, silent, summary, tells, view};
use ens_base::{PeerId, Views};
use phase_rows::{PhaseRule, Then};
use phase_rules::{Election, rule_10, rule_11, rule_15};
use std::test::Fail;
use stored_formats::{Change, Fact};
use wire_frames::NackCause;

const ENOUGH_PROMISED: Then = Then::Rule(PhaseRule::EnoughPromised);

const ENOUGH_ACCEPTED: Then = Then::Rule(PhaseRule::EnoughAccepted);

/// The fact of number 1 in epoch 2.2, on the views 1 2 3, at ballot 7.2.
fn saved() -> Result<Fact, Fail> {
    let mut fact = Fact::opening(view(&[1, 2, 3])?);
    fact.ballot = epoch(7, 2);
    fact.epoch = epoch(2, 2);
    fact.seq = 1;
    fact.leader = PeerId(2);
    Ok(fact)
}

/// The same fact in a joint epoch, with the new view 4 5 6.
fn joint() -> Result<Fact, Fail> {
    let mut fact = saved()?;
    fact.views = Views::two(view(&[4, 5, 6])?, view(&[1, 2, 3])?);
    Ok(fact)
}

fn preparing(base: Fact, promises: &[u32], asked: &[u32]) -> Election {
    Election::Preparing {
        base,
        promises: set(promises),
        asked: set(asked),
        age: 0,
    }
}

fn starting(fact: Fact, accepts: &[u32], age: u8) -> Election {
    Election::Starting {
        fact,
        accepts: set(accepts),
        age,
    }
}

/// The answer that saves this fact and promises its ballot to peer 3: a leader steps down.
fn promises(fact: &Fact) -> Answer {
    Answer {
        leave: true,
        save: Some(*fact),
        ..tells(3, Said::Promise(fact.ballot, *fact), Then::Follow)
    }
}

#[test]
fn a_greater_ballot_alone_is_promised(rt: HostRuntime) -> Result<(), Fail> {
    let promised = Fact {
        ballot: epoch(7, 3),
        ..saved()?
    };
    let nack = Said::Nack(epoch(7, 1), NackCause::Greater(epoch(7, 2)));
    for (proposer, expected) in [
        (3, promises(&promised)),
        (2, silent(Then::Stay)),
        (1, tells(3, nack, Then::Stay)),
    ] {
        let answer = summary(rule_11(saved()?, PeerId(3), epoch(7, proposer)));
        assert!(rt; answer == expected, "{proposer}");
    }
    Ok(())
}

#[test]
fn a_refusal_of_its_own_ballot_ends_an_election(rt: HostRuntime) -> Result<(), Fail> {
    let follows = Answer {
        leave: true,
        ..silent(Then::Follow)
    };
    for (of, cause, expected) in [
        (epoch(7, 2), NackCause::Greater(epoch(7, 3)), follows),
        (
            epoch(7, 2),
            NackCause::Greater(epoch(7, 2)),
            silent(Then::Stay),
        ),
        (
            epoch(7, 1),
            NackCause::Greater(epoch(8, 1)),
            silent(Then::Stay),
        ),
        (epoch(7, 2), NackCause::Untrusted, silent(Then::Stay)),
    ] {
        assert!(rt; summary(rule_15(saved()?, of, cause)) == expected, "{of}");
    }
    Ok(())
}

#[test]
fn the_next_ballot_is_prepared_if_there_is_one(rt: HostRuntime) -> Result<(), Fail> {
    let (saved, joint) = (saved()?, joint()?);
    let (given, state) = rule_10(saved, PeerId(2), joint, 7);
    let save = Fact {
        ballot: epoch(8, 2),
        ..saved
    };
    let expected = Answer {
        save: Some(save),
        to: set(&[1, 3, 4, 5, 6]),
        said: Said::Prepare(epoch(8, 2)),
        ..silent(ENOUGH_PROMISED)
    };
    assert!(rt; summary(given) == expected);
    assert!(rt; state == Some(preparing(joint, &[2], &[1, 2, 3, 4, 5, 6])));
    let (given, state) = rule_10(saved, PeerId(2), saved, u64::MAX);
    assert!(rt; summary(given) == silent(Then::Follow) && state.is_none());
    Ok(())
}

#[test]
fn the_newest_promised_fact_is_the_base(rt: HostRuntime) -> Result<(), Fail> {
    let saved = saved()?;
    let newer = Fact { seq: 2, ..joint()? };
    let older = Fact { seq: 0, ..joint()? };
    let asks = Answer {
        to: set(&[4, 6]),
        said: Said::Prepare(epoch(7, 2)),
        ..silent(ENOUGH_PROMISED)
    };
    let before = preparing(saved, &[5], &[1, 2, 3]);
    let counted = preparing(saved, &[3, 5], &[1, 2, 3]);
    let rebased = preparing(newer, &[3, 5], &[1, 2, 3, 4, 5, 6]);
    for (ballot, promised, expected, after) in [
        (epoch(7, 2), newer, asks, rebased),
        (epoch(7, 2), older, silent(ENOUGH_PROMISED), counted),
        (epoch(7, 3), newer, silent(Then::Stay), before),
    ] {
        let mut election = before;
        let out = election.rule_12(saved, PeerId(5), PeerId(3), ballot, promised);
        assert!(rt; summary(out) == expected && election == after, "{ballot}");
    }
    Ok(())
}

/// Applies rule 13 to an election of the peer `me` on this base, with these promises.
fn decided(base: Fact, me: u32, promises: &[u32], trusted: bool) -> Result<(Answer, Election), Fail>
    requires { IsPeer me }
{
    let mut election = preparing(base, promises, &[1, 2, 3]);
    let answer = summary(election.rule_13(saved()?, PeerId(me), trusted));
    Ok((answer, election))
}

/// The first fact of the ballot 7.2, on the views that follow the base.
fn first(base: &Fact, me: u32) -> Result<Fact, Fail> {
    let mut fact = saved()?;
    fact.epoch = epoch(7, 2);
    fact.leader = PeerId(me);
    fact.views = base.next_views();
    Ok(fact)
}

#[test]
fn an_epoch_starts_with_a_quorum_of_its_base(rt: HostRuntime) -> Result<(), Fail> {
    let joint = joint()?;
    let new = first(&joint, 1)?;
    let (answer, election) = decided(joint, 1, &[1, 2, 3, 4], true)?;
    assert!(rt;
        answer == silent(Then::Stay) && election == preparing(joint, &[1, 2, 3, 4], &[1, 2, 3])
    );
    let expected = Answer {
        save: Some(new),
        to: set(&[2, 3, 4, 5, 6]),
        said: Said::NewEpoch(new),
        ..silent(ENOUGH_ACCEPTED)
    };
    let (answer, election) = decided(joint, 1, &[1, 2, 4, 5], true)?;
    assert!(rt; answer == expected && election == starting(new, &[1], 0));
    let expected = Answer {
        save: None,
        then: Then::SyncOn(new),
        ..expected
    };
    let (answer, election) = decided(joint, 1, &[1, 2, 4, 5], false)?;
    assert!(rt; answer == expected && election == starting(new, &[], 0));
    let dropped = Fact {
        change: Change::Drop,
        ..joint
    };
    let (answer, _election) = decided(dropped, 2, &[1, 2, 4, 5], true)?;
    assert!(rt; answer == silent(Then::Follow));
    Ok(())
}

/// Applies rule 4 to a start of peer 2, on a fact that 3 and 5 accepted.
fn insists(fact: Fact, age: u8) -> (Answer, Election)
    requires { age < 8 }
{
    let accepts = set(&[3, 5]);
    let mut election = Election::Starting { fact, accepts, age };
    let answer = summary(election.rule_4(PeerId(2), true));
    (answer, election)
}

#[test]
fn an_election_ends_with_its_age(rt: HostRuntime) -> Result<(), Fail> {
    let mut election = Election::Preparing {
        base: joint()?,
        promises: set(&[2]),
        asked: set(&[1, 2, 3]),
        age: 5,
    };
    assert!(rt; summary(election.rule_3()) == silent(Then::Rule(PhaseRule::BeginProbing)));
    let repeats = Answer {
        to: set(&[1, 4, 6]),
        said: Said::NewEpoch(joint()?),
        ..silent(Then::Resume)
    };
    for (age, expected) in [(6, repeats), (7, silent(Then::Follow))] {
        assert!(rt; age < 8);
        let (answer, election) = insists(joint()?, age);
        assert!(rt; answer == expected && election == starting(joint()?, &[3, 5], age + 1));
    }
    Ok(())
}

#[test]
fn a_quorum_and_its_own_acceptance_make_a_leader(rt: HostRuntime) -> Result<(), Fail> {
    let joint = joint()?;
    let mut election = starting(joint, &[1, 3, 4, 5], 0);
    assert!(rt; summary(election.rule_14(PeerId(2))) == silent(Then::Stay));
    let mut election = starting(joint, &[2, 3, 5], 0);
    for (of, seq, then) in [
        (epoch(7, 3), 1, Then::Stay),
        (epoch(7, 2), 2, Then::Stay),
        (epoch(7, 2), 1, ENOUGH_ACCEPTED),
    ] {
        let out = election.rule_17(saved()?, PeerId(6), of, seq);
        assert!(rt; summary(out) == silent(then), "{of} {seq}");
    }
    assert!(rt; election == starting(joint, &[2, 3, 5, 6], 0));
    assert!(rt; summary(election.rule_14(PeerId(2))) == silent(Then::Lead(joint)));
    Ok(())
}
