use crate::phase_builders::{Answer, Said, epoch, set, silent, summary, tells, view};
use ens_base::{PeerId, Views};
use phase_rows::{PhaseRule, Then};
use phase_rules::{Probing, rule_7, rule_8_probe};
use std::test::Fail;
use stored_formats::Fact;

const ENOUGH_HEARD: Then = Then::Rule(PhaseRule::EnoughHeard);

/// The fact of number 1 in epoch 2.2, on the views 1 2 3, at ballot 7.1.
fn saved() -> Result<Fact, Fail> {
    let mut fact = Fact::opening(view(&[1, 2, 3])?);
    fact.ballot = epoch(7, 1);
    fact.epoch = epoch(2, 2);
    fact.seq = 1;
    Ok(fact)
}

/// A fact of number 2 that tells of ballot 9.1, on the new view 3 4 5 and the old view 1 3 6.
fn newer() -> Result<Fact, Fail> {
    let mut fact = saved()?;
    fact.ballot = epoch(9, 1);
    fact.seq = 2;
    fact.views = Views::two(view(&[3, 4, 5])?, view(&[1, 3, 6])?);
    Ok(fact)
}

fn probe_state(best: Fact, count: u64, heard: &[u32], asked: &[u32]) -> Probing {
    Probing {
        best,
        count,
        heard: set(heard),
        asked: set(asked),
        age: 0,
    }
}

#[test]
fn a_probe_asks_the_other_members_and_is_answered(rt: HostRuntime) -> Result<(), Fail> {
    let asks = Answer {
        to: set(&[1, 3]),
        said: Said::Probe,
        ..silent(ENOUGH_HEARD)
    };
    let (given, state) = rule_7(saved()?, PeerId(2));
    assert!(rt; summary(given) == asks);
    assert!(rt; state == Some(probe_state(saved()?, 7, &[2], &[1, 2, 3])));
    let answer = summary(rule_8_probe(saved()?, PeerId(3)));
    assert!(rt; answer == tells(3, Said::ProbeReply(saved()?), Then::Stay));
    Ok(())
}

#[test]
fn the_newest_fact_and_the_greatest_count_are_kept(rt: HostRuntime) -> Result<(), Fail> {
    let (saved, newer) = (saved()?, newer()?);
    let older = Fact { seq: 0, ..newer };
    let asks = Answer {
        to: set(&[5, 6]),
        said: Said::Probe,
        ..silent(ENOUGH_HEARD)
    };
    let before = probe_state(saved, 7, &[4], &[1, 2, 3]);
    for (reply, expected, after) in [
        (
            newer,
            asks,
            probe_state(newer, 9, &[2, 4], &[1, 2, 3, 4, 5, 6]),
        ),
        (
            older,
            silent(ENOUGH_HEARD),
            probe_state(saved, 9, &[2, 4], &[1, 2, 3]),
        ),
    ] {
        let mut probing = before;
        let out = probing.rule_8(PeerId(4), PeerId(2), reply);
        assert!(rt; summary(out) == expected && probing == after);
    }
    Ok(())
}

#[test]
fn a_majority_of_each_view_ends_a_probe(rt: HostRuntime) -> Result<(), Fail> {
    let mut few = probe_state(newer()?, 7, &[3, 4, 5, 9], &[]);
    assert!(rt; summary(few.rule_9()) == silent(Then::Stay));
    let mut enough = probe_state(newer()?, 7, &[3, 4, 6], &[]);
    assert!(rt; summary(enough.rule_9()) == silent(Then::Rule(PhaseRule::Prepare)));
    let mut old = Probing {
        best: newer()?,
        count: 7,
        heard: set(&[4]),
        asked: set(&[]),
        age: 5,
    };
    assert!(rt; summary(old.rule_3()) == silent(Then::Rule(PhaseRule::BeginProbing)));
    Ok(())
}
