use crate::phase_builders::{Answer, Said, epoch, set, silent, summary, view};
use ens_base::{PeerId, PeerSet, View, Views};
use phase_rows::{PhaseRule, Then};
use phase_rules::{Finishing, rule_24, rule_25};
use std::test::Fail;
use stored_formats::{Change, Fact};

const PREPARES: Then = Then::Rule(PhaseRule::Prepare);

/// A fact of the epoch 4.2.
fn fact(seq: u64, views: Views, change: Change) -> Fact {
    Fact {
        ballot: epoch(4, 2),
        epoch: epoch(4, 2),
        seq,
        leader: PeerId(2),
        views,
        change,
    }
}

/// Applies rule 24 to a request, and returns whether it is taken, or `None` if the answer does not fit.
fn asks(fact: Fact, leading: bool, finishing: bool, view: View) -> Option<bool> {
    let (out, taken) = rule_24(fact, leading, finishing, view);
    let then = if taken {
        Then::Rule(PhaseRule::BeginChange)
    } else {
        Then::Stay
    };
    if summary(out) == silent(then) {
        Some(taken)
    } else {
        None
    }
}

#[test]
fn a_request_to_change_the_view(rt: HostRuntime) -> Result<(), Fail> {
    let (new, old) = (view(&[1, 2, 3])?, view(&[3, 4, 5])?);
    let one = fact(1, Views::one(old), Change::None);
    let two = fact(1, Views::two(new, old), Change::None);
    for (fact, leading, finishing, view, taken) in [
        (one, true, false, new, true),
        (one, false, false, new, false),
        (one, true, true, new, false),
        (one, true, false, old, false),
        (two, true, false, new, false),
        (two, true, false, old, false),
    ] {
        assert!(rt; asks(fact, leading, finishing, view) == Some(taken));
    }
    Ok(())
}

#[test]
fn a_change_is_announced_and_its_acceptances_counted(rt: HostRuntime) -> Result<(), Fail> {
    let views = Views::one(view(&[3, 4, 5])?);
    let change = Change::Add(view(&[1, 2, 3])?);
    let second = fact(2, views, change);
    let (out, begun) = rule_25(
        fact(1, views, Change::None),
        PeerId(3),
        set(&[3, 4, 9]),
        change,
    );
    let expected = Answer {
        save: Some(second),
        to: set(&[4, 9]),
        said: Said::Commit(second),
        ..silent(Then::Stay)
    };
    let accepts2 = set(&[3]);
    assert!(rt; summary(out) == expected && begun == Some(Finishing { accepts2, age: 0 }));
    for (of, seq, accepted) in [
        (epoch(4, 2), 2, set(&[3, 4])),
        (epoch(4, 2), 1, set(&[3])),
        (epoch(5, 2), 2, set(&[3])),
    ] {
        let mut finishing = Finishing { accepts2, age: 5 };
        let out = finishing.rule_17(second, PeerId(4), of, seq);
        assert!(rt;
            summary(out) == silent(Then::Stay) && finishing.accepts2 == accepted,
            "{of}"
        );
    }
    Ok(())
}

/// Applies rule 26, and returns which rule runs next, or `None` if the answer does anything else.
fn ends(accepts2: PeerSet, fact: Fact, me: u32, unanswered: bool) -> Option<Then> {
    let before = Finishing { accepts2, age: 7 };
    let mut finishing = before;
    let answer = summary(finishing.rule_26(fact, PeerId(me), unanswered));
    if finishing == before && answer == silent(answer.then) {
        Some(answer.then)
    } else {
        None
    }
}

#[test]
fn an_epoch_ends_with_a_quorum_of_each_view(rt: HostRuntime) -> Result<(), Fail> {
    let views = Views::two(view(&[1, 2, 3])?, view(&[3, 4, 5])?);
    let drops = fact(2, views, Change::Drop);
    assert!(rt; ends(set(&[1, 3, 4]), drops, 1, false) == Some(PREPARES));
    assert!(rt; ends(set(&[1, 3, 4]), drops, 1, true) == Some(Then::Stay));
    assert!(rt; ends(set(&[1, 3, 4]), drops, 4, false) == Some(Then::Follow));
    assert!(rt; ends(set(&[1, 2, 3]), drops, 1, false) == Some(Then::Stay));
    Ok(())
}
