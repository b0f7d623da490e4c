use ens_base::{PeerId, View, Views};
use quorums::{Round, RoundState, Tally};
use std::test::Fail;

/// The peers that answer, in turn, and the state of the round then.
const ANSWERS: [(u32, RoundState); 5] = [
    (2, RoundState::Open),
    (9, RoundState::Open),
    (3, RoundState::Open),
    (5, RoundState::Met),
    (4, RoundState::AllAnswered),
];

#[test]
fn a_joint_round_is_open_then_met_then_all_answered(rt: HostRuntime) -> Result<(), Fail> {
    let new = View::new(&[PeerId(1), PeerId(2), PeerId(3)])?;
    let old = View::new(&[PeerId(3), PeerId(4), PeerId(5)])?;
    let mut round = Round::start(Views::two(new, old), PeerId(1));
    for (peer, state) in ANSWERS {
        round.vote(PeerId(peer));
        assert!(rt; round.outcome() == state);
    }
    let mut tally = Tally::new(Views::two(new, old));
    tally.vote(PeerId(1));
    assert!(rt; !tally.is_quorum() && !tally.has_all(new) && !tally.has_every());
    Ok(())
}
