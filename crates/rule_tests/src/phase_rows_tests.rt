use crate::phase_builders::{epoch, set, view};
use ens_base::{PeerId, Views};
use phase_rows::{
    alone, is_below, is_member, is_newer, joined, may_accept, members, others_of, others_outside,
    with_members,
};
use std::test::Fail;
use stored_formats::Fact;

#[test]
fn members_of_two_views(rt: HostRuntime) -> Result<(), Fail> {
    let views = Views::two(view(&[1, 4, 5])?, view(&[1, 2, 31])?);
    assert!(rt; is_member(&views, PeerId(31)) && !is_member(&views, PeerId(3)));
    assert!(rt; members(&views) == set(&[1, 2, 4, 5, 31]));
    assert!(rt; others_outside(PeerId(1), &alone(PeerId(4)), &views) == set(&[2, 5, 31]));
    assert!(rt; with_members(&alone(PeerId(7)), &views) == set(&[1, 2, 4, 5, 7, 31]));
    let two = joined(alone(PeerId(7)), PeerId(1));
    assert!(rt; others_of(PeerId(1), &two) == alone(PeerId(7)));
    Ok(())
}

#[test]
fn epochs_and_facts_in_their_order(rt: HostRuntime) -> Result<(), Fail> {
    assert!(rt; is_below(epoch(1, 2), epoch(2, 1)) && !is_below(epoch(1, 1), epoch(1, 1)));
    let old = view(&[1, 2, 4])?;
    let first = Fact::opening(old);
    let mut second = first;
    second.seq = 1;
    assert!(rt; is_newer(&second, &first) && !is_newer(&second, &second));
    second.views = Views::two(view(&[1, 3, 4])?, old);
    assert!(rt; may_accept(true, PeerId(2), &second) && !may_accept(true, PeerId(1), &second));
    Ok(())
}
