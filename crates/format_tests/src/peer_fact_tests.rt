use ens_base::{PeerId, View, Views};
use std::test::Fail;
use stored_formats::{Change, Fact, put_fact, take_fact};

/// The opening fact of the view 1 2 3.
const OPENING: [u8; 52] = [
    1, 0, 0, 0, 0, 0, 0, 0, 0, 0, 0, 0, 0, 0, 0, 0, 0, 0, 0, 0, 0, 0, 0, 0, 0, 0, 0, 0, 0, 0, 0, 0,
    0, 0, 0, 0, 0, 1, 3, 0, 0, 0, 1, 0, 0, 0, 2, 0, 0, 0, 3, 0,
];

fn opening() -> Result<Fact, Fail> {
    Ok(Fact::opening(View::new(&[PeerId(1), PeerId(2), PeerId(3)])?))
}

#[test]
fn the_opening_fact_of_52_bytes(rt: HostRuntime) -> Result<(), Fail> {
    let fact = opening()?;
    assert_eq!(rt; fact.change, Change::None);
    assert!(rt; fact.encode(rt.alloc())?.as_slice() == OPENING.as_slice());
    let mut put = Vec::new(rt.alloc());
    put_fact(&fact, &mut put)?;
    assert!(rt; take_fact(&put, 0)? == (fact, 52));
    Ok(())
}

#[test]
fn views_follow_the_change(rt: HostRuntime) -> Result<(), Fail> {
    let mut fact = opening()?;
    let old = fact.views.first();
    let new = View::new(&[PeerId(4)])?;
    fact.change = Change::Add(new);
    fact.seq = 1;
    assert!(rt; fact.next_views() == Views::two(new, old) && fact.newer_than(&opening()?));
    Ok(())
}
