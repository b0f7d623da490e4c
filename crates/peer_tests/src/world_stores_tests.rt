use ens_base::{Digest, PeerId, View};
use environment::Leaves;
use fact_store::{FactKeeper, KeepError};
use std::test::Fail;
use stored_formats::{Change, Fact, SavedFact};
use world_stores::HeldFact;

#[test]
fn a_failed_save_leaves_the_old_fact_or_the_new_one(rt: HostRuntime) -> Result<(), Fail> {
    let first = SavedFact {
        fact: Fact::opening(View::new(&[PeerId(1), PeerId(2), PeerId(3)])?),
        seal: None,
    };
    let second = SavedFact {
        seal: Some(Digest([7; 16])),
        ..first
    };
    let mut held = HeldFact::empty();
    assert!(rt; held.save(&first) == Ok(()));
    held.fail_next(Leaves::Old);
    assert!(rt; held.save(&second) == Err(KeepError::Failed) && held.load() == Ok(Some(first)));
    held.fail_next(Leaves::New);
    assert!(rt; held.save(&second) == Err(KeepError::Failed) && held.load() == Ok(Some(second)));
    Ok(())
}
