use crate::sync_builders::{CHILD, ROOT, entry, inner, merged, question, start, take, take_tree};
use ens_base::PeerId;
use std::test::Fail;
use tree_node::TreeBody;

/// Neither of the other members trusts its tree, so that all three must finish. Of `abc` peer 2 has
/// the greater version. The key `aird` has the same segment.
#[test]
fn when_all_members_have_finished_their_trees_are_merged(rt: HostRuntime) -> Result<(), Fail> {
    let alloc = rt.alloc();
    let (mut sync, _sends) = start(alloc, entry(alloc, "abc", 1)?)?;
    take_tree(alloc, &mut sync, 2, entry(alloc, "abc", 2)?)?;
    let outcome = sync.outcome(alloc)?;
    assert!(rt; merged(&outcome).is_none());
    take_tree(alloc, &mut sync, 3, entry(alloc, "aird", 1)?)?;
    let outcome = sync.outcome(alloc)?;
    let wanted = [entry(alloc, "abc", 2)?, entry(alloc, "aird", 1)?];
    assert!(rt; merged(&outcome) == Some(wanted.as_slice()));
    Ok(())
}

#[test]
fn a_dropped_source_is_asked_for_its_root_anew(rt: HostRuntime) -> Result<(), Fail> {
    let alloc = rt.alloc();
    let (mut sync, sends) = start(alloc, entry(alloc, "abc", 1)?)?;
    assert!(rt; sends.as_slice().len() == 2);
    let next = take(alloc, &mut sync, 2, ROOT, inner(alloc, 512)?)?;
    assert!(rt; next.as_slice().len() == 1);
    assert!(rt; question(&next.as_slice()[0]) == Some((PeerId(2), CHILD)));
    let none = take(alloc, &mut sync, 2, CHILD, TreeBody::Damaged(CHILD))?;
    assert!(rt; none.as_slice().is_empty());
    let again = sync.resume(alloc)?;
    assert!(rt; again.as_slice().len() == 2);
    assert!(rt; question(&again.as_slice()[0]) == Some((PeerId(2), ROOT)));
    Ok(())
}
