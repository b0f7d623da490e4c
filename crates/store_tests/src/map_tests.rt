use crate::trees::{MemTree, entry, find, fresh, insert};
use ens_base::{Entry, Key};
use hash_book::PlainHasher;
use std::alloc::Global;
use std::test::Fail;
use tree_node::TreeVersion;
use tree_repair::{NoGate, ascends, build, install, rebuild};

/// A tree into which the keys 0 to 99, of one byte each, were written in the versions 1 to 199.
fn written(alloc: Global) -> Result<MemTree, Fail> {
    let mut tree = fresh(alloc, TreeVersion::One)?;
    for seq in 1..200u64 {
        insert(alloc, &mut tree, &entry(alloc, &[(seq % 100) as u8], seq)?)?;
    }
    Ok(tree)
}

/// The newest entry of each of these keys, in their order.
fn newest(alloc: Global) -> Result<Vec<Entry>, Fail> {
    let mut entries = Vec::new(alloc);
    for key in 0..100u8 {
        entries.push(entry(alloc, &[key], 100 + key as u64)?)?;
    }
    Ok(entries)
}

/// Whether the tree has each of the entries.
fn has_all(alloc: Global, tree: &mut MemTree, entries: &[Entry]) -> Result<bool, Fail> {
    for entry in entries {
        if find(alloc, tree, &entry.key)?.as_ref() != Some(entry) {
            return Ok(false);
        }
    }
    Ok(true)
}

/// Whether the tree has an entry of the key `gone`.
fn has_gone(alloc: Global, tree: &mut MemTree) -> Result<bool, Fail> {
    Ok(find(alloc, tree, &Key::new(alloc, b"gone")?)?.is_some())
}

#[test]
fn a_build_makes_the_tree_of_the_inserts_and_a_rebuild_that_of_its_entries(
    rt: HostRuntime,
) -> Result<(), Fail> {
    let alloc = rt.alloc();
    let newest = newest(alloc)?;
    assert!(rt; ascends(newest.as_slice()));
    let built = build(
        &rt,
        alloc,
        TreeVersion::One,
        &mut PlainHasher,
        &NoGate,
        newest.as_slice(),
    )?;
    let mut tree = fresh(alloc, TreeVersion::One)?;
    install(alloc, &mut tree, &built)?;
    assert!(rt; tree.top() == written(alloc)?.top() && tree.top() == Some(built.top));
    insert(alloc, &mut tree, &entry(alloc, b"gone", 1)?)?;
    rebuild(&rt, alloc, &mut tree, &mut PlainHasher, newest.as_slice())?;
    assert!(rt; has_all(alloc, &mut tree, newest.as_slice())? && !has_gone(alloc, &mut tree)?);
    Ok(())
}
