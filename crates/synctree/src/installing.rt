ghost use Rattle.std.specs.Prelude.{◌≡◌, IfOk};
ghost use Rattle.synctree.specs.Installs.{store_does, store_refuses, write_all as write_all_plan, install_plan};
ghost use Rattle.synctree.specs.Plans.{Did};
ghost use Rattle.synctree.specs.Records.{KeptUnlessFailed};

use crate::calls::{set_top, write};
use crate::error::TreeError;
use crate::stored_node::StoredNode;
use ens_base::Digest;
use environment::NodeStore;
use std::alloc::Global;

/// Writes the nodes in order, each under its digest.
fn write_all<N: NodeStore>(
    alloc: Global,
    store: &mut N,
    nodes: &[StoredNode],
) -> Result<(), TreeError>
    ensures { Did (store_does N.may_answer N.top_record N.fault_count) (store_refuses N.may_refuse N.top_record N.fault_count)
        (write_all_plan nodes.now) store.old result store.new }
{
    for node in nodes {
        write(alloc, store, &node.digest, node.bytes.as_slice())?;
    }
    Ok(())
}

/// Writes the nodes in order, each under its digest, and then the top record. Returns the digest in
/// the top record.
pub(crate) fn install_all<N: NodeStore>(
    alloc: Global,
    store: &mut N,
    nodes: &[StoredNode],
    top: &Digest,
) -> Result<Digest, TreeError>
    ensures did { Did (store_does N.may_answer N.top_record N.fault_count) (store_refuses N.may_refuse N.top_record N.fault_count)
        (install_plan nodes.now top.now) store.old result store.new }
    ensures top { IfOk result (λ digest. digest ≡ top.now) }
    ensures kept { KeptUnlessFailed (N.top_record store.old) (N.top_record store.new) result }
{
    write_all(alloc, store, nodes)?;
    set_top(store, top)?;
    Ok(*top)
}
