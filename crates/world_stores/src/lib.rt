//! The stores of a peer in a schedule, and the lines that damage them.
//!
//! The stores of a peer in a schedule: objects, nodes and the fact, in memory.
//!
//! A schedule can make the next write of a store fail, with its effect or without it, however many
//! reads come before that write and whether or not the peer stops in between. It can also replace
//! what a store holds, and take back the last writes of the top record. Reads never fail and leave
//! a store unchanged, and so do all calls when out of memory. `specs` has one file for each store.
//!
//! The stored nodes of a tree that a schedule damages.
//!
//! [`damage`] replaces the bytes of the segment of a key, or removes that node, and [`inner`] does
//! the same to an inner node. The node is found from the top record down, through the nodes as they
//! are stored. No digest is compared on the way: if a child is missing, or bytes on the way encode
//! no node of their position, nothing changes. [`version_stored`] tells the version of the tree by its
//! stored root. `specs/Naming` defines both, and which digest the stored nodes name at a position, `specs/NodeFaults` what then changes, and `specs/Laws` what this means for a map
//! that stands under the top record.
#![tactic(auto)]

mod fact;
mod faults;
mod laws;
mod naming;
mod node_faults;
mod nodes;
mod objects;

pub use fact::HeldFact;
pub use faults::Faults;
pub use laws::{
    a_build_has_the_nodes, a_stored_build_holds_its_map, keys_lie_in_their_segments,
    names_are_digests,
};
pub use naming::version_stored;
pub use node_faults::{damage, inner};
pub use nodes::HeldNodes;
pub use objects::HeldObjects;
