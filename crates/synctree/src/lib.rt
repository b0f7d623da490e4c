//! A hash tree over a store of nodes, and the maps that such trees stand for.
//!
//! Maps that stand under digests: what a hash tree means, apart from any store.
//!
//! The form of a tree says how many children an inner node has, how many levels there are, and how
//! nodes are encoded. A map from keys to entries stands under a digest if the tree of the map, in
//! which each node is named by its MD5, has this digest at its root. `specs/Maps.antt` defines
//! this, and `specs/Sixteen.antt` the form of the tree that peers keep, in each version. Each law is a function
//! without effect.
//!
//! A hash tree of entries, in a store of nodes that may lie.
//!
//! [`Tree`] keeps a map from keys to entries as nodes, each stored under its MD5. The top record
//! has the digest of the root. Apart from it, nothing that the store returns is used before its MD5
//! was compared with the digest that names it; a node that does not verify is reported as damaged.
//!
//! The contract of each call is a plan: the calls that it makes to the store and to the hasher, and
//! what follows each answer. `specs/Plans` defines plans and how they end, `specs/Trees` the plan
//! of each call, and `specs/Outsides` what the store and the hasher may answer. `specs/Meanings`
//! says what a call means for the map that stands under the top record.
#![tactic(auto)]

mod calls;
mod encoding;
mod entering;
mod error;
mod installing;
mod laws;
mod nodes;
mod reading;
mod seals;
mod shape;
mod store;
mod stored_node;
mod tree;
mod versions;
mod walk;

pub use encoding::{encode_inner, encode_segment};
pub use error::TreeError;
pub use laws::{nodes_are_read_again, one_map_stands};
pub use shape::{ROOT, child, children, nibble};
pub use stored_node::StoredNode;
pub use tree::{Tree, TreeMark};
pub use tree_node::{
    InnerNode, NodeError, Position, Segment, TreeVersion, decode_inner, decode_segment,
};
