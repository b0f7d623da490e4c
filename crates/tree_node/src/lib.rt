//! The nodes of the hash tree, in each [`TreeVersion`]: their positions, and how they are spelled as bytes.
//!
//! [`decode_inner`] and [`decode_segment`] return the node at the position asked for that the bytes
//! spell, or the first fault from the left. [`InnerNode::encode`] and [`Segment::encode`] write that
//! spelling, and no node's spelling begins another's. [`TreeBody`] is what a peer sends of a node, and
//! [`Scan`] what a scan of the tree found. The grammars are in `specs/`.
#![tactic(auto)]

mod body;
mod encoding;
mod entries;
mod error;
mod faults;
mod laws;
mod node;
mod position;
mod reading;
mod version;

pub use body::{Scan, TreeBody};
pub use entries::{append_digests, append_entries, take_digests, take_entries};
pub use error::NodeError;
pub use faults::nodes_fault_first;
pub use laws::{nodes_stand_apart, positions_have_a_grammar};
pub use node::{InnerNode, Segment};
pub use position::{Position, put_position, take_position};
pub use reading::{decode_inner, decode_segment};
pub use version::TreeVersion;
