//! The frames that peers send to one another, and to the programs that call them.
//!
//! [`decode_frame`] returns the frame that the bytes spell, or the first fault in the order of the
//! format, with its place. [`encode_frame`] writes that spelling, and no frame's spelling begins
//! another's. The grammar is in `specs/`: parts, calls, messages by their kinds, frames.
#![tactic(auto)]

mod decoding;
mod encoding;
mod error;
mod faults;
mod frame;
mod laws;
mod message;
mod put_calls;
mod put_kinds;
mod put_parts;
mod take_calls;
mod take_kinds;
mod take_late_kinds;
mod take_parts;

pub use decoding::decode_frame;
pub use encoding::encode_frame;
pub use ens_base::{Digest, Entry, Epoch, PeerId, PeerSet, Views};
pub use error::FrameError;
pub use faults::frames_fault_first;
pub use frame::Frame;
pub use laws::frames_stand_apart;
pub use message::{Message, NackCause};
pub use stored_formats::{BoxedObject, Change, Fact, FactError, Object, SavedFact};
pub use tree_node::{Position, Scan, TreeBody, TreeVersion};
