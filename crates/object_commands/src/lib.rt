//! What a command comes to on the object of a key, and which bytes are that object.
//!
//! The effect of commands on the object of a key.
//!
//! `apply` returns exactly the outcome defined in `register_model`: the reply if the command leaves
//! the register unchanged, and otherwise the content to write. A key without an object, and a
//! tombstone, are the absent register. `on_absent` and `on_present` apply a command to a register
//! directly, `on_stamp` to a register of which only the stamp is known, and `on_any` to one of which
//! nothing is known.
//!
//! What a backend keeps under a key, and whether it is the object that an entry of the tree names.
//!
//! A backend promises nothing: its bytes may be no object, or an older one. So a peer accepts them
//! as the object of a key only if their key, version and digest are those of the tree's entry.
#![tactic(auto)]

mod commands;
mod kept;
mod verdict;

pub use commands::{apply, on_absent, on_any, on_present, on_stamp};
pub use ens_base::{CopyError, Key, PeerId, PeerSet, Reply, Seq, Views};
pub use kept::{entry_of, is_named, matching, object_in};
pub use register_model::Note;
pub use stored_formats::Object;
pub use verdict::{CommandError, Verdict};
