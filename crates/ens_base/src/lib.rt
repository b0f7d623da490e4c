//! The vocabulary of every other crate: peers, epochs and versions, keys and values, views and sets
//! of peers, commands and replies, and the exit statuses of the programs.
//!
//! A contract sees each type as the value it stands for: a key as its bytes, a view as the
//! ascending list of its members, a set of peers as one flag for each number. This crate knows no
//! rule of the protocol. The definitions stand in `specs/`, one file for each noun.
#![tactic(auto)]

mod bytes;
mod command;
mod copy_error;
mod digest;
mod entry;
mod epoch;
mod failed;
mod key;
mod limits;
mod peer;
mod peer_set;
mod peer_words;
mod refused;
mod reply;
mod seq;
mod status;
mod value;
mod view;
mod views;
mod words;

pub use bytes::Bytes;
pub use command::Command;
pub use copy_error::{CopyError, LengthError};
pub use digest::Digest;
pub use entry::{Entry, copy_entry};
pub use epoch::{Epoch, Version};
pub use failed::Failed;
pub use key::{Key, copy_key};
pub use limits::{MAX_LINE_BYTES, MAX_LINES};
pub use peer::PeerId;
pub use peer_set::PeerSet;
pub use peer_words::{ClusterWords, PeerWords};
pub use refused::Refused;
pub use reply::Reply;
pub use seq::Seq;
pub use status::Status;
pub use value::Value;
pub use view::{View, ViewError};
pub use views::Views;
pub use words::{push_bytes, push_value};
