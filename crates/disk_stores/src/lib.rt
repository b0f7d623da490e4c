//! The stores of a peer on disks, each a log.
//!
//! A finite map from names to bytes, kept as a log on a disk: each put appends a record, and an
//! index in memory has the place of the content of each name.
//!
//! A log opens on a disk that holds any bytes. It stands for the map of the records at the front of
//! the file, up to the first that is not whole, and cuts off the rest. Over a disk that tells its
//! bytes, each call does what the same call of a finite map does, or fails and leaves the map as it
//! was. `specs/Records` defines the map that a file holds, and `specs/Logs` the map that a log
//! stands for.
//!
//! The objects and the tree nodes of a peer on disks, each as a log of `disk_stores`.
//!
//! Over a disk that tells its bytes, each store is a finite map: a get or a read returns what the
//! last successful put or write of its name stored, also after `into_disk` and `open`. A call that
//! fails leaves the map as it was. `specs/NodeMaps` says how nodes and the top record are kept as
//! entries of one map, and `specs/DiskCalls` what each call does.
#![tactic(auto)]

mod backend;
mod file;
mod header;
mod laws;
mod log;
mod nodes;
mod place;
mod recent;
mod scan;

pub use backend::DiskBackend;
pub use file::LogFile;
pub use laws::a_file_holds_what_was_put;
pub use log::{Log, NAME_LIMIT};
pub use nodes::DiskNodes;
pub use place::Place;
