//! Whole trees: what each change of a tree leaves, the scan of a tree, and its plain build.
//!
//! Laws of the calls of a tree, in terms of their contracts: what each call that changes a tree leaves
//! in the top record of its store, and what an insert does to the map under that record.
//!
//! A store may know what its top record holds (`top_record`). A change that succeeds leaves its new
//! digest there. After damage, a clash or a full book the record is as it was. After a failure of the
//! store it is as it was or holds the new digest (`LeavesTop` in `specs/Tops`). When out of memory it is
//! as it was: a plan may run out of memory after its last call, so that does not follow from the plan,
//! but the calls of `synctree` say it of themselves (`KeptUnlessFailed`).
//!
//! The scan of a hash tree: all entries that verify, and the positions nearest the root that do not.
//!
//! [`scan`] goes through the tree level by level: it reads the nodes of a level, hashes them by
//! threads ([`digests`]), and goes on with their children. A [`Gate`] sees each piece of that work
//! begin, and says from how many nodes on threads share a level. `specs/Levels.antt` has the plan of a
//! scan, `specs/PlainScans.antt` the plain scan by recursion that finds the same, and
//! `specs/Scans.antt` what it means for the map that stands under the top record.
//!
//! The plain build of a hash tree, and its install.
//!
//! [`build`] returns the nodes of the tree of a map, the lowest level first, each with its digest,
//! and the digest of the root; it hashes the keys, and the nodes of a level, by threads. [`install`]
//! writes the nodes into the store of a tree, and the top record last; then the map stands under the
//! new top record. [`rebuild`] builds and installs in one call.
//! `specs/Builds.antt` defines the plain build, which knows of no store and of no hasher,
//! `specs/Admitting.antt` what the hasher did, and `specs/Rebuilds.antt` the plan of a rebuild.
#![tactic(auto)]

mod admitting;
mod ascending;
mod building;
mod built;
mod entering;
mod gate;
mod hashing;
mod inner;
mod installing;
mod last;
mod laws;
mod level;
mod opening;
mod order;
mod paths;
mod rebuilding;
mod repair_level;
mod runs;
mod scanning;
mod segments;
mod slot;
mod sorting;
mod step;
mod tops;

pub use ascending::ascends;
pub use building::build;
pub use built::Built;
pub use entering::{entries_fit, insert};
pub use gate::{Gate, NoGate};
pub use hashing::digests;
pub use installing::install;
pub use laws::{
    a_scan_finds_what_is_stored, a_scan_goes_by_depth, a_scan_is_the_plain_scan,
    damage_is_no_error, memory_has_a_content,
};
pub use rebuilding::rebuild;
pub use scanning::scan;
pub use slot::Slot;
pub use tops::{
    an_empty_map_leaves_the_old_or_the_new_record, an_insert_leaves_the_old_or_the_new_record,
    an_install_leaves_the_old_or_the_new_record,
};
