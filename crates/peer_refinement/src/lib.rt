//! The stores, the replies and the syncs of one peer refine the abstract protocol.
//!
//! The tree of a peer over stores in memory is a map.
//!
//! A tree shows a map if the map stands under the digest of its root, and the text of each node of
//! the map was hashed. `specs/Trees` defines that, and `specs/TreeLaws` has what each call of a step
//! answers and does then, if no two different strings that were hashed have one MD5: a find returns
//! the entry that the map has, a read the text of the node, and a scan the entries; an entering
//! puts its entry into the map, and after a fresh start or an installing the tree shows the new
//! map. A call that meets a position that does not verify says so and leaves the map.
//!
//! Nothing is asked there of the nodes in the store, which may be missing or wrong.
//!
//! `specs/Whole` has what holds where nobody damages a store: the text of each node of the map is
//! stored under its MD5, and no failure waits in the stores of the peer. Then no call meets damage
//! or is refused, and the tree stays so. The top record names the root, and an opening takes it from
//! there.
//!
//! `specs/Tops` has what each call does to the list of the top records, in any state of the nodes and
//! also where the write of the top record is refused: an entering that meets no damage and a new tree
//! add one record, which names the new map, and where the write is refused that record is added or
//! none is. An opened tree shows the map that the top record names, and no other call adds a record.
//!
//! What a peer replies to the requests of a leader, and which object an entry of a tree names.
//!
//! The digest of an object is the MD5 of its spelling (`hash_of`). As long as no two different
//! strings that were hashed have one MD5, an object that matches an entry is the object that the book
//! of the abstract protocol gives to the entry's version (`specs/Naming`). So what a peer finds in
//! its own tree and backend, and what comes with a reply and is confirmed, is what the rules of a
//! leader rely on.
//!
//! `specs/Replies` relates the saved fact of a peer and the map of its tree to the abstract protocol,
//! and says what each reply says. `specs/RequestLaws` has the laws: the rows of the rules 20, 21 and 22
//! reply what holds, a put ends as a write and an acknowledgement, as an acknowledgement, or as
//! nothing, and what was said stays so. That the stores of a peer show such a map is not shown here,
//! nor is the step of a peer that runs the rules.
//!
//! Running syncs refine those of the abstract protocol.
//!
//! A running sync has the scan of the own tree, the asks of the other members, and the sources that
//! have finished. `specs/Seen` shows it as the theory of syncs sees it: with maps from keys to versions,
//! and sets of keys that are left to ask. `specs/Syncs` says what holds of a running sync, and of the
//! node of a tree that a source sends. `specs/SyncLaws` has the laws: a sync begins and resumes, it takes
//! what sources send, and at its end the merged entries are a map that the peer may install.
#![tactic(auto)]

mod request_laws;
mod sync_laws;
mod tree_laws;

pub use request_laws::{entries_name_objects, peers_reply, replies_stay};
pub use sync_laws::{syncs_refine_the_protocol, syncs_stay};
pub use tree_laws::{
    calls_keep_the_map, sealed_trees_show_the_map, top_records_name_maps,
    whole_trees_have_no_damage,
};
