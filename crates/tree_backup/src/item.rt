use ens_base::{Digest, Entry, Seq};
use stored_formats::{BoxedObject, Object};

/// An entry of a tree, and the object that the entry names, if the backup has it.
#[derive(Debug, Drop)]
pub struct Item {
    pub entry: Entry,
    pub object: Option<BoxedObject>,
}

/// What the bytes of a backup say.
#[derive(Debug, Drop)]
pub struct Backup {
    /// The digest of the top record of the tree.
    pub top: Digest,
    /// The items, in ascending order of the keys of their entries.
    pub items: Seq<Item>,
}

/// What a backup holds: the map of a tree, and objects that its entries name.
#[derive(Debug, Drop)]
pub struct Content {
    /// The entries, in ascending order of keys.
    pub entries: Seq<Entry>,
    /// The objects, in ascending order of keys.
    pub objects: Seq<Object>,
}
