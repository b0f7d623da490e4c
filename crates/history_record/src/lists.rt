ghost use Rattle.std.specs.Prelude.{◌≡◌, ◌++◌, ◌∷◌, [], if◌then◌else◌, OnOk};
ghost use Rattle.std.specs.Ordering.{is_eq};
ghost use Rattle.history_record.specs.Lookups.{list_at};

use ens_base::Seq;
use std::alloc::{AllocError, Global};
use std::collections::BTreeMap;

/// A list for each key. The list of a key that was never used is empty.
#[derive(Drop)]
pub(crate) struct Lists<K: Ord, T> {
    lists: BTreeMap<K, Seq<T>>,
}

impl<K: Ord, T> Lists<K, T> {
    /// Makes a map in which every list is empty.
    pub(crate) fn new(alloc: Global) -> Lists<K, T>
        ensures { (k : K) → list_at K.cmp result.lists k ≡ [] }
    {
        Lists {
            lists: BTreeMap::new(alloc),
        }
    }

    /// Returns the list of the key.
    pub(crate) fn of(&self, key: &K) -> &[T]
        ensures { result.now ≡ list_at K.cmp self.now.lists key.now }
    {
        match self.lists.get(key) {
            Some(list) => list.as_slice(),
            None => &[],
        }
    }

    /// Appends an item to the list of the key.
    pub(crate) fn push(&mut self, alloc: Global, key: K, item: T) -> Result<(), AllocError>
    where
        K: Drop,
        T: Drop,
        ensures { OnOk result ((k : K) → list_at K.cmp self.new.lists k ≡ (if is_eq (K.cmp key k) then list_at K.cmp self.old.lists k ++ item ∷ [] else list_at K.cmp self.old.lists k)) }
    {
        if let Some(list) = self.lists.get_mut(&key) {
            list.push(item)?;
            return Ok(());
        }
        let mut list = Seq::new(Vec::new(alloc));
        list.push(item)?;
        self.lists.insert(key, list)?;
        Ok(())
    }
}
