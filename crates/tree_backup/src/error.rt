ghost use Rattle.std.specs.Prelude.{◌≡◌};
ghost use Rattle.tree_backup.specs.Causes.{cause_of, of_tree, of_store, of_hash};
ghost use Rattle.tree_backup.specs.declared.error.BackupError.TheVariants.{Memory};

use ens_base::{CopyError, Digest, Key};
use environment::StoreError;
use hash_book::HashError;
use std::alloc::{AllocError, AllocFailed};
use stored_formats::ObjectError;
use synctree::TreeError;
use tree_node::Position;

/// Why a tree was not backed up, why bytes are no backup, or why a backup was not restored.
#[derive(Debug, PartialEq, Eq, Drop)]
pub enum BackupError {
    /// The bytes end before the backup does.
    Short,
    /// Bytes follow the backup.
    Trailing,
    /// The magic number, a version or a flag has another value than it may have.
    BadTag,
    /// The keys of the entries do not strictly ascend. Of a backup that is made: the tree has a key
    /// twice.
    Order,
    /// The length of the key of an entry is not 1 to 64.
    Length,
    /// An object has a bad tag, or a key or a value of a wrong length.
    BadObject(ObjectError),
    /// The object of the entry of this key does not match the entry. It is the first that does not.
    Mismatch(Key),
    /// The digest that is named for the top record is not that of the build of the entries.
    Top { named: Digest, built: Digest },
    /// The first position of the tree that does not verify.
    Damaged(Position),
    /// A store failed: its count of faults rose.
    Failed,
    /// Two different strings have the same digest: the one kept, and the new one.
    Clash { first: Vec<u8>, second: Vec<u8> },
    /// The book of hashes would pass its limit with the new string. Holds the number of bytes kept.
    BookFull(u64),
    /// Out of memory.
    Memory,
}

impl BackupError {
    /// Returns the number of the cause, from 1 to 13 in the order of the variants.
    pub fn cause(&self) -> u8
        ensures { result ≡ cause_of self.now }
    {
        match self {
            BackupError::Short => 1,
            BackupError::Trailing => 2,
            BackupError::BadTag => 3,
            BackupError::Order => 4,
            BackupError::Length => 5,
            BackupError::BadObject(_) => 6,
            BackupError::Mismatch(_) => 7,
            BackupError::Top { .. } => 8,
            BackupError::Damaged(_) => 9,
            BackupError::Failed => 10,
            BackupError::Clash { .. } => 11,
            BackupError::BookFull(_) => 12,
            BackupError::Memory => 13,
        }
    }
}

impl From<AllocError> for BackupError {
    ghost from_gives = { λ _ e. e ≡ Memory };

    fn from(_e: AllocError) -> BackupError {
        BackupError::Memory
    }
}

impl<T: Drop> From<AllocFailed<T>> for BackupError {
    ghost from_gives = { λ _ e. e ≡ Memory };

    fn from(_e: AllocFailed<T>) -> BackupError {
        BackupError::Memory
    }
}

impl From<CopyError> for BackupError {
    ghost from_gives = { λ _ e. e ≡ Memory };

    fn from(_e: CopyError) -> BackupError {
        BackupError::Memory
    }
}

/// Returns the error for one of a tree.
pub(crate) fn tree_error(error: TreeError) -> BackupError
    ensures { result ≡ of_tree error }
{
    match error {
        TreeError::Damaged(at) => BackupError::Damaged(at),
        TreeError::Failed => BackupError::Failed,
        TreeError::Clash { first, second } => BackupError::Clash { first, second },
        TreeError::BookFull(bytes) => BackupError::BookFull(bytes),
        TreeError::Memory => BackupError::Memory,
    }
}

/// Returns the error for one of a store.
pub(crate) fn store_error(error: StoreError) -> BackupError
    ensures { result ≡ of_store error }
{
    match error {
        StoreError::Failed => BackupError::Failed,
        StoreError::Memory => BackupError::Memory,
    }
}

/// Returns the error for one of a hasher.
pub(crate) fn hash_error(error: HashError) -> BackupError
    ensures { result ≡ of_hash error }
{
    match error {
        HashError::Clash { first, second } => BackupError::Clash { first, second },
        HashError::BookFull(bytes) => BackupError::BookFull(bytes),
        HashError::Memory => BackupError::Memory,
    }
}
