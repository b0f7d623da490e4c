ghost use Rattle.std.specs.Prelude.{◌≡◌, [], IfErr};
ghost use Rattle.std.specs.Thread.{IsSync};
ghost use Rattle.phase_rows.specs.TreeNode.{Two, AreAbove, IsPosition};
ghost use Rattle.step_plans.specs.Calls.{Call, Load, Save, FreshTree, OpenTree, Root, Find, Enter, ScanTree, ReadNode, Install, Fetch, Put, Hash, AnswerOf, Answers};
ghost use Rattle.step_plans.specs.declared.error.PeerError.{PeerError};
ghost use Rattle.step_plans.specs.declared.error.PeerError.TheVariants.{StoreFault};

use crate::error::PeerError;
use crate::walked::Walked;
use ens_base::{Bytes, Digest, Entry, Key};
use phase_rows::{Change, Fact, Position, SavedFact, Scan, TreeVersion};
use std::alloc::Global;
use std::thread::Threads;

/// The stores of a peer, which use a hasher lent to them. There is a method for each call that a rule
/// makes. Two relations say what a call may do.
pub trait Store<H> {
    /// Whether a call may give this answer, and leave the stores and the hasher in this state.
    ghost does: { Self × H → (call : Call) → AnswerOf call → Self × H → Type 0 };

    /// Whether a call may fail with this error, and leave the stores and the hasher in this state.
    ghost refuses: { Self × H → Call → PeerError → Self × H → Type 0 };

    /// Returns the kept fact, or `None` if no fact was ever saved.
    fn load(&mut self, hasher: &mut H) -> Result<Option<SavedFact>, PeerError>
        ensures { Answers does refuses (self.old, hasher.old) Load result (self.new, hasher.new) };

    /// Replaces the kept fact by `fact`. Needs no heap memory.
    fn save(&mut self, hasher: &mut H, fact: &SavedFact) -> Result<(), PeerError>
        ensures answers { Answers does refuses (self.old, hasher.old) (Save fact.now) result (self.new, hasher.new) }
        ensures only { IfErr result (λ e. e ≡ StoreFault) };

    /// Makes the tree empty, in this version.
    fn fresh_tree(
        &mut self,
        hasher: &mut H,
        alloc: Global,
        version: TreeVersion,
    ) -> Result<(), PeerError>
        ensures { Answers does refuses (self.old, hasher.old) (FreshTree version) result (self.new, hasher.new) };

    /// Opens the tree that is kept, in this version. Where there is a seal and the tree has another root,
    /// its root is damaged.
    fn open_tree(
        &mut self,
        hasher: &mut H,
        alloc: Global,
        seal: Option<Digest>,
        version: TreeVersion,
    ) -> Result<(), PeerError>
        ensures { Answers does refuses (self.old, hasher.old) (OpenTree seal version) result (self.new, hasher.new) };

    /// Returns the root of the running tree, or `None` if its root is damaged. Reads no store.
    fn root(&mut self, hasher: &mut H) -> Result<Option<Digest>, PeerError>
        ensures { Answers does refuses (self.old, hasher.old) Root result (self.new, hasher.new) };

    /// Returns the entry of the key in the tree, or `None` if it has none.
    fn find(
        &mut self,
        hasher: &mut H,
        alloc: Global,
        key: &Key,
    ) -> Result<Walked<Option<Entry>>, PeerError>
        ensures { Answers does refuses (self.old, hasher.old) (Find key.now) result (self.new, hasher.new) };

    /// Enters the entry in the tree, in place of the one of its key.
    fn enter(
        &mut self,
        hasher: &mut H,
        alloc: Global,
        entry: &Entry,
    ) -> Result<Walked<()>, PeerError>
        ensures { Answers does refuses (self.old, hasher.old) (Enter entry.now) result (self.new, hasher.new) };

    /// Scans the tree: its entries that verify, and the damaged positions. Its nodes are hashed by
    /// threads.
    fn scan_tree<R: Threads + Sync>(
        &mut self,
        hasher: &mut H,
        rt: &R,
        alloc: Global,
    ) -> Result<Scan, PeerError>
        requires { IsSync R.row }
        ensures { Answers does refuses (self.old, hasher.old) ScanTree result (self.new, hasher.new) };

    /// Returns the bytes of the node at a position of the tree, or `None` if the position is empty, or one
    /// that the tree's version does not have.
    fn read_node(
        &mut self,
        hasher: &mut H,
        alloc: Global,
        at: Position,
    ) -> Result<Walked<Option<Bytes>>, PeerError>
        requires { IsPosition Two at }
        ensures { Answers does refuses (self.old, hasher.old) (ReadNode at) result (self.new, hasher.new) };

    /// Builds the tree of these entries in the version of the tree, and installs it. Their keys ascend
    /// strictly. The nodes are hashed by threads.
    fn install<R: Threads + Sync>(
        &mut self,
        hasher: &mut H,
        rt: &R,
        alloc: Global,
        entries: &[Entry],
    ) -> Result<(), PeerError>
        requires ascending { AreAbove [] entries.now }
        requires sync { IsSync R.row }
        ensures { Answers does refuses (self.old, hasher.old) (Install entries.now) result (self.new, hasher.new) };

    /// Returns the bytes that the backend keeps under the key, or `None` if there are none.
    fn fetch(
        &mut self,
        hasher: &mut H,
        alloc: Global,
        key: &Key,
    ) -> Result<Option<Bytes>, PeerError>
        ensures { Answers does refuses (self.old, hasher.old) (Fetch key.now) result (self.new, hasher.new) };

    /// Puts the bytes under the key in the backend.
    fn put(
        &mut self,
        hasher: &mut H,
        alloc: Global,
        key: &Key,
        bytes: &[u8],
    ) -> Result<(), PeerError>
        ensures { Answers does refuses (self.old, hasher.old) (Put key.now bytes.now) result (self.new, hasher.new) };

    /// Returns the digest of the bytes.
    fn hash(&mut self, hasher: &mut H, alloc: Global, bytes: &[u8]) -> Result<Digest, PeerError>
        ensures { Answers does refuses (self.old, hasher.old) (Hash bytes.now) result (self.new, hasher.new) };
}
