ghost use Rattle.std.specs.Prelude.{◌≡◌, ◌⊎◌, ℕ, List, [], Option, None, Some, Ok, Err, IfOk, IfErr, OnOk, OnErr};
ghost use Rattle.std.specs.Option.{IsSomeAnd};
ghost use Rattle.synctree.specs.Maps.{Stands};
ghost use Rattle.synctree.specs.Sixteen.{form_of};
ghost use Rattle.environment.specs.Stores.{Read, Top};
ghost use Rattle.environment.specs.Told.{StaysTold};
ghost use Rattle.synctree.specs.Halves.{NodesDid};
ghost use Rattle.synctree.specs.Installs.{store_does, store_refuses, install_plan};
ghost use Rattle.synctree.specs.Outsides.{outside_does, outside_refuses};
ghost use Rattle.synctree.specs.Plans.{Did};
ghost use Rattle.synctree.specs.Records.{KeptUnlessFailed};
ghost use Rattle.synctree.specs.Trees.{get_plan, insert_plan, fresh_plan};
ghost use Rattle.synctree.specs.Meanings.{Finds, Opens, Freshens, Reopens, Enters, Inserts};
ghost use Rattle.synctree.specs.Nodes.{node_plan, Reads};
ghost use Rattle.synctree.specs.Shapes.{shape_plan, Tells};
ghost use Rattle.synctree.specs.TreeNode.{IsPosition};

use crate::calls;
use crate::entering::enter_from_top;
use crate::error::TreeError;
use crate::installing::install_all;
use crate::nodes::node_from_top;
use crate::seals::root_under;
use crate::store::store_empty;
use crate::stored_node::StoredNode;
use crate::versions::version_from_top;
use crate::walk::find_from_top;
use ens_base::{Bytes, Digest, Entry, Key, Refused};
use environment::NodeStore;
use hash_book::Hasher16;
use std::alloc::Global;
use tree_node::{Position, TreeVersion};

/// What remains of a tree when its store is taken out: its version, and the digest of its root, if it has
/// one.
#[derive(Clone, Copy, Debug, PartialEq, Eq)]
pub struct TreeMark {
    version: TreeVersion,
    top: Option<Digest>,
}

/// A map from keys to entries, kept as a hash tree of one version in a store of nodes. The digest in
/// the top record names the map, unless the tree was opened under a seal that differs. Nothing else
/// that the store returns is used before its MD5 was compared with the digest that names it. A node of
/// the other version does not verify.
#[derive(Drop)]
pub struct Tree<N> {
    version: TreeVersion,
    store: N,
    top: Option<Digest>,
}

impl<N: NodeStore> Tree<N> {
    /// Opens the tree of this version under the top record. Without a top record, or where there is a
    /// seal and the record differs from it, the root of the tree is damaged. Fails if the store does, or
    /// when out of memory, and then returns the store.
    pub fn open(
        mut store: N,
        seal: Option<Digest>,
        version: TreeVersion,
    ) -> Result<Tree<N>, Refused<N, TreeError>>
        ensures did { Opens (NodesDid N.may_answer N.may_refuse N.top_record N.fault_count Top store) seal result }
        ensures version_is { IfOk result (λ tree. tree.version ≡ version) }
    {
        match calls::top(&mut store) {
            Ok(top) => Ok(Tree {
                version,
                store,
                top: root_under(seal, top),
            }),
            Err(error) => Err(Refused { error, held: store }),
        }
    }

    /// Writes the empty map in this version, and returns its tree. Fails if the store or the hasher
    /// does, or when out of memory, and then returns the store. If the store failed while it wrote the
    /// top record, the stored record is the old one or the new one; after any other error it is the old
    /// one.
    pub fn fresh<H: Hasher16>(
        alloc: Global,
        mut store: N,
        version: TreeVersion,
        hasher: &mut H,
    ) -> Result<Tree<N>, Refused<N, TreeError>>
        ensures version_is { IfOk result (λ tree. tree.version ≡ version) }
        ensures did { Freshens (λ r nodes. Did (outside_does N.may_answer N.top_record N.fault_count H.kept
            H.clashes H.fulls) (outside_refuses N.may_refuse N.top_record N.fault_count H.kept H.clashes H.fulls)
            (fresh_plan (form_of version)) (store, hasher.old) r (nodes, hasher.new)) result }
        ensures map { IfOk result (λ tree. (digest : List ℕ) → tree.top ≡ Some digest → Stands (form_of version) digest []) }
        ensures kept { IfErr result (λ refused. (refused.error ≡ TreeError.Failed) ⊎ StaysTold (N.top_record store) (N.top_record refused.held)) }
    {
        match store_empty(alloc, &mut store, hasher, version) {
            Ok(digest) => Ok(Tree {
                version,
                store,
                top: Some(digest),
            }),
            Err(error) => Err(Refused { error, held: store }),
        }
    }

    /// Makes a tree of this version over the store without reading the top record. Until `reopen` or
    /// `empty` succeeds, the tree has no top record, so its root is damaged.
    pub fn unopened(store: N, version: TreeVersion) -> Tree<N>
        ensures { (result.version ≡ version) × (result.top ≡ None) × (result.store ≡ store) }
    {
        Tree {
            version,
            store,
            top: None,
        }
    }

    /// Reads the top record, and takes its digest as the root of the tree, which from then on has this
    /// version. Without a top record, or where there is a seal and the record differs from it, the root
    /// is damaged. Fails if the store does, or when out of memory; then the tree still has its old
    /// version and its old root.
    pub fn reopen(&mut self, seal: Option<Digest>, version: TreeVersion) -> Result<(), TreeError>
        ensures did { Reopens (λ r. NodesDid N.may_answer N.may_refuse N.top_record N.fault_count Top self.old.store r self.new.store) seal self.old.top result self.new.top }
        ensures version_is { OnOk result (self.new.version ≡ version) }
        ensures unchanged { OnErr result (self.new.version ≡ self.old.version) }
    {
        let top = calls::top(&mut self.store)?;
        self.top = root_under(seal, top);
        self.version = version;
        Ok(())
    }

    /// Writes the empty map in this version, and makes it the map of the tree. Fails if the store or
    /// the hasher does, or when out of memory; then the tree still has its old version and its old
    /// root. If the store failed while it wrote the top record, the stored record is the old one or
    /// the new one; after any other error it is the old one.
    pub fn empty<H: Hasher16>(
        &mut self,
        alloc: Global,
        version: TreeVersion,
        hasher: &mut H,
    ) -> Result<(), TreeError>
        ensures did { Enters (λ r. Did (outside_does N.may_answer N.top_record N.fault_count H.kept H.clashes
            H.fulls) (outside_refuses N.may_refuse N.top_record N.fault_count H.kept H.clashes H.fulls)
            (fresh_plan (form_of version)) (self.old.store, hasher.old) r (self.new.store, hasher.new)) self.old.top result self.new.top }
        ensures version_is { OnOk result (self.new.version ≡ version) }
        ensures unchanged { OnErr result (self.new.version ≡ self.old.version) }
        ensures map { OnOk result ((digest : List ℕ) → self.new.top ≡ Some digest → Stands (form_of version) digest []) }
        ensures kept { KeptUnlessFailed (N.top_record self.old.store) (N.top_record self.new.store) result }
    {
        let root = store_empty(alloc, &mut self.store, hasher, version)?;
        self.top = Some(root);
        self.version = version;
        Ok(())
    }

    /// Returns the version of the tree.
    pub fn version(&self) -> TreeVersion
        ensures { result ≡ self.now.version }
    {
        self.version
    }

    /// Returns the digest of the root, if the tree has one: that in the top record, as it was opened
    /// or as the last change left it.
    pub fn top(&self) -> Option<Digest>
        ensures { result ≡ self.now.top }
    {
        self.top
    }

    /// Returns the version of the tree that stands under the top record: the one in which its root
    /// verifies, whatever the version of this tree is. `Damaged` names the root if it verifies in
    /// none. If a map stands under the top record in some version, the answer is that one, unless a
    /// string that was hashed has the digest of a different node of the map.
    pub fn shape<H: Hasher16>(
        &mut self,
        alloc: Global,
        hasher: &mut H,
    ) -> Result<TreeVersion, TreeError>
        ensures did { Did (outside_does N.may_answer N.top_record N.fault_count H.kept H.clashes H.fulls) (outside_refuses N.may_refuse N.top_record N.fault_count H.kept H.clashes H.fulls)
            (shape_plan self.old.top) (self.old.store, hasher.old) result (self.new.store, hasher.new) }
        ensures tells { IfOk result (λ version. Tells
            (outside_does N.may_answer N.top_record N.fault_count H.kept H.clashes H.fulls) self.old.top
            (self.old.store, hasher.old) version (self.new.store, hasher.new)) }
        ensures version_is { self.new.version ≡ self.old.version }
        ensures top { self.new.top ≡ self.old.top }
    {
        version_from_top(alloc, &mut self.store, hasher, self.top)
    }

    /// Returns what the store has under a digest, unverified, or `None` if it has nothing there.
    pub fn read(&mut self, alloc: Global, digest: &Digest) -> Result<Option<Bytes>, TreeError>
        ensures did { NodesDid N.may_answer N.may_refuse N.top_record N.fault_count (Read digest.now) self.old.store result self.new.store }
        ensures version_is { self.new.version ≡ self.old.version }
        ensures top { self.new.top ≡ self.old.top }
    {
        calls::read(alloc, &mut self.store, digest)
    }

    /// Takes the store out of the tree. `join` makes the tree again.
    pub fn split(self) -> (TreeMark, N)
        ensures { result ≡ (record { version = self.version; top = self.top }, self.store) }
    {
        let Tree {
            version,
            store,
            top,
        } = self;
        (TreeMark { version, top }, store)
    }

    /// Makes the tree of `mark` over `store`. The version and the root of the tree are those of the
    /// mark, whatever the top record of the store says.
    pub fn join(mark: TreeMark, store: N) -> Tree<N>
        ensures { (result.version ≡ mark.version) × (result.top ≡ mark.top) × (result.store ≡ store) }
    {
        Tree {
            version: mark.version,
            store,
            top: mark.top,
        }
    }

    /// Returns the entry of the key, or `None` if the map has none. `Damaged` names the first
    /// position on the path of the key, from the root, that does not verify. If a map stands under
    /// the top record, the answer is the one of that map, unless a string that was hashed has the
    /// digest of a different node of the map.
    pub fn get<H: Hasher16>(
        &mut self,
        alloc: Global,
        hasher: &mut H,
        key: &Key,
    ) -> Result<Option<Entry>, TreeError>
        ensures did { Did (outside_does N.may_answer N.top_record N.fault_count H.kept H.clashes H.fulls) (outside_refuses N.may_refuse N.top_record N.fault_count H.kept H.clashes H.fulls)
            (get_plan (form_of self.old.version) self.old.top key.now) (self.old.store, hasher.old) result (self.new.store, hasher.new) }
        ensures finds { IfOk result (λ o. Finds (outside_does N.may_answer N.top_record N.fault_count H.kept
            H.clashes H.fulls) (form_of self.old.version) self.old.top key.now (self.old.store, hasher.old) o
            (self.new.store, hasher.new)) }
        ensures version_is { self.new.version ≡ self.old.version }
        ensures top { self.new.top ≡ self.old.top }
    {
        find_from_top(alloc, &mut self.store, hasher, self.version, self.top, key)
    }

    /// Returns the verified bytes of the node at a position, or `None` if the position is empty.
    /// `Damaged` names the first position on the way to it, from the root, that does not verify. If
    /// a map stands under the top record, the bytes are those of the node of that map, unless a
    /// string that was hashed has the digest of a different node of the map.
    pub fn node<H: Hasher16>(
        &mut self,
        alloc: Global,
        hasher: &mut H,
        at: Position,
    ) -> Result<Option<Bytes>, TreeError>
        requires { IsPosition self.old.version at }
        ensures did { Did (outside_does N.may_answer N.top_record N.fault_count H.kept H.clashes H.fulls) (outside_refuses N.may_refuse N.top_record N.fault_count H.kept H.clashes H.fulls)
            (node_plan (form_of self.old.version) self.old.top at) (self.old.store, hasher.old) result (self.new.store, hasher.new) }
        ensures reads { IfOk result (λ o. Reads (outside_does N.may_answer N.top_record N.fault_count H.kept
            H.clashes H.fulls) (form_of self.old.version) self.old.top at (self.old.store, hasher.old) o
            (self.new.store, hasher.new)) }
        ensures version_is { self.new.version ≡ self.old.version }
        ensures top { self.new.top ≡ self.old.top }
    {
        node_from_top(alloc, &mut self.store, hasher, self.version, self.top, at)
    }

    /// Enters the entry into the map, in place of the entry of its key: writes the nodes on the
    /// path of the key, the lowest first, and the top record last. If a map stands under the old
    /// top record, the map with the entry, if it has fewer than 2^32 entries, stands under the new
    /// one, unless a string that was hashed has the digest of a different node of the old map.
    ///
    /// After an error the tree still has its old root. If the store failed while it wrote the top
    /// record, the stored record is the old one or the new one; after any other error it is the old
    /// one.
    pub fn insert<H: Hasher16>(
        &mut self,
        alloc: Global,
        hasher: &mut H,
        entry: &Entry,
    ) -> Result<(), TreeError>
        ensures did { Enters (λ r. Did (outside_does N.may_answer N.top_record N.fault_count H.kept H.clashes
            H.fulls) (outside_refuses N.may_refuse N.top_record N.fault_count H.kept H.clashes H.fulls)
            (insert_plan (form_of self.old.version) self.old.top entry.now) (self.old.store, hasher.old) r (self.new.store, hasher.new)) self.old.top result self.new.top }
        ensures version_is { self.new.version ≡ self.old.version }
        ensures stands { OnOk result (IsSomeAnd self.new.top
            (λ new. Inserts (outside_does N.may_answer N.top_record N.fault_count H.kept H.clashes H.fulls)
            (form_of self.old.version) self.old.top entry.now (self.old.store, hasher.old) new (
              self.new.store,
              hasher.new,
            ))) }
        ensures kept { KeptUnlessFailed (N.top_record self.old.store) (N.top_record self.new.store) result }
    {
        let new = enter_from_top(
            alloc,
            &mut self.store,
            hasher,
            self.version,
            self.top,
            entry,
        )?;
        self.top = Some(new);
        Ok(())
    }

    /// Writes the nodes in order, each under its digest, and `top` into the top record last. After
    /// an error the tree still has its old root. If the store failed while it wrote the top record,
    /// the stored record is the old one or the new one; after any other error it is the old one.
    pub fn install(
        &mut self,
        alloc: Global,
        nodes: &[StoredNode],
        top: &Digest,
    ) -> Result<(), TreeError>
        ensures did { Enters (λ r. Did (store_does N.may_answer N.top_record N.fault_count) (store_refuses N.may_refuse N.top_record N.fault_count)
            (install_plan nodes.now top.now) self.old.store r self.new.store) self.old.top result self.new.top }
        ensures version_is { self.new.version ≡ self.old.version }
        ensures top { OnOk result (self.new.top ≡ Some top.now) }
        ensures kept { KeptUnlessFailed (N.top_record self.old.store) (N.top_record self.new.store) result }
    {
        let new = install_all(alloc, &mut self.store, nodes, top)?;
        self.top = Some(new);
        Ok(())
    }
}
