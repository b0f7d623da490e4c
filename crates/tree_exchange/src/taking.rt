ghost use Rattle.std.specs.Prelude.{◌≡◌, ◌≤◌, ◌<◌, length, IfOk, IfErr};
ghost use Rattle.tree_node.specs.TreeVersions.{levels};
ghost use Rattle.tree_node.specs.Positions.{IsPosition};
ghost use Rattle.synctree.specs.Sixteen.{children_of, children_in};
ghost use Rattle.tree_node.specs.Nodes.{inner_of};
ghost use Rattle.tree_node.specs.declared.version.TreeVersion.TheVariants.{Two};
ghost use Rattle.synctree.specs.Outsides.{outside_does, outside_refuses};
ghost use Rattle.synctree.specs.Plans.{Did};
ghost use Rattle.tree_exchange.specs.Asks.{names_in, or_none, after_inner, after_page, stepped, reply as reply_to, taken, own_plan, Steps, Takes};
ghost use Rattle.tree_exchange.specs.Causes.{IsCause};
ghost use Rattle.tree_exchange.specs.Gives.{Makes};
ghost use Rattle.tree_exchange.specs.declared.error.AskError.TheVariants.{Memory};

use crate::ask::Ask;
use crate::children::children_to_ask;
use crate::error::AskError;
use crate::question::Question;
use crate::step::Step;
use ens_base::{Bytes, Digest, Entry, Key, Seq};
use environment::NodeStore;
use hash_book::Hasher16;
use std::alloc::Global;
use synctree::{Tree, TreeError, children};
use tree_node::{InnerNode, NodeError, Position, Scan, TreeBody, TreeVersion, decode_inner};

/// Returns the children of an inner node, `None` for each that is missing. Fails only when out of
/// memory.
fn children_of_node(alloc: Global, node: &InnerNode) -> Result<Seq<Option<Digest>>, AskError>
    ensures names { Makes result (children_of node.now.mask node.now.digests) }
    ensures width { IfOk result (λ names. length names ≤ 16) }
{
    match children(alloc, node) {
        Ok(names) => Ok(names),
        Err(_) => Err(AskError::Memory),
    }
}

/// Returns the children that a body names. Fails only when out of memory.
fn children_of_body(
    alloc: Global,
    version: TreeVersion,
    at: Position,
    mask: u16,
    digests: &Seq<Digest>,
) -> Result<Seq<Option<Digest>>, AskError>
    ensures names { Makes result (children_of mask digests.now) }
    ensures width { IfOk result (λ names. length names ≤ 16) }
{
    let node = InnerNode {
        version,
        position: at,
        mask,
        digests: Seq::new(Vec::from_slice(alloc, digests.as_slice())?),
    };
    children_of_node(alloc, &node)
}

/// Returns the digests that the own node with these bytes names, or none without a node. Fails only
/// when out of memory.
fn names_of_own(
    alloc: Global,
    version: TreeVersion,
    at: Position,
    own: &Option<Bytes>,
) -> Result<Seq<Option<Digest>>, AskError>
    requires { IsPosition version at }
    ensures { Makes result (names_in version at own.now) }
{
    match own {
        None => Ok(Seq::new(Vec::new(alloc))),
        Some(bytes) => names_of_bytes(alloc, version, at, bytes.as_slice()),
    }
}

/// Returns the digests that an inner node with these bytes names, or none if they encode no inner
/// node of this position. Fails only when out of memory.
fn names_of_bytes(
    alloc: Global,
    version: TreeVersion,
    at: Position,
    bytes: &[u8],
) -> Result<Seq<Option<Digest>>, AskError>
    requires { IsPosition version at }
    ensures { Makes result (or_none (children_in (inner_of version at bytes.now))) }
{
    match decode_inner(alloc, bytes, at, version) {
        Ok(node) => children_of_node(alloc, &node),
        Err(NodeError::Memory) => Err(AskError::Memory),
        Err(_) => Ok(Seq::new(Vec::new(alloc))),
    }
}

/// Returns copies of the entries. Fails only when out of memory.
fn copies(alloc: Global, entries: &[Entry]) -> Result<Vec<Entry>, AskError>
    ensures ok { IfOk result (λ v. v.items ≡ entries.now) }
    ensures memory { IfErr result (λ e. e ≡ Memory) }
{
    let mut all = Vec::with_capacity(alloc, entries.len())?;
    for entry in entries {
        all.push(entry.copy(alloc)?)?;
    }
    Ok(all)
}

/// Returns a copy of the key of the last entry, if there is one. Fails only when out of memory.
fn last_key(alloc: Global, entries: &[Entry]) -> Result<Option<Key>, AskError>
    ensures { Makes result (Rattle.tree_exchange.specs.Asks.last_key entries.now) }
{
    match entries.last() {
        Some(entry) => Ok(Some(entry.key.copy(alloc)?)),
        None => Ok(None),
    }
}

/// Returns the own node at the position if it is needed, and otherwise `None`. There is none if the
/// position is empty.
fn read_own<N: NodeStore, H: Hasher16>(
    alloc: Global,
    ask: &Ask,
    tree: &mut Tree<N>,
    hasher: &mut H,
    question: &Question,
    body: &TreeBody,
) -> Result<Option<Bytes>, TreeError>
    requires { IsPosition tree.old.version question.now.position }
    ensures did { Did (outside_does N.may_answer N.top_record N.fault_count H.kept H.clashes H.fulls) (outside_refuses N.may_refuse N.top_record N.fault_count H.kept H.clashes H.fulls)
        (own_plan tree.old.version tree.old.top question.now body.now ask.now) (tree.old.store, hasher.old) result (tree.new.store, hasher.new) }
    ensures version_is { tree.new.version ≡ tree.old.version }
    ensures top { tree.new.top ≡ tree.old.top }
{
    if ask.needs_own(question, body, tree.version()) {
        tree.node(alloc, hasher, question.position)
    } else {
        Ok(None)
    }
}

impl Ask {
    /// Takes the children of an inner node.
    fn take_inner(
        &mut self,
        alloc: Global,
        version: TreeVersion,
        own: &Option<Bytes>,
        damaged: &[Position],
        at: Position,
        names: &[Option<Digest>],
    ) -> Result<Step, AskError>
        requires position { IsPosition version at }
        requires above { at.level < levels version }
        requires width { length names.now ≤ 16 }
        ensures { Steps (stepped (after_inner version damaged.now at (names_in version at own.now) names.now self.old)) self.old result self.new }
    {
        let own = names_of_own(alloc, version, at, own)?;
        let asked = children_to_ask(alloc, damaged, at, own.as_slice(), names)?;
        self.go_down(asked)?;
        Ok(self.step())
    }

    /// Takes a page of a segment.
    fn take_page(
        &mut self,
        alloc: Global,
        at: Position,
        entries: &[Entry],
        more: bool,
    ) -> Result<Step, AskError>
        requires { IsPosition Two at }
        ensures { Steps (stepped (after_page at entries.now more self.old)) self.old result self.new }
    {
        let page = copies(alloc, entries)?;
        let after = last_key(alloc, entries)?;
        self.go_past(alloc, page, at, after, more)?;
        Ok(self.step())
    }

    /// Takes a body for the open question.
    fn reply(
        &mut self,
        alloc: Global,
        version: TreeVersion,
        own: &Option<Bytes>,
        damaged: &[Position],
        at: Position,
        body: &TreeBody,
    ) -> Result<Step, AskError>
        requires { IsPosition version at }
        ensures { Steps (reply_to version damaged.now (names_in version at own.now) at body.now self.old) self.old result self.new }
    {
        let last = version.levels();
        match body {
            TreeBody::Inner { mask, digests } => {
                if at.level == last {
                    return Ok(Step::Dropped);
                }
                let names = children_of_body(alloc, version, at, *mask, digests)?;
                self.take_inner(alloc, version, own, damaged, at, names.as_slice())
            }
            TreeBody::Page { entries, more } => {
                let entries = entries.as_slice();
                if at.level == last && !(entries.is_empty() && *more) {
                    self.take_page(alloc, at, entries, *more)
                } else {
                    Ok(Step::Dropped)
                }
            }
            TreeBody::Damaged(_) => Ok(Step::Dropped),
        }
    }

    /// Takes a body for a question, given the bytes of the own node at the position, or none if there
    /// is no such node or it does not verify. `version` is that of the own tree, and `scan` its scan at
    /// the start of the ask. Fails only when out of memory, and then leaves the ask unchanged.
    pub fn take_read(
        &mut self,
        alloc: Global,
        version: TreeVersion,
        own: &Option<Bytes>,
        scan: &Scan,
        question: &Question,
        body: &TreeBody,
    ) -> Result<Step, AskError>
        requires { IsPosition version question.now.position }
        ensures { Steps (taken version scan.now own.now question.now body.now self.old) self.old result self.new }
    {
        if self.is_open(question) {
            let damaged = scan.damaged.as_slice();
            self.reply(alloc, version, own, damaged, question.position, body)
        } else {
            Ok(Step::Ignored)
        }
    }

    /// Takes a body for a question. Of an inner node it asks for the children, but for those that the
    /// own tree names by the same digest where the own scan has no damage at, under or above them. Of
    /// a segment it keeps the entries, and asks for the next page if more follow. `scan` is the scan of
    /// the own tree at the start of the ask. Fails only if the own store or the hasher does, or when
    /// out of memory, and then leaves the ask unchanged.
    pub fn take<N: NodeStore, H: Hasher16>(
        &mut self,
        alloc: Global,
        own: &mut Tree<N>,
        scan: &Scan,
        hasher: &mut H,
        question: &Question,
        body: &TreeBody,
    ) -> Result<Step, AskError>
        requires { IsPosition own.old.version question.now.position }
        ensures took { Takes own.old.version (λ r. Did
            (outside_does N.may_answer N.top_record N.fault_count H.kept H.clashes H.fulls)
            (outside_refuses N.may_refuse N.top_record N.fault_count H.kept H.clashes H.fulls)
            (own_plan own.old.version own.old.top question.now body.now self.old) (own.old.store, hasher.old) r (own.new.store, hasher.new)) scan.now question.now body.now self.old result self.new }
        ensures version_is { own.new.version ≡ own.old.version }
        ensures top { own.new.top ≡ own.old.top }
        ensures refused { IfErr result (λ e. IsCause N.fault_count H.clashes H.fulls (own.old.store, hasher.old) (own.new.store, hasher.new) e) }
    {
        let version = own.version();
        match read_own(alloc, self, own, hasher, question, body) {
            Ok(node) => self.take_read(alloc, version, &node, scan, question, body),
            Err(TreeError::Damaged(_)) => {
                self.take_read(alloc, version, &None, scan, question, body)
            }
            Err(TreeError::Failed) => Err(AskError::Store),
            Err(TreeError::Clash { first, second }) => Err(AskError::Clash { first, second }),
            Err(TreeError::BookFull(bytes)) => Err(AskError::BookFull(bytes)),
            Err(TreeError::Memory) => Err(AskError::Memory),
        }
    }
}
