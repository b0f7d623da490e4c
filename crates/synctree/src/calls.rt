ghost use Rattle.std.specs.Prelude.{◌≡◌, IfOk};
ghost use Rattle.md5.specs.Md5.{md5};
ghost use Rattle.environment.specs.Stores.{Read, Write, SetTop, Top};
ghost use Rattle.synctree.specs.Halves.{NodesDid, HasherDid};

use crate::error::TreeError;
use ens_base::{Bytes, Digest};
use environment::{NodeStore, StoreError};
use hash_book::{HashError, Hasher16};
use std::alloc::Global;

/// Returns the bytes under `digest`, or `None` if there are none.
pub(crate) fn read<N: NodeStore>(
    alloc: Global,
    nodes: &mut N,
    digest: &Digest,
) -> Result<Option<Bytes>, TreeError>
    ensures { NodesDid N.may_answer N.may_refuse N.top_record N.fault_count (Read digest.now) nodes.old result nodes.new }
{
    match nodes.read(alloc, digest) {
        Ok(Some(bytes)) => Ok(Some(Bytes::new(bytes))),
        Ok(None) => Ok(None),
        Err(StoreError::Failed) => Err(TreeError::Failed),
        Err(StoreError::Memory) => Err(TreeError::Memory),
    }
}

/// Stores `bytes` under `digest`.
pub(crate) fn write<N: NodeStore>(
    alloc: Global,
    nodes: &mut N,
    digest: &Digest,
    bytes: &[u8],
) -> Result<(), TreeError>
    ensures { NodesDid N.may_answer N.may_refuse N.top_record N.fault_count (Write digest.now bytes.now) nodes.old result nodes.new }
{
    match nodes.write(alloc, digest, bytes) {
        Ok(()) => Ok(()),
        Err(StoreError::Failed) => Err(TreeError::Failed),
        Err(StoreError::Memory) => Err(TreeError::Memory),
    }
}

/// Writes `digest` into the top record.
pub(crate) fn set_top<N: NodeStore>(nodes: &mut N, digest: &Digest) -> Result<(), TreeError>
    ensures { NodesDid N.may_answer N.may_refuse N.top_record N.fault_count (SetTop digest.now) nodes.old result nodes.new }
{
    match nodes.set_top(digest) {
        Ok(()) => Ok(()),
        Err(StoreError::Failed) => Err(TreeError::Failed),
        Err(StoreError::Memory) => Err(TreeError::Memory),
    }
}

/// Returns the digest in the top record, or `None` if there is no record.
pub(crate) fn top<N: NodeStore>(nodes: &mut N) -> Result<Option<Digest>, TreeError>
    ensures { NodesDid N.may_answer N.may_refuse N.top_record N.fault_count Top nodes.old result nodes.new }
{
    match nodes.top() {
        Ok(digest) => Ok(digest),
        Err(StoreError::Failed) => Err(TreeError::Failed),
        Err(StoreError::Memory) => Err(TreeError::Memory),
    }
}

/// Gives the bytes to the hasher, and returns their MD5.
pub(crate) fn hash<H: Hasher16>(
    alloc: Global,
    hasher: &mut H,
    bytes: &[u8],
) -> Result<Digest, TreeError>
    ensures digest { IfOk result (λ d. d ≡ md5 bytes.now) }
    ensures did { HasherDid H.kept H.clashes H.fulls bytes.now hasher.old result hasher.new }
{
    match hasher.digest(alloc, bytes) {
        Ok(digest) => Ok(digest),
        Err(e) => Err(refused(e)),
    }
}

/// Returns the error of a tree for this error of a hasher.
fn refused(e: HashError) -> TreeError
    ensures { result ≡ Rattle.synctree.specs.Halves.refused e }
{
    match e {
        HashError::Clash { first, second } => TreeError::Clash { first, second },
        HashError::BookFull(bytes) => TreeError::BookFull(bytes),
        HashError::Memory => TreeError::Memory,
    }
}
