ghost use Rattle.std.specs.Prelude.{◌≡◌, map};
ghost use Rattle.md5.specs.Md5.{md5};
ghost use Rattle.synctree.specs.Halves.{HasherDid};
ghost use Rattle.synctree.specs.Plans.{Did};
ghost use Rattle.tree_repair.specs.Hashers.{digest_if, hasher_does, hasher_refuses};
ghost use Rattle.tree_repair.specs.Levels.{hash_read, hash_all};

use ens_base::{Bytes, Digest};
use hash_book::{HashError, Hasher16};
use std::alloc::Global;
use synctree::TreeError;

/// Returns the error of a tree for this error of a hasher.
fn refused(e: HashError) -> TreeError
    ensures { result ≡ Rattle.synctree.specs.Halves.refused e }
{
    match e {
        HashError::Clash { first, second } => TreeError::Clash { first, second },
        HashError::BookFull(bytes) => TreeError::BookFull(bytes),
        HashError::Memory => TreeError::Memory,
    }
}

/// Admits a string with its digest to the hasher.
fn admit<H: Hasher16>(
    alloc: Global,
    hasher: &mut H,
    bytes: &[u8],
    digest: &Digest,
) -> Result<(), TreeError>
    requires { digest.now ≡ md5 bytes.now }
    ensures { HasherDid H.kept H.clashes H.fulls bytes.now hasher.old result hasher.new }
{
    match hasher.admit(alloc, bytes, digest) {
        Ok(()) => Ok(()),
        Err(e) => Err(refused(e)),
    }
}

/// Admits what was read, if anything was.
fn admit_read<H: Hasher16>(
    alloc: Global,
    hasher: &mut H,
    read: &Option<Bytes>,
    found: Option<Digest>,
) -> Result<(), TreeError>
    requires { found ≡ digest_if read.now }
    ensures { Did (hasher_does H.kept H.clashes H.fulls) (hasher_refuses H.kept H.clashes H.fulls) (hash_read read.now) hasher.old result hasher.new }
{
    match read {
        Some(bytes) => match found {
            Some(digest) => admit(alloc, hasher, bytes.as_slice(), &digest),
            None => Ok(()),
        },
        None => Ok(()),
    }
}

/// Admits all that was read, in order.
pub(crate) fn admit_level<H: Hasher16>(
    alloc: Global,
    hasher: &mut H,
    reads: &[Option<Bytes>],
    found: &[Option<Digest>],
) -> Result<(), TreeError>
    requires { found.now ≡ map digest_if reads.now }
    ensures { Did (hasher_does H.kept H.clashes H.fulls) (hasher_refuses H.kept H.clashes H.fulls) (hash_all reads.now) hasher.old result hasher.new }
{
    for i in 0..reads.len() {
        admit_read(alloc, hasher, &reads[i], found[i])?;
    }
    Ok(())
}
