ghost use Rattle.std.specs.Prelude.{◌≡◌, ◌∷◌, [], map, IfOk, IfErr};
ghost use Rattle.hash_book.specs.declared.error.HashError.TheVariants.{Memory};
ghost use Rattle.tree_repair.specs.Admitting.{AdmitsAll};
ghost use Rattle.tree_repair.specs.Builds.{somes};
ghost use Rattle.tree_repair.specs.Hashers.{digest_if};
ghost use Rattle.tree_backup.specs.Checks.{text_of as text_of_object, texts_of as texts_of_items, text_at};

use crate::item::Item;
use ens_base::{Bytes, Digest};
use hash_book::{HashError, Hasher16};
use std::alloc::Global;
use std::thread::Threads;
use stored_formats::BoxedObject;
use tree_repair::{Gate, digests};

/// Returns the spelling of an object, if there is one. Fails only when out of memory.
fn text_of(alloc: Global, object: &Option<BoxedObject>) -> Result<Option<Bytes>, HashError>
    ensures ok { IfOk result (λ t. t ≡ text_of_object object.now) }
    ensures memory { IfErr result (λ e. e ≡ Memory) }
{
    match object {
        None => Ok(None),
        Some(object) => match object.get().encode(alloc) {
            Ok(bytes) => Ok(Some(Bytes::new(bytes))),
            Err(_) => Err(HashError::Memory),
        },
    }
}

/// Returns the spelling of the object of each item, if it has one. Fails only when out of memory.
fn texts_of(alloc: Global, items: &[Item]) -> Result<Vec<Option<Bytes>>, HashError>
    ensures ok { IfOk result (λ v. v.items ≡ map text_at items.now) }
    ensures memory { IfErr result (λ e. e ≡ Memory) }
{
    let mut texts = Vec::with_capacity(alloc, items.len())?;
    for item in items {
        let text = text_of(alloc, &item.object)?;
        texts.push(text)?;
    }
    Ok(texts)
}

/// Admits a text with its digest, if there is one.
fn admit<H: Hasher16>(
    alloc: Global,
    hasher: &mut H,
    text: &Option<Bytes>,
    digest: Option<Digest>,
) -> Result<(), HashError>
    requires { digest ≡ digest_if text.now }
    ensures { AdmitsAll H.kept H.clashes H.fulls (somes (text.now ∷ [])) hasher.old result hasher.new }
{
    let bytes = match text {
        Some(bytes) => bytes,
        None => return Ok(()),
    };
    let digest = match digest {
        Some(digest) => digest,
        None => return Ok(()),
    };
    hasher.admit(alloc, bytes.as_slice(), &digest)
}

/// Admits each text that is there, in order.
fn admit_all<H: Hasher16>(
    alloc: Global,
    hasher: &mut H,
    texts: &[Option<Bytes>],
    digests: &[Option<Digest>],
) -> Result<(), HashError>
    requires { digests.now ≡ map digest_if texts.now }
    ensures { AdmitsAll H.kept H.clashes H.fulls (somes texts.now) hasher.old result hasher.new }
{
    for i in 0..texts.len() {
        admit(alloc, hasher, &texts[i], digests[i])?;
    }
    Ok(())
}

/// Returns the MD5 of the object of each item, if it has one. The objects are hashed by threads, in
/// pieces that the gate sees begin, as the nodes of a level are, and then admitted to the hasher in
/// order.
pub(crate) fn hash_objects<H: Hasher16, R: Threads + Sync, G: Gate + Sync>(
    rt: &R,
    alloc: Global,
    hasher: &mut H,
    gate: &G,
    items: &[Item],
) -> Result<Vec<Option<Digest>>, HashError>
    ensures ok { IfOk result (λ v. v.items ≡ map digest_if (map text_at items.now)) }
    ensures admits { AdmitsAll H.kept H.clashes H.fulls (texts_of_items items.now) hasher.old result hasher.new }
{
    let texts = texts_of(alloc, items)?;
    let found = digests(rt, alloc, texts.as_slice(), gate)?;
    admit_all(alloc, hasher, texts.as_slice(), found.as_slice())?;
    Ok(found)
}
