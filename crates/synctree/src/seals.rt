ghost use Rattle.std.specs.Prelude.{◌≡◌};
ghost use Rattle.synctree.specs.Seals.{root_under as root};

use ens_base::Digest;

/// Returns the digest of the root of a tree with this top record: the digest in the record, or
/// `None` if there is no record, or a seal that differs from it.
pub(crate) fn root_under(seal: Option<Digest>, top: Option<Digest>) -> Option<Digest>
    ensures { result ≡ root seal top }
{
    match seal {
        None => top,
        Some(seal) => if_sealed(seal, top),
    }
}

/// Returns the digest in the top record, if it is the seal.
fn if_sealed(seal: Digest, top: Option<Digest>) -> Option<Digest>
    ensures { result ≡ Rattle.synctree.specs.Seals.if_sealed seal top }
{
    match top {
        Some(top) => { if top == seal { Some(top) } else { None } }
        None => None,
    }
}
