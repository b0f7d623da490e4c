ghost use Rattle.std.specs.Prelude.{◌≡◌, ℕ, List, [], Option, Contains, Result};
ghost use Rattle.md5.specs.Md5.{md5};
ghost use Rattle.hash_book.specs.Hashing.{Book, Takes, Admits, IsClashFree, AreClashFree};
ghost use Rattle.hash_book.specs.declared.error.HashError.{HashError};

/// Strings that are known stay distinct and free of clashes, whatever is admitted or rejected.
pub fn kept_strings_stay_clash_free()
    ensures start { IsClashFree [] }
    ensures takes { (bytes : List ℕ) (old new : Option Book) → Takes bytes old new → AreClashFree old → AreClashFree new }
    ensures admits { (bytes : List ℕ) (old new : Option Book) (clashes clashes_now fulls fulls_now : ℕ)
        (result : Result (Unit {0}) HashError) → Admits bytes old new clashes clashes_now fulls fulls_now result
        → AreClashFree old → AreClashFree new }
{}

/// Among strings that are free of clashes, equal digests mean equal strings.
pub fn a_digest_names_its_string()
    ensures { (kept : List (List ℕ)) (first second : List ℕ) → IsClashFree kept → Contains kept first → Contains kept second → md5 first ≡ md5 second → first ≡ second }
{}
