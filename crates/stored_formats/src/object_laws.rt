ghost use Rattle.std.specs.Prelude.{◌≡◌, ◌++◌, ℕ, List};
ghost use Rattle.fields.specs.Grammar.{IsGrammar};
ghost use Rattle.stored_formats.specs.declared.object.Object.{Object};
ghost use Rattle.stored_formats.specs.Objects.{IsObject, object_spelling, object_at};

/// Proves that an object which was written is read again, whatever follows it: no object's spelling begins
/// another's.
pub fn objects_stand_apart()
    ensures grammar { IsGrammar IsObject object_spelling object_at }
    ensures apart { (x y : Object) (a b : List ℕ) → IsObject x → IsObject y → object_spelling x ++ a ≡ object_spelling y ++ b → (x ≡ y) × (a ≡ b) }
{}
