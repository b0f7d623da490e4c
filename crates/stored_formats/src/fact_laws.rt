ghost use Rattle.std.specs.Prelude.{◌≡◌, ◌++◌, ℕ, List};
ghost use Rattle.fields.specs.Grammar.{IsGrammar};
ghost use Rattle.stored_formats.specs.declared.fact.Fact.{Fact};
ghost use Rattle.stored_formats.specs.FactBytes.{IsFact, fact_spelling, fact_at};

/// Proves that a fact which was written is read again, whatever follows it: no fact's spelling begins
/// another's.
pub fn facts_stand_apart()
    ensures grammar { IsGrammar IsFact fact_spelling fact_at }
    ensures apart { (x y : Fact) (a b : List ℕ) → IsFact x → IsFact y → fact_spelling x ++ a ≡ fact_spelling y ++ b → (x ≡ y) × (a ≡ b) }
{}
