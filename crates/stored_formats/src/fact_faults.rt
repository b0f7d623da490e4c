ghost use Rattle.std.specs.Prelude.{◌≡◌, ℕ, List, Err};
ghost use Rattle.ens_base.specs.Limits.{IsBytes};
ghost use Rattle.fields.specs.FirstFaults.{NamesFirst};
ghost use Rattle.stored_formats.specs.FactBytes.{IsFact, fact_spelling, fact_at, fact_of};

use crate::fact_error::FactError;

/// Proves that the fault of a fact is the first one, at the first part that is cut short or breaks its
/// rule: bytes that are cut before the end of that part end too early, bytes that agree to its end have
/// the same fault, and no fact is spelled so. Reading a fact never runs out of memory.
pub fn facts_fault_first()
    ensures first { NamesFirst IsFact fact_spelling fact_at }
    ensures memory { (bytes : List ℕ) → IsBytes bytes → fact_of bytes ≡ Err FactError.Memory → ⊥ }
{}
