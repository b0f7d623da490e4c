ghost use Rattle.std.specs.Prelude.{◌≡◌, ◌≤◌, ◌++◌, ℕ, List, length, drop, Ok, Err, IfOk};
ghost use Rattle.ens_base.specs.Limits.{IsBytes};
ghost use Rattle.fields.specs.FirstFaults.{NamesFirst};
ghost use Rattle.fields.specs.Grammar.{IsGrammar};
ghost use Rattle.fields.specs.Numbers.{IsRun};
ghost use Rattle.fields.specs.Places.{Writes};
ghost use Rattle.stored_formats.specs.declared.fact.Fact.{Fact};
ghost use Rattle.stored_formats.specs.declared.saved.SavedFact.{SavedFact};
ghost use Rattle.stored_formats.specs.FactBytes.{fact_spelling};
ghost use Rattle.stored_formats.specs.SavedBytes.{IsSaved, saved_spelling, unsealed_at, sealed_at, saved_at, all_saved, saved_of};

use crate::fact::Fact;
use crate::fact_encoding::{write_fact, write_fields};
use crate::fact_error::{FactError, FactRule};
use crate::reading::read_fields;
use ens_base::Digest;
use fields::{Fault, plain, take_digest, take_u8, write_bytes, write_u8};

/// A fact as a peer saves it, with its seal, if it has one: the digest of the top record that the
/// peer wrote last, by which it sees whether its tree was put back. A fact in a message has no seal.
#[derive(Clone, Copy, Debug, PartialEq, Eq)]
pub struct SavedFact {
    pub fact: Fact,
    pub seal: Option<Digest>,
}

/// The 16 bytes of the digest.
fn bytes_of(x: Digest) -> [u8; 16]
    ensures spelled { result ≡ x }
    ensures valid { IsRun 16 x }
{
    let Digest(bytes) = x;
    bytes
}

/// Writes the spelling of the saved fact to the front of `out`, and returns its length.
fn write_saved(x: &SavedFact, out: &mut [u8]) -> usize
    requires { 166 ≤ length out.old }
    ensures written { Writes out.old out.new 0 (saved_spelling x.now) result }
    ensures within { result ≤ 166 }
    ensures valid { IsSaved x.now }
{
    match x.seal {
        None => write_fact(&x.fact, out),
        Some(seal) => {
            let bytes = bytes_of(seal);
            let at = write_u8(2, out, 0);
            let at = write_fields(&x.fact, out, at);
            write_bytes(&bytes, out, at)
        }
    }
}

/// The fields of version 1.
#[tactic(auto, unfolding(crate::specs::SavedBytes::unsealed_at))]
fn read_unsealed(bytes: &[u8], at: usize) -> Result<(SavedFact, usize), Fault<FactRule>>
    requires { at ≤ length bytes.now }
    ensures exact { unsealed_at bytes.now at ≡ result }
    ensures within { IfOk result (λ x. x.1 ≤ length bytes.now) }
{
    let (fact, at) = read_fields(bytes, at)?;
    Ok((SavedFact { fact, seal: None }, at))
}

/// The fields of version 2, and the seal.
#[tactic(auto, unfolding(crate::specs::SavedBytes::sealed_at))]
fn read_sealed(bytes: &[u8], at: usize) -> Result<(SavedFact, usize), Fault<FactRule>>
    requires { at ≤ length bytes.now }
    ensures exact { sealed_at bytes.now at ≡ result }
    ensures within { IfOk result (λ x. x.1 ≤ length bytes.now) }
{
    let (fact, at) = read_fields(bytes, at)?;
    let (seal, at) = plain(take_digest(bytes, at))?;
    Ok((
        SavedFact {
            fact,
            seal: Some(seal),
        },
        at,
    ))
}

#[tactic(auto, unfolding(crate::specs::SavedBytes::saved_at))]
fn read_saved(bytes: &[u8]) -> Result<(SavedFact, usize), Fault<FactRule>>
    ensures exact { saved_at bytes.now 0 ≡ result }
{
    let (version, start) = plain(take_u8(bytes, 0))?;
    match version {
        1 => read_unsealed(bytes, start),
        2 => read_sealed(bytes, start),
        _ => Err(Fault::Broken(FactRule::Tag, 0)),
    }
}

/// Returns what was read, if it takes all `size` bytes.
fn if_all(
    read: Result<(SavedFact, usize), Fault<FactRule>>,
    size: usize,
) -> Result<SavedFact, FactError>
    ensures { result ≡ all_saved read size }
{
    match read {
        Ok((saved, end)) => {
            if end == size {
                Ok(saved)
            } else {
                Err(FactError::Trailing)
            }
        }
        Err(Fault::Ended(_)) => Err(FactError::Short),
        Err(Fault::Broken(FactRule::Tag, _)) => Err(FactError::BadTag),
        Err(Fault::Broken(FactRule::View, _)) => Err(FactError::BadView),
        Err(Fault::NoMemory) => Err(FactError::Memory),
    }
}

impl SavedFact {
    /// Writes the spelling to the front of `out`, and returns its length, which is at most 166 bytes. The
    /// bytes behind it stay as they were. Without a seal the spelling is that of the fact. It takes no
    /// memory.
    pub fn spell(&self, out: &mut [u8; 480]) -> usize
        ensures prefix { out.new ≡ saved_spelling self.now ++ drop result out.old }
        ensures size { result ≡ length (saved_spelling self.now) }
        ensures within { result ≤ 166 }
        ensures again { saved_of (saved_spelling self.now) ≡ Ok self.now }
    {
        write_saved(self, out)
    }

    /// Returns the saved fact that the bytes spell, all of them. It takes no memory.
    ///
    /// # Errors
    ///
    /// The first fault from the left, or `Trailing` where bytes are left over; never `Memory`.
    pub fn decode(bytes: &[u8]) -> Result<SavedFact, FactError>
        // What is read was spelled so.
        ensures found { IfOk result (λ s. IsSaved s × (bytes.now ≡ saved_spelling s)) }
        // What is spelled so is read.
        ensures only { (s : SavedFact) → IsSaved s → bytes.now ≡ saved_spelling s → result ≡ Ok s }
        // Which fault it is.
        ensures exact { saved_of bytes.now ≡ result }
    {
        if_all(read_saved(bytes), bytes.len())
    }
}

/// Proves that a saved fact which was written is read again, whatever follows it: no saved fact's
/// spelling begins another's. Without a seal a saved fact is spelled as the fact is.
pub fn saved_facts_stand_apart()
    ensures unsealed { (f : Fact) → saved_spelling (record { fact = f; seal = None }) ≡ fact_spelling f }
    ensures grammar { IsGrammar IsSaved saved_spelling saved_at }
    ensures apart { (x y : SavedFact) (a b : List ℕ) → IsSaved x → IsSaved y → saved_spelling x ++ a ≡ saved_spelling y ++ b → (x ≡ y) × (a ≡ b) }
{}

/// Proves that the fault of a saved fact is the first one: bytes that are cut before the end of the part
/// at fault end too early, bytes that agree to its end have the same fault, and no saved fact is spelled
/// so. Reading a saved fact never runs out of memory.
pub fn saved_facts_fault_first()
    ensures first { NamesFirst IsSaved saved_spelling saved_at }
    ensures memory { (bytes : List ℕ) → IsBytes bytes → saved_of bytes ≡ Err FactError.Memory → ⊥ }
{}
