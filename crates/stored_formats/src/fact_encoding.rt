ghost use Rattle.std.specs.Prelude.{◌≡◌, ◌+◌, ◌≤◌, ◌++◌, length, drop, Ok, IfOk, IfErr, OnOk, OnErr};
ghost use Rattle.fields.specs.Places.{Writes};
ghost use Rattle.stored_formats.specs.FactBytes.{IsChange, IsFact, change_spelling, fact_spelling, fact_of};
ghost use Rattle.stored_formats.specs.SavedBytes.{fields_spelling};

use crate::fact::{Change, Fact};
use crate::fact_error::FactError;
use fields::{FieldError, write_epoch, write_u8, write_u32, write_u64, write_view, write_views};
use std::alloc::Global;

fn write_change(x: &Change, out: &mut [u8], at: usize) -> usize
    requires { at + 38 ≤ length out.old }
    ensures written { Writes out.old out.new at (change_spelling x.now) result }
    ensures within { result ≤ at + 38 }
    ensures valid { IsChange x.now }
{
    match x {
        Change::None => write_u8(0, out, at),
        Change::Add(view) => {
            let at = write_u8(1, out, at);
            write_view(view, out, at)
        }
        Change::Drop => write_u8(2, out, at),
    }
}

/// The greatest length of a fact's spelling, in bytes.
const MOST: usize = 150;

/// Writes the fields of the fact at `at`, and returns the place after them.
pub(crate) fn write_fields(x: &Fact, out: &mut [u8], at: usize) -> usize
    requires { at + 149 ≤ length out.old }
    ensures written { Writes out.old out.new at (fields_spelling x.now) result }
    ensures within { result ≤ at + 149 }
    ensures valid { IsFact x.now }
{
    let seq = x.seq;
    let leader = x.leader.number();
    let at = write_epoch(&x.ballot, out, at);
    let at = write_epoch(&x.epoch, out, at);
    let at = write_u64(seq, out, at);
    let at = write_u32(leader, out, at);
    let at = write_views(&x.views, out, at);
    write_change(&x.change, out, at)
}

/// Writes the spelling of the fact to the front of `out`, and returns its length.
pub(crate) fn write_fact(x: &Fact, out: &mut [u8]) -> usize
    requires { 150 ≤ length out.old }
    ensures written { Writes out.old out.new 0 (fact_spelling x.now) result }
    ensures within { result ≤ 150 }
    ensures valid { IsFact x.now }
{
    let at = write_u8(1, out, 0);
    write_fields(x, out, at)
}

/// Appends the spelling of the fact, or leaves `out` as it was.
pub fn put_fact(x: &Fact, out: &mut Vec<u8>) -> Result<(), FieldError>
    ensures ok { OnOk result (out.new.items ≡ out.old.items ++ fact_spelling x.now) }
    ensures valid { IsFact x.now }
    ensures err { OnErr result (out.new.items ≡ out.old.items) }
    ensures memory { IfErr result (λ e. e ≡ FieldError.Memory) }
{
    let mut spelling = [0u8; MOST];
    let size = write_fact(x, &mut spelling);
    out.extend_from_slice(&spelling[..size])?;
    Ok(())
}

impl Fact {
    /// The spelling of the fact, which [`Fact::decode`] reads again.
    pub fn encode(&self, alloc: Global) -> Result<Vec<u8>, FactError>
        ensures ok { IfOk result (λ v. v.items ≡ fact_spelling self.now) }
        ensures again { fact_of (fact_spelling self.now) ≡ Ok self.now }
        ensures memory { IfErr result (λ e. e ≡ FactError.Memory) }
    {
        let mut spelling = [0u8; MOST];
        let size = write_fact(self, &mut spelling);
        match Vec::from_slice(alloc, &spelling[..size]) {
            Ok(out) => Ok(out),
            Err(_) => Err(FactError::Memory),
        }
    }

    /// Writes the spelling to the front of `out`, and returns its length, which is at most 150. The bytes
    /// behind it stay as they were. It takes no memory.
    pub fn spell(&self, out: &mut [u8; 480]) -> usize
        ensures prefix { out.new ≡ fact_spelling self.now ++ drop result out.old }
        ensures size { result ≡ length (fact_spelling self.now) }
        ensures within { result ≤ 150 }
        ensures again { fact_of (fact_spelling self.now) ≡ Ok self.now }
    {
        write_fact(self, out)
    }
}
