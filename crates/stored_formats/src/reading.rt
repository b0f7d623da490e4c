ghost use Rattle.std.specs.Prelude.{◌≡◌, ◌≤◌, length, Ok, IfOk};
ghost use Rattle.fields.specs.Faults.{without_rule as unnamed};
ghost use Rattle.stored_formats.specs.declared.fact.Fact.{Fact};
ghost use Rattle.stored_formats.specs.FactBytes.{IsFact, fact_spelling, added_at, change_at, fields_at, fact_at, all_of, fact_of};

use crate::fact::{Change, Fact};
use crate::fact_error::{FactError, FactRule};
use ens_base::PeerId;
use fields::{
    Fault, FieldError, plain, take_epoch, take_u8, take_u32, take_u64, take_view, take_views,
    with_rule,
};

#[tactic(auto, unfolding(crate::specs::FactBytes::added_at))]
fn read_added(bytes: &[u8], at: usize) -> Result<(Change, usize), Fault<FactRule>>
    requires { at ≤ length bytes.now }
    ensures exact { added_at bytes.now at ≡ result }
    ensures within { IfOk result (λ x. x.1 ≤ length bytes.now) }
{
    let (view, at) = with_rule(take_view(bytes, at), FactRule::View)?;
    Ok((Change::Add(view), at))
}

#[tactic(auto, unfolding(crate::specs::FactBytes::change_at))]
fn read_change(bytes: &[u8], at: usize) -> Result<(Change, usize), Fault<FactRule>>
    requires { at ≤ length bytes.now }
    ensures exact { change_at bytes.now at ≡ result }
    ensures within { IfOk result (λ x. x.1 ≤ length bytes.now) }
{
    let (tag, start) = plain(take_u8(bytes, at))?;
    match tag {
        0 => Ok((Change::None, start)),
        1 => read_added(bytes, start),
        2 => Ok((Change::Drop, start)),
        _ => Err(Fault::Broken(FactRule::Tag, at)),
    }
}

/// The fields of version 1.
#[tactic(auto, unfolding(crate::specs::FactBytes::fields_at))]
pub(crate) fn read_fields(bytes: &[u8], at: usize) -> Result<(Fact, usize), Fault<FactRule>>
    requires { at ≤ length bytes.now }
    ensures exact { fields_at bytes.now at ≡ result }
    ensures within { IfOk result (λ x. x.1 ≤ length bytes.now) }
{
    let (ballot, at) = plain(take_epoch(bytes, at))?;
    let (epoch, at) = plain(take_epoch(bytes, at))?;
    let (seq, at) = plain(take_u64(bytes, at))?;
    let (leader, at) = plain(take_u32(bytes, at))?;
    let (views, at) = with_rule(take_views(bytes, at), FactRule::View)?;
    let (change, at) = read_change(bytes, at)?;
    Ok((
        Fact {
            ballot,
            epoch,
            seq,
            leader: PeerId(leader),
            views,
            change,
        },
        at,
    ))
}

#[tactic(auto, unfolding(crate::specs::FactBytes::fact_at))]
fn read_fact(bytes: &[u8], at: usize) -> Result<(Fact, usize), Fault<FactRule>>
    requires { at ≤ length bytes.now }
    ensures exact { fact_at bytes.now at ≡ result }
    ensures within { IfOk result (λ x. x.1 ≤ length bytes.now) }
{
    let (version, start) = plain(take_u8(bytes, at))?;
    match version {
        1 => read_fields(bytes, start),
        _ => Err(Fault::Broken(FactRule::Tag, at)),
    }
}

/// Reads a fact at `at`. Returns it and the place after it.
pub fn take_fact(bytes: &[u8], at: usize) -> Result<(Fact, usize), FieldError>
    requires { at ≤ length bytes.now }
    ensures exact { unnamed (fact_at bytes.now at) ≡ result }
    ensures within { IfOk result (λ x. x.1 ≤ length bytes.now) }
{
    match read_fact(bytes, at) {
        Ok(read) => Ok(read),
        Err(Fault::Ended(place)) => Err(FieldError::Short(place)),
        Err(Fault::Broken(_rule, place)) => Err(FieldError::Rule(place)),
        Err(Fault::NoMemory) => Err(FieldError::Memory),
    }
}

/// Returns what was read, if it takes all `size` bytes.
fn if_all(read: Result<(Fact, usize), Fault<FactRule>>, size: usize) -> Result<Fact, FactError>
    ensures { result ≡ all_of read size }
{
    match read {
        Ok((fact, end)) => {
            if end == size {
                Ok(fact)
            } else {
                Err(FactError::Trailing)
            }
        }
        Err(Fault::Ended(_)) => Err(FactError::Short),
        Err(Fault::Broken(FactRule::Tag, _)) => Err(FactError::BadTag),
        Err(Fault::Broken(FactRule::View, _)) => Err(FactError::BadView),
        Err(Fault::NoMemory) => Err(FactError::Memory),
    }
}

impl Fact {
    /// Returns the fact that the bytes spell, all of them, or the first fault from the left. It takes no
    /// memory.
    pub fn decode(bytes: &[u8]) -> Result<Fact, FactError>
        // What is read was spelled so.
        ensures found { IfOk result (λ f. IsFact f × (bytes.now ≡ fact_spelling f)) }
        // What is spelled so is read.
        ensures only { (f : Fact) → IsFact f → bytes.now ≡ fact_spelling f → result ≡ Ok f }
        // Which fault it is.
        ensures exact { fact_of bytes.now ≡ result }
    {
        if_all(read_fact(bytes, 0), bytes.len())
    }
}
