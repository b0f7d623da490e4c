ghost use Rattle.std.specs.Prelude.{◌≡◌, Option, None, Some, IfOk, OnOk};
ghost use Rattle.std.specs.List.{list_any};
ghost use Rattle.register_checker.specs.declared.guess.Guess.TheVariants.{Absent, Told, Untold};
ghost use Rattle.register_checker.specs.Guesses.{told_content, untold_content, held_within, covers, added};

use crate::error::RunError;
use crate::stamps::within;
use ens_base::{Seq, Value, Version};
use std::alloc::Global;

/// What the register may hold.
#[derive(Debug, Drop)]
pub enum Guess {
    /// Nothing: the register is absent.
    Absent,
    /// A value, under a stamp that a reply has shown.
    Told(Version, Value),
    /// A value, under a stamp that nothing has shown yet and that is none of the listed ones.
    Untold(Value, Seq<Version>),
}

/// A register that is possible after the calls so far.
#[derive(Debug, Drop)]
pub struct Possible {
    /// What the register may hold.
    pub held: Guess,
    /// The stamps that earlier writes must have had for this register to be possible, although no
    /// reply has shown them: an update without a printed reply named them, and took effect.
    pub named: Seq<Version>,
}

/// Returns a copy of a list of stamps.
pub fn copy_stamps(alloc: Global, stamps: &Seq<Version>) -> Result<Seq<Version>, RunError>
    ensures { IfOk result (λ s. s ≡ stamps.now) }
{
    Ok(Seq::new(Vec::from_slice(alloc, stamps.as_slice())?))
}

impl Guess {
    /// Returns what is held after a write whose reply showed this stamp.
    pub fn told(stamp: Version, content: Option<Value>) -> Guess
        ensures { result ≡ told_content stamp content }
    {
        match content {
            None => Guess::Absent,
            Some(value) => Guess::Told(stamp, value),
        }
    }

    /// Returns what is held after a write whose stamp is unknown.
    pub fn untold(alloc: Global, content: Option<Value>) -> Guess
        ensures { result ≡ untold_content content }
    {
        match content {
            None => Guess::Absent,
            Some(value) => Guess::Untold(value, Seq::new(Vec::new(alloc))),
        }
    }

    /// Returns a copy. Fails only when out of memory.
    pub fn copy(&self, alloc: Global) -> Result<Guess, RunError>
        ensures { IfOk result (λ g. g ≡ self.now) }
    {
        match self {
            Guess::Absent => Ok(Guess::Absent),
            Guess::Told(stamp, value) => Ok(Guess::Told(*stamp, value.copy(alloc)?)),
            Guess::Untold(value, excluded) => {
                let value = value.copy(alloc)?;
                Ok(Guess::Untold(value, copy_stamps(alloc, excluded)?))
            }
        }
    }

    /// Returns whether this is the value under the stamp.
    fn is_told(&self, stamp: Version, value: &Value) -> bool
        ensures { result ≡ held_within (Told stamp value.now) self.now }
    {
        match self {
            Guess::Absent => false,
            Guess::Told(other, held) => stamp == *other && value == held,
            Guess::Untold(_, _) => false,
        }
    }

    /// Returns whether this is the value under an unknown stamp, with at least the stamps
    /// `excluded` ruled out.
    fn is_untold(&self, value: &Value, excluded: &Seq<Version>) -> bool
        ensures { result ≡ held_within (Untold value.now excluded.now) self.now }
    {
        match self {
            Guess::Absent => false,
            Guess::Told(_, _) => false,
            Guess::Untold(held, all) => value == held
                && within(excluded.as_slice(), all.as_slice()),
        }
    }

    /// Returns whether this is the absent register.
    fn is_absent(&self) -> bool
        ensures { result ≡ held_within Absent self.now }
    {
        match self {
            Guess::Absent => true,
            Guess::Told(_, _) => false,
            Guess::Untold(_, _) => false,
        }
    }

    /// Returns whether the other guess is the same, except for further stamps that it rules out.
    fn is_within(&self, other: &Guess) -> bool
        ensures { result ≡ held_within self.now other.now }
    {
        match self {
            Guess::Absent => other.is_absent(),
            Guess::Told(stamp, value) => other.is_told(*stamp, value),
            Guess::Untold(value, excluded) => other.is_untold(value, excluded),
        }
    }
}

impl Possible {
    /// Returns whether everything that may come after the other register may also come after this
    /// one.
    fn covers(&self, other: &Possible) -> bool
        ensures { result ≡ covers self.now other.now }
    {
        self.held.is_within(&other.held) && within(self.named.as_slice(), other.named.as_slice())
    }
}

/// Returns whether a possible register in the list covers this one.
fn is_covered(list: &[Possible], possible: &Possible) -> bool
    ensures { result ≡ list_any (λ q. covers q possible.now) list.now }
{
    list.iter().any(|kept| kept.covers(possible))
}

/// Appends a possible register to the list, unless one in the list covers it.
pub fn add(list: &mut Vec<Possible>, possible: Possible) -> Result<(), RunError>
    ensures { OnOk result (list.new.items ≡ added list.old.items possible) }
{
    if is_covered(list, &possible) {
        return Ok(());
    }
    list.push(possible)?;
    Ok(())
}
