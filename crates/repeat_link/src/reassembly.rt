ghost use Rattle.std.specs.Prelude.{◌≡◌, ◌<◌, [], None, IfOk, OnOk, OnErr, replicate};
ghost use Rattle.environment.specs.Told.{bytes_of};
ghost use Rattle.repeat_link.specs.Parts.{whole, parts_for, with_part};

use ens_base::Bytes;
use std::alloc::{AllocError, Global};
use std::marker::Model;

/// The parts that came of one frame. A part of another frame takes their place: the sender sends all parts
/// of a frame again until the whole frame is acknowledged.
#[derive(Drop)]
pub struct Reassembly {
    number: u64,
    parts: Vec<Option<Bytes>>,
}

impl Model for Reassembly {
    ghost use Rattle.repeat_link.specs.Parts.{Partial};

    ghost Value = { Partial };

    ghost view = { λ r. record { number = r.number; parts = r.parts.items } };
}

/// Makes room for so many parts, none of which came.
fn no_parts(alloc: Global, count: usize) -> Result<Vec<Option<Bytes>>, AllocError>
    ensures { IfOk result (λ v. v.items ≡ replicate count None) }
{
    let mut parts = Vec::with_capacity(alloc, count)?;
    for _ in 0..count {
        parts.push(None)?;
    }
    Ok(parts)
}

impl Reassembly {
    /// Nothing came.
    pub fn new(alloc: Global) -> Reassembly
        ensures { result ≡ record { number = 0; parts = [] } }
    {
        Reassembly {
            number: 0,
            parts: Vec::new(alloc),
        }
    }

    /// Forgets what came.
    pub fn clear(&mut self)
        ensures { self.new ≡ record { number = 0; parts = [] } }
    {
        self.number = 0;
        self.parts.clear();
    }

    /// Turns to the frame of this number and so many parts.
    fn turn_to(&mut self, alloc: Global, number: u64, count: usize) -> Result<(), AllocError>
        ensures ok { OnOk result (self.new ≡ record { number = number; parts = parts_for self.old number count }) }
        ensures err { OnErr result (self.new ≡ self.old) }
    {
        if self.number != number || self.parts.len() != count {
            self.parts = no_parts(alloc, count)?;
            self.number = number;
        }
        Ok(())
    }

    /// Puts a part in its place. Fails only when out of memory; then nothing changed.
    pub fn put(
        &mut self,
        alloc: Global,
        number: u64,
        place: usize,
        count: usize,
        part: &[u8],
    ) -> Result<(), AllocError>
        requires { place < count }
        ensures ok { OnOk result (self.new ≡ with_part self.old number place count part.now) }
        ensures err { OnErr result (self.new ≡ self.old) }
    {
        let part = Bytes::from_slice(alloc, part)?;
        self.turn_to(alloc, number, count)?;
        self.parts[place] = Some(part);
        Ok(())
    }

    /// Returns the frame, if all its parts came. Fails only when out of memory.
    pub fn whole(&self, alloc: Global) -> Result<Option<Vec<u8>>, AllocError>
        ensures { IfOk result (λ o. bytes_of o ≡ whole self.now.parts) }
    {
        let mut frame = Vec::new(alloc);
        for part in &self.parts {
            let Some(part) = part else {
                return Ok(None);
            };
            frame.extend_from_slice(part.as_slice())?;
        }
        Ok(Some(frame))
    }
}
