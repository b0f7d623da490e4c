ghost use Rattle.std.specs.Prelude.{◌≡◌, ◌-◌, ◌≤◌, length, take, drop, OnOk, IfOk};
ghost use Rattle.slot_disk.specs.Crash.{written};
ghost use Rattle.slot_disk.specs.MemDisks.{history};
ghost use Rattle.slot_disk.specs.Steps.{deed_of, Leaves};
ghost use Rattle.slot_disk.specs.Images.{new_part, filled, partly_written, cut_in, image_of, Advances};

use crate::memory::{MemDisk, overwrite};
use crate::step::Step;
use std::alloc::{AllocError, Global};

/// Which of the writes since the last sync a crash keeps. Bytes past the old end that a crash does
/// not keep are zeros.
#[derive(Clone, Copy, Debug, PartialEq, Eq)]
pub enum Image {
    /// Keeps none of them: the old bytes stay, and a cut is not done.
    Old,
    /// Keeps all of them: the new bytes are there, and a cut is done.
    New,
    /// Keeps the first half of each write; its other bytes are old. A cut is done.
    Half,
}

impl Image {
    /// Returns how many bytes of a write of `len` bytes the crash keeps.
    fn part(self, len: usize) -> usize
        ensures part { result ≡ new_part self len }
        ensures within { result ≤ len }
    {
        match self {
            Image::Old => 0,
            Image::New => len,
            Image::Half => len / 2,
        }
    }
}

/// Extends the file with zeros up to a length.
fn grow(file: &mut Vec<u8>, end: usize) -> Result<(), AllocError>
    ensures { OnOk result (file.new.items ≡ filled file.old.items end) }
{
    if file.len() < end {
        return file.resize(end, 0);
    }
    Ok(())
}

/// Writes the first `part` bytes of a write that a crash cuts short.
#[tactic(auto, using(crate::proofs::Files::nothing_partly))]
fn write_part(file: &mut Vec<u8>, at: u64, bytes: &[u8], part: usize) -> Result<(), AllocError>
    requires { part ≤ length bytes.now }
    ensures { OnOk result (file.new.items ≡ partly_written file.old.items at bytes.now part) }
{
    if bytes.is_empty() {
        return Ok(());
    }
    let place = at as usize;
    let end = place.checked_add(bytes.len()).ok_or(AllocError)?;
    grow(file, end)?;
    overwrite(file, place, &bytes[..part]);
    Ok(())
}

/// Writes `bytes` at byte `at`.
#[tactic(auto, using(crate::proofs::Files::written_over, crate::proofs::Files::nothing_written))]
fn write_whole(file: &mut Vec<u8>, at: u64, bytes: &[u8]) -> Result<(), AllocError>
    ensures { OnOk result (file.new.items ≡ written file.old.items at bytes.now) }
{
    if bytes.is_empty() {
        return Ok(());
    }
    let place = at as usize;
    let end = place.checked_add(bytes.len()).ok_or(AllocError)?;
    grow(file, end)?;
    overwrite(file, place, bytes);
    Ok(())
}

/// Returns the bytes of one write, out of the log of all written bytes.
fn part_of(log: &[u8], from: usize, len: usize) -> &[u8]
    ensures { result.now ≡ take len (drop from log.now) }
{
    let rest = &log[from.min(log.len())..];
    &rest[..len.min(rest.len())]
}

/// The file that a read returns, and the one that a crash leaves.
#[derive(Debug, Drop)]
struct Replay {
    solid: Vec<u8>,
    left: Vec<u8>,
}

impl Replay {
    /// Applies one recorded call.
    fn advance(&mut self, log: &[u8], step: Step, image: Image) -> Result<(), AllocError>
        ensures { OnOk result (Advances image (deed_of log.now step) self.old.solid.items self.old.left.items self.new.solid.items self.new.left.items) }
    {
        match step {
            Step::Write { at, from, len } => self.write(at, part_of(log, from, len), image),
            Step::Cut(len) => {
                self.cut(len, image);
                Ok(())
            }
            Step::Sync => {
                self.left.clear();
                self.left.extend_from_slice(&self.solid)
            }
        }
    }

    /// Applies a write to both files.
    fn write(&mut self, at: u64, bytes: &[u8], image: Image) -> Result<(), AllocError>
        ensures solid { OnOk result (self.new.solid.items ≡ written self.old.solid.items at bytes.now) }
        ensures left { OnOk result (self.new.left.items ≡ partly_written self.old.left.items at bytes.now (new_part image (length bytes.now))) }
    {
        write_whole(&mut self.solid, at, bytes)?;
        write_part(&mut self.left, at, bytes, image.part(bytes.len()))
    }

    /// Applies a cut to both files.
    fn cut(&mut self, len: u64, image: Image)
        ensures solid { self.new.solid.items ≡ take len self.old.solid.items }
        ensures left { self.new.left.items ≡ cut_in image self.old.left.items len }
    {
        self.solid.truncate(len as usize);
        if image != Image::Old {
            self.left.truncate(len as usize);
        }
    }
}

impl MemDisk {
    /// Returns one of the images that a crash may leave now. Fails only when out of memory.
    pub fn crash(&self, alloc: Global, image: Image) -> Result<Vec<u8>, AllocError>
        ensures image { IfOk result (λ v. v.items ≡ image_of image self.now.first.items (history self.now)) }
        ensures possible { IfOk result (λ v. Leaves self.now.first.items (history self.now) v.items) }
    {
        let mut replay = Replay {
            solid: Vec::from_slice(alloc, &self.first)?,
            left: Vec::from_slice(alloc, &self.first)?,
        };
        for step in &self.steps {
            replay.advance(&self.log, *step, image)?;
        }
        Ok(replay.left)
    }
}
