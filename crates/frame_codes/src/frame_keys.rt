ghost use Rattle.std.specs.Prelude.{◌≡◌, ℕ, List, IfOk, IfSome, IfNone};
ghost use Rattle.std.specs.List.{list_any};
ghost use Rattle.std.specs.Option.{option_map};

use crate::coverage::Ensemble;
pub use crate::frame_key::CODE_LENGTH;
use crate::frame_key::FrameKey;
use crate::key_file::KeyFile;
use ens_base::Bytes;
use std::alloc::{AllocError, Global};
use std::marker::Model;

/// The keys under which the frames of an ensemble are sealed and opened. Contracts see the ensemble and
/// its key file.
#[derive(Drop)]
pub struct FrameKeys {
    ensemble: Ensemble,
    name: Bytes,
    first: FrameKey,
    second: Option<FrameKey>,
}

impl Model for FrameKeys {
    ghost use Rattle.std.specs.Prelude.{◌≡◌};
    ghost use Rattle.frame_codes.specs.Seals.{Keys, name_of};

    ghost Value = { Keys };

    ghost view = { λ k. record { ensemble = k.ensemble; file = record { first = k.first; second = k.second } } };

    ghost invariant = { λ k. k.name ≡ name_of k.ensemble };
}

impl FrameKeys {
    ghost use Rattle.frame_codes.specs.Seals.{name_of, keys_of, is_sealed, sent_as, opened, IsSealed};

    /// Makes the keys of a key file, for this ensemble. Fails only when out of memory.
    pub fn new(alloc: Global, ensemble: &Ensemble, file: &KeyFile) -> Result<FrameKeys, AllocError>
        ensures { IfOk result (λ k. k ≡ record { ensemble = ensemble.now; file = file.now }) }
    {
        Ok(FrameKeys {
            ensemble: *ensemble,
            name: ensemble.name(alloc)?,
            first: FrameKey::new(file.first),
            second: file.second.map(FrameKey::new),
        })
    }

    /// Returns the frame, sealed under the first key. Fails only when out of memory.
    pub fn seal(&self, alloc: Global, frame: &[u8]) -> Result<Vec<u8>, AllocError>
        ensures { IfOk result (λ v. v.items ≡ sent_as self.now frame.now) }
    {
        let mut bytes = Vec::with_capacity(alloc, frame.len().saturating_add(CODE_LENGTH))?;
        bytes.extend_from_slice(frame)?;
        bytes.extend_from_slice(&self.first.code(self.name.as_slice(), frame))?;
        Ok(bytes)
    }

    /// Returns whether the bytes are a frame, sealed under a key of the file.
    fn fits(&self, bytes: &[u8]) -> bool
        ensures { result ≡ list_any (is_sealed (name_of self.now.ensemble) bytes.now) (keys_of self.now.file) }
    {
        let name = self.name.as_slice();
        match &self.second {
            Some(second) => self.first.opens(name, bytes) || second.opens(name, bytes),
            None => self.first.opens(name, bytes),
        }
    }

    /// Returns the frame that the bytes are, sealed under a key of the file, or `None` if they are none.
    pub fn open<'a>(&self, bytes: &'a [u8]) -> Option<&'a [u8]>
        ensures sealed { IfSome result (λ f. IsSealed self.now f.now bytes.now) }
        ensures none { IfNone result ((frame : List ℕ) → ¬ IsSealed self.now frame bytes.now) }
        ensures exact { option_map (λ f. f.now) result ≡ opened self.now bytes.now }
    {
        if self.fits(bytes) {
            Some(&bytes[..bytes.len() - CODE_LENGTH])
        } else {
            None
        }
    }
}
