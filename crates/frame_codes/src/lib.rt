//! Codes for frames: HMAC-SHA-256 (RFC 2104 over FIPS 180-4) under the keys of a key file.
//!
//! A sealed frame is the frame and the first 16 bytes of the HMAC over the id of the ensemble, its
//! opening view and the frame (RFC 2104, section 5, lets a code be cut to no less than half). It opens
//! exactly under a key of the file, so a frame of another ensemble, or of one that was founded anew, does
//! not open. The definitions stand in `specs/`.
#![tactic(auto)]

mod coverage;
mod frame_key;
mod frame_keys;
mod hmac;
mod key_file;
mod laws;
mod same;

pub use coverage::Ensemble;
pub use frame_keys::{CODE_LENGTH, FrameKeys};
pub use hmac::hmac_sha256;
pub use key_file::{KeyFile, KeyFileError};
pub use laws::{a_code_names_its_ensemble, key_files_have_one_key_or_two, what_is_sealed_opens};
pub use same::is_same;
