//! Reads and writes the fields that every format is made of: numbers, epochs, versions, keys, values,
//! views and entries.
//!
//! Each field has a grammar in `specs/`, apart from the code: how a value is spelled, and what reading
//! at a place gives, down to the first fault and its place. A `put_` call appends the spelling, or
//! leaves the bytes as they were. A `take_` call returns exactly what reading gives. A `write_` call
//! writes into a buffer and takes no memory. [`fields_have_grammars`] proves of each field that
//! spelling and reading are inverse to each other.
#![tactic(auto)]

mod entries;
mod fault;
mod faults;
mod field_error;
mod laws;
mod numbers;
mod strings;
mod versions;
mod views;

pub use entries::{put_digest, put_entry, take_digest, take_entry};
pub use fault::{Fault, plain, with_rule, without_rule};
pub use faults::fields_fault_first;
pub use field_error::FieldError;
pub use laws::fields_have_grammars;
pub use numbers::{
    put_u8, put_u16, put_u32, put_u64, take_u8, take_u16, take_u32, take_u64, write_bytes,
    write_u8, write_u32, write_u64,
};
pub use strings::{put_key, put_value, take_key, take_value};
pub use versions::{put_epoch, put_version, take_epoch, take_version, write_epoch};
pub use views::{put_view, put_views, take_view, take_views, write_view, write_views};
