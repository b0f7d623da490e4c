//! A link whose frames travel sealed: each under a code that only holders of a key can make.
//!
//! It is a link over any link. Whatever the link below gives, this one gives the frames in it that are
//! sealed under a key of the file, and nothing else: `specs/` says it as a function of what the link below
//! tells.
#![tactic(auto)]

mod coded_link;

pub use coded_link::CodedLink;
