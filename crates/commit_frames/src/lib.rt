//! Frames of a log of commits, and the records of their payloads.
//!
//! A frame is written over zeros. A crash leaves each of its bytes 0 or written, and no byte of its header
//! is 0, and the header counts the zeros of the payload: so a frame of which a byte was lost is never
//! read as whole. `specs/Headers` and `specs/Frames` define frames, `specs/Records` defines payloads.
#![tactic(auto)]

mod digits;
mod frame;
mod header;
mod laws;
mod mark;
mod record;
mod remains;

pub use frame::put_frame;
pub use header::{HEADER_BYTES, Header, zeros_of};
pub use laws::{a_changed_byte_is_told, a_record_is_read_back, a_torn_frame_is_refused};
pub use mark::Mark;
pub use record::{RECORD_BYTES, RecordKind, Shape, put_record, shape_of};
pub use remains::Remains;
