//! What a request of HTTP asks of a peer, and how the reply to its call is told. Nothing here knows of
//! sockets, time or the state of a peer.
//!
//! The table of requests and answers stands in `specs/`: [`read_request`] is `Calls.asked_by`, and
//! [`reply_answer`] is `Answers.answer_of`. Conditions are those of RFC 9110, section 13: the stamp of a
//! value is its entity tag.
#![tactic(auto)]

mod answer;
mod call;
mod condition;
mod key_text;
mod laws;
mod method;
mod page;
mod problem;
mod read;
mod request_fields;
mod request_host;
mod stamp;
mod target;

pub use answer::{Answer, Field, Leader, problem_answer, reply_answer};
pub use call::{Asked, Call};
pub use condition::Condition;
pub use laws::{stamps_are_tags, statuses_tell, update_is_kept};
pub use method::Method;
pub use page::Page;
pub use problem::{Allowed, CallError, Problem};
pub use read::read_request;
pub use stamp::{stamp_of, stamp_text};
