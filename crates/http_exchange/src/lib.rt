//! One connection of HTTP/1.1 (RFC 9112) without input or output of its own, whose answers may come
//! later than the requests.
//!
//! The caller puts what it receives into an [`Exchange`], takes each request once it is whole, answers
//! it when it can, and sends what is pending. While a request waits for its answer no other one is
//! handed out. The grammar is that of the crate `http1`; the definitions stand in `specs/`.
#![tactic(auto)]

mod exchange;
mod front;
mod laws;
mod limits;
mod refusal;
mod request;
mod stage;

pub use exchange::Exchange;
pub use laws::{first_requests, one_sequence};
pub use limits::{LIMITS, MAX_BODY, MAX_FIELDS, MAX_TEXT};
pub use refusal::Refusal;
pub use request::Request;
pub use stage::Stage;
