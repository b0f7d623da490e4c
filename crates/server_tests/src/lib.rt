//! Tests of what stands between a peer that serves and the network: codes of frames, frames that are sent again, and
//! HTTP.
//!
//! They show what no contract says: that the codes are those of RFC 4231, the texts of the refusals of a key file, that
//! frames come through a network that loses, repeats and delays, that whole exchanges are answered however their bytes
//! are cut, the table of requests and answers by rows that were written down before the code, and a desk over the
//! system's own loopback.
#![tactic(auto)]

#[cfg(test)]
mod calls_tests;
#[cfg(test)]
mod code_tests;
#[cfg(test)]
mod desk_tests;
#[cfg(test)]
mod exchange_tests;
#[cfg(test)]
mod repeat_tests;
