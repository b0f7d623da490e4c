//! The job `cluster`, and what it records.
//!
//! What a cluster records: the schedule that happened, from the lines of its script and what the looks at its
//! link gave. There is no code that runs.
//!
//! The run of a world is a function of the lines applied, so the recorded schedule is one as well: an event of
//! the script is recorded as it stands, and a look records the delivery of the oldest message with the bytes
//! that it gave (`specs/Recordings`).
//!
//! The job `cluster`: several peers in one process, over a link, as a script says.
//!
//! The peers live in one world (world_model), and what happens is recorded as a schedule: an event of the
//! script as it stands, and a look at the link that gives the bytes of a message as the delivery of the
//! oldest message that waits with these bytes. Every message that a peer sends is handed to the link. What is
//! printed is a record: the schedule, the line `answers`, and the text of its run, which is what a replay of
//! the schedule prints. The contract of `cluster` says for each status what is printed, and what became of
//! the link (`specs/Ends`).
#![tactic(auto)]

mod ending;
mod job;
mod laws;
mod recorder;
mod sending;
mod stop;

pub use job::{cluster, cluster_with};
pub use laws::{
    a_recording_is_a_run, a_recording_keeps_the_script, each_message_is_delivered_once,
    looks_deliver_the_oldest,
};
