use crate::page::Page;
use ens_base::{Command, Key, Version};

/// A call of the register of a key.
#[derive(Drop)]
pub struct Call {
    pub key: Key,
    pub command: Command,
    /// The stamp that the client of a get knows: if the value has it, it is not sent again.
    pub known: Option<Version>,
    /// For how many seconds, from 1 to 60, a get of a known value waits for another one.
    pub wait: Option<u64>,
}

/// What a request asks for.
#[derive(Drop)]
pub enum Asked {
    Call(Call),
    Page(Page),
}
