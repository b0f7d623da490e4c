use crate::message::Message;

/// A message with its sender and its receiver, each a number from 1 to 63. Numbers up to 31 are peers,
/// greater ones are programs that call them.
#[derive(Debug, Drop)]
pub struct Frame {
    pub from: u32,
    pub to: u32,
    pub message: Message,
}
