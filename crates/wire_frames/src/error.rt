use thiserror::Error;

/// Why bytes are not a frame. The causes are tested in this order, except that fewer than 14 bytes are
/// `Short` before anything else is tested, and a body that is cut short is found after `Length`.
#[derive(Clone, Copy, Debug, PartialEq, Eq, Error)]
pub enum FrameError {
    /// There are fewer bytes than the header has, or than its length of the body announces.
    #[error("the bytes end inside the frame")]
    Short,
    /// The first two bytes are not `52 45`.
    #[error("the first two bytes are not 52 45")]
    Magic,
    /// The version byte is not 2.
    #[error("the version of the format is not 2")]
    Version,
    /// The kind is not 1 to 19.
    #[error("the kind of the message is not 1 to 19")]
    Kind,
    /// The header announces a body of more than 4,096 bytes.
    #[error("the length of the body is greater than 4096 bytes")]
    Length,
    /// Bytes follow the body.
    #[error("bytes follow the frame")]
    Trailing,
    /// The sender, the receiver or a field of the body is cut short or breaks its rule, or bytes of the
    /// body are left over. The place is an index into the frame: where the first such part begins.
    #[error("the part of the frame at byte {0} is cut short or breaks its rule")]
    Field(u32),
    /// Memory ran out.
    #[error("out of memory")]
    Memory,
}
