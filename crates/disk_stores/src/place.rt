/// Where the content of a name is in the file of a log.
#[derive(Clone, Copy, Debug, PartialEq, Eq)]
pub struct Place {
    /// The offset of the first byte.
    pub at: u64,
    /// The length in bytes.
    pub len: u64,
}
