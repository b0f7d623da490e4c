/// A recorded call that changed a disk in memory.
#[derive(Clone, Copy, Debug, PartialEq, Eq)]
pub enum Step {
    /// A write at byte `at`. Its bytes are the `len` bytes of the log from index `from` on.
    Write { at: u64, from: usize, len: usize },
    /// A cut to this length.
    Cut(u64),
    /// A sync.
    Sync,
}

/// The room of a disk in memory.
#[derive(Clone, Copy, Debug, PartialEq, Eq)]
pub struct Room {
    /// The greatest length of the file, in bytes.
    pub bytes: usize,
    /// The greatest total of written bytes that it records.
    pub written: usize,
    /// The greatest number of writes, cuts and syncs that it records.
    pub calls: usize,
}
