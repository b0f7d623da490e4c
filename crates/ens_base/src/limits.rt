/// The greatest length of a line of a schedule in bytes, without its line feed.
pub const MAX_LINE_BYTES: usize = 4400;

/// The greatest number of lines of a schedule.
pub const MAX_LINES: u32 = 200_000;
