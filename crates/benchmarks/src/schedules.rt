//! Reads a schedule of 200,000 lines, and writes it back.

use schedule_text::{ScheduleError, read_schedule, write_schedule};
use std::alloc::{AllocError, Global};

/// The number of lines after the first three.
const EVENTS: u64 = 199_997;

/// A schedule of 200,000 lines, one call in two.
fn schedule_of_calls(alloc: Global) -> Result<String, AllocError> {
    let mut text = String::from_str(alloc, "ensemble 1\npeers 3\nview 1 2 3\n")?;
    for number in 0..EVENTS {
        if number % 2 == 0 {
            write!(text, "call 1 {number} over 6b 00ff\n")?;
        } else {
            text.push_str("calm 1 2 3\n")?;
        }
    }
    Ok(text)
}

/// Returns the number of events, and whether the schedule is written back as it was read.
pub fn measure(alloc: Global) -> Result<(usize, bool), ScheduleError> {
    let Ok(text) = schedule_of_calls(alloc) else {
        return Err(ScheduleError::Memory);
    };
    let schedule = read_schedule(alloc, text.as_bytes())?;
    let written = write_schedule(alloc, &schedule)?;
    Ok((
        schedule.events.as_slice().len(),
        written.as_slice() == text.as_bytes(),
    ))
}
