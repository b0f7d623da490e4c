ghost use Rattle.std.specs.Prelude.{IfOk};
ghost use Rattle.history_record.specs.Reading.{Answers, record_of};
ghost use Rattle.history_record.specs.Records.{IsRecord};

use crate::error::AuditError;
use crate::reading::RecordReading;
use crate::record::Record;
use lexemes::parts;
use std::alloc::Global;

/// Returns the record that the text is, or the number of its first bad line and the cause. In the lines
/// before `answers` the causes are 1 to 9, as for a schedule, and behind it 10 to 16. A text in which line
/// 200,001 begins and is not `answers`, and no line before it is bad, has too many lines.
pub fn read_record(alloc: Global, bytes: &[u8]) -> Result<Record, AuditError>
    ensures exact { Answers (record_of bytes.now) result }
    ensures record { IfOk result IsRecord }
{
    let parts = parts(alloc, bytes, b'\n')?;
    let mut reading = RecordReading::new(alloc);
    let Some((rest, lines)) = parts.split_last() else {
        return reading.end(&[]);
    };
    for line in lines {
        reading.line(line)?;
    }
    reading.end(rest)
}
