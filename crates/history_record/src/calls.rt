ghost use Rattle.std.specs.Prelude.{◌≡◌, ◌++◌, [], IfOk, OnOk};
ghost use Rattle.history_record.specs.Calls.{call_at, calls_from};

use ens_base::CopyError;
use register_model::Call;
use schedule_text::ScheduleEvent;
use std::alloc::Global;

/// Pushes the call of the event with this number, if it makes one.
fn push_call(
    alloc: Global,
    calls: &mut Vec<Call>,
    event: &ScheduleEvent,
    number: u64,
) -> Result<(), CopyError>
    ensures { OnOk result (calls.new.items ≡ calls.old.items ++ call_at event.now number []) }
{
    if let ScheduleEvent::Call {
        id,
        key,
        command,
        ..
    } = event
    {
        calls.push(Call {
            id: *id,
            key: key.copy(alloc)?,
            command: command.copy(alloc)?,
            event: number,
        })?;
    }
    Ok(())
}

/// Returns the calls of the events, each with the number of its event, counted from 1.
pub fn calls_of(alloc: Global, events: &[ScheduleEvent]) -> Result<Vec<Call>, CopyError>
    ensures { IfOk result (λ v. v.items ≡ calls_from 1 events.now) }
{
    let mut calls = Vec::new(alloc);
    let mut number = 0;
    for event in events {
        number += 1;
        push_call(alloc, &mut calls, event, number)?;
    }
    Ok(calls)
}
