use schedule_text::{Reading, ScheduleError, read_schedule, write_schedule};
use std::test::Fail;

const EVERY_LINE: &[u8] = b"ensemble 3\npeers 12\nview 1 2 3\n\
call 1 1 get 6b\ncall 1 2 once 6b 76\ncall 2 18446744073709551615 update 6b 1.2.3 -\n\
call 3 4 append 6b 00ff\ncall 3 5 add 6b 18446744073709551615\ncall 12 6 swap 6b - 76\n\
call 1 7 over 6b 76\ncall 1 0 delete 6b\ntick 1 100\ndeliver 1\npass 1 2\nlose 12 1\n\
calm\ncalm 4\ncalm 1 2 12\nchange 1 4 5 6\nstop 1\nstart 1\nupgrade 12\ndeepen\n\
spoil 1 6b -\ndamage 2 6b 00\ninner 1 0 0 -\ninner 1 2 255 ab\ninner 1 4 65535 ab\nrevert 3 1000000\nfail 2 tree new\nfail 1 backend old\nfail 1 fact new\n";

#[test]
fn every_line_is_copied_and_written_back(rt: HostRuntime) -> Result<(), Fail> {
    let alloc = rt.alloc();
    let mut schedule = read_schedule(alloc, EVERY_LINE)?;
    let mut events = Vec::new(alloc);
    for event in schedule.events.as_slice() {
        events.push(event.copy(alloc)?)?;
    }
    assert!(rt; events.len() == 29);
    schedule.events = ens_base::Seq::new(events);
    assert!(rt; write_schedule(alloc, &schedule)?.as_slice() == EVERY_LINE);
    Ok(())
}

const FOUR_LINES: [&[u8]; 4] = [b"ensemble 1", b"peers 1", b"view 1", b"call 1 1 get 6b"];

#[test]
fn a_reading_goes_on_behind_a_refused_line(rt: HostRuntime) -> Result<(), Fail> {
    let mut reading = Reading::new(rt.alloc());
    for line in FOUR_LINES {
        reading.line(line)?;
    }
    let fault = reading.line(b"call 1 1 get 6b").err();
    assert!(rt; fault == Some(ScheduleError::Bad { line: 5, cause: 9 }));
    reading.line(b"call 1 2 get 6b")?;
    assert!(rt; reading.end(b"")?.events.as_slice().len() == 2);
    Ok(())
}

#[test]
fn an_error_says_what_is_wrong_and_where(rt: HostRuntime) -> Result<(), Fail> {
    let bad = ScheduleError::Bad { line: 5, cause: 7 };
    let (lines, memory) = (ScheduleError::Lines, ScheduleError::Memory);
    let said = format!(in rt.alloc(); "{bad}\n{lines}\n{memory}\n")?;
    assert!(rt;
        said.as_str()
            == "line 5: bytes are malformed, or their length is out of range\n\
the schedule has more than 200000 lines\nout of memory\n"
    );
    Ok(())
}
