use environment::Ticker;
use host::ClockTicker;
use std::test::Fail;
use std::thread;
use std::time::Duration;

#[test]
fn a_tick_is_due_once_its_time_has_passed(rt: HostRuntime) -> Result<(), Fail> {
    let every = Duration::from_millis(500);
    let mut ticker = ClockTicker::new(&rt, every);
    let at_once = ticker.due();
    thread::sleep(&rt, every);
    let later = ticker.due();
    let again = ticker.due();
    assert!(rt; !at_once && later && !again);
    Ok(())
}
