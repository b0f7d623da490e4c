use ens_base::Status;
use environment::{MemSink, MemSource};
use root::root;
use std::test::Fail;

#[test]
fn scripts_print_what_they_are_to(rt: HostRuntime) -> Result<(), Fail> {
    let alloc = rt.alloc();
    // The lines behind the first, and what is printed.
    let cases = [
        (
            "peers 1\nview 1\nat r tick 1 6\nopen 1 1 36 1\nat 36 tick 1 6\nroute 1 2 over 616263 76\n\
route 1 3 get 616263\nlook 1 4 36\n",
            Status::Done,
            "answer 1 2 ok 1.1.1\nanswer 2 4 ok 1.1.1\nanswer 3 5 value 1.1.1 76\n\
answer 4 6 value 1.1.1 0100000001\nslot 36 1 4\nhistory 616263 2 3\n",
        ),
        (
            "peers 1\nview 1\nroute 1 1 get 616263\nlook 1 2 36\n",
            Status::Done,
            "answer 1 1 unavailable\nanswer 2 2 unavailable\nslot 36\nhistory 616263\n",
        ),
        (
            "peers 2\nview 1\nat r tick 1 6\nopen 1 1 36 1\nopen 1 2 36 2\n",
            Status::Done,
            "answer 1 2 ok 1.1.1\nanswer 2 3 failed\nslot 36 1 2\n",
        ),
        (
            "peers 1\nview 1\nat r deepen\n",
            Status::Schedule,
            "schedule 4 4\n",
        ),
    ];
    for (lines, status, text) in cases {
        let script = format!(in alloc; "root 1\n{lines}")?;
        let mut input = MemSource::new(script.into_bytes(), Vec::new(alloc));
        let mut output = MemSink::new(alloc, 400, Vec::new(alloc))?;
        assert_eq!(rt; root(&rt, alloc, &mut input, &mut output), status);
        assert_eq!(rt; output.bytes(), text.as_bytes());
    }
    Ok(())
}
