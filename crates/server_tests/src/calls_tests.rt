use ens_base::{Bytes, Command, Epoch, PeerId, Reply, Value, Version};
use http_calls::{Asked, CallError, Leader, read_request, reply_answer, stamp_of, stamp_text};
use http1::Header;
use std::alloc::Global;
use std::test::Fail;

const STAMP: &[u8] = b"\"0000000000000102000000030000000000000405\"";

const OF_STAMP: Version = Version {
    epoch: Epoch {
        count: 0x102,
        proposer: 3,
    },
    seq: 0x405,
};

/// The word of the command, and the number that it holds or, for a problem, the status.
fn told(asked: &Result<Asked, CallError>) -> (&'static str, u64) {
    match asked {
        Ok(Asked::Call(call)) => match &call.command {
            Command::Get => ("get", if call.known.is_some() { 1 } else { 0 }),
            Command::PutOnce(_) => ("once", 0),
            Command::Update(stamp, _) => ("update", stamp.seq),
            Command::Append(_) => ("append", 0),
            Command::Add(number) => ("add", *number),
            Command::Swap(old, _) => ("swap", old.bytes().len() as u64),
            Command::Over(_) => ("over", 0),
            Command::Delete => ("delete", 0),
        },
        Ok(Asked::Page(_)) => ("page", 0),
        Err(CallError::Refused(problem)) => ("problem", problem.status() as u64),
        Err(CallError::Memory) => ("memory", 0),
    }
}

/// A row: the method, the target, a field, the body, and what is told.
type Row = (
    &'static [u8],
    &'static [u8],
    (&'static [u8], &'static [u8]),
    &'static [u8],
    (&'static str, u64),
);

const NONE: (&[u8], &[u8]) = (b"accept", b"*/*");

fn check(rt: &HostRuntime, alloc: Global, row: &Row) -> Result<bool, Fail> {
    let (method, target, field, body, want) = row;
    let headers = [
        Header {
            name: b"Host",
            value: b"127.0.0.1:8001",
        },
        Header {
            name: field.0,
            value: field.1,
        },
    ];
    let names = [Bytes::from_slice(alloc, b"peer-one")?];
    let asked = read_request(alloc, &names, method, target, &headers, body);
    let _ = rt;
    Ok(told(&asked) == *want)
}

#[test]
fn the_table_of_requests(rt: HostRuntime) -> Result<(), Fail> {
    let alloc = rt.alloc();
    let star: (&[u8], &[u8]) = (b"If-None-Match", b"*");
    let tag: (&[u8], &[u8]) = (b"If-Match", STAMP);
    let known: (&[u8], &[u8]) = (b"if-none-match", STAMP);
    let rows: [Row; 34] = [
        (b"GET", b"/v1/keys/a", NONE, b"", ("get", 0)),
        (b"HEAD", b"/v1/keys/a", NONE, b"", ("get", 0)),
        (b"GET", b"/v1/keys/a", known, b"", ("get", 1)),
        (b"GET", b"/v1/keys/a?wait=30", known, b"", ("get", 1)),
        (b"GET", b"/v1/keys/a?wait=30", NONE, b"", ("problem", 400)),
        (b"GET", b"/v1/keys/a?wait=61", known, b"", ("problem", 400)),
        (b"PUT", b"/v1/keys/a", NONE, b"v", ("over", 0)),
        (b"PUT", b"/v1/keys/a", star, b"v", ("once", 0)),
        (b"PUT", b"/v1/keys/a", tag, b"v", ("update", 0x405)),
        (
            b"PUT",
            b"/v1/keys/a",
            (b"If-Match", b"*"),
            b"v",
            ("problem", 400),
        ),
        (
            b"PUT",
            b"/v1/keys/a",
            (b"If-Match", b"W/\"1\""),
            b"v",
            ("problem", 400),
        ),
        (b"PUT", b"/v1/keys/a", known, b"v", ("problem", 501)),
        (
            b"PUT",
            b"/v1/keys/a",
            (b"If-Unmodified-Since", b"x"),
            b"v",
            ("problem", 501),
        ),
        (b"DELETE", b"/v1/keys/a", NONE, b"", ("delete", 0)),
        (b"DELETE", b"/v1/keys/a", tag, b"", ("problem", 501)),
        (b"POST", b"/v1/keys/a?do=append", NONE, b"v", ("append", 0)),
        (
            b"POST",
            b"/v1/keys/a?do=add",
            NONE,
            b"18446744073709551615",
            ("add", u64::MAX),
        ),
        (
            b"POST",
            b"/v1/keys/a?do=add",
            NONE,
            b"18446744073709551616",
            ("problem", 400),
        ),
        (b"POST", b"/v1/keys/a?do=add", NONE, b"-1", ("problem", 400)),
        (
            b"POST",
            b"/v1/keys/a?do=swap&old=x%20y",
            NONE,
            b"v",
            ("swap", 3),
        ),
        (
            b"POST",
            b"/v1/keys/a?do=swap&old=x%2",
            NONE,
            b"v",
            ("problem", 400),
        ),
        (b"POST", b"/v1/keys/a?do=none", NONE, b"v", ("problem", 400)),
        (b"POST", b"/v1/keys/a", NONE, b"v", ("problem", 400)),
        (b"PUT", b"/v1/keys/", NONE, b"v", ("problem", 400)),
        (b"PUT", b"/v1/keys/a/b", NONE, b"v", ("problem", 400)),
        (b"PUT", b"/v1/keys/a?x=1", NONE, b"v", ("problem", 400)),
        (b"GET", b"/v1/keys/a", NONE, b"v", ("problem", 400)),
        (
            b"PUT",
            b"/v1/keys/a",
            (b"Origin", b"http://evil"),
            b"v",
            ("problem", 403),
        ),
        (
            b"PUT",
            b"/v1/keys/a",
            (b"Origin", b"http://127.0.0.1:8001"),
            b"v",
            ("over", 0),
        ),
        (b"GET", b"/nothing", NONE, b"", ("problem", 404)),
        (b"CONNECT", b"a:1", NONE, b"", ("problem", 405)),
        (b"POST", b"/v1/status", NONE, b"", ("problem", 405)),
        (b"GET", b"/v1/keys?limit=5", NONE, b"", ("page", 0)),
        (
            b"GET",
            b"/v1/keys/a",
            (b"Host", b"peer-one"),
            b"",
            ("problem", 400),
        ),
    ];
    for row in &rows {
        let (method, target, _, _, want) = row;
        assert!(rt; check(&rt, alloc, row)?, "{method:?} {target:?} {want:?}");
    }
    Ok(())
}

#[test]
fn hosts_that_are_known(rt: HostRuntime) -> Result<(), Fail> {
    let alloc = rt.alloc();
    let names = [Bytes::from_slice(alloc, b"peer-one")?];
    let rows: [(&[u8], u64); 8] = [
        (b"peer-one", 0),
        (b"PEER-ONE:8001", 0),
        (b"10.0.0.1:8001", 0),
        (b"[::1]:8001", 0),
        (b"evil.example", 421),
        (b"10.0.0.1.evil.example", 421),
        (b"[::1", 421),
        (b"", 421),
    ];
    for (host, want) in rows {
        let headers = [Header {
            name: b"host",
            value: host,
        }];
        let asked = read_request(alloc, &names, b"GET", b"/healthz", &headers, b"");
        let (_, status) = told(&asked);
        assert!(rt; status == want, "{host:?}");
    }
    let headers = [Header {
        name: b"host",
        value: b"evil.example:443",
    }];
    let tunnel = read_request(
        alloc,
        &names,
        b"CONNECT",
        b"evil.example:443",
        &headers,
        b"",
    );
    assert!(rt; told(&tunnel) == ("problem", 405));
    Ok(())
}

#[test]
fn the_table_of_answers(rt: HostRuntime) -> Result<(), Fail> {
    let alloc = rt.alloc();
    assert_eq!(rt; stamp_text(OF_STAMP).as_slice(), STAMP);
    assert!(rt; stamp_of(STAMP) == Some(OF_STAMP));
    let headers = [Header {
        name: b"host",
        value: b"[::1]",
    }];
    let leader = Leader {
        peer: PeerId(2),
        url: Some(Bytes::from_slice(alloc, b"http://10.0.0.2:8001")?),
    };
    let value = Value::new(alloc, b"v")?;
    let rows: [(&[u8], Reply, u16, &[u8]); 6] = [
        (b"GET", Reply::Value(OF_STAMP, value), 200, b"v"),
        (b"GET", Reply::NotFound, 404, b""),
        (b"PUT", Reply::Ok(OF_STAMP), 204, b""),
        (b"PUT", Reply::Unavailable, 307, b""),
        (b"PUT", Reply::Busy, 503, b""),
        (
            b"PUT",
            Reply::Timeout,
            504,
            b"unknown: it may have taken effect, or may yet\n",
        ),
    ];
    for (method, reply, status, body) in &rows {
        let asked = read_request(alloc, &[], method, b"/v1/keys/a%20b", &headers, b"");
        assert!(rt; matches!(&asked, Ok(Asked::Call(_))));
        let Ok(Asked::Call(call)) = asked else {
            continue;
        };
        assert_eq!(rt; call.key.bytes(), b"a b".as_slice());
        let answer = reply_answer(alloc, &call, b"/v1/keys/a%20b", reply, Some(&leader))?;
        assert!(rt;
            answer.status == *status && answer.body.as_slice() == *body,
            "{status}"
        );
        let fields = answer.headers(alloc)?;
        assert!(rt; fields.len() >= 1);
        if *status == 307 {
            let last = fields.last().map(|h| h.value).unwrap_or(b"");
            assert_eq!(rt; last, b"http://10.0.0.2:8001/v1/keys/a%20b".as_slice());
        }
    }
    Ok(())
}
