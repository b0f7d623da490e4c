use http_exchange::Exchange;
use http1::Header;
use std::alloc::Global;
use std::io::Write;
use std::test::Fail;

/// Takes one byte at a call.
#[derive(Drop)]
struct Slow(Vec<u8>);

impl Write for Slow {
    fn write(&mut self, buf: &[u8]) -> std::io::Result<usize> {
        let count = buf.len().min(1);
        self.0.extend_from_slice(&buf[..count])?;
        Ok(count)
    }

    fn flush(&mut self) -> std::io::Result<()> {
        Ok(())
    }
}

const STREAM: &[u8] =
    b"PUT /a HTTP/1.1\r\nHost: x\r\nTransfer-Encoding: chunked\r\n\r\n5\r\nhello\r\n0\r\n\r\n\
HEAD /b HTTP/1.1\r\nHost: x\r\n\r\nGET /c HTTP/1.0\r\n\r\n";

const ANSWERS: &[u8] = b"HTTP/1.1 200 OK\r\netag: \"1\"\r\ncontent-length: 5\r\n\r\nhello\
HTTP/1.1 200 OK\r\netag: \"1\"\r\ncontent-length: 2\r\n\r\n\
HTTP/1.0 200 OK\r\netag: \"1\"\r\ncontent-length: 2\r\nconnection: close\r\n\r\n/c";

/// Answers each request with its body, or with its target if it has none.
fn serve(alloc: Global, exchange: &mut Exchange, out: &mut Slow) -> Result<(), Fail> {
    for _ in 0..4 {
        let Some(request) = exchange.next()? else {
            break;
        };
        let body = if request.body().is_empty() {
            request.target()
        } else {
            request.body()
        };
        let headers = [Header {
            name: b"etag",
            value: b"\"1\"",
        }];
        exchange.answer(200, b"OK", &headers, body)?;
    }
    for _ in 0..1000 {
        if !exchange.wants_write() {
            break;
        }
        exchange.write_to(out)?;
    }
    let _ = alloc;
    Ok(())
}

#[test]
fn a_stream_is_answered_however_it_is_cut(rt: HostRuntime) -> Result<(), Fail> {
    let alloc = rt.alloc();
    for size in [1, 2, 7, 40, 1000] {
        let mut exchange = Exchange::new(alloc);
        let mut out = Slow(Vec::new(alloc));
        for piece in STREAM.chunks(size) {
            let mut reader = piece;
            exchange.read_from(&mut reader)?;
            serve(alloc, &mut exchange, &mut out)?;
        }
        assert_eq!(rt; out.0.as_slice(), ANSWERS, "in pieces of {size}");
        assert!(rt; exchange.is_done());
    }
    Ok(())
}

/// What a connection answers to these bytes, with no request handed out.
fn refusal(alloc: Global, input: &[u8]) -> Result<Vec<u8>, Fail> {
    let mut exchange = Exchange::new(alloc);
    let mut reader = input;
    for _ in 0..40 {
        if exchange.wants_read() && !reader.is_empty() {
            exchange.read_from(&mut reader)?;
            let _none = exchange.next()?;
        }
    }
    let mut out = Slow(Vec::new(alloc));
    for _ in 0..1000 {
        if exchange.wants_write() {
            exchange.write_to(&mut out)?;
        }
    }
    let Slow(text) = out;
    Ok(text)
}

#[test]
fn each_refusal_has_its_status(rt: HostRuntime) -> Result<(), Fail> {
    let alloc = rt.alloc();
    let mut target = Vec::from_slice(alloc, b"GET /")?;
    target.extend_from_slice(vec![in alloc; b'x'; 20_000]?.as_slice())?;
    let mut head = Vec::from_slice(alloc, b"GET / HTTP/1.1\r\nHost: x\r\nA: ")?;
    head.extend_from_slice(vec![in alloc; b'x'; 20_000]?.as_slice())?;
    let rows: [(&[u8], &[u8]); 8] = [
        (b"GET / HTTP/1.1\r\n\r\n", b"HTTP/1.1 400 "),
        (b"GET / HTTP/1.1\nHost: x\n\n", b"HTTP/1.1 400 "),
        (
            b"PUT / HTTP/1.1\r\nHost: x\r\nContent-Length: 5\r\nContent-Length: 6\r\n\r\nhello",
            b"HTTP/1.1 400 ",
        ),
        (
            b"PUT / HTTP/1.1\r\nHost: x\r\nContent-Length: 1025\r\n\r\n",
            b"HTTP/1.1 413 ",
        ),
        (
            b"PUT / HTTP/1.1\r\nHost: x\r\nTransfer-Encoding: gzip, chunked\r\n\r\n0\r\n\r\n",
            b"HTTP/1.1 501 ",
        ),
        (target.as_slice(), b"HTTP/1.1 414 "),
        (head.as_slice(), b"HTTP/1.1 431 "),
        (
            b"PUT / HTTP/1.1\r\nHost: x\r\nExpect: 100-continue\r\nContent-Length: 5\r\n\r\n",
            b"HTTP/1.1 100 ",
        ),
    ];
    for (input, want) in rows {
        let text = refusal(alloc, input)?;
        assert!(rt; text.as_slice().starts_with(want), "{input:?}");
    }
    Ok(())
}
