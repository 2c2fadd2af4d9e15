//! Connections: faults, limits, and messages that end them. Devices that fail and cut are tested over both keepers
//! (`store_tests`).

use super::devices::Source;
use crate::comparing::{Cases, compare};
use ee_counter::serve;
use ee_desk::ListKeeper;
use std::alloc::Global;
use std::test::Fail;

/// Streams, and the maximum number of bytes in a read; how many responses are written whole, why the connection
/// ends, how many bytes of the stream are left, and the responses. `|` means the end of a line, and `*` 16,168
/// letters, with which a head of 32 headers has 16,384 bytes.
///
/// A message that is cut before the last byte of its body; headers at fault, after which nothing is answered;
/// heads with the most headers and bytes, and with one more; a body that nests too deep, after which the
/// connection goes on; and messages that ask to close, after which nothing is read.
const STREAMS: &str =
    r#"1 POST /rates HTTP/1.1|Content-Length: 55||{"number":1,"rates":[{"from":"2010-11","rate":"3.50"}]}GET /value/50/2010-11/2012-02 HTTP/1.1||POST /rates HTTP/1.1|Content-Length: 55||{"number":1,"rates":[{"from":"2010-11","rate":"3.50"}] => 3 Fault(Truncated) 0 HTTP/1.1 200 OK|Content-Type: application/json|Content-Length: 18||{"new":1,"same":0}HTTP/1.1 200 OK|Content-Type: application/json|Content-Length: 143||{"denom":50,"final":"2040-11","interest":"0.88","issued":"2010-11","next":"2012-03","note":"P5","price":"25.00","rate":"3.50%","value":"25.88"}HTTP/1.1 400 Bad Request|Content-Type: application/json|Content-Length: 31|Connection: close||{"code":68,"fault":"Truncated"}
7 POST /rates HTTP/1.1|Content-Length: 55||{"number":1,"rates":[{"from":"2010-11","rate":"3.50"}]}GET /value/50/2010-11/2012-02 HTTP/1.1||POST /rates HTTP/1.1|Content-Length: 55||{"number":1,"rates":[{"from":"2010-11","rate":"3.50"}] => 3 Fault(Truncated) 0 HTTP/1.1 200 OK|Content-Type: application/json|Content-Length: 18||{"new":1,"same":0}HTTP/1.1 200 OK|Content-Type: application/json|Content-Length: 143||{"denom":50,"final":"2040-11","interest":"0.88","issued":"2010-11","next":"2012-03","note":"P5","price":"25.00","rate":"3.50%","value":"25.88"}HTTP/1.1 400 Bad Request|Content-Type: application/json|Content-Length: 31|Connection: close||{"code":68,"fault":"Truncated"}
4096 POST /rates HTTP/1.1|Content-Length: 55||{"number":1,"rates":[{"from":"2010-11","rate":"3.50"}]}GET /value/50/2010-11/2012-02 HTTP/1.1||POST /rates HTTP/1.1|Content-Length: 55||{"number":1,"rates":[{"from":"2010-11","rate":"3.50"}] => 3 Fault(Truncated) 0 HTTP/1.1 200 OK|Content-Type: application/json|Content-Length: 18||{"new":1,"same":0}HTTP/1.1 200 OK|Content-Type: application/json|Content-Length: 143||{"denom":50,"final":"2040-11","interest":"0.88","issued":"2010-11","next":"2012-03","note":"P5","price":"25.00","rate":"3.50%","value":"25.88"}HTTP/1.1 400 Bad Request|Content-Type: application/json|Content-Length: 31|Connection: close||{"code":68,"fault":"Truncated"}
4096 GET /ticket/1 HTTP/1.1|Content-Length: 1|Content-Length: 1||GET /value/50/2010-11/2012-02 HTTP/1.1|| => 1 Fault(BadLength) 0 HTTP/1.1 400 Bad Request|Content-Type: application/json|Content-Length: 31|Connection: close||{"code":63,"fault":"BadLength"}
4096 GET /ticket/1 HTTP/1.1|Transfer-Encoding: chunked||GET /value/50/2010-11/2012-02 HTTP/1.1|| => 1 Fault(BadLength) 0 HTTP/1.1 400 Bad Request|Content-Type: application/json|Content-Length: 31|Connection: close||{"code":63,"fault":"BadLength"}
4096 GET /ticket/1 HTTP/1.1|Content-Length: 1x||GET /value/50/2010-11/2012-02 HTTP/1.1|| => 1 Fault(BadLength) 0 HTTP/1.1 400 Bad Request|Content-Type: application/json|Content-Length: 31|Connection: close||{"code":63,"fault":"BadLength"}
4096 GET /ticket/1 HTTP/1.1|Content-Length: ||GET /value/50/2010-11/2012-02 HTTP/1.1|| => 1 Fault(BadLength) 0 HTTP/1.1 400 Bad Request|Content-Type: application/json|Content-Length: 31|Connection: close||{"code":63,"fault":"BadLength"}
4096 GET /ticket/1 HTTP/1.1|Content-Length: 999999999999999999999999999999||GET /value/50/2010-11/2012-02 HTTP/1.1|| => 1 Fault(BodyTooLong) 0 HTTP/1.1 413 Content Too Large|Content-Type: application/json|Content-Length: 33|Connection: close||{"code":62,"fault":"BodyTooLong"}
4096 GET /ticket/1 HTTP/1.1|Content-Length: 1048577||GET /value/50/2010-11/2012-02 HTTP/1.1|| => 1 Fault(BodyTooLong) 0 HTTP/1.1 413 Content Too Large|Content-Type: application/json|Content-Length: 33|Connection: close||{"code":62,"fault":"BodyTooLong"}
4096 GET /ticket/1 HTTP/1.1|no header||GET /value/50/2010-11/2012-02 HTTP/1.1|| => 1 Fault(BadHead) 0 HTTP/1.1 400 Bad Request|Content-Type: application/json|Content-Length: 29|Connection: close||{"code":60,"fault":"BadHead"}
4096 GET /ticket/1 HTTP/1.1|a: b|a: b|a: b|a: b|a: b|a: b|a: b|a: b|a: b|a: b|a: b|a: b|a: b|a: b|a: b|a: b|a: b|a: b|a: b|a: b|a: b|a: b|a: b|a: b|a: b|a: b|a: b|a: b|a: b|a: b|a: b|c:|| => 1 Closed 0 HTTP/1.1 404 Not Found|Content-Type: application/json|Content-Length: 30||{"code":69,"fault":"NotFound"}
4096 GET /ticket/1 HTTP/1.1|a: b|a: b|a: b|a: b|a: b|a: b|a: b|a: b|a: b|a: b|a: b|a: b|a: b|a: b|a: b|a: b|a: b|a: b|a: b|a: b|a: b|a: b|a: b|a: b|a: b|a: b|a: b|a: b|a: b|a: b|a: b|a: b|c:|| => 1 Fault(BadHead) 0 HTTP/1.1 400 Bad Request|Content-Type: application/json|Content-Length: 29|Connection: close||{"code":60,"fault":"BadHead"}
4096 GET /ticket/1 HTTP/1.1|a: b|a: b|a: b|a: b|a: b|a: b|a: b|a: b|a: b|a: b|a: b|a: b|a: b|a: b|a: b|a: b|a: b|a: b|a: b|a: b|a: b|a: b|a: b|a: b|a: b|a: b|a: b|a: b|a: b|a: b|a: b|c:*|| => 1 Closed 0 HTTP/1.1 404 Not Found|Content-Type: application/json|Content-Length: 30||{"code":69,"fault":"NotFound"}
4096 GET /ticket/1 HTTP/1.1|a: b|a: b|a: b|a: b|a: b|a: b|a: b|a: b|a: b|a: b|a: b|a: b|a: b|a: b|a: b|a: b|a: b|a: b|a: b|a: b|a: b|a: b|a: b|a: b|a: b|a: b|a: b|a: b|a: b|a: b|a: b|c:*d|| => 1 Fault(HeadTooLong) 1 HTTP/1.1 413 Content Too Large|Content-Type: application/json|Content-Length: 33|Connection: close||{"code":61,"fault":"HeadTooLong"}
4096 POST /rates HTTP/1.1|Content-Length: 128||[[[[[[[[[[[[[[[[[[[[[[[[[[[[[[[[[[[[[[[[[[[[[[[[[[[[[[[[[[[[[[[[[[[[[[[[[[[[[[[[[[[[[[[[[[[[[[[[[[[[[[[[[[[[[[[[[[[[[[[[[[[[[[[[POST /rates HTTP/1.1|Content-Length: 55||{"number":1,"rates":[{"from":"2010-11","rate":"3.50"}]} => 2 Closed 0 HTTP/1.1 400 Bad Request|Content-Type: application/json|Content-Length: 29||{"code":64,"fault":"BadJson"}HTTP/1.1 200 OK|Content-Type: application/json|Content-Length: 18||{"new":1,"same":0}
45 GET /ticket/1 HTTP/1.1|Connection: Close||GET /value/50/2010-11/2012-02 HTTP/1.1|| => 1 Asked 42 HTTP/1.1 404 Not Found|Content-Type: application/json|Content-Length: 30|Connection: close||{"code":69,"fault":"NotFound"}
4096 GET /ticket/1 HTTP/1.0|| => 1 Asked 0 HTTP/1.1 404 Not Found|Content-Type: application/json|Content-Length: 30|Connection: close||{"code":69,"fault":"NotFound"}
"#;

fn add_letters(text: &mut String) -> Option<()> {
    for _ in 0..16_168 {
        text.push_str("d").ok()?;
    }
    Some(())
}

/// The bytes of a text with its line ends and its letters.
fn written_out(alloc: Global, row: &str) -> Option<String> {
    let mut text = String::new(alloc);
    for letter in row.chars() {
        match letter {
            '|' => text.push_str("\r\n").ok()?,
            '*' => add_letters(&mut text)?,
            _ => text.push(letter).ok()?,
        }
    }
    Some(text)
}

/// A text with `|` for each of its line ends.
fn marked(alloc: Global, text: &str) -> Option<String> {
    let mut marked = String::new(alloc);
    for line in text.split("\r\n") {
        marked.push_str(line).ok()?;
        marked.push_str("|").ok()?;
    }
    let _last = marked.pop();
    Some(marked)
}

/// The result of serving a stream over an empty keeper.
fn served(alloc: Global, stream: &str, step: usize) -> Option<String> {
    let mut reader = Source::of(stream.as_bytes(), step);
    let mut text = Vec::new(alloc);
    let ended = serve(alloc, &mut ListKeeper::empty(alloc), &mut reader, &mut text);
    let (messages, why, left) = (ended.messages, ended.why, reader.bytes.len());
    let answers = str::from_utf8(&text).ok()?;
    format!(in alloc; "{messages} {why:?} {left} {answers}").ok()
}

/// Streams `STEP STREAM`.
struct StreamCases;

impl Cases for StreamCases {
    fn answer(alloc: Global, case: &str) -> Option<String> {
        let (step, stream) = case.split_once(' ')?;
        let (step, stream) = (step.parse().ok()?, written_out(alloc, stream)?);
        let got = served(alloc, stream.as_str(), step)?;
        marked(alloc, got.as_str())
    }
}

#[test]
fn connections_end(rt: HostRuntime) -> Result<(), Fail> {
    compare::<StreamCases>(&rt, rt.alloc(), STREAMS)
}
