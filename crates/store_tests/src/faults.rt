//! Calls at fault, bytes that are no message, and streams that end anywhere, by the command `apply`: each
//! has its answer and its end.

use crate::comparing::{add, assert_same, prepared};
use crate::talk::{applied, json, message};
use ee_keeper::Keeper;
use std::alloc::Global;
use std::io::Eprint;
use std::process::Abort;

/// Calls at fault, after each of which the connection goes on; and a body that a query ignores.
pub const CALLS: &str = r#"> POST /day/open
400 {"code":64,"fault":"BadJson"}
> POST /day/open {"number":4,
400 {"code":64,"fault":"BadJson"}
> POST /rates [[[[[[[[[[[[[[[[[[[[[[[[[[[[[[[[[[[[[[[[[[[[[[[[[[[[[[[[[[[[[[[[[[[[[[[[[[[[[[[[[[[[[[[[[[[[[[[[[[[[[[[[[[[[[[[[[[[[[[[[[[[[[[[[
400 {"code":64,"fault":"BadJson"}
> POST /day/open []
400 {"code":65,"fault":"BadField","field":"body"}
> POST /day/open {"day":"2012-02-06"}
400 {"code":65,"fault":"BadField","field":"number"}
> POST /day/open {"number":9223372036854775808,"day":"2012-02-06"}
400 {"code":65,"fault":"BadField","field":"number"}
> POST /day/open {"number":4,"day":"2012-02-30"}
400 {"code":65,"fault":"BadField","field":"day"}
> POST /day/open {"number":4,"day":"2012-02-06","x":0}
400 {"code":65,"fault":"BadField","field":"other"}
> POST /day/close {"number":4}
400 {"code":65,"fault":"BadField","field":"day"}
> POST /rates {"number":4,"rates":[7]}
400 {"code":65,"fault":"BadField","field":"rates"}
> POST /rates {"number":4,"rates":[{"from":"2010-13","rate":"2.00"}]}
400 {"code":65,"fault":"BadField","field":"from"}
> POST /rates {"number":4,"rates":[{"from":"2010-05","rate":"20.01"}]}
400 {"code":65,"fault":"BadField","field":"rate"}
> POST /rates {"number":4,"rates":[{"from":"2010-05","rate":"2.00","x":0}]}
400 {"code":65,"fault":"BadField","field":"other"}
> POST /bonds {"number":4,"bonds":{}}
400 {"code":65,"fault":"BadField","field":"bonds"}
> POST /bonds {"number":4,"bonds":[{"serial":"L1"}]}
400 {"code":65,"fault":"BadField","field":"serial"}
> POST /bonds {"number":4,"bonds":[{"serial":"L1EE","denom":51}]}
400 {"code":65,"fault":"BadField","field":"denom"}
> POST /bonds {"number":4,"bonds":[{"serial":"L1EE","denom":50,"issued":"2005-04"}]}
400 {"code":65,"fault":"BadField","field":"issued"}
> POST /bonds {"number":4,"bonds":[{"serial":"L1EE","denom":50,"issued":"2010-11","owner":0}]}
400 {"code":65,"fault":"BadField","field":"owner"}
> POST /bonds {"number":4,"bonds":[{"serial":"L1EE","denom":50,"issued":"2010-11","owner":7,"coowner":"8"}]}
400 {"code":65,"fault":"BadField","field":"coowner"}
> POST /redeem {"number":4,"payee":7,"serials":["L1EE"]}
400 {"code":65,"fault":"BadField","field":"day"}
> POST /redeem {"number":4,"day":"2012-02-06","payee":1000000000,"serials":["L1EE"]}
400 {"code":65,"fault":"BadField","field":"payee"}
> POST /redeem {"number":4,"day":"2012-02-06","payee":7,"serials":["L1EE",7]}
400 {"code":65,"fault":"BadField","field":"serials"}
> GET /inventory/0/2012-02
400 {"code":65,"fault":"BadField","field":"customer"}
> GET /inventory/7/2012-13
400 {"code":65,"fault":"BadField","field":"month"}
> GET /ticket/0
400 {"code":65,"fault":"BadField","field":"ticket"}
> GET /batch/2012-02-30
400 {"code":65,"fault":"BadField","field":"day"}
> GET /value/51/2010/2012-02
400 {"code":65,"fault":"BadField","field":"denom"}
> GET /value/50/2010/2012-02
400 {"code":65,"fault":"BadField","field":"issued"}
> GET /value/50/2010-11/2012
400 {"code":65,"fault":"BadField","field":"month"}
> POST /nothing {"number":4}
404 {"code":66,"fault":"NoRoute"}
> GET /day/open
405 {"code":67,"fault":"BadMethod"}
> POST /ticket/1
405 {"code":67,"fault":"BadMethod"}
> GET /ticket/1
404 {"code":69,"fault":"NotFound"}
> GET /batch/2012-02-06 [
404 {"code":69,"fault":"NotFound"}
> POST /redeem {"number":4,"day":"2012-02-06","payee":7,"serials":[]}
409 {"code":11,"refused":"Empty"}
"#;

/// Streams at fault, and the answer that ends each.
pub const STREAMS: &str = r#"~ GET /ticket/1 HTTP/1.1|no header||
Refused HTTP/1.1 400 Bad Request|Content-Type: application/json|Content-Length: 29|Connection: close||{"code":60,"fault":"BadHead"}|
~ GET /ticket/1 HTTP/2.0||
Refused HTTP/1.1 400 Bad Request|Content-Type: application/json|Content-Length: 29|Connection: close||{"code":60,"fault":"BadHead"}|
~ ~~~~|
Refused HTTP/1.1 400 Bad Request|Content-Type: application/json|Content-Length: 29|Connection: close||{"code":60,"fault":"BadHead"}|
~ POST /rates HTTP/1.1|Content-Length: 1048577||
Refused HTTP/1.1 413 Content Too Large|Content-Type: application/json|Content-Length: 33|Connection: close||{"code":62,"fault":"BodyTooLong"}|
~ POST /rates HTTP/1.1|Content-Length: 999999999999999999999999999999||
Refused HTTP/1.1 413 Content Too Large|Content-Type: application/json|Content-Length: 33|Connection: close||{"code":62,"fault":"BodyTooLong"}|
~ POST /rates HTTP/1.1|Content-Length: 1x||
Refused HTTP/1.1 400 Bad Request|Content-Type: application/json|Content-Length: 31|Connection: close||{"code":63,"fault":"BadLength"}|
~ POST /rates HTTP/1.1|Content-Length: ||
Refused HTTP/1.1 400 Bad Request|Content-Type: application/json|Content-Length: 31|Connection: close||{"code":63,"fault":"BadLength"}|
~ POST /rates HTTP/1.1|Content-Length: 1|Content-Length: 1||
Refused HTTP/1.1 400 Bad Request|Content-Type: application/json|Content-Length: 31|Connection: close||{"code":63,"fault":"BadLength"}|
~ POST /rates HTTP/1.1|Transfer-Encoding: chunked||
Refused HTTP/1.1 400 Bad Request|Content-Type: application/json|Content-Length: 31|Connection: close||{"code":63,"fault":"BadLength"}|
~ POST /rates HTTP/1.1|Content-Length: 55
Refused HTTP/1.1 400 Bad Request|Content-Type: application/json|Content-Length: 31|Connection: close||{"code":68,"fault":"Truncated"}|
~ POST /rates HTTP/1.1|Content-Length: 55||{"number":4,
Refused HTTP/1.1 400 Bad Request|Content-Type: application/json|Content-Length: 31|Connection: close||{"code":68,"fault":"Truncated"}|
~ ~
Refused HTTP/1.1 400 Bad Request|Content-Type: application/json|Content-Length: 31|Connection: close||{"code":68,"fault":"Truncated"}|
"#;

/// Heads of 32 headers and 16,384 bytes, of 33 headers, and of a byte more: the first is served.
pub const HEADS: &str =
    r#"~ GET /ticket/1 HTTP/1.1|a:|a:|a:|a:|a:|a:|a:|a:|a:|a:|a:|a:|a:|a:|a:|a:|a:|a:|a:|a:|a:|a:|a:|a:|a:|a:|a:|a:|a:|a:|a:|c:(*16230 d*)||
Done HTTP/1.1 404 Not Found|Content-Type: application/json|Content-Length: 30||{"code":69,"fault":"NotFound"}|
~ GET /ticket/1 HTTP/1.1|(*33 a: b|*)|
Refused HTTP/1.1 400 Bad Request|Content-Type: application/json|Content-Length: 29|Connection: close||{"code":60,"fault":"BadHead"}|
~ GET /ticket/1 HTTP/1.1|a:|a:|a:|a:|a:|a:|a:|a:|a:|a:|a:|a:|a:|a:|a:|a:|a:|a:|a:|a:|a:|a:|a:|a:|a:|a:|a:|a:|a:|a:|a:|c:(*16231 d*)||
Refused HTTP/1.1 413 Content Too Large|Content-Type: application/json|Content-Length: 33|Connection: close||{"code":61,"fault":"HeadTooLong"}|
"#;

/// Two messages.
const FIRST: &str = r#"POST /rates {"number":1,"rates":[{"from":"2010-11","rate":"3.50"}]}"#;

const SECOND: &str = "GET /value/50/2010-11/2012-02";

/// Their answers, and that to a front of a message.
const ADDED: &str = r#"{"new":1,"same":0}"#;

const ROW: &str =
    r#"{"denom":50,"final":"2040-11","interest":"0.88","issued":"2010-11","next":"2012-03","note":"P5","price":"25.00","rate":"3.50%","value":"25.88"}"#;

const CUT: &str = r#"{"code":68,"fault":"Truncated"}"#;

/// Appends an answer of JSON; `headers` come after its length.
fn add_answer(
    rt: &(impl Abort + Eprint),
    alloc: Global,
    text: &mut String,
    status: &str,
    headers: &str,
    body: &str,
) {
    let answer = prepared(rt, json(alloc, status, headers, body));
    add(rt, text, answer.as_str());
}

/// Adds a message `METHOD PATH BODY`.
fn add_message(rt: &(impl Abort + Eprint), alloc: Global, text: &mut String, line: &str) {
    let message = prepared(rt, message(alloc, line));
    add(rt, text, message.as_str());
}

/// The result of `apply` after `messages` of the two messages, and after the front of another.
fn wanted(rt: &(impl Abort + Eprint), alloc: Global, messages: usize, is_cut: bool) -> String {
    let end = if is_cut { "Refused " } else { "Done " };
    let mut text = String::from_str(alloc, end).expect(rt, end);
    if messages > 0 {
        add_answer(rt, alloc, &mut text, "200 OK", "", ADDED);
    }
    if messages > 1 {
        add_answer(rt, alloc, &mut text, "200 OK", "", ROW);
    }
    if is_cut {
        let status = "400 Bad Request";
        add_answer(rt, alloc, &mut text, status, "Connection: close\r\n", CUT);
    }
    text
}

/// The line of a status.
fn status_line(status: &str) -> Option<&'static str> {
    match status {
        "400" => Some("400 Bad Request"),
        "404" => Some("404 Not Found"),
        "405" => Some("405 Method Not Allowed"),
        "409" => Some("409 Conflict"),
        _ => None,
    }
}

/// `apply` gives this result for a stream.
fn assert_replies<K: Keeper>(
    rt: &(impl Abort + Eprint),
    alloc: Global,
    keeper: &mut K,
    stream: &str,
    wanted: &str,
) {
    let got = prepared(rt, applied(alloc, keeper, stream.as_bytes()));
    assert_same(rt, got.as_str(), wanted, stream);
}

/// The calls at fault, each followed by a message that is answered well.
fn calls(rt: &(impl Abort + Eprint), alloc: Global) -> String {
    let mut stream = String::new(alloc);
    for line in CALLS.lines() {
        if let Some(line) = line.strip_prefix("> ") {
            add_message(rt, alloc, &mut stream, line);
            add_message(rt, alloc, &mut stream, SECOND);
        }
    }
    stream
}

/// Adds the answer of a line `STATUS BODY`.
fn add_text(rt: &(impl Abort + Eprint), alloc: Global, text: &mut String, line: &str) {
    let (status, body) = line.split_once(' ').expect(rt, line);
    let status = status_line(status).expect(rt, line);
    add_answer(rt, alloc, text, status, "", body);
}

/// The result of `apply` for the calls at fault, each followed by a good message.
fn calls_text(rt: &(impl Abort + Eprint), alloc: Global) -> String {
    let mut wanted = String::from_str(alloc, "Done ").expect(rt, "the end");
    for line in CALLS.lines() {
        if !line.starts_with("> ") {
            add_text(rt, alloc, &mut wanted, line);
            add_answer(rt, alloc, &mut wanted, "200 OK", "", ROW);
        }
    }
    wanted
}

/// The calls at fault on one connection, each followed by a message that is answered well.
pub fn calls_in_one_stream<K: Keeper>(rt: &(impl Abort + Eprint), alloc: Global, keeper: &mut K) {
    let stream = calls(rt, alloc);
    let wanted = calls_text(rt, alloc);
    assert_replies(rt, alloc, keeper, stream.as_str(), wanted.as_str());
}

/// Two messages, the first with this length, whose stream ends after a number of bytes.
fn ends_at<K: Keeper>(
    rt: &(impl Abort + Eprint),
    alloc: Global,
    keeper: &mut K,
    stream: &str,
    first: usize,
    end: usize,
) {
    let is_whole = end == stream.len();
    let messages = usize::from(end >= first).saturating_add(usize::from(is_whole));
    let is_cut = end != 0 && end != first && !is_whole;
    let front = stream.get(..end).expect(rt, "a front of the stream");
    let wanted = wanted(rt, alloc, messages, is_cut);
    assert_replies(rt, alloc, keeper, front, wanted.as_str());
}

/// Two messages whose stream ends after each byte in turn.
pub fn ends<K: Keeper>(rt: &(impl Abort + Eprint), alloc: Global, keeper: &mut K) {
    let mut stream = prepared(rt, message(alloc, FIRST));
    let first = stream.len();
    add_message(rt, alloc, &mut stream, SECOND);
    for end in 0..=stream.len() {
        ends_at(rt, alloc, keeper, stream.as_str(), first, end);
    }
}

/// The first of the two messages again: its number was taken once, by the whole message.
pub fn ended<K: Keeper>(rt: &(impl Abort + Eprint), alloc: Global, keeper: &mut K) {
    let stream = prepared(rt, message(alloc, FIRST));
    let wanted = wanted(rt, alloc, 1, false);
    assert_replies(rt, alloc, keeper, stream.as_str(), wanted.as_str());
}
