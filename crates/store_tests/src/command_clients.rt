//! Clients of `serve`: a port that is taken, and connections that close, ask to close, ask much or ask nothing.

use crate::command_files::{assert_fault_over, forget_both};
use crate::commands::{ANSWERS, STREAM};
use crate::comparing::{add, assert_holds, assert_same};
use ee_cli_actions::{Outcome, serve_on};
use ee_desk::ListKeeper;
use std::io::{self, Write};
use std::net::{Shutdown, TcpListener, TcpStream};
use std::process::Abort;
use std::time::Duration;

/// The line of a connection that a client asked to close, and the answer to its one message.
const ASKED: &str = "connection 1: 1 messages, Asked
HTTP/1.1 404 Not Found\r
Content-Type: application/json\r
Content-Length: 30\r
Connection: close\r
\r
{\"code\":69,\"fault\":\"NotFound\"}";

/// A listener at a free port.
fn listener(rt: &HostRuntime, abort: &impl Abort) -> TcpListener {
    TcpListener::bind(rt, ("127.0.0.1", 0)).expect(abort, "a free port")
}

/// The port of a listener.
fn port_of(abort: &impl Abort, listener: &TcpListener) -> u16 {
    listener.local_addr().expect(abort, "an address").port()
}

#[test]
fn a_taken_port(rt: HostRuntime) {
    let listener = listener(&rt, &rt);
    let port = port_of(&rt, &listener);
    forget_both(&rt, &rt, "port");
    let line = format!(in rt.alloc(); "serve --db DB --port {port} --connections 1");
    let line = line.expect(&rt, "a line");
    assert_fault_over(&rt, &rt, "port", &line, "input or output failed\n", 3);
    forget_both(&rt, &rt, "port");
}

/// A client at a port, which sends these bytes.
fn client_at(
    rt: &HostRuntime,
    abort: &impl Abort,
    port: u16,
    sent: &str,
    closes: bool,
) -> TcpStream {
    let mut client = TcpStream::connect(rt, ("127.0.0.1", port)).expect(abort, "a client");
    client.write_all(sent.as_bytes()).expect(abort, sent);
    if closes {
        client.shutdown(Shutdown::Write).expect(abort, "the end");
    }
    client
}

/// Serves one connection: the line that is printed.
fn serve_one(rt: &HostRuntime, abort: &impl Abort, listener: &mut TcpListener) -> String {
    let mut keeper = ListKeeper::empty(rt.alloc());
    let mut lines = Vec::new(rt.alloc());
    let patience = Duration::from_millis(100);
    let ended = serve_on(
        rt,
        rt.alloc(),
        &mut keeper,
        listener,
        1,
        patience,
        &mut lines,
    );
    let is_served = ended == Ok(Outcome::Done);
    assert_holds(abort, is_served, "the connection is served");
    String::from_utf8(lines).expect(abort, "the line of a connection")
}

/// Serves one connection, on which a client sends these bytes: the line that is printed, and the answers after it.
fn exchange(rt: &HostRuntime, abort: &impl Abort, sent: &str, closes: bool) -> String {
    let mut listener = listener(rt, abort);
    let port = port_of(abort, &listener);
    let client = client_at(rt, abort, port, sent, closes);
    let mut got = serve_one(rt, abort, &mut listener);
    let answers = io::read_to_string(rt.alloc(), client).expect(abort, "the answers");
    add(abort, &mut got, answers.as_str());
    got
}

#[test]
fn a_client_that_closes(rt: HostRuntime) {
    let got = exchange(&rt, &rt, STREAM, true);
    let line = "connection 1: 2 messages, Closed\n";
    let answers = got.strip_prefix(line).expect(&rt, got.as_str());
    assert_same(&rt, answers, ANSWERS, "the answers");
}

#[test]
fn a_client_that_asks_to_close(rt: HostRuntime) {
    let sent = "GET /ticket/1 HTTP/1.1\r\nConnection: close\r\n\r\n";
    let got = exchange(&rt, &rt, sent, false);
    assert_same(&rt, got.as_str(), ASKED, "the line and the answer");
}

/// A connection had its thousand messages, and there is an answer to each.
fn a_thousand_are_answered(rt: &impl Abort, got: &str) {
    let mut parts = got.split("HTTP/1.1 404 Not Found");
    let line = parts.next().expect(rt, "the line of a connection");
    assert_same(rt, line, "connection 1: 1000 messages, Limit\n", "the line");
    assert_holds(rt, parts.count() == 1_000, "a thousand answers");
}

/// More messages than a connection has come in one go: each answer of a whole connection arrives.
#[test]
fn answers_arrive(rt: HostRuntime) {
    let message = "GET /ticket/1 HTTP/1.1\r\n\r\n";
    let sent = message.repeat(rt.alloc(), 1_500).expect(&rt, message);
    let got = exchange(&rt, &rt, sent.as_str(), false);
    a_thousand_are_answered(&rt, got.as_str());
}

#[test]
fn a_silent_client(rt: HostRuntime) {
    let got = exchange(&rt, &rt, "", false);
    let wanted = "connection 1: 0 messages, ReadFailed\n";
    assert_same(&rt, got.as_str(), wanted, "the line and no answer");
}
