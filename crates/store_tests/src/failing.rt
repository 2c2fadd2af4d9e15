//! Devices that fail under a connection, an import and an export, over any keeper: each read and each write fails in turn,
//! or is interrupted, or moves one byte.

use crate::comparing::{add, assert_same, compare, parts, prepared};
use crate::devices::{Narrow, Source};
use crate::talk::{bytes_of, json, message};
use ee_counter::{Ended, export_inventory, import_inventory, import_rates, serve};
use ee_desk_model::{Desk, Number};
use ee_desk_texts::reply_text;
use ee_keeper::Keeper;
use std::alloc::Global;
use std::io::{Eprint, ErrorKind};
use std::process::Abort;

/// How a call of a device fails.
const KINDS: [ErrorKind; 2] = [ErrorKind::Other, ErrorKind::Interrupted];

/// A request that comes whole on no connection.
const CUT: &str = r#"POST /rates {"number":1,"rates":[{"from":"2010-05","rate":"2.00"}]}"#;

/// Its number is taken by another act, and there are no rates.
const FREE: &str = r#"> GET /value/75/2010-10/2012-02
409 {"code":30,"refused":"NoRate"}
> POST /day/open {"number":1,"day":"2012-02-06"}
200 {"opened":"2012-02-06"}
"#;

/// Two messages, and the answers to them.
const FIRST: &str = r#"POST /rates {"number":2,"rates":[{"from":"2010-11","rate":"3.50"}]}"#;

const SECOND: &str = "GET /value/50/2010-11/2012-02";

const ADDED: &str = r#"{"new":1,"same":0}"#;

const ROW: &str =
    r#"{"denom":50,"final":"2040-11","interest":"0.88","issued":"2010-11","next":"2012-03","note":"P5","price":"25.00","rate":"3.50%","value":"25.88"}"#;

/// The files of an import, whether they are of rates, and the reply.
const FILES: &str =
    r#"rates => from,rate,extension|2010-05,2.00,|2010-11,3.50%,| => {"new":1,"same":1}
bonds => serial,denom,issued,owner,coowner|L1EE,50,2010-11,7,|K-0002-EE,75,10/2010,7,8| => {"new":2,"same":0}
"#;

/// The bonds of an owner after them.
const EXPORT: &str = "serial,denom,issued,owner,coowner\nK2EE,75,2010-10,7,8\nL1EE,50,2010-11,7,\n";

/// A message that has no route, and the answer to it.
const LOST: &str = "GET /a HTTP/1.1\r\n\r\n";

const NO_ROUTE: &str = "{\"code\":66,\"fault\":\"NoRoute\"}";

/// How many answers were written whole, why it ended, and what was written.
fn ended_text(rt: &impl Abort, alloc: Global, ended: Ended, text: &[u8]) -> String {
    let Ended { messages, why, .. } = ended;
    let text = str::from_utf8(text).expect(rt, "what was written");
    format!(in alloc; "{messages} {why:?}\n{text}").expect(rt, text)
}

/// Serving a source gives this result; `case` says what the source does.
fn assert_served<K: Keeper>(
    rt: &impl Abort,
    alloc: Global,
    keeper: &mut K,
    reader: &mut Source,
    wanted: &str,
    case: &str,
) {
    let mut text = Vec::new(alloc);
    let ended = serve(alloc, keeper, reader, &mut text);
    let got = ended_text(rt, alloc, ended, &text);
    assert_same(rt, got.as_str(), wanted, case);
}

/// Each read up to the last byte of a message fails in turn: nothing is answered, and its number stays free.
fn no_message_comes_whole<K: Keeper>(
    rt: &(impl Abort + Eprint),
    alloc: Global,
    keeper: &mut K,
    kind: ErrorKind,
) {
    let stream = prepared(rt, message(alloc, CUT));
    for fails in 1..=stream.len() {
        let mut reader = Source::failing(stream.as_bytes(), fails, kind);
        let case = "a read of a message fails";
        assert_served(rt, alloc, keeper, &mut reader, "0 ReadFailed\n", case);
    }
}

/// The two messages, the length of the first, and the answers.
#[derive(Drop)]
struct Talk {
    stream: String,
    first: usize,
    added: String,
    both: String,
}

impl Talk {
    fn new(rt: &(impl Abort + Eprint), alloc: Global) -> Talk {
        let mut stream = prepared(rt, message(alloc, FIRST));
        let first = stream.len();
        let second = prepared(rt, message(alloc, SECOND));
        add(rt, &mut stream, second.as_str());
        let added = prepared(rt, json(alloc, "200 OK", "", ADDED));
        let row = prepared(rt, json(alloc, "200 OK", "", ROW));
        let both = format!(in alloc; "{added}{row}").expect(rt, ROW);
        Talk {
            stream,
            first,
            added,
            both,
        }
    }

    /// The result if reading failed after `before` bytes.
    fn read(&self, rt: &impl Abort, alloc: Global, before: usize) -> String {
        let (messages, text) = if before < self.first {
            (0, "")
        } else if before < self.stream.len() {
            (1, self.added.as_str())
        } else {
            (2, self.both.as_str())
        };
        format!(in alloc; "{messages} ReadFailed\n{text}").expect(rt, text)
    }

    /// The result if `room` bytes were written.
    fn written(&self, rt: &impl Abort, alloc: Global, room: usize) -> String {
        let messages = usize::from(room >= self.added.len());
        let both = self.both.as_str();
        let front = both.get(..room).expect(rt, "a front of the answers");
        format!(in alloc; "{messages} WriteFailed\n{front}").expect(rt, front)
    }

    /// The result of the whole.
    fn whole(&self, rt: &impl Abort, alloc: Global) -> String {
        format!(in alloc; "2 Closed\n{}", self.both).expect(rt, "the answers")
    }
}

/// Each read of two messages fails in turn: what came whole before is answered, and nothing else.
fn reads_fail<K: Keeper>(
    rt: &impl Abort,
    alloc: Global,
    keeper: &mut K,
    talk: &Talk,
    kind: ErrorKind,
) {
    for before in 0..=talk.stream.len() {
        let fails = before.saturating_add(1);
        let mut reader = Source::failing(talk.stream.as_bytes(), fails, kind);
        let wanted = talk.read(rt, alloc, before);
        let case = "a read of two messages fails";
        assert_served(rt, alloc, keeper, &mut reader, wanted.as_str(), case);
    }
}

/// The stream comes in two pieces, cut after each byte in turn, and then a byte a read: the answers are whole.
fn reads_are_cut<K: Keeper>(rt: &impl Abort, alloc: Global, keeper: &mut K, talk: &Talk) {
    let whole = talk.whole(rt, alloc);
    let wanted = whole.as_str();
    let bytes = talk.stream.as_bytes();
    for first in 1..=bytes.len() {
        let mut reader = Source::of(bytes, first, 4_096);
        assert_served(rt, alloc, keeper, &mut reader, wanted, "two pieces");
    }
    let mut reader = Source::of(bytes, 1, 1);
    assert_served(rt, alloc, keeper, &mut reader, wanted, "a byte a read");
}

/// The writer fails after a number of bytes, which it takes one at a time: it took only the front of the answers.
fn a_write_fails<K: Keeper>(
    rt: &impl Abort,
    alloc: Global,
    keeper: &mut K,
    talk: &Talk,
    room: usize,
    kind: ErrorKind,
) {
    let mut writer = Narrow::failing(alloc, 1, room, kind);
    let ended = serve(alloc, keeper, &mut talk.stream.as_bytes(), &mut writer);
    let got = ended_text(rt, alloc, ended, &writer.text);
    let wanted = talk.written(rt, alloc, room);
    assert_same(rt, got.as_str(), wanted.as_str(), "a write fails");
}

/// The writer fails after each byte in turn, which it takes one at a time: what it took is a front of the answers. The
/// repeat on a new connection has the whole answers.
fn writes_fail<K: Keeper>(
    rt: &impl Abort,
    alloc: Global,
    keeper: &mut K,
    talk: &Talk,
    kind: ErrorKind,
) {
    let whole = talk.whole(rt, alloc);
    for room in 0..talk.both.len() {
        a_write_fails(rt, alloc, keeper, talk, room, kind);
        let mut reader = Source::of(talk.stream.as_bytes(), 4_096, 4_096);
        let case = "the repeat after a write that failed";
        assert_served(rt, alloc, keeper, &mut reader, whole.as_str(), case);
    }
}

/// The result of a file.
fn imported<K: Keeper>(
    rt: &impl Abort,
    alloc: Global,
    keeper: &mut K,
    is_rates: bool,
    reader: &mut Source,
) -> String {
    let number = Number::new(if is_rates { 10 } else { 11 }).expect(rt, "a number");
    let reply = if is_rates {
        import_rates(alloc, keeper, Desk::first(), number, reader)
    } else {
        import_inventory(alloc, keeper, Desk::first(), number, reader)
    };
    match reply {
        Ok(reply) => reply_text(alloc, &reply).expect(rt, "the text of a reply"),
        Err(fault) => fault.to_string(alloc).expect(rt, "the text of a fault"),
    }
}

/// Each read of a file fails in turn, the one of its end too: nothing is entered.
fn no_file_comes_whole<K: Keeper>(
    rt: &impl Abort,
    alloc: Global,
    keeper: &mut K,
    is_rates: bool,
    file: &[u8],
    kind: ErrorKind,
) {
    for fails in 1..=file.len().saturating_add(1) {
        let mut reader = Source::failing(file, fails, kind);
        let got = imported(rt, alloc, keeper, is_rates, &mut reader);
        assert_same(
            rt,
            got.as_str(),
            "file: row 1 code 73",
            "a read of a file fails",
        );
    }
}

/// A file comes whole, a byte a read: this is the reply to it.
fn a_file_comes_whole<K: Keeper>(
    rt: &impl Abort,
    alloc: Global,
    keeper: &mut K,
    is_rates: bool,
    file: &[u8],
    reply: &str,
) {
    let mut reader = Source::of(file, 1, 1);
    let got = imported(rt, alloc, keeper, is_rates, &mut reader);
    assert_same(rt, got.as_str(), reply, "a file a byte a read");
}

/// Each read of a file fails in turn, the one of its end too, and nothing is entered; then it comes whole, a byte a read,
/// and so once more.
fn imports_fail<K: Keeper>(
    rt: &(impl Abort + Eprint),
    alloc: Global,
    keeper: &mut K,
    row: &str,
    kind: ErrorKind,
) {
    let (name, row) = parts(rt, row);
    let (file, reply) = parts(rt, row);
    let is_rates = name == "rates";
    let bytes = prepared(rt, bytes_of(alloc, file, "\n"));
    let file = bytes.as_slice();
    no_file_comes_whole(rt, alloc, keeper, is_rates, file, kind);
    a_file_comes_whole(rt, alloc, keeper, is_rates, file, reply);
    a_file_comes_whole(rt, alloc, keeper, is_rates, file, reply);
}

/// An export to a writer that fails after a number of bytes: it took only the front of the file.
fn exports_a_front<K: Keeper>(
    rt: &impl Abort,
    alloc: Global,
    keeper: &mut K,
    room: usize,
    kind: ErrorKind,
) {
    let mut writer = Narrow::failing(alloc, 1, room, kind);
    let customer = "7".parse().expect(rt, "a customer");
    let rows = export_inventory(alloc, keeper, customer, &mut writer);
    let rows = format!(in alloc; "{rows:?}").expect(rt, "the rows");
    let end = if room < EXPORT.len() {
        "Err(WriteFailed)"
    } else {
        "Ok(2)"
    };
    let front = EXPORT.get(..room).expect(rt, "a front of the file");
    let text = str::from_utf8(&writer.text).expect(rt, "the text of a file");
    assert_same(rt, rows.as_str(), end, front);
    assert_same(rt, text, front, "what the writer of an export took");
}

/// The writer of an export fails after each byte in turn: what it took is a front of the file.
fn exports_fail<K: Keeper>(rt: &impl Abort, alloc: Global, keeper: &mut K, kind: ErrorKind) {
    for room in 0..=EXPORT.len() {
        exports_a_front(rt, alloc, keeper, room, kind);
    }
}

/// All of these over one keeper, whose store serves to the end.
pub fn devices_fail<K: Keeper>(rt: &(impl Abort + Eprint), alloc: Global, keeper: &mut K) {
    let talk = Talk::new(rt, alloc);
    for kind in KINDS {
        no_message_comes_whole(rt, alloc, keeper, kind);
    }
    compare(rt, alloc, keeper, FREE);
    for kind in KINDS {
        reads_fail(rt, alloc, keeper, &talk, kind);
        writes_fail(rt, alloc, keeper, &talk, kind);
    }
    reads_are_cut(rt, alloc, keeper, &talk);
    for row in FILES.lines() {
        for kind in KINDS {
            imports_fail(rt, alloc, keeper, row, kind);
        }
    }
    for kind in KINDS {
        exports_fail(rt, alloc, keeper, kind);
    }
}

/// The answer to a message that has no route.
fn no_route(rt: &(impl Abort + Eprint), alloc: Global, headers: &str) -> String {
    prepared(rt, json(alloc, "404 Not Found", headers, NO_ROUTE))
}

/// A number of messages without a route come on one connection: it ends so, with these answers.
fn many_come<K: Keeper>(
    rt: &impl Abort,
    alloc: Global,
    keeper: &mut K,
    messages: usize,
    end: &str,
    answers: &str,
) {
    let stream = LOST.repeat(alloc, messages).expect(rt, end);
    let wanted = format!(in alloc; "{end}\n{answers}").expect(rt, end);
    let mut reader = Source::of(stream.as_bytes(), 4_096, 4_096);
    assert_served(rt, alloc, keeper, &mut reader, wanted.as_str(), end);
}

/// A connection has a thousand messages: the thousandth answer says that it ends, even if the input ends there; what
/// comes after isn't answered.
pub fn a_thousand_messages<K: Keeper>(rt: &(impl Abort + Eprint), alloc: Global, keeper: &mut K) {
    let answer = no_route(rt, alloc, "");
    let last = no_route(rt, alloc, "Connection: close\r\n");
    let mut answers = answer.repeat(alloc, 999).expect(rt, "the answers");
    many_come(rt, alloc, keeper, 999, "999 Closed", answers.as_str());
    add(rt, &mut answers, last.as_str());
    many_come(rt, alloc, keeper, 1_000, "1000 Limit", answers.as_str());
    many_come(rt, alloc, keeper, 1_001, "1000 Limit", answers.as_str());
}
