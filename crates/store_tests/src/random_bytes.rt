//! Bytes at random and a damaged day, by the command `apply`: whatever comes, each answer is whole and has a
//! status and a body that the formats name.

use crate::comparing::{assert_holds, compare, prepared};
use crate::days::{BEGUN, DAY};
use crate::talk::{applied, stream};
use ee_desk_texts::read_reply;
use ee_keeper::Keeper;
use std::alloc::Global;
use std::io::Eprint;
use std::process::Abort;

/// How many streams are sent.
const STREAMS: u64 = 60;

/// Each status and body of a fault.
const FAULTS: &str = r#"400 Bad Request => {"code":60,"fault":"BadHead"}
413 Content Too Large => {"code":61,"fault":"HeadTooLong"}
413 Content Too Large => {"code":62,"fault":"BodyTooLong"}
400 Bad Request => {"code":63,"fault":"BadLength"}
400 Bad Request => {"code":64,"fault":"BadJson"}
400 Bad Request => {"code":65,"fault":"BadField","field":"body"}
400 Bad Request => {"code":65,"fault":"BadField","field":"number"}
400 Bad Request => {"code":65,"fault":"BadField","field":"rates"}
400 Bad Request => {"code":65,"fault":"BadField","field":"from"}
400 Bad Request => {"code":65,"fault":"BadField","field":"rate"}
400 Bad Request => {"code":65,"fault":"BadField","field":"bonds"}
400 Bad Request => {"code":65,"fault":"BadField","field":"serial"}
400 Bad Request => {"code":65,"fault":"BadField","field":"denom"}
400 Bad Request => {"code":65,"fault":"BadField","field":"issued"}
400 Bad Request => {"code":65,"fault":"BadField","field":"owner"}
400 Bad Request => {"code":65,"fault":"BadField","field":"coowner"}
400 Bad Request => {"code":65,"fault":"BadField","field":"day"}
400 Bad Request => {"code":65,"fault":"BadField","field":"payee"}
400 Bad Request => {"code":65,"fault":"BadField","field":"serials"}
400 Bad Request => {"code":65,"fault":"BadField","field":"other"}
400 Bad Request => {"code":65,"fault":"BadField","field":"customer"}
400 Bad Request => {"code":65,"fault":"BadField","field":"month"}
400 Bad Request => {"code":65,"fault":"BadField","field":"ticket"}
404 Not Found => {"code":66,"fault":"NoRoute"}
405 Method Not Allowed => {"code":67,"fault":"BadMethod"}
400 Bad Request => {"code":68,"fault":"Truncated"}
404 Not Found => {"code":69,"fault":"NotFound"}
409 Conflict => {"code":30,"refused":"NoRate"}
"#;

/// Whether a status and a body are those of a fault.
fn is_fault(status: &str, body: &str) -> bool {
    for row in FAULTS.lines() {
        if row.split_once(" => ") == Some((status, body)) {
            return true;
        }
    }
    false
}

/// Whether a body is the text of a reply.
fn is_reply(rt: &impl Abort, alloc: Global, body: &str) -> bool {
    read_reply(alloc, body).expect(rt, body).is_some()
}

/// Whether a body is the text of a reply, a row of a value or a sheet.
fn is_shown(rt: &impl Abort, alloc: Global, body: &str) -> bool {
    body.starts_with("Serial ") || body.starts_with("{\"denom\":") || is_reply(rt, alloc, body)
}

/// Whether an answer states the length of its body.
fn has_length(rt: &impl Abort, alloc: Global, answer: &str, length: usize) -> bool {
    let header = format!(in alloc; "\r\nContent-Length: {length}\r\n").expect(rt, answer);
    answer.contains(header.as_str())
}

/// Whether an answer, from its status on, is whole and named.
fn is_named(rt: &impl Abort, alloc: Global, answer: &str) -> bool {
    let (head, body) = answer.split_once("\r\n\r\n").expect(rt, answer);
    let (status, _) = head.split_once("\r\n").expect(rt, answer);
    if !has_length(rt, alloc, answer, body.len()) {
        return false;
    }
    if is_fault(status, body) {
        return true;
    }
    (status == "200 OK" || status == "409 Conflict") && is_shown(rt, alloc, body)
}

/// Compares what `apply` did with what the formats name: it ended well, and each answer is named.
fn shows(rt: &impl Abort, alloc: Global, got: &str) {
    let (end, answers) = got.split_once(' ').expect(rt, got);
    assert_holds(rt, end != "Failed", got);
    let mut parts = answers.split("HTTP/1.1 ");
    assert_holds(rt, parts.next() == Some(""), got);
    for answer in parts {
        assert_holds(rt, is_named(rt, alloc, answer), answer);
    }
}

/// Numbers that look random.
#[derive(Drop)]
struct Dice {
    state: u64,
}

impl Dice {
    /// A number below the bound, or 0.
    fn below(&mut self, bound: usize) -> usize {
        self.state = self
            .state
            .wrapping_mul(6_364_136_223_846_793_005)
            .wrapping_add(1_442_695_040_888_963_407);
        (self.state >> 33) as usize % bound.max(1)
    }

    fn byte(&mut self) -> u8 {
        u8::try_from(self.below(256)).unwrap_or(0)
    }
}

/// The stream with up to three bytes changed, and its end cut off at times; at times with all changed.
fn damaged(rt: &impl Abort, alloc: Global, dice: &mut Dice, stream: &[u8]) -> Vec<u8> {
    let mut bytes = Vec::from_slice(alloc, stream).expect(rt, "a copy of the stream");
    let kind = dice.below(4);
    if kind < 2 {
        bytes.truncate(dice.below(stream.len()));
    }
    let length = bytes.len();
    let changes = if kind == 0 { length } else { 3 };
    for change in 0..changes {
        let at = if kind == 0 {
            change
        } else {
            dice.below(length)
        };
        if let Some(byte) = bytes.get_mut(at) {
            *byte = dice.byte();
        }
    }
    bytes
}

/// A stream on a connection of its own.
fn comes<K: Keeper>(rt: &(impl Abort + Eprint), alloc: Global, keeper: &mut K, stream: &[u8]) {
    let got = prepared(rt, applied(alloc, keeper, stream));
    shows(rt, alloc, got.as_str());
}

/// A day that has begun, and then the streams, each on a connection of its own.
pub fn noise<K: Keeper>(rt: &(impl Abort + Eprint), alloc: Global, keeper: &mut K) {
    compare(rt, alloc, keeper, BEGUN);
    let day = prepared(rt, stream(alloc, DAY));
    let mut dice = Dice { state: 1 };
    for _ in 0..STREAMS {
        let stream = damaged(rt, alloc, &mut dice, day.as_bytes());
        comes(rt, alloc, keeper, stream.as_slice());
    }
    compare(rt, alloc, keeper, BEGUN);
}
