//! Days over a keeper in memory and over tables, which answer alike.

use crate::answering::{has_rows, in_memory};
use crate::comparing::{assert_same, compare, compare_by, prepared};
use crate::days::{
    BEGUN, DAY, DESKS, EXTENDED, IMPORTED, LAST, LOST, MERGES, ORDERS, SHOWN, TICKETS, TURNS,
};
use crate::failing::{a_thousand_messages, devices_fail};
use crate::faults::{CALLS, HEADS, STREAMS, calls_in_one_stream, ended, ends};
use crate::five_requests::rows_text;
use crate::imports::{FILES, LONG_FILES};
use crate::lists::LISTS;
use crate::random_bytes::noise;
use crate::refusals::{DAYS, FULL, IMPORTS, LONG, MOST};
use crate::talk::{By, replay_by, requests_of};
use ee_counter::run;
use ee_desk::ListKeeper;
use ee_desk_model::{Reply, Request, Unserved};
use ee_desk_texts::reply_text;
use ee_keeper::Keeper;
use ee_store::SqlKeeper;
use ee_wire::{Call, decode};
use sqlite::{Connection, MemStore};
use std::alloc::Global;
use std::fmt::Write;
use std::io::Eprint;
use std::process::Abort;
use std::test::Fail;

/// What is done over a new keeper.
#[derive(Clone, Copy)]
enum Part {
    /// A transcript, and another after it.
    Talks(&'static str, &'static str),
    /// The same, with its messages sent by these calls.
    TalksBy(By, &'static str, &'static str),
    /// A day of a thousand tickets, with its messages sent by these calls.
    FullDay(By),
    /// The requests of a day as one list.
    OneList,
    /// Bytes at random.
    Noise,
    /// Streams that end anywhere.
    Ends,
    /// Devices that fail.
    Devices,
    /// Calls at fault on one connection, each followed by a good one.
    OneStream,
    /// As many messages as a connection has.
    Thousand,
}

/// Days, lists and files.
const DAYS_AND_FILES: [Part; 10] = [
    Part::Talks(DAY, ""),
    Part::Talks(IMPORTS, ""),
    Part::Talks(DAYS, ""),
    Part::Talks(LAST, ""),
    Part::Talks(LISTS, ""),
    Part::Talks(EXTENDED, ""),
    Part::Talks(IMPORTED, ""),
    Part::Talks(MOST, LONG),
    Part::Talks(FILES, ""),
    Part::Talks(LONG_FILES, ""),
];

/// By serving and by the keeper's own calls: each refusal and query, the last values, the most rows, and each fault of a
/// message.
const BY_CALLS: [Part; 10] = [
    Part::TalksBy(By::Serve, DAY, ""),
    Part::TalksBy(By::Calls, DAY, ""),
    Part::TalksBy(By::Calls, IMPORTS, ""),
    Part::TalksBy(By::Calls, DAYS, ""),
    Part::TalksBy(By::Calls, LAST, ""),
    Part::TalksBy(By::Calls, EXTENDED, ""),
    Part::TalksBy(By::Calls, MOST, LONG),
    Part::TalksBy(By::Calls, BEGUN, CALLS),
    Part::TalksBy(By::Serve, LAST, ""),
    Part::TalksBy(By::Serve, BEGUN, CALLS),
];

/// What is at fault leaves a sound store, which gives its first replies.
const FAULTS: [Part; 8] = [
    Part::Talks(BEGUN, CALLS),
    Part::Talks(BEGUN, STREAMS),
    Part::Talks(BEGUN, HEADS),
    Part::Noise,
    Part::Ends,
    Part::Devices,
    Part::OneStream,
    Part::Thousand,
];

/// A ticket for each of 500 bonds of a letter.
fn tickets(rt: &impl Abort, alloc: Global, letter: char, first: u64) -> String {
    let mut talk = String::new(alloc);
    for bond in 1..501 {
        let number = first.saturating_add(bond);
        write!(
            talk,
            "> POST /redeem {{\"number\":{number},\"day\":\"2012-02-06\",\"payee\":7,\"serials\":[\"{letter}{bond}EE\"]}}\n"
        )
        .expect(rt, "memory for a redemption");
    }
    talk
}

/// Redeems 500 bonds of a letter, under numbers from a first one on.
fn redeem<K: Keeper>(
    rt: &(impl Abort + Eprint),
    alloc: Global,
    keeper: &mut K,
    by: By,
    letter: char,
    first: u64,
) {
    let talk = tickets(rt, alloc, letter, first);
    let _answers = prepared(rt, replay_by(alloc, keeper, by, talk.as_str()));
}

/// A day with a thousand tickets.
fn full_day<K: Keeper>(rt: &(impl Abort + Eprint), alloc: Global, keeper: &mut K, by: By) {
    compare_by(rt, alloc, keeper, by, MOST);
    redeem(rt, alloc, keeper, by, 'A', 1_000);
    redeem(rt, alloc, keeper, by, 'B', 2_000);
    compare_by(rt, alloc, keeper, by, FULL);
}

/// The request of a line `PATH BODY`.
fn request(alloc: Global, line: &str) -> Result<Request, Fail> {
    let (path, body) = line.split_once(' ').ok_or("path")?;
    match decode(alloc, path.as_bytes(), b"POST", body.as_bytes())? {
        Call::Request(request) => Ok(request),
        Call::Query(_) => Err("a query".into()),
    }
}

/// The requests of a transcript.
pub fn requests(rt: &(impl Abort + Eprint), alloc: Global, transcript: &str) -> Vec<Request> {
    let mut requests = Vec::new(alloc);
    for line in transcript.lines() {
        if let Some(line) = line.strip_prefix("> POST ") {
            let request = prepared(rt, request(alloc, line));
            requests.push(request).expect(rt, "memory for a request");
        }
    }
    requests
}

/// Adds a reply to a text.
fn add_reply(rt: &impl Abort, text: &mut String, line: &str) {
    let (_, reply) = line.split_once(' ').expect(rt, "status");
    writeln!(text, "{reply}").expect(rt, "memory for a reply");
}

/// The texts of the answers to them, each on a line.
fn replies(rt: &impl Abort, alloc: Global, transcript: &str) -> String {
    let mut text = String::new(alloc);
    let mut lines = transcript.lines();
    while let Some(line) = lines.next() {
        if line.starts_with("> POST ") {
            add_reply(rt, &mut text, lines.next().expect(rt, "reply"));
        }
    }
    text
}

fn answer_text(alloc: Global, answer: &Result<Reply, Unserved>) -> Result<String, Fail> {
    match answer {
        Ok(reply) => Ok(reply_text(alloc, reply)?),
        Err(cause) => Ok(cause.to_string(alloc)?),
    }
}

/// The texts of answers, each on a line.
fn answers_text(
    rt: &(impl Abort + Eprint),
    alloc: Global,
    answers: &[Result<Reply, Unserved>],
) -> String {
    let mut text = String::new(alloc);
    for answer in answers {
        let reply = prepared(rt, answer_text(alloc, answer));
        writeln!(text, "{reply}").expect(rt, "memory for an answer");
    }
    text
}

/// Runs the requests of a transcript as one list, and compares the replies.
fn runs<K: Keeper>(rt: &(impl Abort + Eprint), alloc: Global, keeper: &mut K, transcript: &str) {
    let requests = requests(rt, alloc, transcript);
    let answers = run(alloc, keeper, requests.as_slice()).expect(rt, "memory for the answers");
    let got = answers_text(rt, alloc, answers.as_slice());
    let wanted = replies(rt, alloc, transcript);
    assert_same(rt, got.as_str(), wanted.as_str(), "one list");
}

/// A part over a new keeper.
fn part_over<K: Keeper>(rt: &(impl Abort + Eprint), alloc: Global, keeper: &mut K, part: Part) {
    match part {
        Part::Talks(first, then) => {
            compare(rt, alloc, keeper, first);
            compare(rt, alloc, keeper, then);
        }
        Part::TalksBy(by, first, then) => {
            compare_by(rt, alloc, keeper, by, first);
            compare_by(rt, alloc, keeper, by, then);
        }
        Part::FullDay(by) => full_day(rt, alloc, keeper, by),
        Part::OneList => {
            runs(rt, alloc, keeper, DAY);
            compare(rt, alloc, keeper, SHOWN);
        }
        Part::Noise => noise(rt, alloc, keeper),
        Part::Ends => ends(rt, alloc, keeper),
        Part::Devices => devices_fail(rt, alloc, keeper),
        Part::OneStream => {
            compare(rt, alloc, keeper, BEGUN);
            calls_in_one_stream(rt, alloc, keeper);
        }
        Part::Thousand => a_thousand_messages(rt, alloc, keeper),
    }
}

/// The requests and imports of a transcript again: each gets the same result.
fn talk_again<K: Keeper>(rt: &(impl Abort + Eprint), alloc: Global, keeper: &mut K, talk: &str) {
    let requests = prepared(rt, requests_of(alloc, talk));
    compare(rt, alloc, keeper, requests.as_str());
}

/// Requests of a part again: they have their first replies.
fn again<K: Keeper>(rt: &(impl Abort + Eprint), alloc: Global, keeper: &mut K, part: Part) {
    match part {
        Part::Talks(first, then) | Part::TalksBy(_, first, then) => {
            talk_again(rt, alloc, keeper, first);
            talk_again(rt, alloc, keeper, then);
        }
        Part::FullDay(_) => {
            talk_again(rt, alloc, keeper, MOST);
            talk_again(rt, alloc, keeper, FULL);
        }
        Part::OneList => talk_again(rt, alloc, keeper, DAY),
        Part::Noise | Part::OneStream => compare(rt, alloc, keeper, BEGUN),
        Part::Ends => ended(rt, alloc, keeper),
        Part::Devices | Part::Thousand => {}
    }
}

/// A keeper over the store of a connection.
fn adopt(rt: &impl Abort, alloc: Global, conn: Connection<MemStore>) -> SqlKeeper<MemStore> {
    match SqlKeeper::adopt(conn, alloc) {
        Ok(keeper) => keeper,
        Err(not) => panic!(rt; "not adopted: {:?}", not.fault),
    }
}

/// A part over the store of a connection, or what comes again of it; the connection is handed back.
fn over_tables(
    rt: &(impl Abort + Eprint),
    alloc: Global,
    conn: Connection<MemStore>,
    part: Part,
    comes_again: bool,
) -> Connection<MemStore> {
    let mut keeper = adopt(rt, alloc, conn);
    if comes_again {
        again(rt, alloc, &mut keeper, part);
    } else {
        part_over(rt, alloc, &mut keeper, part);
    }
    keeper.close()
}

/// A part over a keeper in memory, and its requests again.
fn over_list(rt: &(impl Abort + Eprint), alloc: Global, part: Part) {
    let mut list = ListKeeper::empty(alloc);
    part_over(rt, alloc, &mut list, part);
    again(rt, alloc, &mut list, part);
}

/// A part over tables, and its requests again, which change no row.
fn over_new_tables(rt: &(impl Abort + Eprint), alloc: Global, part: Part) {
    let mut conn = over_tables(rt, alloc, in_memory(rt, alloc), part, false);
    let before = prepared(rt, rows_text(alloc, &mut conn));
    let mut conn = over_tables(rt, alloc, conn, part, true);
    has_rows(rt, alloc, &mut conn, before.as_str(), "again");
}

/// A part over a keeper in memory and over tables, and its requests again: they have their first replies, and change
/// nothing. The store of the tables is closed and taken over again before that, which tests all its rows.
fn over_both(rt: &(impl Abort + Eprint), alloc: Global, part: Part) {
    over_list(rt, alloc, part);
    over_new_tables(rt, alloc, part);
}

fn all_over_both(rt: &(impl Abort + Eprint), alloc: Global, parts: &[Part]) {
    for part in parts {
        over_both(rt, alloc, *part);
    }
}

#[test]
fn days_and_files(rt: HostRuntime) {
    all_over_both(&rt, rt.alloc(), &DAYS_AND_FILES);
}

#[test]
fn days_by_calls(rt: HostRuntime) {
    all_over_both(&rt, rt.alloc(), &BY_CALLS);
}

/// Each transcript after the same beginning.
fn begun_over_both(rt: &(impl Abort + Eprint), alloc: Global, talks: &[&'static str]) {
    for talk in talks {
        over_both(rt, alloc, Part::Talks(BEGUN, *talk));
    }
}

#[test]
fn days_that_begin_alike(rt: HostRuntime) {
    begun_over_both(&rt, rt.alloc(), &[LOST, TICKETS, TURNS]);
    begun_over_both(&rt, rt.alloc(), &ORDERS);
    begun_over_both(&rt, rt.alloc(), &MERGES);
}

#[test]
fn faults(rt: HostRuntime) {
    all_over_both(&rt, rt.alloc(), &FAULTS);
}

/// A day of several desks, in one go over a keeper in memory, and over tables that are taken over again between its parts.
#[test]
fn desks_number_their_requests_apart(rt: HostRuntime) {
    let alloc = rt.alloc();
    let mut list = ListKeeper::empty(alloc);
    let mut conn = in_memory(&rt, alloc);
    for talk in DESKS {
        compare(&rt, alloc, &mut list, talk);
        conn = over_tables(&rt, alloc, conn, Part::Talks(talk, ""), false);
    }
}

#[test]
fn a_full_day(rt: HostRuntime) {
    over_both(&rt, rt.alloc(), Part::FullDay(By::Apply));
    over_both(&rt, rt.alloc(), Part::FullDay(By::Calls));
}

#[test]
fn a_day_as_one_list(rt: HostRuntime) {
    over_both(&rt, rt.alloc(), Part::OneList);
}
