//! Stores in files: days in a file that is closed and opened again, and stops at each call of a file.

use crate::comparing::{assert_holds, assert_same, prepared};
use crate::days::{DAY, DESKS, EXTENDED, LAST};
use crate::five_requests::FIVE;
use crate::lists::LISTS;
use crate::paths::{forget, fresh};
use crate::refusals::{DAYS, IMPORTS};
use crate::stops::{
    copied, ends_by_failures, fails_as_store, few_pages, has_pages_of, is_front_of, one_page,
    served_on,
};
use crate::talk::answers;
use ee_cli_stores::Untold;
use ee_desk::ListKeeper;
use ee_store::open_as;
use sqlite::Files;
use sqlite_disk::{Crash, Fuse, Memory};
use std::alloc::Global;
use std::io::Eprint;
use std::process::Abort;
use std::test::Fail;

/// Days as transcripts.
const TALKS: [&str; 6] = [DAY, IMPORTS, DAYS, LAST, LISTS, EXTENDED];

/// The answers to a talk over the store in a file, which is opened for it and closed.
fn in_file(rt: &HostRuntime, path: &str, talk: &str) -> Result<String, Fail> {
    match open_as(rt, path, Untold) {
        Ok(mut keeper) => answers(rt.alloc(), &mut keeper, talk),
        Err(_) => Err("the file doesn't open".into()),
    }
}

/// Compares the answers to a talk over a keeper in memory with those over the store in a file.
fn answer_alike(
    rt: &HostRuntime,
    test: &(impl Abort + Eprint),
    list: &mut ListKeeper,
    path: &str,
    talk: &str,
) {
    let wanted = prepared(test, answers(rt.alloc(), list, talk));
    let got = prepared(test, in_file(rt, path, talk));
    assert_same(test, got.as_str(), wanted.as_str(), "over a file");
}

/// A day of several desks over a file that is closed and opened again between its parts.
#[test]
fn desks_in_a_file(rt: HostRuntime) {
    let path = prepared(&rt, fresh(&rt, "desks"));
    let mut list = ListKeeper::empty(rt.alloc());
    for talk in DESKS {
        answer_alike(&rt, &rt, &mut list, &path, talk);
    }
    prepared(&rt, forget(&rt, &path));
}

/// The same talk twice.
fn twice(rt: &HostRuntime, test: &(impl Abort + Eprint), path: &str, talk: &str) {
    let mut list = ListKeeper::empty(rt.alloc());
    answer_alike(rt, test, &mut list, path, talk);
    answer_alike(rt, test, &mut list, path, talk);
}

/// The days over a keeper in memory and over a file, which is closed and opened again for the same once
/// more: the answers are the same, byte for byte.
#[test]
fn days_in_a_file(rt: HostRuntime) {
    for talk in TALKS {
        let path = prepared(&rt, fresh(&rt, "days"));
        twice(&rt, &rt, &path, talk);
        prepared(&rt, forget(&rt, &path));
    }
}

/// A file that is closed and opened again gives each number the bytes of its first answer.
#[test]
fn a_file_keeps_its_replies(rt: HostRuntime) {
    let path = prepared(&rt, fresh(&rt, "replies"));
    let mut list = ListKeeper::empty(rt.alloc());
    let wanted = prepared(&rt, answers(rt.alloc(), &mut list, FIVE));
    for _ in 0..3 {
        let got = prepared(&rt, in_file(&rt, &path, FIVE));
        assert_same(&rt, got.as_str(), wanted.as_str(), "opened again");
    }
    prepared(&rt, forget(&rt, &path));
}

/// The files of a store that the five requests were sent to, closed.
fn files_of_day(rt: &(impl Abort + Eprint), alloc: Global) -> Files<Memory> {
    let log = Memory::new(alloc);
    let db = Memory::new(alloc);
    let (got, is_closed, files) = served_on(alloc, Files { log, db }, FIVE, few_pages(1));
    assert_same(rt, prepared(rt, got).as_str(), FIVE, "over new files");
    assert_holds(rt, is_closed, "the log isn't written back");
    files
}

#[test]
fn a_new_store_has_small_pages(rt: HostRuntime) {
    let files = files_of_day(&rt, rt.alloc());
    assert_holds(&rt, has_pages_of(&files.db, 1024), "pages of 1,024 bytes");
}

/// What is asked after that day.
const QUERIES: &str = r#"> GET /ticket/1
200 {"day":"2012-02-06","lines":[{"paid":"25.88","serial":"L1EE"},{"paid":"38.34","serial":"K2EE"},{"paid":"5132.00","serial":"M3EE"}],"payee":7,"ticket":1,"total":"5196.22"}
> GET /batch/2012-02-06
200 {"bonds":3,"day":"2012-02-06","tickets":1,"total":"5196.22"}
> GET /ticket/2
404 {"code":69,"fault":"NotFound"}
> GET /value/50/2010-11/2012-02
200 {"denom":50,"final":"2040-11","interest":"0.88","issued":"2010-11","next":"2012-03","note":"P5","price":"25.00","rate":"3.50%","value":"25.88"}
> GET /inventory/7/2012-02
200 Serial        Series  Denom Issued  Next    Final          Price       Interest   Rate          Value Note
Total                                                       0.00           0.00                  0.00

"#;

/// The result of the queries over files of which the database's fails at one call and at each later one.
fn asked(rt: &(impl Abort + Eprint), alloc: Global, files: &Files<Memory>, call: u64) -> String {
    let log = Fuse::new(copied(rt, alloc, &files.log), u64::MAX);
    let db = Fuse::new(copied(rt, alloc, &files.db), call);
    let (got, _, _left) = served_on(alloc, Files { log, db }, QUERIES, one_page(1));
    prepared(rt, got)
}

/// The database file fails at each of its calls in turn, until all queries are answered: each is answered right, or by
/// `StoreFailed`, and never by another cause.
#[test]
fn a_fault_at_each_read(rt: HostRuntime) {
    let files = files_of_day(&rt, rt.alloc());
    let mut failed = false;
    for call in 0..10_000 {
        let got = asked(&rt, rt.alloc(), &files, call);
        assert_holds(&rt, fails_as_store(got.as_str(), QUERIES), got.as_str());
        failed |= got.contains("StoreFailed 503 ");
        if got.as_str() == QUERIES {
            return assert_holds(&rt, failed, "no query failed");
        }
    }
    panic!(rt; "a query failed each time")
}

/// A device's fault that is reported as want of memory is noticed, for a request and for a query.
#[test]
fn another_cause_is_noticed(rt: HostRuntime) {
    let request = "> POST /rates {}\n503 {\"code\":1,\"unserved\":\"NoMemory\"}\n";
    assert_holds(&rt, !is_front_of(request, FIVE), request);
    let query = "> GET /ticket/1\n503 {\"code\":1,\"unserved\":\"NoMemory\"}\n";
    assert_holds(
        &rt,
        !fails_as_store(query, "> GET /ticket/1\n404 {}\n"),
        query,
    );
    let query = "> GET /ticket/1\nStoreFailed 503 {\"code\":2,\"unserved\":\"StoreFailed\"}\n";
    assert_holds(
        &rt,
        fails_as_store(query, "> GET /ticket/1\n404 {}\n"),
        query,
    );
}

/// The results of two runs, the first over files that stop, the second after a crash; and whether the first came to its
/// end.
#[derive(Drop)]
struct Runs {
    first: String,
    second: String,
    is_whole: bool,
}

/// The five requests over files of which the log stops at one call and the other at another; then again over what a
/// crash leaves.
fn stopped(rt: &(impl Abort + Eprint), alloc: Global, log: u64, db: u64) -> Runs {
    let log = Fuse::new(Memory::new(alloc), log);
    let db = Fuse::new(Memory::new(alloc), db);
    let (first, closed, mut files) = served_on(alloc, Files { log, db }, FIVE, few_pages(1));
    files.log.crash();
    files.db.crash();
    let (second, _, _left) = served_on(alloc, files, FIVE, few_pages(1));
    let first = prepared(rt, first);
    let second = prepared(rt, second);
    let is_whole = closed && first.as_str() == FIVE;
    Runs {
        first,
        second,
        is_whole,
    }
}

/// The answers before a stop are a front of the right ones, and after it each request has its one reply.
fn are_right(rt: &impl Abort, runs: &Runs) {
    let first = runs.first.as_str();
    assert_holds(rt, is_front_of(first, FIVE), first);
    assert_holds(rt, ends_by_failures(first), first);
    assert_same(rt, runs.second.as_str(), FIVE, first);
}

/// One file stops at each of its calls in turn, until a run comes to its end. The answers before a stop are the front of
/// the right ones. If the store fails, `apply` ends with that, even if the store still answers queries. After a crash the
/// files are opened again and the five requests are sent again: each has its one reply. Returns whether a request failed.
fn stops_at_each_call(rt: &(impl Abort + Eprint), alloc: Global, on_log: bool) -> bool {
    let mut failed = false;
    for k in 0..10_000 {
        let (log, db) = if on_log { (k, u64::MAX) } else { (u64::MAX, k) };
        let runs = stopped(rt, alloc, log, db);
        are_right(rt, &runs);
        failed |= runs.first.contains("\nStoreFailed 503 ");
        if runs.is_whole {
            return failed;
        }
    }
    panic!(rt; "each run was stopped")
}

#[test]
fn a_stop_at_each_call(rt: HostRuntime) {
    let on_log = stops_at_each_call(&rt, rt.alloc(), true);
    let on_file = stops_at_each_call(&rt, rt.alloc(), false);
    assert_holds(&rt, on_log || on_file, "no request failed");
}
