//! A line whose files stop.

use crate::commands::{ANSWERS, STREAM, words};
use crate::comparing::assert_same;
use crate::stops::few_pages;
use ee_cli_program::Left;
use ee_cli_stores::{Refused, StoppingFiles, run_stopped};
use sqlite::{FileStore, Files};
use sqlite_disk::{Crash, Fuse, Memory};
use std::process::Abort;

type Stopped = Fuse<Memory>;

/// The files of what a line left.
fn files_of(
    rt: &impl Abort,
    left: Left<StoppingFiles<Stopped>, Refused<Stopped>, (), FileStore<Stopped>>,
) -> Files<Stopped> {
    match left {
        Left::Unclosed(store) | Left::Refused(Refused::Store(store)) => store.close(),
        Left::Refused(Refused::Files(files)) => files.into_files(),
        _ => panic!(rt; "no store was opened"),
    }
}

/// What `apply` answers to the stream over files that may stop, and what a crash then leaves of these.
fn applied(
    rt: &HostRuntime,
    abort: &impl Abort,
    files: Files<Stopped>,
) -> (String, Files<Stopped>) {
    let words = words(rt, abort, "apply --db here");
    let mut bytes = STREAM.as_bytes();
    let mut printed = Vec::new(rt.alloc());
    let mut got = Vec::new(rt.alloc());
    let stores = StoppingFiles {
        alloc: rt.alloc(),
        files,
        options: few_pages(1),
    };
    let ran = run_stopped(
        rt,
        stores,
        &words,
        false,
        &mut bytes,
        &mut printed,
        &mut got,
    );
    let mut files = files_of(abort, ran.left);
    files.log.crash();
    files.db.crash();
    (String::from_utf8(printed).expect(abort, "answers"), files)
}

/// The log stops at every call in turn, until a line has answered all. After a crash the same line answers all.
#[test]
fn a_line_whose_log_stops(rt: HostRuntime) {
    for call in 0..10_000 {
        let log = Fuse::new(Memory::new(rt.alloc()), call);
        let db = Fuse::new(Memory::new(rt.alloc()), u64::MAX);
        let (first, files) = applied(&rt, &rt, Files { log, db });
        let (second, _files) = applied(&rt, &rt, files);
        assert_same(&rt, second.as_str(), ANSWERS, first.as_str());
        if first.as_str() == ANSWERS {
            return;
        }
    }
    panic!(rt; "every line was stopped")
}
