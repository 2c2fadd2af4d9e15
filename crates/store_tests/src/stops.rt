//! A talk over two files of which one may stop, and the results that such a talk may have.

use crate::five_requests::served;
use ee_store_files::open_files;
use sqlite::{Files, Options};
use sqlite_disk::{Disk, Memory};
use std::alloc::Global;
use std::process::Abort;
use std::test::Fail;

/// What a connection keeps in memory: few pages, so that one is opened and dropped in little time.
pub fn few_pages(seed: u64) -> Options {
    Options {
        cache_pages: 64,
        spill_pages: 64,
        checkpoint_frames: 1000,
        seed,
    }
}

/// The same with one page, so that what a query needs is read from the files again.
pub fn one_page(seed: u64) -> Options {
    let mut options = few_pages(seed);
    options.cache_pages = 1;
    options
}

/// A file with the same bytes.
pub fn copied(rt: &impl Abort, alloc: Global, file: &Memory) -> Memory {
    let mut copy = Memory::new(alloc);
    copy.write_at(0, file.bytes()).expect(rt, "a copy");
    copy.sync().expect(rt, "a copy that is synced");
    copy
}

/// Serves a talk over files, and hands them back; with no text if they don't open.
pub fn served_on<D: Disk + Drop>(
    alloc: Global,
    files: Files<D>,
    talk: &str,
    options: Options,
) -> (Result<String, Fail>, bool, Files<D>) {
    if !files.may_be_used() {
        return (Ok(String::new(alloc)), false, files);
    }
    match open_files(alloc, files, options) {
        Ok(conn) => {
            let (text, conn) = served(alloc, conn, talk);
            match conn.close_files() {
                Ok(files) => (text, true, files),
                Err((_, store)) => (text, false, store.close()),
            }
        }
        Err((_, left)) => (Ok(String::new(alloc)), false, left.into_files()),
    }
}

/// Whether the header of a database file names pages of `bytes` bytes.
pub fn has_pages_of(file: &Memory, bytes: u16) -> bool {
    file.bytes().get(16..18) == Some(&bytes.to_be_bytes()[..])
}

/// Whether `apply` ended by `StoreFailed` on each message that was answered so, and on no other.
pub fn ends_by_failures(talk: &str) -> bool {
    talk.lines().all(|line| line.starts_with("StoreFailed 503 ")
        == line.ends_with("\"StoreFailed\"}"))
}

/// Whether the result is empty, or why the store wasn't opened, or the right answers up to a request at which the store
/// failed; after it each is a failure, or a reply that was given before.
pub fn is_front_of(got: &str, wanted: &str) -> bool {
    if got.is_empty() || got == "StoreFailed" {
        return true;
    }
    let Some((front, _)) = got.split_once("StoreFailed 503 ") else {
        return got == wanted;
    };
    for (line, right) in got.lines().zip(wanted.lines()) {
        let fails = line.starts_with("StoreFailed 503 ");
        let is_known = line.starts_with("> ") || front.contains(line);
        if !fails && (line != right || !is_known) {
            return false;
        }
    }
    wanted.starts_with(front)
}

/// Whether each query of a talk got its right answer, or was told that the store failed, so that a failing device is
/// reported as nothing else. A store that isn't opened is reported so, or as nothing.
pub fn fails_as_store(got: &str, wanted: &str) -> bool {
    if got.is_empty() || got == "StoreFailed" {
        return true;
    }
    let asked = |talk: &str| talk.lines().filter(|line| line.starts_with("> ")).count();
    asked(got) == asked(wanted)
        && got.lines().zip(wanted.lines()).all(|(line, right)| line == right
            || line.starts_with("StoreFailed 503 "))
}
