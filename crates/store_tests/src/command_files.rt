//! Lines over stores in files and in memory: imports, exports, sheets and streams.

use crate::commands::{ANSWERS, STREAM, assert_fault, has_run, prints, prints_in_memory, run};
use crate::comparing::{add, assert_holds, assert_same, prepared};
use crate::paths::{forget, path_of};
use std::fs;
use std::io::Eprint;
use std::process::Abort;

const RATES: &str = "from,rate\n2010-05,2.00\n2010-11,3.50%\n";

const BONDS: &str =
    "serial,denom,issued,owner,coowner\nL1EE,50,2010-11,7,\nK-0002-EE,75,10/2010,7,8\nM3EE,10000,2011-02,7,\n";

const SHEET: &str =
    "Serial        Series  Denom Issued  Next    Final          Price       Interest   Rate          Value Note
K2EE          EE         75 10/2010 03/2012 10/2040        37.50           0.84  2.00%          38.34 P5
L1EE          EE         50 11/2010 03/2012 11/2040        25.00           0.88  3.50%          25.88 P5
M3EE          EE      10000 02/2011 03/2012 02/2041      5000.00         132.00  3.50%        5132.00 P5
Total                                                    5062.50         133.72               5196.22
";

const EXPORTED: &str =
    "serial,denom,issued,owner,coowner\nK2EE,75,2010-10,7,8\nL1EE,50,2010-11,7,\nM3EE,10000,2011-02,7,\n";

/// The path of a test's file.
fn path_to(rt: &HostRuntime, abort: &(impl Abort + Eprint), name: &str, ending: &str) -> String {
    prepared(abort, path_of(rt, name, ending))
}

/// Adds the path of a test's file.
fn add_path(
    rt: &HostRuntime,
    abort: &(impl Abort + Eprint),
    text: &mut String,
    name: &str,
    ending: &str,
) {
    let path = path_to(rt, abort, name, ending);
    add(abort, text, path.as_str());
}

/// A line in which `DB` means the path of a test's store, and `FILE` that of its file.
fn with_paths(rt: &HostRuntime, abort: &(impl Abort + Eprint), name: &str, line: &str) -> String {
    let mut text = String::new(rt.alloc());
    for word in line.split_ascii_whitespace() {
        match word {
            "DB" => add_path(rt, abort, &mut text, name, "db"),
            "FILE" => add_path(rt, abort, &mut text, name, "csv"),
            _ => add(abort, &mut text, word),
        }
        add(abort, &mut text, " ");
    }
    text
}

/// Removes a file of a test, and the log beside it.
fn forget_one(rt: &HostRuntime, abort: &(impl Abort + Eprint), name: &str, ending: &str) {
    let path = path_to(rt, abort, name, ending);
    prepared(abort, forget(rt, path.as_str()));
}

/// Removes the store of a test, and its file.
pub fn forget_both(rt: &HostRuntime, abort: &(impl Abort + Eprint), name: &str) {
    forget_one(rt, abort, name, "db");
    forget_one(rt, abort, name, "csv");
}

/// Writes a file of a test.
fn put(rt: &HostRuntime, abort: &(impl Abort + Eprint), name: &str, ending: &str, text: &str) {
    let path = path_to(rt, abort, name, ending);
    fs::write(rt, path.as_str(), text).expect(abort, "a file of a test");
}

/// A file of a test holds this text.
fn holds_text(
    rt: &HostRuntime,
    abort: &(impl Abort + Eprint),
    name: &str,
    ending: &str,
    text: &str,
) {
    let path = path_to(rt, abort, name, ending);
    let found = fs::read_to_string(rt, path.as_str()).expect(abort, "a file of a test");
    assert_same(abort, found.as_str(), text, "what a file holds");
}

/// A line over the store and the file of a test prints this, with status 0.
fn prints_over(
    rt: &HostRuntime,
    abort: &(impl Abort + Eprint),
    name: &str,
    line: &str,
    wanted: &str,
) {
    let line = with_paths(rt, abort, name, line);
    prints(rt, abort, line.as_str(), "", wanted);
}

/// The line prints nothing, reports this fault, and ends with this status.
pub fn assert_fault_over(
    rt: &HostRuntime,
    abort: &(impl Abort + Eprint),
    name: &str,
    line: &str,
    wanted: &str,
    status: u8,
) {
    let line = with_paths(rt, abort, name, line);
    assert_fault(rt, abort, line.as_str(), wanted, status);
}

const IMPORT_RATES: &str = "import rates FILE --db DB --number 1";

const IMPORT_BONDS: &str = "import inventory FILE --db DB --number 2";

#[test]
fn files_in_and_out(rt: HostRuntime) {
    let name = "files";
    forget_both(&rt, &rt, name);
    put(&rt, &rt, name, "csv", RATES);
    prints_over(&rt, &rt, name, IMPORT_RATES, "{\"new\":2,\"same\":0}\n");
    prints_over(&rt, &rt, name, IMPORT_RATES, "{\"new\":2,\"same\":0}\n");
    put(&rt, &rt, name, "csv", BONDS);
    let again = "import inventory FILE --db DB --number 6";
    prints_over(&rt, &rt, name, IMPORT_BONDS, "{\"new\":3,\"same\":0}\n");
    prints_over(&rt, &rt, name, again, "{\"new\":0,\"same\":3}\n");
    prints_over(&rt, &rt, name, IMPORT_BONDS, "{\"new\":3,\"same\":0}\n");
    prints_over(&rt, &rt, name, "export 7 --db DB", EXPORTED);
    prints_over(&rt, &rt, name, "sheet 7 2012-02 --db DB", SHEET);
    forget_both(&rt, &rt, name);
}

#[test]
fn a_broken_file_takes_no_number(rt: HostRuntime) {
    let name = "broken";
    forget_both(&rt, &rt, name);
    assert_fault_over(&rt, &rt, name, IMPORT_RATES, "input or output failed\n", 3);
    put(&rt, &rt, name, "csv", "from,rate\n2010-05\n");
    assert_fault_over(&rt, &rt, name, IMPORT_RATES, "file: row 2 code 71\n", 3);
    put(&rt, &rt, name, "csv", RATES);
    prints_over(&rt, &rt, name, IMPORT_RATES, "{\"new\":2,\"same\":0}\n");
    let refused = "import inventory FILE --db DB --number 1";
    assert_fault_over(&rt, &rt, name, refused, "file: row 1 code 70\n", 3);
    forget_both(&rt, &rt, name);
}

#[test]
fn a_refusal_is_printed(rt: HostRuntime) {
    let name = "refusal";
    forget_both(&rt, &rt, name);
    put(&rt, &rt, name, "csv", "from,rate\n");
    let line = with_paths(&rt, &rt, name, IMPORT_RATES);
    let ran = run(&rt, &rt, line.as_str(), "");
    let wanted = "{\"code\":11,\"refused\":\"Empty\"}\n";
    has_run(&rt, &ran, IMPORT_RATES, wanted, "", 1);
    forget_both(&rt, &rt, name);
}

/// A stream whose message is cut has an answer, and status 1.
fn a_cut_stream_is_answered(rt: &HostRuntime, abort: &impl Abort, line: &str) {
    let ran = run(rt, abort, line, "GET /value/50");
    let end = "{\"code\":68,\"fault\":\"Truncated\"}";
    assert_holds(abort, ran.printed.ends_with(end), ran.printed.as_str());
    assert_same(abort, ran.got.as_str(), "", line);
    assert_holds(abort, ran.status == 1, line);
}

#[test]
fn a_stream_is_answered(rt: HostRuntime) {
    forget_both(&rt, &rt, "stream");
    let line = with_paths(&rt, &rt, "stream", "apply --db DB");
    prints(&rt, &rt, &line, STREAM, ANSWERS);
    prints(&rt, &rt, &line, STREAM, ANSWERS);
    a_cut_stream_is_answered(&rt, &rt, &line);
    forget_both(&rt, &rt, "stream");
}

/// The same command lines over stores in memory.
#[test]
fn lines_over_memory(rt: HostRuntime) {
    forget_both(&rt, &rt, "memory");
    put(&rt, &rt, "memory", "csv", RATES);
    for (line, input, wanted) in [
        ("apply --db here", STREAM, ANSWERS),
        (
            "import rates FILE --db here --number 1",
            "",
            "{\"new\":2,\"same\":0}\n",
        ),
        (
            "export 7 --db here",
            "",
            "serial,denom,issued,owner,coowner\n",
        ),
        ("value 50 2010-05 2015-05 3.50", "", "29.74\n"),
    ] {
        let line = with_paths(&rt, &rt, "memory", line);
        prints_in_memory(&rt, &rt, &line, input, wanted);
    }
    forget_both(&rt, &rt, "memory");
}

/// Each is refused twice and keeps its bytes; the second time the log of the first is beside it.
#[test]
fn a_file_that_is_no_store(rt: HostRuntime) {
    let name = "none";
    let line = "export 7 --db DB";
    for text in ["no store", "x", "S", "\0", "7", "\0\0", "SQLite format 3"] {
        forget_both(&rt, &rt, name);
        put(&rt, &rt, name, "db", text);
        assert_fault_over(&rt, &rt, name, line, "store: StoreFailed\n", 3);
        assert_fault_over(&rt, &rt, name, line, "store: StoreFailed\n", 3);
        holds_text(&rt, &rt, name, "db", text);
    }
    forget_both(&rt, &rt, name);
}

/// Removes the log beside the store of a test, which has to be there.
fn remove_log(rt: &HostRuntime, abort: &(impl Abort + Eprint), name: &str) {
    let path = path_to(rt, abort, name, "db-wal");
    fs::remove_file(rt, path.as_str()).expect(abort, "the log");
}

/// After a command the file is the whole store, without the log beside it.
#[test]
fn a_store_at_rest_is_one_file(rt: HostRuntime) {
    let name = "rest";
    forget_both(&rt, &rt, name);
    put(&rt, &rt, name, "csv", RATES);
    prints_over(&rt, &rt, name, IMPORT_RATES, "{\"new\":2,\"same\":0}\n");
    remove_log(&rt, &rt, name);
    put(&rt, &rt, name, "csv", BONDS);
    prints_over(&rt, &rt, name, IMPORT_BONDS, "{\"new\":3,\"same\":0}\n");
    remove_log(&rt, &rt, name);
    prints_over(&rt, &rt, name, "export 7 --db DB", EXPORTED);
    forget_both(&rt, &rt, name);
}
