//! Stores of version 1 in two files of which one stops: what a crash then leaves has the same tables as before, or
//! those of version 2 with the same rows, and gives the same answers.

use crate::comparing::{add, assert_holds, assert_same, prepared};
use crate::five_requests::{FIVE, rows_text, served};
use crate::stops::{copied, ends_by_failures, few_pages, is_front_of, served_on};
use crate::version_1::{Earlier, NAMED, OTHER, make_earlier, rows_after, rows_before};
use ee_store_files::open_files;
use sqlite::{Connection, FileStore, Files};
use sqlite_disk::{Crash, Disk, Fuse, Memory};
use std::alloc::Global;
use std::io::Eprint;
use std::process::Abort;

/// What comes after the five requests of the day.
#[derive(Clone, Copy, Debug, PartialEq, Eq)]
pub enum News {
    /// Nothing: each of them was sent before.
    Nothing,
    /// An extension is entered.
    Extension,
    /// A second desk uses one of their numbers.
    Desk,
}

impl News {
    const fn text(self) -> &'static str {
        match self {
            News::Nothing => "",
            News::Extension => NAMED,
            News::Desk => OTHER,
        }
    }
}

/// What an earlier store may have become.
#[derive(Clone, Copy, Debug, PartialEq, Eq, PartialOrd)]
pub enum Form {
    /// Its own tables and rows.
    Earlier,
    /// Version 2 with the same rows.
    Migrated,
    /// Version 2 with what was new, and the reply to it.
    Entered,
}

impl Form {
    /// The form whose rows these are.
    pub fn of(
        rt: &impl Abort,
        alloc: Global,
        earlier: Earlier,
        news: News,
        rows: &str,
    ) -> Option<Form> {
        let is_extended = earlier == Earlier::Extended;
        let will_be = is_extended || news == News::Extension;
        if rows == rows_before(rt, alloc, earlier).as_str() {
            return Some(Form::Earlier);
        }
        if rows == rows_after(rt, alloc, will_be, news == News::Desk).as_str() {
            return Some(Form::Entered);
        }
        if rows == rows_after(rt, alloc, is_extended, false).as_str() {
            return Some(Form::Migrated);
        }
        None
    }
}

/// How the files of an earlier store were left.
#[derive(Clone, Copy)]
enum Left {
    /// Closed: the one file is all of it.
    AtRest,
    /// By a process that was killed: the log isn't written back.
    InLog,
}

/// The files of a connection, at rest.
fn closed<D: Disk + Drop>(rt: &impl Abort, conn: Connection<FileStore<D>>) -> Files<D> {
    match conn.close_files() {
        Ok(files) => files,
        Err(_) => panic!(rt; "the log isn't written back"),
    }
}

/// Creates a database in new files with pages of 4,096 bytes, as `sqlite` and earlier programs do.
fn create_large(
    rt: &impl Abort,
    alloc: Global,
    files: Files<Memory>,
) -> Connection<FileStore<Memory>> {
    if !files.may_be_used() {
        panic!(rt; "a file may not be used");
    }
    match Connection::open_files(alloc, files, few_pages(2)) {
        Ok(conn) => conn,
        Err(_) => panic!(rt; "the files don't open"),
    }
}

/// Opens files as the program does.
fn open<D: Disk + Drop>(
    rt: &impl Abort,
    alloc: Global,
    files: Files<D>,
) -> Connection<FileStore<D>> {
    if !files.may_be_used() {
        panic!(rt; "a file may not be used");
    }
    match open_files(alloc, files, few_pages(3)) {
        Ok(conn) => conn,
        Err(_) => panic!(rt; "the files don't open"),
    }
}

/// The files of an earlier store.
fn earlier_files(rt: &impl Abort, alloc: Global, earlier: Earlier, left: Left) -> Files<Memory> {
    let log = Memory::new(alloc);
    let db = Memory::new(alloc);
    let mut conn = create_large(rt, alloc, Files { log, db });
    conn.execute_batch("BEGIN").expect(rt, "begin");
    make_earlier(rt, &mut conn, earlier);
    conn.execute_batch("COMMIT").expect(rt, "commit");
    match left {
        Left::AtRest => closed(rt, conn),
        Left::InLog => conn.into_store().close(),
    }
}

/// The rows in files, the result of a talk over them, and the rows afterwards.
#[derive(Drop)]
pub struct Shown {
    pub before: String,
    pub got: String,
    pub after: String,
}

impl Shown {
    pub fn new(alloc: Global) -> Shown {
        Shown {
            before: String::new(alloc),
            got: String::new(alloc),
            after: String::new(alloc),
        }
    }
}

/// Notes the rows in files and the result of a talk over them, and hands them back.
pub fn shown_on<D: Disk + Drop>(
    rt: &(impl Abort + Eprint),
    alloc: Global,
    files: Files<D>,
    talk: &str,
    shown: &mut Shown,
) -> Files<D> {
    let mut conn = open(rt, alloc, files);
    shown.before = prepared(rt, rows_text(alloc, &mut conn));
    let (got, mut conn) = served(alloc, conn, talk);
    shown.got = prepared(rt, got);
    shown.after = prepared(rt, rows_text(alloc, &mut conn));
    closed(rt, conn)
}

/// An earlier store, its files, and what is asked of it.
#[derive(Drop)]
struct Case {
    earlier: Earlier,
    files: Files<Memory>,
    news: News,
    talk: String,
}

impl Case {
    fn new(rt: &impl Abort, alloc: Global, earlier: Earlier, left: Left, news: News) -> Case {
        let files = earlier_files(rt, alloc, earlier, left);
        let mut talk = String::new(alloc);
        add(rt, &mut talk, FIVE);
        add(rt, &mut talk, news.text());
        Case {
            earlier,
            files,
            news,
            talk,
        }
    }

    fn form_of(&self, rt: &impl Abort, alloc: Global, rows: &str) -> Option<Form> {
        Form::of(rt, alloc, self.earlier, self.news, rows)
    }
}

/// The result of a talk over files that stop, whether it came to its end, and what is found after a crash.
#[derive(Drop)]
struct Runs {
    first: String,
    is_whole: bool,
    shown: Shown,
}

/// The files of an earlier store, of which the log stops at one call and the other file at another.
fn fused(
    rt: &impl Abort,
    alloc: Global,
    files: &Files<Memory>,
    log: u64,
    db: u64,
) -> Files<Fuse<Memory>> {
    Files {
        log: Fuse::new(copied(rt, alloc, &files.log), log),
        db: Fuse::new(copied(rt, alloc, &files.db), db),
    }
}

/// The talk over these files; then again over what a crash leaves.
fn stopped(rt: &(impl Abort + Eprint), alloc: Global, case: &Case, log: u64, db: u64) -> Runs {
    let talk = case.talk.as_str();
    let files = fused(rt, alloc, &case.files, log, db);
    let (first, closed, mut files) = served_on(alloc, files, talk, few_pages(1));
    let first = prepared(rt, first);
    files.log.crash();
    files.db.crash();
    let mut shown = Shown::new(alloc);
    let _files = shown_on(rt, alloc, files, talk, &mut shown);
    let is_whole = closed && first.as_str() == talk;
    Runs {
        first,
        is_whole,
        shown,
    }
}

/// The only cause that is reported is a failed store, and the answers before are right.
fn first_is_right(rt: &impl Abort, case: &Case, first: &str) {
    let is_known = first.starts_with("> ") || first.is_empty() || first == "StoreFailed";
    assert_holds(rt, is_known, first);
    assert_holds(rt, is_front_of(first, case.talk.as_str()), first);
    assert_holds(rt, ends_by_failures(first), first);
}

/// The form that a stop left. A store that was opened is of version 2, and one that gave each reply has what was new; it is
/// opened again with the same answers, and then has it too.
fn form_left(rt: &impl Abort, alloc: Global, case: &Case, runs: &Runs) -> Form {
    let first = runs.first.as_str();
    first_is_right(rt, case, first);
    let shown = &runs.shown;
    assert_same(rt, shown.got.as_str(), case.talk.as_str(), "after a crash");
    let after = case.form_of(rt, alloc, shown.after.as_str());
    assert_holds(rt, after == Some(Form::Entered), shown.after.as_str());
    let form = case.form_of(rt, alloc, shown.before.as_str());
    let form = form.expect(rt, "a form between");
    let is_opened = first.starts_with("> ");
    assert_holds(rt, !is_opened || form >= Form::Migrated, first);
    let has_replied = first == case.talk.as_str();
    assert_holds(rt, !has_replied || form == Form::Entered, first);
    form
}

/// One file stops at each of its calls in turn, until a run comes to its end. Returns whether a stop left version
/// 2; the first one leaves the store unchanged.
fn stops_at_each_call(
    rt: &(impl Abort + Eprint),
    alloc: Global,
    case: &Case,
    on_log: bool,
) -> bool {
    let mut left_migrated = false;
    for k in 0..10_000 {
        let (log, db) = if on_log { (k, u64::MAX) } else { (u64::MAX, k) };
        let runs = stopped(rt, alloc, case, log, db);
        let form = form_left(rt, alloc, case, &runs);
        assert_holds(
            rt,
            k > 0 || form == Form::Earlier,
            "the first stop left another form",
        );
        if runs.is_whole {
            return left_migrated;
        }
        left_migrated |= form >= Form::Migrated;
    }
    panic!(rt; "each run was stopped")
}

/// An earlier store that was left so stops at each call of each file, while its five requests and what is new are sent.
fn stops(rt: &(impl Abort + Eprint), alloc: Global, earlier: Earlier, left: Left, news: News) {
    let case = Case::new(rt, alloc, earlier, left, news);
    let on_log = stops_at_each_call(rt, alloc, &case, true);
    let on_file = stops_at_each_call(rt, alloc, &case, false);
    assert_holds(rt, on_log || on_file, "no stop left version 2");
}

#[test]
fn a_store_of_seven_tables_stops(rt: HostRuntime) {
    stops(&rt, rt.alloc(), Earlier::Seven, Left::AtRest, News::Nothing);
}

#[test]
fn a_store_of_seven_tables_in_its_log_stops(rt: HostRuntime) {
    stops(&rt, rt.alloc(), Earlier::Seven, Left::InLog, News::Nothing);
}

#[test]
fn a_store_of_eight_tables_stops(rt: HostRuntime) {
    stops(
        &rt,
        rt.alloc(),
        Earlier::Extended,
        Left::AtRest,
        News::Nothing,
    );
}

#[test]
fn a_store_of_eight_tables_in_its_log_stops(rt: HostRuntime) {
    stops(
        &rt,
        rt.alloc(),
        Earlier::Extended,
        Left::InLog,
        News::Nothing,
    );
}

/// The five requests again, and then an extension is entered.
#[test]
fn a_store_stops_as_an_extension_is_entered(rt: HostRuntime) {
    stops(
        &rt,
        rt.alloc(),
        Earlier::Eight,
        Left::AtRest,
        News::Extension,
    );
}

/// The five requests again, and then a second desk uses one of their numbers.
#[test]
fn a_store_stops_as_a_second_desk_asks(rt: HostRuntime) {
    stops(&rt, rt.alloc(), Earlier::Seven, Left::AtRest, News::Desk);
}
