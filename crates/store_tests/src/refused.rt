//! Days with little memory, over any keeper: a request to which memory is refused isn't served, and changes nothing; it is
//! served when it comes again. `tests/faults/test_refused_memory.py` refuses each request for memory in turn.

use crate::answering::{has_rows, in_memory};
use crate::comparing::{assert_same, prepared};
use crate::days::{DAY, SHOWN};
use crate::five_requests::rows_text;
use crate::imports::FILES;
use crate::memory_and_tables::requests;
use crate::talk::{By, line_text, requests_of};
use ee_counter::run;
use ee_desk::ListKeeper;
use ee_desk_model::{Reply, Request, Unserved};
use ee_desk_texts::reply_text;
use ee_keeper::Keeper;
use ee_store::{NotAdopted, OpenFault, SqlKeeper};
use sqlite::{Connection, MemStore};
use std::alloc::Global;
use std::fmt::Write;
use std::io::Eprint;
use std::process::Abort;
use std::test::Fail;

/// How results begin if memory was refused: in an answer, as why a connection ended, to the writer of a connection or
/// of an export, of a file, and of an export.
const REFUSED: &str = r#"503 {"code":1,"unserved":"NoMemory"}
NoMemory
WriteFailed
Err(WriteFailed)
file: row 1 code 74
out of memory
Err(Unserved(NoMemory))
"#;

fn is_refused(got: &str) -> bool {
    for line in REFUSED.lines() {
        if got.starts_with(line) {
            return true;
        }
    }
    false
}

/// The transcript of doing the same, with each step repeated for which memory was refused.
fn replay_patiently<K: Keeper>(
    alloc: Global,
    keeper: &mut K,
    by: By,
    transcript: &str,
) -> Result<String, Fail> {
    let mut text = String::new(alloc);
    for line in transcript.lines() {
        let Some(mut got) = line_text(alloc, keeper, by, line)? else {
            continue;
        };
        if is_refused(got.as_str()) {
            got = line_text(alloc, keeper, by, line)?.ok_or("no answer")?;
        }
        write!(text, "{line}\n{got}\n")?;
    }
    Ok(text)
}

/// Runs a transcript in this way, and compares the results.
fn assert_replies<K: Keeper>(
    rt: &(impl Abort + Eprint),
    alloc: Global,
    keeper: &mut K,
    by: By,
    transcript: &str,
) {
    let got = prepared(rt, replay_patiently(alloc, keeper, by, transcript));
    assert_same(rt, got.as_str(), transcript, "with little memory");
}

/// A transcript, and each request of it and each import again.
fn assert_replies_again<K: Keeper>(
    rt: &(impl Abort + Eprint),
    alloc: Global,
    keeper: &mut K,
    by: By,
    transcript: &str,
) {
    assert_replies(rt, alloc, keeper, by, transcript);
    let again = prepared(rt, requests_of(alloc, transcript));
    assert_replies(rt, alloc, keeper, by, again.as_str());
}

/// A day or files by these calls, what the books show then, and all requests again.
#[derive(Clone, Copy)]
enum Work {
    Day(By),
    Files,
    List,
}

/// The work, each request of it again, and what the books show.
fn work_over<K: Keeper>(rt: &(impl Abort + Eprint), alloc: Global, keeper: &mut K, work: Work) {
    match work {
        Work::Day(by) => {
            assert_replies_again(rt, alloc, keeper, by, DAY);
            assert_replies(rt, alloc, keeper, by, SHOWN);
        }
        Work::Files => {
            let (files, _) = FILES
                .split_once("- 7 40\n")
                .expect(rt, "an export that is cut");
            assert_replies_again(rt, alloc, keeper, By::Calls, files);
        }
        Work::List => list_over(rt, alloc, keeper),
    }
}

/// The answers to a list, asked for again if memory was refused to the list as a whole.
fn answers_to<K: Keeper>(
    alloc: Global,
    keeper: &mut K,
    requests: &[Request],
) -> Result<Vec<Result<Reply, Unserved>>, Fail> {
    if let Ok(answers) = run(alloc, keeper, requests) {
        return Ok(answers);
    }
    Ok(run(alloc, keeper, requests)?)
}

/// The reply to a request, which is delivered again if memory was refused to it.
fn delivered<K: Keeper>(keeper: &mut K, request: &Request) -> Result<Reply, Fail> {
    if let Ok(reply) = keeper.deliver(request) {
        return Ok(reply);
    }
    Ok(keeper.deliver(request).ok().ok_or("refused once more")?)
}

/// The text of a reply.
fn text_of(alloc: Global, reply: &Reply) -> Result<String, Fail> {
    Ok(reply_text(alloc, reply)?)
}

/// Compares what a keeper answered with what another one answers.
fn is_answer_of(
    rt: &(impl Abort + Eprint),
    alloc: Global,
    other: &mut ListKeeper,
    request: &Request,
    reply: &Reply,
) {
    let wanted = prepared(rt, delivered(other, request));
    let wanted = prepared(rt, text_of(alloc, &wanted));
    let got = prepared(rt, text_of(alloc, reply));
    assert_same(rt, got.as_str(), wanted.as_str(), "the other keeper");
}

/// Each answer is that of another keeper to the requests that were served.
fn are_answers_of(
    rt: &(impl Abort + Eprint),
    alloc: Global,
    other: &mut ListKeeper,
    requests: &[Request],
    answers: &[Result<Reply, Unserved>],
) {
    for (request, answer) in requests.iter().zip(answers.iter()) {
        if let Ok(reply) = answer {
            is_answer_of(rt, alloc, other, request, reply);
        }
    }
}

/// The requests of a day as one list. Each answer is that of another keeper to the requests that were served; then all
/// are delivered again to both, which give the same answers.
fn list_over<K: Keeper>(rt: &(impl Abort + Eprint), alloc: Global, keeper: &mut K) {
    let requests = requests(rt, alloc, DAY);
    let mut other = ListKeeper::empty(alloc);
    let answers = prepared(rt, answers_to(alloc, keeper, requests.as_slice()));
    are_answers_of(
        rt,
        alloc,
        &mut other,
        requests.as_slice(),
        answers.as_slice(),
    );
    for request in requests.iter() {
        let reply = prepared(rt, delivered(keeper, request));
        is_answer_of(rt, alloc, &mut other, request, &reply);
    }
}

/// A keeper over the store of a connection; or its connection again, if memory was refused.
fn adopted_once(
    rt: &impl Abort,
    alloc: Global,
    conn: Connection<MemStore>,
) -> Result<SqlKeeper<MemStore>, Connection<MemStore>> {
    match SqlKeeper::adopt(conn, alloc) {
        Ok(keeper) => Ok(keeper),
        Err(
            NotAdopted {
                fault: OpenFault::NoMemory,
                conn,
            },
        ) => Err(conn),
        Err(NotAdopted { .. }) => panic!(rt; "refused"),
    }
}

/// A keeper over the store of a connection, which is adopted again if memory was refused.
fn adopted(rt: &impl Abort, alloc: Global, conn: Connection<MemStore>) -> SqlKeeper<MemStore> {
    match adopted_once(rt, alloc, conn) {
        Ok(keeper) => keeper,
        Err(conn) => match adopted_once(rt, alloc, conn) {
            Ok(keeper) => keeper,
            Err(_) => panic!(rt; "refused once more"),
        },
    }
}

/// The work over tables, whose store has the same rows after it is taken over again.
fn work_over_tables(rt: &(impl Abort + Eprint), alloc: Global, work: Work) {
    let mut keeper = adopted(rt, alloc, in_memory(rt, alloc));
    work_over(rt, alloc, &mut keeper, work);
    let mut conn = keeper.close();
    let before = prepared(rt, rows_text(alloc, &mut conn));
    let mut conn = adopted(rt, alloc, conn).close();
    has_rows(rt, alloc, &mut conn, before.as_str(), "again");
}

fn work_over_list(rt: &(impl Abort + Eprint), alloc: Global, work: Work) {
    work_over(rt, alloc, &mut ListKeeper::empty(alloc), work);
}

#[test]
fn refused_memory_in_a_day_over_a_list(rt: HostRuntime) {
    work_over_list(&rt, rt.alloc(), Work::Day(By::Calls));
}

#[test]
fn refused_memory_in_a_stream_over_a_list(rt: HostRuntime) {
    work_over_list(&rt, rt.alloc(), Work::Day(By::Serve));
}

#[test]
fn refused_memory_in_files_over_a_list(rt: HostRuntime) {
    work_over_list(&rt, rt.alloc(), Work::Files);
}

#[test]
fn refused_memory_in_one_list_over_a_list(rt: HostRuntime) {
    work_over_list(&rt, rt.alloc(), Work::List);
}

#[test]
fn refused_memory_in_a_day_over_tables(rt: HostRuntime) {
    work_over_tables(&rt, rt.alloc(), Work::Day(By::Calls));
}

#[test]
fn refused_memory_in_a_stream_over_tables(rt: HostRuntime) {
    work_over_tables(&rt, rt.alloc(), Work::Day(By::Serve));
}

#[test]
fn refused_memory_in_files_over_tables(rt: HostRuntime) {
    work_over_tables(&rt, rt.alloc(), Work::Files);
}

#[test]
fn refused_memory_in_one_list_over_tables(rt: HostRuntime) {
    work_over_tables(&rt, rt.alloc(), Work::List);
}
