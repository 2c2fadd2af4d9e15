//! Running a transcript, and comparing the results. A test that finds something else, or whose preparation fails,
//! ends here.

use crate::talk::{By, replay_by, whole};
use ee_keeper::Keeper;
use std::alloc::Global;
use std::io::Eprint;
use std::process::{Abort, Termination};
use std::test::Fail;

/// What was made without fault. A fault is printed, and ends the test.
pub fn prepared<T>(rt: &(impl Abort + Eprint), made: Result<T, Fail>) -> T {
    match made {
        Ok(made) => made,
        Err(fail) => {
            let _code = Err::<(), Fail>(fail).report(rt);
            rt.abort()
        }
    }
}

/// Compares a text with the wanted one; `case` says what was done.
pub fn assert_same(rt: &impl Abort, got: &str, wanted: &str, case: &str) {
    assert!(rt; got == wanted, "{case}: {got} and not {wanted}");
}

/// Something holds; `case` says what, or what the result was.
pub fn assert_holds(rt: &impl Abort, is_so: bool, case: &str) {
    assert!(rt; is_so, "{case}");
}

/// Adds a part to a text.
pub fn add(rt: &impl Abort, text: &mut String, part: &str) {
    text.push_str(part).expect(rt, "memory for a text");
}

/// The two parts of a row, `PART => PART`.
pub fn parts<'a>(rt: &impl Abort, row: &'a str) -> (&'a str, &'a str) {
    row.split_once(" => ").expect(rt, row)
}

/// Runs a transcript, and compares the results.
pub fn compare<K: Keeper>(
    rt: &(impl Abort + Eprint),
    alloc: Global,
    keeper: &mut K,
    transcript: &str,
) {
    compare_by(rt, alloc, keeper, By::Apply, transcript);
}

/// The same, with its messages sent by these calls.
pub fn compare_by<K: Keeper>(
    rt: &(impl Abort + Eprint),
    alloc: Global,
    keeper: &mut K,
    by: By,
    transcript: &str,
) {
    let wanted = prepared(rt, whole(alloc, transcript));
    let got = prepared(rt, replay_by(alloc, keeper, by, wanted.as_str()));
    same_lines(rt, got.as_str(), wanted.as_str());
}

/// Compares two transcripts line by line, and then as wholes.
fn same_lines(rt: &impl Abort, got: &str, wanted: &str) {
    for (line, right) in got.lines().zip(wanted.lines()) {
        assert_same(rt, line, right, "a line");
    }
    assert_same(rt, got, wanted, "the whole");
}
