//! Files of stores, and the logs beside them, that the program made before the store had its present tables: they are opened
//! with the answers that it gave.

use crate::comparing::{assert_holds, assert_same};
use crate::five_requests::FIVE;
use crate::stops::has_pages_of;
use crate::version_1::{Earlier, NAMED, OTHER, SHOWN};
use crate::version_1_bytes::{EXTENDED, EXTENDED_LOG, SEVEN, SEVEN_LOG};
use crate::version_1_stops::{Form, News, Shown, shown_on};
use sqlite::Files;
use sqlite_disk::{Disk, Memory};
use std::alloc::Global;
use std::io::Eprint;
use std::process::Abort;

fn add_numbers(rt: &impl Abort, bytes: &mut Vec<u8>, numbers: &str) {
    for number in numbers.split_ascii_whitespace() {
        let byte = u8::from_str_radix(number, 16).expect(rt, number);
        bytes.push(byte).expect(rt, "memory for a file");
    }
}

fn add_characters(rt: &impl Abort, bytes: &mut Vec<u8>, characters: &str) {
    bytes
        .extend_from_slice(characters.as_bytes())
        .expect(rt, "memory for a file");
}

/// The bytes that numbers and characters in turn describe.
fn bytes_text(rt: &impl Abort, alloc: Global, parts: &str) -> Vec<u8> {
    let mut bytes = Vec::new(alloc);
    let mut are_numbers = true;
    for part in parts.split("~") {
        if are_numbers {
            add_numbers(rt, &mut bytes, part);
        } else {
            add_characters(rt, &mut bytes, part);
        }
        are_numbers = !are_numbers;
    }
    bytes
}

/// A number of bytes of a file, from an offset.
fn bytes_before(rt: &impl Abort, alloc: Global, file: &Memory, places: &str) -> Vec<u8> {
    let (from, count) = places.split_once(' ').expect(rt, "count");
    let from: usize = from.parse().expect(rt, from);
    let count: usize = count.parse().expect(rt, count);
    let mut bytes = Vec::new(alloc);
    for byte in file.bytes().iter().skip(from).take(count) {
        bytes.push(*byte).expect(rt, "memory for a file");
    }
    bytes
}

/// The bytes of a line.
fn bytes_of(rt: &impl Abort, alloc: Global, file: &Memory, got: &str) -> Vec<u8> {
    if let Some(places) = got.strip_prefix("= ") {
        return bytes_before(rt, alloc, file, places);
    }
    bytes_text(rt, alloc, got.strip_prefix("~").expect(rt, "bytes"))
}

/// Writes the bytes of a line.
fn write_line(rt: &impl Abort, alloc: Global, file: &mut Memory, line: &str) {
    let (place, got) = line.split_once(' ').expect(rt, "place");
    let bytes = bytes_of(rt, alloc, file, got);
    if !file.may_be_used() {
        panic!(rt; "the file may not be used");
    }
    let place = place.parse().expect(rt, place);
    file.write_at(place, &bytes).expect(rt, line);
}

/// The file of a text: its length, and then its bytes line by line.
fn file_of(rt: &impl Abort, alloc: Global, text: &str) -> Memory {
    let (length, lines) = text.split_once('\n').expect(rt, "length");
    let length = length.parse().expect(rt, length);
    let mut file = Memory::new(alloc);
    file.set_len(length).expect(rt, "a file of that length");
    for line in lines.lines() {
        write_line(rt, alloc, &mut file, line);
    }
    if !file.may_be_used() {
        panic!(rt; "the file may not be used");
    }
    file.sync().expect(rt, "a file that is synced");
    file
}

/// A talk over files of an earlier store, what it brings, and the forms that they have before and after it.
#[derive(Clone, Copy)]
struct Step {
    earlier: Earlier,
    news: News,
    talk: &'static str,
    before: Form,
    after: Form,
}

/// The result of a talk over the files is the talk, and it migrates them from one form to another.
fn is_shown(rt: &impl Abort, alloc: Global, shown: &Shown, step: Step) {
    assert_same(rt, shown.got.as_str(), step.talk, "a talk");
    let before = Form::of(rt, alloc, step.earlier, step.news, shown.before.as_str());
    assert_holds(rt, before == Some(step.before), shown.before.as_str());
    let after = Form::of(rt, alloc, step.earlier, step.news, shown.after.as_str());
    assert_holds(rt, after == Some(step.after), shown.after.as_str());
}

fn goes_on(
    rt: &(impl Abort + Eprint),
    alloc: Global,
    files: Files<Memory>,
    step: Step,
) -> Files<Memory> {
    let mut shown = Shown::new(alloc);
    let files = shown_on(rt, alloc, files, step.talk, &mut shown);
    is_shown(rt, alloc, &shown, step);
    files
}

/// The files of these texts go through the steps, and keep their page size.
fn is_opened(rt: &(impl Abort + Eprint), alloc: Global, texts: (&str, &str), steps: &[Step]) {
    let log = file_of(rt, alloc, texts.0);
    let db = file_of(rt, alloc, texts.1);
    let mut files = Files { log, db };
    for step in steps {
        files = goes_on(rt, alloc, files, *step);
    }
    assert_holds(rt, has_pages_of(&files.db, 4096), "the pages of before");
}

/// In a file from before extensions each number has its first reply, and the rows are those of the five requests;
/// an extension is entered, and is there when the files are opened again.
#[test]
fn a_file_from_before_extensions_is_opened(rt: HostRuntime) {
    let first = Step {
        earlier: Earlier::Seven,
        news: News::Extension,
        talk: FIVE,
        before: Form::Earlier,
        after: Form::Migrated,
    };
    let second = Step {
        talk: NAMED,
        before: Form::Migrated,
        after: Form::Entered,
        ..first
    };
    let third = Step {
        talk: SHOWN,
        before: Form::Entered,
        ..second
    };
    is_opened(&rt, rt.alloc(), (SEVEN_LOG, SEVEN), &[first, second, third]);
}

/// So it is with a file from before desks, in which an extension is, and a second desk uses one of its numbers.
#[test]
fn a_file_from_before_desks_is_opened(rt: HostRuntime) {
    let first = Step {
        earlier: Earlier::Extended,
        news: News::Desk,
        talk: FIVE,
        before: Form::Earlier,
        after: Form::Migrated,
    };
    let second = Step {
        talk: SHOWN,
        before: Form::Migrated,
        ..first
    };
    let third = Step {
        talk: OTHER,
        after: Form::Entered,
        ..second
    };
    let fourth = Step {
        talk: FIVE,
        before: Form::Entered,
        ..third
    };
    let steps = [first, second, third, fourth];
    is_opened(&rt, rt.alloc(), (EXTENDED_LOG, EXTENDED), &steps);
}
