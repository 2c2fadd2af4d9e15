//! Tables of cases, and comparing texts.

use std::alloc::Global;
use std::fmt::Debug;
use std::process::Abort;
use std::test::Fail;

/// Something that answers each case of a table by a text. An impl costs a small part of the proof of a loop of its own.
pub trait Cases {
    /// The answer to a case; `None` if it is no case, or memory was refused.
    fn answer(alloc: Global, case: &str) -> Option<String>;
}

/// Compares the answers to the cases of a table, rows `CASE => ANSWER`, with those in the table.
pub fn compare<T: Cases>(rt: &impl Abort, alloc: Global, table: &str) -> Result<(), Fail> {
    for row in table.lines() {
        let (case, wanted) = row.split_once(" => ").ok_or("row")?;
        let got = T::answer(alloc, case).ok_or("no answer")?;
        assert_same(rt, got.as_str(), wanted, case);
    }
    Ok(())
}

/// The same with each allocation refused in turn: a case may then answer `refused`, and a line is printed.
pub fn compare_refused<T: Cases>(
    rt: &impl Abort,
    out: &HostRuntime,
    table: &str,
    refused: &str,
) -> Result<(), Fail> {
    for row in table.lines() {
        let (case, wanted) = row.split_once(" => ").ok_or("row")?;
        let got = T::answer(out.alloc(), case).ok_or("no answer")?;
        if got.as_str() == refused {
            println!(out; "refused: {case}")?;
        } else {
            assert_same(rt, got.as_str(), wanted, case);
        }
    }
    Ok(())
}

/// Something that is written to a device.
pub trait Written {
    /// How writing it to a device with this much room ends, and what the device has.
    fn text_in(&self, alloc: Global, room: usize) -> Option<String>;
}

/// The result if a device had this much room for a text.
fn front_text(alloc: Global, whole: &str, room: usize) -> Option<String> {
    if room >= whole.len() {
        return format!(in alloc; "Ok(()) {whole}").ok();
    }
    let front = whole.get(..room)?;
    format!(in alloc; "Err(WriteFailed) {front}").ok()
}

/// Compares what devices of each size have with the fronts of the whole text, up to all of it.
pub fn compare_fronts<T: Written>(
    rt: &impl Abort,
    alloc: Global,
    written: &T,
    whole: &str,
) -> Result<(), Fail> {
    for room in 0..=whole.len() {
        let got = written.text_in(alloc, room).ok_or("no text")?;
        let wanted = front_text(alloc, whole, room).ok_or("no front")?;
        assert_same(rt, got.as_str(), wanted.as_str(), "a front");
    }
    Ok(())
}

/// Compares a text with the wanted one; `case` names its row.
pub fn assert_same(rt: &impl Abort, got: &str, wanted: &str, case: &str) {
    assert!(rt; got == wanted, "{case}: {got} and not {wanted}");
}

/// How a call ended, and the text of what it wrote.
pub fn ended<E: Debug>(alloc: Global, end: &Result<(), E>, bytes: &[u8]) -> Option<String> {
    let text = str::from_utf8(bytes).ok()?;
    format!(in alloc; "{end:?} {text}").ok()
}

/// A value as `Debug` shows it.
pub fn shown<T: Debug>(alloc: Global, value: &T) -> Option<String> {
    format!(in alloc; "{value:?}").ok()
}

/// The text, followed by the other one if they differ.
pub fn alike(alloc: Global, text: String, other: &str) -> Option<String> {
    if text.as_str() == other {
        return Some(text);
    }
    format!(in alloc; "{text}, but also {other}").ok()
}

/// The bytes of a text in which `|` means a line feed, `^` a carriage return and `~` the byte FF.
pub fn bytes_of(alloc: Global, text: &str) -> Option<Vec<u8>> {
    let mut bytes = Vec::new(alloc);
    for byte in text.as_bytes() {
        bytes
            .push(match byte {
                b'|' => b'\n',
                b'^' => b'\r',
                b'~' => 0xff,
                _ => *byte,
            })
            .ok()?;
    }
    Some(bytes)
}

/// A text in which `^` means a carriage return and `|` a line feed.
pub fn marked(alloc: Global, text: &str) -> Option<String> {
    let mut marked = String::new(alloc);
    for letter in text.chars() {
        marked
            .push(match letter {
                '\r' => '^',
                '\n' => '|',
                _ => letter,
            })
            .ok()?;
    }
    Some(marked)
}

/// Adds an item; None for want of memory.
pub fn add<T: Drop>(items: &mut Vec<T>, item: T) -> Option<()> {
    items.push(item).ok()
}

/// Appends a text `times` times.
pub fn add_times(text: &mut String, part: &str, times: usize) -> Option<()> {
    for _ in 0..times {
        text.push_str(part).ok()?;
    }
    Some(())
}
