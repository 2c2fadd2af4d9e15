//! The calls of the library. Each checks its numbers in this order: the denomination in dollars, the issue
//! month and the value month as numbers YYYYMM, and the fixed rate and the rate of extended maturity in
//! hundredths of a percent.

ghost use Rattle.std.specs.Prelude.{◌≡◌, ◌++◌, length, map, take, drop, min};
ghost use Rattle.ee_value_c.specs.Questions.{numbers};
ghost use Rattle.ee_value_c.specs.Answers.{row_at, row_or_refused, answer_to, payment_at, cents_or_refused};
ghost use Rattle.ee_value_c.specs.Statuses.{status_text, text_into};

use crate::answers::{ValueRow, refused_row};
use crate::questions::ValueQuestion;
use crate::texts::{put_text, status_text};
use crate::values::{payment_at, row_at};

/// What the bond pays in a month, in cents; or the negated status of a refusal.
#[unsafe(no_mangle)]
pub extern "C" fn ee_value_cents(
    dollars: u32,
    issued: u32,
    month: u32,
    rate: u32,
    extension: u32,
) -> i64
    ensures { result ≡ cents_or_refused (payment_at (numbers dollars issued month rate extension)) }
{
    match payment_at(ValueQuestion {
        dollars,
        issued,
        month,
        rate,
        extension,
    }) {
        Ok(cents) => cents as i64,
        Err(refusal) => -i64::from(refusal.status()),
    }
}

/// The row of a bond in a month.
#[unsafe(no_mangle)]
pub extern "C" fn ee_value_row(
    dollars: u32,
    issued: u32,
    month: u32,
    rate: u32,
    extension: u32,
) -> ValueRow
    ensures { result ≡ row_or_refused (row_at (numbers dollars issued month rate extension)) }
{
    answer(ValueQuestion {
        dollars,
        issued,
        month,
        rate,
        extension,
    })
}

/// Writes the same row to the caller's memory, and returns its status.
#[unsafe(no_mangle)]
pub extern "C" fn ee_value_row_into(
    dollars: u32,
    issued: u32,
    month: u32,
    rate: u32,
    extension: u32,
    row: &mut ValueRow,
) -> u32
    ensures row { row.new ≡ row_or_refused (row_at (numbers dollars issued month rate extension)) }
    ensures status { result ≡ row.new.status }
{
    *row = ee_value_row(dollars, issued, month, rate, extension);
    row.status
}

/// Answers a list of questions in order, as many as there are places for the rows. Returns the number of rows
/// written.
#[unsafe(no_mangle)]
pub extern "C" fn ee_value_rows(questions: &[ValueQuestion], rows: &mut [ValueRow]) -> usize
    ensures rows { rows.new
        ≡ take (length rows.old) (map answer_to questions.now) ++ drop (length questions.now) rows.old }
    ensures count { result ≡ min (length questions.now) (length rows.old) }
{
    let count = questions.len().min(rows.len());
    for k in 0..count {
        rows[k] = answer(questions[k]);
    }
    count
}

/// The answer to a question.
fn answer(question: ValueQuestion) -> ValueRow
    ensures { result ≡ answer_to question }
{
    match row_at(question) {
        Ok(row) => row,
        Err(refusal) => refused_row(refusal),
    }
}

/// Writes as much of a status's text as fits into a buffer, followed by a byte 0. Returns the length of the
/// whole text.
#[unsafe(no_mangle)]
pub extern "C" fn ee_value_status_text(status: u32, buffer: &mut [u8]) -> usize
    ensures text { buffer.new ≡ text_into (status_text status) buffer.old }
    ensures whole { result ≡ length (status_text status) }
{
    let text = status_text(status);
    put_text(text, buffer);
    text.len()
}

/// The version of this library: 10000 times the major, 100 times the minor, plus the patch number.
#[unsafe(no_mangle)]
pub extern "C" fn ee_value_version() -> u32
    ensures { result ≡ 10000 }
{
    10000
}
