//! Books as lists, written in words: rows `rate MONTH RATE`, `bond SERIAL DENOM ISSUED OWNER COOWNER`,
//! `ticket NUMBER DAY PAYEE CENTS SERIAL=CENTS ..`, `batch DAY TICKETS BONDS CENTS`, `day DAY` and
//! `last DAY`, each ended by a semicolon; `-` means a missing value.

use crate::comparing::{Cases, add, compare};
use ee_calculator::Bond;
use ee_desk::{Books, Parts};
use ee_desk_model::{Batch, Line, RateRow, Rows, Ticket};
use ee_units::{Cents, Day};
use ee_value::Rates;
use std::alloc::Global;
use std::fmt::Write;
use std::test::Fail;

/// Three bonds on one ticket, and the day is closed.
const WORKED: &str =
    "rate 2010-05 2.00%; rate 2010-11 3.50%; bond K2EE 75 2010-10 7 8; bond L1EE 50 2010-11 7 -; bond M3EE 10000 2011-02 7 -; ticket 1 2012-02-06 7 519622 L1EE=2588 K2EE=3834 M3EE=513200; batch 2012-02-06 1 3 519622; day -; last 2012-02-06;";

/// Changes of these books, and why the changed ones are refused: first those that leave them sound; then of rates, of bonds,
/// of the ticket, of the batch, of the days.
const CHANGES: &str = "\
day - -> day 2012-02-07 => None
batch -> batch 2012-02-05 0 0 0; batch => None
batch 2012-02-06 1 3 519622; -> | day - -> day 2012-02-06 | last 2012-02-06 -> last - => None
ticket 1 2012-02-06 7 519622 L1EE=2588 K2EE=3834 M3EE=513200; -> | 1 3 519622 -> 0 0 0 => None
rate 2010-05 2.00%; -> rate 2010-05 2.00%; rate 2010-05 2.00%; => Some(Unsound)
rate 2010-05 2.00%; -> | rate 2010-11 3.50%; -> rate 2010-11 3.50%; rate 2010-05 2.00%; => Some(Unsound)
rate 2010-05 2.00%; -> rate 2010-05 2.00%; rate 2010-06 2.00%; => Some(Unsound)
bond K2EE 75 2010-10 7 8; -> | bond M3EE -> bond K2EE 75 2010-10 7 8; bond M3EE => Some(Unsound)
bond M3EE -> bond L1EE 50 2010-11 7 -; bond M3EE => Some(Unsound)
bond M3EE -> bond L2EE 100 2009-10 9 -; bond M3EE => Some(Unsound)
bond M3EE -> bond L2EE 100 2010-11 9 9; bond M3EE => Some(Unsound)
ticket 1 -> ticket 2 => Some(Unsound)
519622 L1EE=2588 K2EE=3834 M3EE=513200 -> 0 | 3 519622 -> 0 0 => Some(Unsound)
7 519622 L1EE -> 7 519623 L1EE | 3 519622 -> 3 519623 => Some(Unsound)
7 519622 L1EE=2588 -> 7 519623 L1EE=2589 | 3 519622 -> 3 519623 => Some(Unsound)
7 519622 L1EE=2588 -> 7 519621 L1EE=2587 | 3 519622 -> 3 519621 => Some(Unsound)
06 7 519622 -> 06 8 519622 => Some(Unsound)
bond M3EE 10000 2011-02 7 -; -> => Some(Unsound)
bond M3EE 10000 2011-02 7 -; -> bond M3EE 50 2011-03 7 -; | 7 519622 -> 7 8922 | 513200 -> 2500 | 519622 -> 8922 => Some(Unsound)
M3EE=513200 -> L1EE=2588 | 7 519622 -> 7 9010 | 519622 -> 9010 => Some(Unsound)
batch -> ticket 2 2012-02-06 7 2588 L1EE=2588; batch | 1 3 519622 -> 2 4 522210 => Some(Unsound)
ticket 1 2012-02-06 7 519622 L1EE=2588 K2EE=3834 M3EE=513200; batch 2012-02-06 1 3 519622; -> ticket 1 2012-02-07 7 2588 L1EE=2588; ticket 2 2012-02-06 7 3834 K2EE=3834; batch 2012-02-06 1 1 3834; batch 2012-02-07 1 1 2588; | last 2012-02-06 -> last 2012-02-07 => Some(Unsound)
batch 2012-02-06 1 3 519622; -> | last 2012-02-06 -> last - => Some(Unsound)
batch 2012-02-06 -> batch 2012-02-05 | last 2012-02-06 -> last 2012-02-05 => Some(Unsound)
1 3 519622 -> 2 3 519622 => Some(Unsound)
1 3 519622 -> 1 4 519622 => Some(Unsound)
3 519622 -> 3 519621 => Some(Unsound)
day - -> batch 2012-02-05 0 0 0; day - | last 2012-02-06 -> last 2012-02-05 => Some(Unsound)
day - -> batch 2012-02-06 1 3 519622; day - => Some(Unsound)
last 2012-02-06 -> last 2012-02-07 => Some(Unsound)
last 2012-02-06 -> last - => Some(Unsound)
day - -> day 2012-02-06 => Some(Unsound)
";

/// The worked books with changes `OLD -> NEW | OLD -> NEW ..`, each made at the first occurrence of the old text.
fn changed(alloc: Global, changes: &str) -> Option<String> {
    let mut text = String::from_str(alloc, WORKED).ok()?;
    for change in changes.split('|') {
        let (old, new) = change.split_once("->")?;
        let (front, back) = text.as_str().split_once(old.trim())?;
        text = format!(in alloc; "{front}{}{back}", new.trim()).ok()?;
    }
    Some(text)
}

/// A row of the books in words.
trait Worded: Sized + Drop {
    /// The word that its rows begin with.
    fn kind() -> &'static str;

    /// The row of the words after that.
    fn read(alloc: Global, words: &[&str]) -> Option<Self>;

    /// Adds these words.
    fn add_words(&self, text: &mut String) -> Option<()>;
}

impl Worded for RateRow {
    fn kind() -> &'static str {
        "rate"
    }

    fn read(_alloc: Global, words: &[&str]) -> Option<RateRow> {
        let [from, fixed] = *words else {
            return None;
        };
        let fixed = fixed.parse().ok()?;
        Some(RateRow {
            from: from.parse().ok()?,
            rates: Rates::new(fixed, None),
        })
    }

    fn add_words(&self, text: &mut String) -> Option<()> {
        write!(text, " {} {}", self.from, self.rates.fixed).ok()
    }
}

impl Worded for Bond {
    fn kind() -> &'static str {
        "bond"
    }

    fn read(_alloc: Global, words: &[&str]) -> Option<Bond> {
        let [serial, denom, issued, owner, coowner] = *words else {
            return None;
        };
        Some(Bond {
            serial: serial.parse().ok()?,
            denom: denom.parse().ok()?,
            issued: issued.parse().ok()?,
            owner: owner.parse().ok()?,
            coowner: coowner.parse().ok(),
        })
    }

    fn add_words(&self, text: &mut String) -> Option<()> {
        let (serial, denom, issued) = (self.serial, self.denom, self.issued);
        write!(text, " {serial} {denom} {issued} {}", self.owner).ok()?;
        match self.coowner {
            Some(coowner) => write!(text, " {coowner}").ok(),
            None => text.push_str(" -").ok(),
        }
    }
}

fn line(word: &str) -> Option<Line> {
    let (serial, cents) = word.split_once('=')?;
    Some(Line {
        serial: serial.parse().ok()?,
        cents: Cents(cents.parse().ok()?),
    })
}

fn lines(alloc: Global, words: &[&str]) -> Option<Rows<Line>> {
    let mut lines = Vec::new(alloc);
    for word in words {
        add(&mut lines, line(word)?)?;
    }
    Some(Rows::new(lines))
}

impl Worded for Ticket {
    fn kind() -> &'static str {
        "ticket"
    }

    fn read(alloc: Global, words: &[&str]) -> Option<Ticket> {
        let [ticket, day, payee, total, ref paid @ ..] = *words else {
            return None;
        };
        Some(Ticket {
            ticket: ticket.parse().ok()?,
            day: day.parse().ok()?,
            payee: payee.parse().ok()?,
            total: Cents(total.parse().ok()?),
            lines: lines(alloc, paid)?,
        })
    }

    fn add_words(&self, text: &mut String) -> Option<()> {
        let (number, day, payee) = (self.ticket, self.day, self.payee);
        write!(text, " {number} {day} {payee} {}", self.total.0).ok()?;
        for line in self.lines.as_slice() {
            write!(text, " {}={}", line.serial, line.cents.0).ok()?;
        }
        Some(())
    }
}

impl Worded for Batch {
    fn kind() -> &'static str {
        "batch"
    }

    fn read(_alloc: Global, words: &[&str]) -> Option<Batch> {
        let [day, tickets, bonds, total] = *words else {
            return None;
        };
        Some(Batch {
            day: day.parse().ok()?,
            tickets: tickets.parse().ok()?,
            bonds: bonds.parse().ok()?,
            total: Cents(total.parse().ok()?),
        })
    }

    fn add_words(&self, text: &mut String) -> Option<()> {
        let (day, tickets, bonds) = (self.day, self.tickets, self.bonds);
        write!(text, " {day} {tickets} {bonds} {}", self.total.0).ok()
    }
}

/// The row of a text between two semicolons, if it is of this kind.
fn row_of<T: Worded>(alloc: Global, row: &str) -> Option<Option<T>> {
    let (kind, rest) = row.trim().split_once(' ')?;
    if kind != T::kind() {
        return Some(None);
    }
    let words: Vec<&str> = rest.split_whitespace().collect(alloc).ok()?;
    T::read(alloc, words.as_slice()).map(Some)
}

fn rows_of<T: Worded>(alloc: Global, text: &str) -> Option<Rows<T>> {
    let mut rows = Vec::new(alloc);
    for row in text.split_terminator(';') {
        if let Some(row) = row_of(alloc, row)? {
            add(&mut rows, row)?;
        }
    }
    Some(Rows::new(rows))
}

/// The day of a kind of row; `None` if it is missing or `-`.
fn day_of(text: &str, kind: &str) -> Option<Day> {
    for row in text.split_terminator(';') {
        let (name, day) = row.trim().split_once(' ')?;
        if name == kind {
            return day.parse().ok();
        }
    }
    None
}

fn read(alloc: Global, text: &str) -> Option<Parts> {
    Some(Parts {
        rates: rows_of(alloc, text)?,
        bonds: rows_of(alloc, text)?,
        day: day_of(text, "day"),
        last_day: day_of(text, "last"),
        tickets: rows_of(alloc, text)?,
        batches: rows_of(alloc, text)?,
    })
}

fn add_rows<T: Worded>(text: &mut String, rows: &[T]) -> Option<()> {
    for row in rows {
        text.push_str(T::kind()).ok()?;
        row.add_words(text)?;
        text.push_str("; ").ok()?;
    }
    Some(())
}

fn add_day(text: &mut String, kind: &str, day: Option<Day>) -> Option<()> {
    match day {
        Some(day) => write!(text, "{kind} {day};").ok(),
        None => write!(text, "{kind} -;").ok(),
    }
}

/// The parts in words.
pub fn written(alloc: Global, parts: &Parts) -> Option<String> {
    let mut text = String::new(alloc);
    add_rows(&mut text, parts.rates.as_slice())?;
    add_rows(&mut text, parts.bonds.as_slice())?;
    add_rows(&mut text, parts.tickets.as_slice())?;
    add_rows(&mut text, parts.batches.as_slice())?;
    add_day(&mut text, "day", parts.day)?;
    text.push_str(" ").ok()?;
    add_day(&mut text, "last", parts.last_day)?;
    Some(text)
}

/// Why the changed books are refused.
struct ChangeCases;

impl Cases for ChangeCases {
    fn answer(alloc: Global, case: &str) -> Option<String> {
        let text = changed(alloc, case)?;
        let fault = Books::from_parts(alloc, read(alloc, text.as_str())?).err();
        format!(in alloc; "{fault:?}").ok()
    }
}

#[test]
fn parts_are_sound_or_not(rt: HostRuntime) -> Result<(), Fail> {
    compare::<ChangeCases>(&rt, rt.alloc(), CHANGES)
}
