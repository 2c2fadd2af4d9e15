//! Spellings, good and bad, for every reader, and printed texts. The expected values come from the rules for
//! spellings, not from this crate. Values are written as `Debug` prints them.

use crate::comparing::{Cases, alike, compare, shown};
use ee_desk_model::read_desk;
use ee_units::*;
use std::alloc::Global;
use std::fmt::{Debug, Display};
use std::str::FromStr;
use std::test::Fail;

/// What a reader reads from a text, and what parsing gives if that differs.
fn read_alike<T: FromStr<Err = UnitFault> + Debug + Drop>(
    alloc: Global,
    text: &str,
    read: Result<T, UnitFault>,
) -> Option<String> {
    let parsed = shown(alloc, &text.parse::<T>())?;
    alike(alloc, shown(alloc, &read)?, parsed.as_str())
}

/// Spellings of rates, and what is read.
const RATES: &str = "\
rate 3.5 => Ok(Rate { hundredths: 350 })
rate 3.50% => Ok(Rate { hundredths: 350 })
rate 3.05 => Ok(Rate { hundredths: 305 })
rate 03.50 => Ok(Rate { hundredths: 350 })
rate 20 => Ok(Rate { hundredths: 2000 })
rate 20.00% => Ok(Rate { hundredths: 2000 })
rate 0 => Ok(Rate { hundredths: 0 })
rate 0.00 => Ok(Rate { hundredths: 0 })
rate 20.01 => Err(BadRate)
rate 100 => Err(BadRate)
rate 3. => Err(BadRate)
rate .5 => Err(BadRate)
rate 3.505 => Err(BadRate)
rate +3 => Err(BadRate)
rate -3 => Err(BadRate)
rate 3,5 => Err(BadRate)
rate 3%% => Err(BadRate)
rate % => Err(BadRate)
rate  3 => Err(BadRate)
rate  => Err(BadRate)
rate 3.5é => Err(BadRate)
";

/// Spellings of months, what is read as a month, and what as an issue month.
const MONTHS: &str = "\
month 2010-05 => Ok(Month { count: 60 }) and Ok(IssueMonth { count: 60 })
month 05/2010 => Ok(Month { count: 60 }) and Ok(IssueMonth { count: 60 })
month 2005-05 => Ok(Month { count: 0 }) and Ok(IssueMonth { count: 0 })
month 2099-12 => Ok(Month { count: 1135 }) and Ok(IssueMonth { count: 1135 })
month 2100-01 => Ok(Month { count: 1136 }) and Err(BadMonth)
month 2199-12 => Ok(Month { count: 2335 }) and Err(BadMonth)
month 12/2199 => Ok(Month { count: 2335 }) and Err(BadMonth)
month 2005-04 => Err(BadMonth) and Err(BadMonth)
month 2200-01 => Err(BadMonth) and Err(BadMonth)
month 2010-13 => Err(BadMonth) and Err(BadMonth)
month 2010-00 => Err(BadMonth) and Err(BadMonth)
month 2010-5 => Err(BadMonth) and Err(BadMonth)
month 5/2010 => Err(BadMonth) and Err(BadMonth)
month 2010/05 => Err(BadMonth) and Err(BadMonth)
month 05-2010 => Err(BadMonth) and Err(BadMonth)
month 2010-05-01 => Err(BadMonth) and Err(BadMonth)
month 201005 => Err(BadMonth) and Err(BadMonth)
month +010-05 => Err(BadMonth) and Err(BadMonth)
month  => Err(BadMonth) and Err(BadMonth)
month 2010-0é => Err(BadMonth) and Err(BadMonth)
";

/// Spellings of days, and what is read.
const DAYS: &str = "\
day 2005-05-01 => Ok(Day { count: 12904 })
day 2012-02-29 => Ok(Day { count: 15399 })
day 2012-03-01 => Ok(Day { count: 15400 })
day 2199-12-31 => Ok(Day { count: 84005 })
day 2011-02-29 => Err(BadDay)
day 2100-02-29 => Err(BadDay)
day 2005-04-30 => Err(BadDay)
day 2200-01-01 => Err(BadDay)
day 2012-02-00 => Err(BadDay)
day 2012-04-31 => Err(BadDay)
day 2012-2-6 => Err(BadDay)
day 02/06/2012 => Err(BadDay)
day 2012-02 => Err(BadDay)
day 2012-02-06- => Err(BadDay)
day  => Err(BadDay)
day 2012-02-0é => Err(BadDay)
";

/// Spellings of serial numbers, and what is read.
const SERIALS: &str = "\
serial L1EE => Ok(Serial { letter: 12, number: 1 })
serial K-0002-EE => Ok(Serial { letter: 11, number: 2 })
serial C-12-EE => Ok(Serial { letter: 3, number: 12 })
serial C0012EE => Ok(Serial { letter: 3, number: 12 })
serial C-12EE => Ok(Serial { letter: 3, number: 12 })
serial C12-EE => Ok(Serial { letter: 3, number: 12 })
serial Z9999999999EE => Ok(Serial { letter: 26, number: 9999999999 })
serial A0000000001EE => Ok(Serial { letter: 1, number: 1 })
serial c12EE => Err(BadSerial)
serial C0EE => Err(BadSerial)
serial C12345678901EE => Err(BadSerial)
serial C12 => Err(BadSerial)
serial C12ee => Err(BadSerial)
serial C--12EE => Err(BadSerial)
serial C12--EE => Err(BadSerial)
serial CEE => Err(BadSerial)
serial C-EE => Err(BadSerial)
serial 12EE => Err(BadSerial)
serial C+12EE => Err(BadSerial)
serial C12EEE => Err(BadSerial)
serial  => Err(BadSerial)
serial É12EE => Err(BadSerial)
";

/// Spellings of denominations, and what is read.
const DENOMS: &str = "\
denom 50 => Ok(Fifty)
denom 75 => Ok(SeventyFive)
denom 100 => Ok(Hundred)
denom 200 => Ok(TwoHundred)
denom 500 => Ok(FiveHundred)
denom 1000 => Ok(Thousand)
denom 5000 => Ok(FiveThousand)
denom 10000 => Ok(TenThousand)
denom 25 => Err(BadDenom)
denom 050 => Err(BadDenom)
denom 50.00 => Err(BadDenom)
denom $50 => Err(BadDenom)
denom  => Err(BadDenom)
denom 50é => Err(BadDenom)
";

/// Spellings of customers, and what is read.
const CUSTOMERS: &str = "\
customer 7 => Ok(Customer { number: 7 })
customer 007 => Ok(Customer { number: 7 })
customer 999999999 => Ok(Customer { number: 999999999 })
customer 0 => Err(BadCustomer)
customer 1000000000 => Err(BadCustomer)
customer 0000000007 => Err(BadCustomer)
customer +7 => Err(BadCustomer)
customer 7  => Err(BadCustomer)
customer  => Err(BadCustomer)
customer 7é => Err(BadCustomer)
";

/// Spellings of desks, and what is read.
const DESKS: &str = "\
desk 0 => Some(Desk { number: 0 })
desk 7 => Some(Desk { number: 7 })
desk 07 => Some(Desk { number: 7 })
desk 007 => Some(Desk { number: 7 })
desk 999 => Some(Desk { number: 999 })
desk 1000 => None
desk 0007 => None
desk +1 => None
desk +5 => None
desk -1 => None
desk 1  => None
desk  1 => None
desk  7 => None
desk 1. => None
desk x => None
desk ٣ => None
desk  => None
";

/// Values by their kind and number, and their printed text.
const PRINTED_NUMBERS: &str = "\
print cents 0 => 0.00
print cents 7 => 0.07
print cents 2588 => 25.88
print cents 152246800 => 1522468.00
print cents 18446744073709551615 => 184467440737095516.15
print total 0 => 0.00
print total 519622 => 5196.22
print total 340282366920938463463374607431768211455 => 3402823669209384634633746074317682114.55
print rate 0 => 0.00%
print rate 350 => 3.50%
print rate 2000 => 20.00%
print month 60 => 2010-05
print month 2335 => 2199-12
print issue 0 => 2005-05
";

/// Values by their kind and spelling, and their printed text.
const PRINTED_SPELLINGS: &str = "\
print day 2012-02-06 => 2012-02-06
print serial C-0012-EE => C12EE
print denom 10000 => 10000
print customer 007 => 7
print fault 25 => bad denomination
";

fn printed<T: Display + Drop>(alloc: Global, value: Option<T>) -> Option<String> {
    value?.to_string(alloc).ok()
}

/// The printed text of a value that is named by a number.
fn printed_number(alloc: Global, kind: &str, text: &str) -> Option<String> {
    let number = text.parse().ok();
    match kind {
        "cents" => printed(alloc, number.map(Cents)),
        "rate" => printed(alloc, number.and_then(Rate::new)),
        "month" => printed(alloc, number.and_then(Month::new)),
        "issue" => printed(alloc, number.and_then(IssueMonth::new)),
        _ => printed(alloc, text.parse().ok().map(Total)),
    }
}

/// The printed text of a value `KIND TEXT`, named by its spelling or its number.
fn printed_value(alloc: Global, value: &str) -> Option<String> {
    let (kind, text) = value.split_once(' ')?;
    match kind {
        "day" => printed(alloc, read_day(text).ok()),
        "serial" => printed(alloc, read_serial(text).ok()),
        "denom" => printed(alloc, read_denom(text).ok()),
        "customer" => printed(alloc, read_customer(text).ok()),
        "fault" => printed(alloc, read_denom(text).err()),
        _ => printed_number(alloc, kind, text),
    }
}

/// Issue months, months, and the age in months.
const AGES: &str = "\
age 2010-05 2010-04 => None
age 2010-05 2010-05 => Some(Age { months: 0 })
age 2010-05 2015-05 => Some(Age { months: 60 })
age 2005-05 2199-12 => Some(Age { months: 2335 })
";

/// Issue months, and the first month of their rate's period.
const PERIODS: &str = "\
period 2005-05 => 2005-05
period 2005-10 => 2005-05
period 2005-11 => 2005-11
period 2010-04 => 2009-11
period 2099-12 => 2099-11
";

/// Days, and their month.
const MONTHS_OF_DAYS: &str = "\
month_of_day 2005-05-01 => 2005-05
month_of_day 2012-02-29 => 2012-02
month_of_day 2012-03-01 => 2012-03
month_of_day 2199-12-31 => 2199-12
";

/// Denominations, their units and their price in cents.
const UNITS: &str = "\
units 50 => 2 2500
units 75 => 3 3750
units 100 => 4 5000
units 200 => 8 10000
units 500 => 20 25000
units 1000 => 40 50000
units 5000 => 200 250000
units 10000 => 400 500000
";

/// What is read as a month, and what as an issue month.
fn months_text(alloc: Global, text: &str) -> Option<String> {
    let month = read_alike(alloc, text, read_month(text))?;
    let issue = read_alike(alloc, text, read_issue(text))?;
    format!(in alloc; "{month} and {issue}").ok()
}

/// The age in a month of what is issued in another.
fn age_text(alloc: Global, text: &str) -> Option<String> {
    let (issued, month) = text.split_once(' ')?;
    let age = calendar::age(read_issue(issued).ok()?, read_month(month).ok()?);
    shown(alloc, &age)
}

/// The units and the price of a denomination.
fn units_text(alloc: Global, text: &str) -> Option<String> {
    let denom = read_denom(text).ok()?;
    let (count, price) = (units(denom), price(denom).0);
    format!(in alloc; "{count} {price}").ok()
}

/// What is read of a spelling of some kind.
struct SpellingCases;

impl Cases for SpellingCases {
    fn answer(alloc: Global, case: &str) -> Option<String> {
        let (word, text) = case.split_once(' ')?;
        match word {
            "rate" => read_alike(alloc, text, read_rate(text)),
            "month" => months_text(alloc, text),
            "day" => read_alike(alloc, text, read_day(text)),
            "serial" => read_alike(alloc, text, read_serial(text)),
            "denom" => read_alike(alloc, text, read_denom(text)),
            "customer" => read_alike(alloc, text, read_customer(text)),
            _ => shown(alloc, &read_desk(text)),
        }
    }
}

/// Spellings that are read.
const READ: [&str; 7] = [RATES, MONTHS, DAYS, SERIALS, DENOMS, CUSTOMERS, DESKS];

#[test]
fn spellings_are_read(rt: HostRuntime) -> Result<(), Fail> {
    for table in READ {
        compare::<SpellingCases>(&rt, rt.alloc(), table)?;
    }
    Ok(())
}

fn period_text(alloc: Global, text: &str) -> Option<String> {
    let month = calendar::period_of(read_issue(text).ok()?);
    month.to_string(alloc).ok()
}

fn month_of_day_text(alloc: Global, text: &str) -> Option<String> {
    let month = calendar::month_of(read_day(text).ok()?);
    month.to_string(alloc).ok()
}

/// The result for a text that a word names.
struct UnitCases;

impl Cases for UnitCases {
    fn answer(alloc: Global, case: &str) -> Option<String> {
        let (word, text) = case.split_once(' ')?;
        match word {
            "print" => printed_value(alloc, text),
            "age" => age_text(alloc, text),
            "period" => period_text(alloc, text),
            "month_of_day" => month_of_day_text(alloc, text),
            _ => units_text(alloc, text),
        }
    }
}

/// Values that are printed, and the results for months, days and denominations.
const TABLES: [&str; 6] = [
    PRINTED_NUMBERS,
    PRINTED_SPELLINGS,
    AGES,
    PERIODS,
    MONTHS_OF_DAYS,
    UNITS,
];

#[test]
fn units_by_tables(rt: HostRuntime) -> Result<(), Fail> {
    for table in TABLES {
        compare::<UnitCases>(&rt, rt.alloc(), table)?;
    }
    Ok(())
}
