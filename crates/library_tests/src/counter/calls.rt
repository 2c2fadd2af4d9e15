//! Calls of books that take memory, and that the other tests reach only through others, with ample memory.

use super::books::written;
use crate::comparing::assert_same;
use ee_calculator::{Sheet, write_sheet};
use ee_counter::answer_message;
use ee_desk::{Books, ListKeeper};
use ee_desk_decide::{View, ViewParts, decide};
use ee_desk_model::{Act, UnitTables};
use ee_desk_texts::{GivenReply, read_act, reply_text};
use ee_units::{Cents, Rate};
use ee_value::Rates;
use ee_wire::Answer;
use std::alloc::Global;
use std::collections::BTreeMap;
use std::process::Abort;
use std::test::Fail;

/// Calls in order over one list of books, each followed by its result. A day begins; what the books show; an act
/// is seen and decided, and the books don't change; it is done, and a bond of it is redeemed again over the books of
/// the books' parts; the day is closed; the parts of the books, and of the books of these parts. Then calls that need no books: an act that is decided on a view with a number of
/// tickets across all days, a message without a connection, and terms, which are made once for equal rates.
const CALLS: &str =
    r#"> do {"act":"rates","rates":[{"from":"2010-05","rate":"2.00%"},{"from":"2010-11","rate":"3.50%"}]}
{"new":2,"same":0}
> do {"act":"bonds","bonds":[{"denom":50,"issued":"2010-11","owner":7,"serial":"L1EE"},{"coowner":8,"denom":75,"issued":"2010-10","owner":7,"serial":"K2EE"},{"denom":10000,"issued":"2011-02","owner":7,"serial":"M3EE"}]}
{"new":3,"same":0}
> do {"act":"open","day":"2012-02-06"}
{"opened":"2012-02-06"}
> inventory 7 2012-02
Serial        Series  Denom Issued  Next    Final          Price       Interest   Rate          Value Note
K2EE          EE         75 10/2010 03/2012 10/2040        37.50           0.84  2.00%          38.34 P5
L1EE          EE         50 11/2010 03/2012 11/2040        25.00           0.88  3.50%          25.88 P5
M3EE          EE      10000 02/2011 03/2012 02/2041      5000.00         132.00  3.50%        5132.00 P5
Total                                                    5062.50         133.72               5196.22

> bonds 7
3
> quote 50 2010-11 2012-02
2588
> decide {"act":"redeem","day":"2012-02-06","payee":7,"serials":["L1EE","K2EE","M3EE"]}
{"day":"2012-02-06","lines":[{"paid":"25.88","serial":"L1EE"},{"paid":"38.34","serial":"K2EE"},{"paid":"5132.00","serial":"M3EE"}],"payee":7,"ticket":1,"total":"5196.22"}
> effects {"act":"redeem","day":"2012-02-06","payee":7,"serials":["L1EE","K2EE","M3EE"]}
{"day":"2012-02-06","lines":[{"paid":"25.88","serial":"L1EE"},{"paid":"38.34","serial":"K2EE"},{"paid":"5132.00","serial":"M3EE"}],"payee":7,"ticket":1,"total":"5196.22"}
> ticket 1
none
> do {"act":"redeem","day":"2012-02-06","payee":7,"serials":["L1EE","K2EE","M3EE"]}
{"day":"2012-02-06","lines":[{"paid":"25.88","serial":"L1EE"},{"paid":"38.34","serial":"K2EE"},{"paid":"5132.00","serial":"M3EE"}],"payee":7,"ticket":1,"total":"5196.22"}
> redo {"act":"redeem","day":"2012-02-06","payee":7,"serials":["K2EE"]}
{"code":52,"refused":"AlreadyPaid","serial":"K2EE","ticket":1}
> do {"act":"close","day":"2012-02-06"}
{"bonds":3,"day":"2012-02-06","tickets":1,"total":"5196.22"}
> parts
rate 2010-05 2.00%; rate 2010-11 3.50%; bond K2EE 75 2010-10 7 8; bond L1EE 50 2010-11 7 -; bond M3EE 10000 2011-02 7 -; ticket 1 2012-02-06 7 519622 L1EE=2588 K2EE=3834 M3EE=513200; batch 2012-02-06 1 3 519622; day -; last 2012-02-06;
> again
rate 2010-05 2.00%; rate 2010-11 3.50%; bond K2EE 75 2010-10 7 8; bond L1EE 50 2010-11 7 -; bond M3EE 10000 2011-02 7 -; ticket 1 2012-02-06 7 519622 L1EE=2588 K2EE=3834 M3EE=513200; batch 2012-02-06 1 3 519622; day -; last 2012-02-06;
> check
true
> copy
1
> after 71200000 {"act":"redeem","day":"2012-02-06","payee":7,"serials":["L1EE","K2EE","M3EE"]}
{"code":50,"refused":"UnknownSerial","serial":"L1EE"}
> after 71200001 {"act":"redeem","day":"2012-02-06","payee":7,"serials":["L1EE","K2EE","M3EE"]}
no view
> post /day/open {"number":1,"day":"2012-02-06"}
{"opened":"2012-02-06"}
> terms 3.50
false 3.50% true"#;

/// Messages without a connection, over one keeper: a day of the first desk, in which the second asks for the first's
/// ticket under the same number, asks again, gives the number to another act, and closes the day under the number that
/// the first desk would have taken next. The last desk has the last number. A third one closes the next day before it
/// opens, and again after that, which gives the same refusal and closes nothing; a bond of eleven months isn't paid.
const DESKS: &str =
    r#"> post /rates {"number":1,"rates":[{"from":"2010-05","rate":"2.00%"},{"from":"2010-11","rate":"3.50%"}]}
{"new":2,"same":0}
> post /bonds {"number":2,"bonds":[{"serial":"L1EE","denom":50,"issued":"2010-11","owner":7},{"serial":"K2EE","denom":75,"issued":"2010-10","owner":7,"coowner":8},{"serial":"M3EE","denom":10000,"issued":"2011-02","owner":7}]}
{"new":3,"same":0}
> post /day/open {"number":3,"day":"2012-02-06"}
{"opened":"2012-02-06"}
> post /redeem {"number":4,"day":"2012-02-06","payee":7,"serials":["L1EE","K2EE","M3EE"]}
{"day":"2012-02-06","lines":[{"paid":"25.88","serial":"L1EE"},{"paid":"38.34","serial":"K2EE"},{"paid":"5132.00","serial":"M3EE"}],"payee":7,"ticket":1,"total":"5196.22"}
> post /redeem {"desk":1,"number":4,"day":"2012-02-06","payee":7,"serials":["L1EE","K2EE","M3EE"]}
{"code":52,"refused":"AlreadyPaid","serial":"L1EE","ticket":1}
> post /redeem {"desk":1,"number":4,"day":"2012-02-06","payee":7,"serials":["L1EE","K2EE","M3EE"]}
{"code":52,"refused":"AlreadyPaid","serial":"L1EE","ticket":1}
> post /redeem {"desk":1,"number":4,"day":"2012-02-06","payee":7,"serials":["K2EE"]}
{"code":10,"refused":"NumberReused"}
> post /redeem {"desk":0,"number":4,"day":"2012-02-06","payee":7,"serials":["L1EE","K2EE","M3EE"]}
{"day":"2012-02-06","lines":[{"paid":"25.88","serial":"L1EE"},{"paid":"38.34","serial":"K2EE"},{"paid":"5132.00","serial":"M3EE"}],"payee":7,"ticket":1,"total":"5196.22"}
> post /day/close {"desk":1,"number":5,"day":"2012-02-06"}
{"bonds":3,"day":"2012-02-06","tickets":1,"total":"5196.22"}
> post /day/close {"number":5,"day":"2012-02-06"}
{"code":42,"refused":"NoOpenDay"}
> post /day/close {"desk":1,"number":5,"day":"2012-02-06"}
{"bonds":3,"day":"2012-02-06","tickets":1,"total":"5196.22"}
> post /day/close {"desk":null,"number":5,"day":"2012-02-06"}
{"code":42,"refused":"NoOpenDay"}
> post /day/close {"desk":2,"number":1,"day":"2012-02-07"}
{"code":42,"refused":"NoOpenDay"}
> post /day/open {"desk":999,"number":9223372036854775807,"day":"2012-02-07"}
{"opened":"2012-02-07"}
> post /day/open {"desk":998,"number":9223372036854775807,"day":"2012-02-07"}
{"code":40,"refused":"DayOpen"}
> post /day/close {"desk":999,"number":9223372036854775807,"day":"2012-02-07"}
{"code":10,"refused":"NumberReused"}
> post /day/open {"desk":999,"number":9223372036854775807,"day":"2012-02-07"}
{"opened":"2012-02-07"}
> post /day/close {"desk":2,"number":1,"day":"2012-02-07"}
{"code":42,"refused":"NoOpenDay"}
> post /bonds {"desk":2,"number":2,"bonds":[{"serial":"N4EE","denom":50,"issued":"2011-03","owner":9}]}
{"new":1,"same":0}
> post /redeem {"desk":2,"number":3,"day":"2012-02-07","payee":9,"serials":["N4EE"]}
{"code":54,"refused":"NotEligible","serial":"N4EE"}"#;

/// The text of the reply to an act by a view.
fn decided(alloc: Global, view: &View, act: &Act) -> Option<String> {
    let effects = decide(alloc, view, act).ok()?;
    reply_text(alloc, &effects.reply).ok()
}

/// The same by what is seen of the books.
fn seen(alloc: Global, books: &Books, act: &Act) -> Option<String> {
    let view = books.view_of(act).ok()?;
    decided(alloc, &view, act)
}

/// The text of the reply of the effects of an act.
fn effects_text(alloc: Global, books: &Books, act: &Act) -> Option<String> {
    let effects = books.effects_of(act).ok()?;
    reply_text(alloc, &effects.reply).ok()
}

fn step_text(alloc: Global, books: &mut Books, act: &Act) -> Option<String> {
    let reply = books.step(act).ok()?;
    reply_text(alloc, &reply).ok()
}

/// The view of an open day, with a number of tickets across all days.
fn view_after(alloc: Global, tickets: u64) -> Option<Option<View>> {
    Some(View::from_parts(ViewParts {
        rates: BTreeMap::new(alloc),
        bonds: BTreeMap::new(alloc),
        day: Some("2012-02-06".parse().ok()?),
        last_day: None,
        tickets,
        day_tickets: 0,
        day_bonds: 0,
        day_total: Cents(0),
    }))
}

/// The text of the reply to an act, with a number of tickets.
fn decided_after(alloc: Global, tickets: u64, act: &Act) -> Option<String> {
    match view_after(alloc, tickets)? {
        Some(view) => decided(alloc, &view, act),
        None => String::from_str(alloc, "no view").ok(),
    }
}

/// The result for an act with a canonical text.
fn act_text(alloc: Global, books: &mut Books, call: &str, text: &str) -> Option<String> {
    let act = read_act(alloc, text).ok()??;
    match call {
        "do" => step_text(alloc, books, &act),
        "decide" => seen(alloc, books, &act),
        _ => effects_text(alloc, books, &act),
    }
}

/// The result for `TICKETS ACT`.
fn after_text(alloc: Global, text: &str) -> Option<String> {
    let (tickets, act) = text.split_once(' ')?;
    let act = read_act(alloc, act).ok()??;
    decided_after(alloc, tickets.parse().ok()?, &act)
}

fn sheet_text(alloc: Global, sheet: &Sheet) -> Option<String> {
    let mut text = Vec::new(alloc);
    write_sheet(sheet, &mut text).ok()?;
    String::from_str(alloc, str::from_utf8(&text).ok()?).ok()
}

fn inventory_text(alloc: Global, books: &Books, place: &str) -> Option<String> {
    let (customer, month) = place.split_once(' ')?;
    let (customer, month) = (customer.parse().ok()?, month.parse().ok()?);
    let sheet = books.inventory(customer, month).ok()?;
    sheet_text(alloc, &sheet)
}

/// How many bonds a customer has.
fn bonds_text(alloc: Global, books: &Books, customer: &str) -> Option<String> {
    let count = books.bonds_of(customer.parse().ok()?).ok()?.len();
    count.to_string(alloc).ok()
}

/// The value in cents of `DENOM ISSUED MONTH`.
fn quote_text(alloc: Global, books: &Books, bond: &str) -> Result<String, Fail> {
    let (denom, rest) = bond.split_once(' ').ok_or("issued")?;
    let (issued, month) = rest.split_once(' ').ok_or("month")?;
    let row = books.quote(denom.parse()?, issued.parse()?, month.parse()?)?;
    Ok(row.ok_or("row")?.value.0.to_string(alloc)?)
}

fn ticket_text(alloc: Global, books: &Books, number: &str) -> Option<String> {
    let is_none = books.ticket(number.parse().ok()?).ok()?.is_none();
    String::from_str(alloc, if is_none { "none" } else { "one" }).ok()
}

/// The result for the parts of the books: how many tickets they have, or all of them in words.
fn parts_text(alloc: Global, books: &Books, call: &str) -> Option<String> {
    let parts = books.parts().ok()?;
    match call {
        "copy" => parts.tickets.as_slice().len().to_string(alloc).ok(),
        _ => written(alloc, &parts),
    }
}

/// The books of the books' parts.
fn books_again(alloc: Global, books: &Books) -> Option<Books> {
    Books::from_parts(alloc, books.parts().ok()?).ok()
}

/// The text of the reply to a message without a connection.
fn post_text(alloc: Global, keeper: &mut ListKeeper, message: &str) -> Option<String> {
    let (path, body) = message.split_once(' ')?;
    match answer_message(alloc, keeper, path.as_bytes(), b"POST", body.as_bytes()) {
        Answer::Reply(GivenReply::Reply(reply)) => reply_text(alloc, &reply).ok(),
        _ => None,
    }
}

fn has_terms(tables: &UnitTables, rates: Rates) -> Option<bool> {
    Some(tables.terms(rates).ok()?.is_some())
}

/// The rate of terms that are made and kept.
fn kept_rate(alloc: Global, tables: &mut UnitTables, rates: Rates) -> Option<Rate> {
    let made = tables.add(alloc, rates).ok()?;
    let kept = tables.keep(&made).ok()?;
    Some(kept.rates().fixed)
}

/// Whether there are terms of a rate before they are made, the rate of those that are kept, and whether there are then.
fn terms_text(alloc: Global, rate: &str) -> Option<String> {
    let rates = Rates::new(rate.parse().ok()?, None);
    let mut tables = UnitTables::new(alloc);
    let before = has_terms(&tables, rates)?;
    let kept = kept_rate(alloc, &mut tables, rates)?;
    let after = has_terms(&tables, rates)?;
    format!(in alloc; "{before} {kept} {after}").ok()
}

/// The result of a call `WORD REST` other than a quote.
fn result_of(
    alloc: Global,
    books: &mut Books,
    keeper: &mut ListKeeper,
    word: &str,
    rest: &str,
) -> Option<String> {
    match word {
        "do" | "decide" | "effects" => act_text(alloc, books, word, rest),
        "after" => after_text(alloc, rest),
        "inventory" => inventory_text(alloc, books, rest),
        "bonds" => bonds_text(alloc, books, rest),
        "ticket" => ticket_text(alloc, books, rest),
        "parts" | "copy" => parts_text(alloc, books, word),
        "check" => books_again(alloc, books).is_some().to_string(alloc).ok(),
        "again" => parts_text(alloc, &books_again(alloc, books)?, "parts"),
        "redo" => act_text(alloc, &mut books_again(alloc, books)?, "do", rest),
        "post" => post_text(alloc, keeper, rest),
        "terms" => terms_text(alloc, rest),
        _ => None,
    }
}

/// The result of a call.
fn call_text(
    alloc: Global,
    books: &mut Books,
    keeper: &mut ListKeeper,
    call: &str,
) -> Result<String, Fail> {
    let (word, rest) = call.split_once(' ').unwrap_or((call, ""));
    if word == "quote" {
        return quote_text(alloc, books, rest);
    }
    Ok(result_of(alloc, books, keeper, word, rest).ok_or("no answer")?)
}

/// Compares the result of each call with the lines below it.
fn compare_over(
    rt: &impl Abort,
    alloc: Global,
    books: &mut Books,
    keeper: &mut ListKeeper,
    calls: &str,
) -> Result<(), Fail> {
    for row in calls.trim_start_matches("> ").split("\n> ") {
        let (call, wanted) = row.split_once('\n').ok_or("row")?;
        let got = call_text(alloc, books, keeper, call)?;
        assert_same(rt, got.as_str(), wanted, call);
    }
    Ok(())
}

/// The same over empty books and an empty keeper.
fn compare(rt: &impl Abort, alloc: Global, calls: &str) -> Result<(), Fail> {
    let (mut books, mut keeper) = (Books::empty(alloc), ListKeeper::empty(alloc));
    compare_over(rt, alloc, &mut books, &mut keeper, calls)
}

#[test]
fn calls_answer(rt: HostRuntime) -> Result<(), Fail> {
    compare(&rt, rt.alloc(), CALLS)?;
    compare(&rt, rt.alloc(), DESKS)
}
