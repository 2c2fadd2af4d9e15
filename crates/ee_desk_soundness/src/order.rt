//! Checking the order of rows.

ghost use Rattle.std.specs.Prelude.{◌≡◌, ◌↔◌, ◌<◌, ◌≤◌, true, map};
ghost use Rattle.ee_desk_model.specs.Sound.{day_of};
ghost use Rattle.ee_desk_soundness.specs.Checks.{InOrder, HaveRisingMonths};
ghost use Rattle.ee_desk_soundness.specs.Inner.Checks.{IsAfter};

use ee_desk_model::{RateRow, Ticket};
use ee_units::{Day, IssueMonth};

fn is_later_month(last: Option<IssueMonth>, month: IssueMonth) -> bool
    ensures { (result ≡ true) ↔ IsAfter ◌<◌ last month }
{
    match last {
        Some(last) => last < month,
        None => true,
    }
}

fn is_no_earlier(last: Option<Day>, day: Day) -> bool
    ensures { (result ≡ true) ↔ IsAfter ◌≤◌ last day }
{
    match last {
        Some(last) => last <= day,
        None => true,
    }
}

/// Whether each month is before those after it in the list.
pub fn months_rise(rows: &[RateRow]) -> bool
    ensures { (result ≡ true) ↔ HaveRisingMonths rows.now }
{
    let mut last: Option<IssueMonth> = None;
    for row in rows {
        if !is_later_month(last, row.from) {
            return false;
        }
        last = Some(row.from);
    }
    true
}

/// Whether the days of tickets never fall.
pub fn days_never_fall(tickets: &[Ticket]) -> bool
    ensures { (result ≡ true) ↔ InOrder ◌≤◌ (map day_of tickets.now) }
{
    let mut last: Option<Day> = None;
    for ticket in tickets {
        if !is_no_earlier(last, ticket.day) {
            return false;
        }
        last = Some(ticket.day);
    }
    true
}
