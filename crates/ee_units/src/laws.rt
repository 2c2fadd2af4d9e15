//! Laws of the definitions. A body here does nothing; the clauses state the laws.

ghost use Rattle.std.specs.Prelude.{◌≡◌, ℕ, ◌≤◌, ◌*◌, List, Some};
ghost use Rattle.std.specs.Fmt.{decimal};
ghost use Rattle.ee_units.specs.Calendar.{IsPeriod, period_start};
ghost use Rattle.ee_units.specs.Denoms.{dollars, units_of, price_of, denom_of};
ghost use Rattle.ee_units.specs.Grammar.{IsRateText, IsMonthText, IsDayText, IsSerialText};
ghost use Rattle.ee_units.specs.Spelling.{rate_of, month_of, issue_of, day_of, customer_of, serial_of, SerialNumber};
ghost use Rattle.ee_units.specs.Texts.{rate_text, month_text, day_text, serial_text};
ghost use Rattle.ee_units.specs.Limits.{earliest_day, highest_customer, highest_rate, highest_serial, latest_day, latest_issue_month, latest_month, unit_price};

use crate::denoms::Denom;

/// The grammar of rates: `rate_of` reads a text as a rate if and only if the text writes that rate.
pub const fn rate_law()
    ensures complete { (text : List ℕ) (r : ℕ) → IsRateText text r → rate_of text ≡ Some r }
    ensures sound { (text : List ℕ) (r : ℕ) → rate_of text ≡ Some r → IsRateText text r }
{}

/// The grammar of months: `month_of` reads a text as a month if and only if the text writes that month.
pub const fn month_law()
    ensures complete { (text : List ℕ) (n : ℕ) → IsMonthText text n → month_of text ≡ Some n }
    ensures sound { (text : List ℕ) (n : ℕ) → month_of text ≡ Some n → IsMonthText text n }
{}

/// The grammar of days, in the same way.
pub const fn day_law()
    ensures complete { (text : List ℕ) (n : ℕ) → IsDayText text n → day_of text ≡ Some n }
    ensures sound { (text : List ℕ) (n : ℕ) → day_of text ≡ Some n → IsDayText text n }
{}

/// The grammar of serial numbers, in the same way.
pub const fn serial_law()
    ensures complete { (text : List ℕ) (s : SerialNumber) → IsSerialText text s → serial_of text ≡ Some s }
    ensures sound { (text : List ℕ) (s : SerialNumber) → serial_of text ≡ Some s → IsSerialText text s }
{}

/// Each printed text reads back as the value that was printed.
pub const fn texts_law()
    ensures rate { (r : ℕ) → r ≤ highest_rate → rate_of (rate_text r) ≡ Some r }
    ensures month { (m : ℕ) → m ≤ latest_month → month_of (month_text m) ≡ Some m }
    ensures issue { (m : ℕ) → m ≤ latest_issue_month → issue_of (month_text m) ≡ Some m }
    ensures day { (n : ℕ) → earliest_day ≤ n → n ≤ latest_day → day_of (day_text n) ≡ Some n }
    ensures customer { (n : ℕ) → 1 ≤ n → n ≤ highest_customer → customer_of (decimal n) ≡ Some n }
    ensures serial { (s : SerialNumber) → 1 ≤ s.letter → s.letter ≤ 26 → 1 ≤ s.number → s.number ≤ highest_serial
        → serial_of (serial_text s) ≡ Some s }
    ensures denom { (d : Denom) → denom_of (decimal (dollars d)) ≡ Some d }
{}

/// Units and price: a unit is 25 dollars of denomination and 12.50 dollars of issue price.
pub const fn denom_law()
    ensures dollars { (d : Denom) → dollars d ≡ 25 * units_of d }
    ensures price { (d : Denom) → price_of d ≡ unit_price * units_of d }
{}

/// Periods: a month is its own period if and only if rates are announced in it, and each month has
/// exactly one period.
pub const fn calendar_law()
    ensures period { (m : ℕ) → IsPeriod m (period_start m) }
    ensures unique { (m p q : ℕ) → IsPeriod m p → IsPeriod m q → p ≡ q }
{}
