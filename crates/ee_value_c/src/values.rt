//! Answers computed from the value of one unit, without a table, so that no memory is taken.

ghost use Rattle.std.specs.Prelude.{◌≡◌, ◌≤◌, true, false, MatchResult, IfOk};
ghost use Rattle.ee_units.specs.Denoms.{units_of};
ghost use Rattle.ee_value.specs.Payment.{is_payment_open, IsQuoteOf};
ghost use Rattle.ee_value.specs.Inner.Payment.{highest_value};
ghost use Rattle.ee_value_c.specs.Answers.{row_of, row_at, payment_of, payment_at};
ghost use Rattle.ee_value_c.specs.declared.refusals.CallRefusal.TheVariants as refusal;

use crate::answers::{ValueRow, shown_row};
use crate::questions::{Question, ValueQuestion, question_at};
use crate::refusals::CallRefusal;
use ee_calculator::{issued_row, unissued_row};
use ee_units::{Age, Bits, Denom, calendar};
use ee_value::{Quote, Rates, bond_value_at};

/// The binary places used for every value.
const PLACES: u8 = 62;

/// The row that the numbers ask for, or the first refusal.
#[tactic(auto, unfolding(crate::specs::Answers::row_at))]
pub fn row_at(question: ValueQuestion) -> Result<ValueRow, CallRefusal>
    ensures { result ≡ row_at question }
{
    row_of(question_at(question)?)
}

/// The payment that the numbers ask for, or the first refusal.
#[tactic(auto, unfolding(crate::specs::Answers::payment_at))]
pub fn payment_at(question: ValueQuestion) -> Result<u64, CallRefusal>
    ensures value { result ≡ payment_at question }
    ensures range { IfOk result (λ cents. cents ≤ highest_value) }
{
    payment_of(question_at(question)?)
}

/// The row of a bond in a month.
#[tactic(auto, unfolding(crate::specs::Answers::row_of, ee_calculator::specs::Rows::columns_of))]
fn row_of(question: Question) -> Result<ValueRow, CallRefusal>
    ensures { result ≡ row_of question }
{
    let Question {
        denom,
        issued,
        month,
        rates,
    } = question;
    let row = match calendar::age(issued, month) {
        Some(age) => issued_row(denom, issued, rates, quote(denom, rates, age)?, month),
        None => unissued_row(denom, issued),
    };
    Ok(shown_row(row))
}

/// What a bond pays in a month.
#[tactic(auto, unfolding(crate::specs::Answers::payment_of, ee_value::specs::Payment::is_payment_open))]
fn payment_of(question: Question) -> Result<u64, CallRefusal>
    ensures value { result ≡ payment_of question }
    ensures range { IfOk result (λ cents. cents ≤ highest_value) }
{
    let Some(age) = calendar::age(question.issued, question.month) else {
        return Err(CallRefusal::NotIssued);
    };
    match quote(question.denom, question.rates, age)? {
        Quote::NotEligible => Err(CallRefusal::NotEligible),
        Quote::Pays { cents, .. } => Ok(cents.0),
    }
}

/// What a bond pays at an age.
fn quote(denom: Denom, rates: Rates, age: Age) -> Result<Quote, CallRefusal>
    ensures { MatchResult result
        (λ quote. (is_payment_open rates age 62 ≡ false) × IsQuoteOf rates (units_of denom) age quote)
        (λ e. (is_payment_open rates age 62 ≡ true) × (e ≡ refusal.Unsettled)) }
{
    match bond_value_at(rates, denom, age, Bits::from_places(PLACES)) {
        Ok(quote) => Ok(quote),
        Err(_) => Err(CallRefusal::Unsettled),
    }
}
