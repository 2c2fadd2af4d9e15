//! The question that a call asks.

ghost use Rattle.std.specs.Prelude.{◌≡◌};
ghost use Rattle.ee_value_c.specs.Questions.{question_at};

use crate::numbers::{denomination, issue_month, month, rate};
use crate::refusals::CallRefusal;
use ee_units::{Denom, IssueMonth, Month};
use ee_value::Rates;

/// The numbers of a question, in the form in which the calls with plain numbers take them.
#[repr(C)]
#[derive(Clone, Copy)]
pub struct ValueQuestion {
    /// The denomination, in dollars.
    pub dollars: u32,
    /// The issue month, as YYYYMM.
    pub issued: u32,
    /// The value month, as YYYYMM.
    pub month: u32,
    /// The fixed rate, in hundredths of a percent.
    pub rate: u32,
    /// The rate of extended maturity, in hundredths of a percent.
    pub extension: u32,
}

/// A question: a bond at its rates, in a month.
#[derive(Clone, Copy)]
pub struct Question {
    pub denom: Denom,
    pub issued: IssueMonth,
    pub month: Month,
    pub rates: Rates,
}

/// The question of these numbers, or the first refusal, in the order of the fields.
#[tactic(auto, unfolding(crate::specs::Questions::question_at))]
pub fn question_at(question: ValueQuestion) -> Result<Question, CallRefusal>
    ensures { result ≡ question_at question }
{
    let denom = denomination(question.dollars).ok_or(CallRefusal::BadDenomination)?;
    let issued = issue_month(question.issued).ok_or(CallRefusal::BadIssueMonth)?;
    let month = month(question.month).ok_or(CallRefusal::BadMonth)?;
    let fixed = rate(question.rate).ok_or(CallRefusal::BadRate)?;
    let extension = rate(question.extension).ok_or(CallRefusal::BadExtension)?;
    Ok(Question {
        denom,
        issued,
        month,
        rates: Rates { fixed, extension },
    })
}
