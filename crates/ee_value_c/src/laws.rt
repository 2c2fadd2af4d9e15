//! Laws of the definitions. A body here does nothing; the clauses state the laws.

ghost use Rattle.ee_value_c.specs.declared.questions.ValueQuestion.{ValueQuestion};
ghost use Rattle.ee_value_c.specs.Answers.{row_at, payment_at, AreSame};

/// The two answers to the same numbers agree: a row contains the payment, 0 if nothing is paid yet, and other
/// numbers are refused for the same reason.
pub const fn answers_law()
    ensures { (question : ValueQuestion) → AreSame (row_at question) (payment_at question) }
{}
