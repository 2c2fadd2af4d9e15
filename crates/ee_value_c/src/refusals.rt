//! Reasons for a refused call.

ghost use Rattle.std.specs.Prelude.{◌≡◌};
ghost use Rattle.ee_value_c.specs.Statuses.{status_of};

/// Why a call is refused.
#[derive(Clone, Copy)]
pub enum CallRefusal {
    /// No paper bond has this denomination.
    BadDenomination,
    /// The issue month isn't a month from 200505 to 209912.
    BadIssueMonth,
    /// The value month isn't a month from 200505 to 219912.
    BadMonth,
    /// The rate is above 20 percent.
    BadRate,
    /// The rate of extended maturity is above 20 percent.
    BadExtension,
    /// The value month is before the issue month.
    NotIssued,
    /// The bond can't be redeemed yet: its age is below 12 months.
    NotEligible,
    /// The precision doesn't settle the value.
    Unsettled,
}

impl CallRefusal {
    /// The status that a C caller gets.
    pub const fn status(self) -> u32
        ensures { result ≡ status_of self }
    {
        match self {
            CallRefusal::BadDenomination => 1,
            CallRefusal::BadIssueMonth => 2,
            CallRefusal::BadMonth => 3,
            CallRefusal::BadRate => 4,
            CallRefusal::BadExtension => 5,
            CallRefusal::NotIssued => 6,
            CallRefusal::NotEligible => 7,
            CallRefusal::Unsettled => 8,
        }
    }
}
