//! The forms that the tables of a store have.

ghost use Rattle.std.specs.Prelude.{◌≡◌};
ghost use Rattle.ee_store_schema.specs.Forms.{version_of};

/// The form of the tables of a store.
#[derive(Clone, Copy)]
pub enum Form {
    /// The tables of version 2, which this program creates.
    Current,
    /// The tables of version 1: replies under a number alone.
    First,
    /// The tables of version 1 in a store made before extensions existed: all except theirs.
    Earliest,
}

impl Form {
    /// The version in the desk's row of tables in this form.
    pub const fn version(self) -> u64
        ensures { result ≡ version_of self }
    {
        match self {
            Form::Current => 2,
            Form::First | Form::Earliest => 1,
        }
    }
}
