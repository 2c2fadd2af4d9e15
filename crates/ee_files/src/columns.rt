//! The columns of files, and their names.

use std::fmt;

/// A column of a file.
#[derive(Clone, Copy, Debug, PartialEq, Eq)]
pub enum FileColumn {
    /// The month from which rates apply.
    From,
    /// The fixed rate.
    Rate,
    /// The extension; may be empty.
    Extension,
    /// A bond's serial number.
    Serial,
    /// The bond's denomination.
    Denom,
    /// The bond's issue month.
    Issued,
    /// The bond's owner.
    Owner,
    /// The bond's coowner; may be empty.
    Coowner,
}

impl FileColumn {
    ghost use Rattle.std.specs.Prelude.{◌≡◌};
    ghost use Rattle.ee_files.specs.Columns.{column_name};

    /// The column's name in a header.
    pub const fn name(self) -> &'static str
        ensures { result.now ≡ column_name self }
    {
        match self {
            FileColumn::From => "from",
            FileColumn::Rate => "rate",
            FileColumn::Extension => "extension",
            FileColumn::Serial => "serial",
            FileColumn::Denom => "denom",
            FileColumn::Issued => "issued",
            FileColumn::Owner => "owner",
            FileColumn::Coowner => "coowner",
        }
    }
}

/// Prints the column's name.
impl fmt::Display for FileColumn {
    ghost use Rattle.std.specs.Prelude.{Some};
    ghost use Rattle.ee_files.specs.Columns.{column_name};

    ghost output = { λ c. Some (column_name c) };

    fn fmt<W: fmt::Write>(&self, f: &mut fmt::Formatter<W>) -> fmt::Result {
        let name = self.name();
        write!(f, "{name}")
    }
}
