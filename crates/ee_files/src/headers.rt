//! The headers of files, compared name by name.

ghost use Rattle.std.specs.Prelude.{◌≡◌, ◌==◌, ◌&&◌, length, [], ◌∷◌};
ghost use Rattle.csv.specs.Records.{fields_of};
ghost use Rattle.ee_files.specs.RateFile.{rate_columns, extended_columns};
ghost use Rattle.ee_files.specs.Rows.{is_header};
ghost use Rattle.ee_files.specs.Inner.Rows.{name_at};

use crate::columns::FileColumn;
use csv::ByteRecord;

fn names(fields: &ByteRecord, place: usize, column: FileColumn) -> bool
    ensures { result ≡ name_at (fields_of fields.now) place column }
{
    fields.get(place).unwrap_or(b"") == column.name().as_bytes()
}

fn names_rates(fields: &ByteRecord) -> bool
    ensures { result ≡ (length (fields_of fields.now) == 2)
        && (name_at (fields_of fields.now) 0 FileColumn.From && name_at (fields_of fields.now) 1 FileColumn.Rate) }
{
    fields.len() == 2 && names(fields, 0, FileColumn::From) && names(fields, 1, FileColumn::Rate)
}

fn names_extensions(fields: &ByteRecord) -> bool
    ensures { result ≡ (length (fields_of fields.now) == 3)
        && (name_at (fields_of fields.now) 0 FileColumn.From
        && (name_at (fields_of fields.now) 1 FileColumn.Rate && name_at (fields_of fields.now) 2 FileColumn.Extension)) }
{
    fields.len() == 3
        && names(fields, 0, FileColumn::From)
        && names(fields, 1, FileColumn::Rate)
        && names(fields, 2, FileColumn::Extension)
}

/// Whether these are the column names of a rate file, in order, with or without an extension.
pub fn is_rate_header(fields: &ByteRecord) -> bool
    ensures { result ≡ is_header (rate_columns ∷ extended_columns ∷ []) (fields_of fields.now) }
{
    names_rates(fields) || names_extensions(fields)
}

fn names_bond(fields: &ByteRecord) -> bool
    ensures { result ≡ name_at (fields_of fields.now) 0 FileColumn.Serial
        && (name_at (fields_of fields.now) 1 FileColumn.Denom && name_at (fields_of fields.now) 2 FileColumn.Issued) }
{
    names(fields, 0, FileColumn::Serial)
        && names(fields, 1, FileColumn::Denom)
        && names(fields, 2, FileColumn::Issued)
}

fn names_owners(fields: &ByteRecord) -> bool
    ensures { result ≡ name_at (fields_of fields.now) 3 FileColumn.Owner && name_at (fields_of fields.now) 4 FileColumn.Coowner }
{
    names(fields, 3, FileColumn::Owner) && names(fields, 4, FileColumn::Coowner)
}

/// Whether these are the column names of an inventory, in order.
pub fn is_bond_header(fields: &ByteRecord) -> bool
    ensures { result ≡ (length (fields_of fields.now) == 5)
        && ((name_at (fields_of fields.now) 0 FileColumn.Serial
        && (name_at (fields_of fields.now) 1 FileColumn.Denom && name_at (fields_of fields.now) 2 FileColumn.Issued))
        && (name_at (fields_of fields.now) 3 FileColumn.Owner && name_at (fields_of fields.now) 4 FileColumn.Coowner)) }
{
    fields.len() == 5 && names_bond(fields) && names_owners(fields)
}
