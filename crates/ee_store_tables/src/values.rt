//! Numbers as values of the store.

ghost use Rattle.std.specs.Prelude.{◌≡◌, ◌<◌, IfSome};
ghost use Rattle.sqlite.specs.declared.types.Value.TheVariants.{Int};
ghost use Rattle.sqlite_value.specs.Value.{owned};
ghost use Rattle.ee_store_tables.specs.AsRows.{Fits};
ghost use Rattle.ee_store_tables.specs.Rows as rows;

use sqlite::types::ValueRef;

/// A number as a value of the store.
pub(crate) fn whole<'a>(number: u64) -> ValueRef<'a>
    requires { Fits number }
    ensures { owned result ≡ rows.number number }
{
    ValueRef::Int(number as i64)
}

/// An optional number as a value of the store; NULL means None.
pub(crate) fn optional<'a>(number: Option<u64>) -> ValueRef<'a>
    requires { IfSome number Fits }
    ensures { owned result ≡ rows.optional number }
{
    match number {
        None => ValueRef::Null,
        Some(number) => whole(number),
    }
}
