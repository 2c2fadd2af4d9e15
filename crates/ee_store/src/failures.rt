//! The answers of a keeper if the store failed, or memory was refused.

ghost use Rattle.std.specs.Prelude.{◌≡◌};
ghost use Rattle.ee_store.specs.Inner.Served.{unserved_as};

use ee_desk_model::Unserved;
use ee_store_tables::Failure;

/// Why a request or a query was not served: want of memory, or a store that failed.
pub fn unserved(failure: Failure) -> Unserved
    ensures { result ≡ unserved_as failure }
{
    match failure {
        Failure::NoMemory => Unserved::NoMemory,
        Failure::StoreFailed => Unserved::StoreFailed,
    }
}
