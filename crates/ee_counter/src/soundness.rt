//! What holds for the books of every keeper.

ghost use Rattle.ee_desk_model.specs.Repeats.{Content};
ghost use Rattle.ee_desk_model.specs.Paid.{paid_lines, NoneTwice, ArePaidRight};
ghost use Rattle.ee_desk_model.specs.Sound.{IsSound};
ghost use Rattle.ee_desk_model.specs.Conserved.{IsConserved};

use ee_keeper::Keeper;

/// What holds for the books of every keeper, at all times and whatever was answered: no serial number is on two
/// lines across all tickets, each line pays the value of its bond in the month of its ticket's day, and the batches
/// and the open day together add up to what was paid. It does nothing.
pub fn known<K: Keeper>(keeper: &K)
    ensures sound { (c : Content) → K.has keeper.now c → IsSound c.books }
    ensures once { (c : Content) → K.has keeper.now c → NoneTwice (paid_lines c.books.tickets) }
    ensures right { (c : Content) → K.has keeper.now c → ArePaidRight c.books }
    ensures conserved { (c : Content) → K.has keeper.now c → IsConserved c.books }
{
    let _ = keeper;
}
