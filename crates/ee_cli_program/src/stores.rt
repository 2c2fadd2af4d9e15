//! The stores of the program's commands.

ghost use Rattle.std.specs.Prelude.{◌≡◌, List, IfOk, IfErr, IfSome, ℕ};
ghost use Rattle.ee_desk_model.specs.Repeats.{Content};
ghost use Rattle.ee_desk_laws.specs.Events.{Event};
ghost use Rattle.ee_cli_actions.specs.declared.faults.RunFault.{RunFault};
ghost use Rattle.ee_cli_program.specs.Told.{fault_of_cause};

use ee_cli_actions::RunFault;
use ee_keeper::Keeper;
use ee_store_files::OpenCause;

/// A store that wasn't opened.
#[derive(Drop)]
pub struct Unopened<R> {
    /// The fault.
    pub fault: RunFault,
    /// Why its files weren't opened; `None` if they were, and the store was refused.
    pub cause: Option<OpenCause>,
    /// What is left of the store.
    pub rest: R,
}

/// What a command line leaves of the stores that it was given.
#[derive(Drop)]
pub enum Left<O, Q, R, L> {
    /// The stores, of which none was opened.
    Given(O),
    /// What is left of a store that wasn't opened.
    Refused(Q),
    /// What is left of a store that was closed.
    AtRest(R),
    /// What is left of a store that couldn't be closed.
    Unclosed(L),
}

/// Opens the store that a command line names, and closes it. Opening takes the stores themselves, so whoever is
/// given them opens one store at most, and can hand them back only if it opened none.
pub trait Stores: Drop {
    type Store: Keeper;

    /// What is left of a store after it is closed.
    type Rest: Drop;

    /// What is left of a store that wasn't opened.
    type Refused: Drop;

    /// What is left of a store that couldn't be closed.
    type Left: Drop;

    /// The contents that the store at a path may have.
    ghost holds: { Self → List ℕ → Content → Type 0 };

    /// The store at a path had this content at first, and has gone through these events since.
    ghost opens: { Self → List ℕ → Content → List Event → Type 0 };

    /// The store has room for the rows of this many requests.
    ghost has_room: { ℕ → Self.Store → Type 0 };

    /// What is left of a store has everything that the store had, at rest.
    ghost rests: { Self.Store → Self.Rest → Type 0 };

    /// The store at a path isn't opened for this fault, which is its own, and this is left of it: nothing has changed.
    ghost refuses: { Self → List ℕ → RunFault → Self.Refused → Type 0 };

    /// What is left of a store that couldn't be closed has what was committed, and closing it failed for a cause.
    ghost keeps: { Self.Store → Self.Left → Type 0 };

    /// Opens the store at a path; creates its tables if there are none. A cause that is told is one of the fault. Each
    /// later read of a store that was opened clean is tested (`is_guarded`), and it takes the requests that it has
    /// room for.
    fn open(self, path: &str) -> Result<Self::Store, Unopened<Self::Refused>>
        ensures opened { IfOk result (λ store. Self.Store.is_clean store → (c : Content) → holds self path.now c → Self.Store.has store c) }
        ensures gone { IfOk result (λ store. Self.Store.is_clean store → (start : Content) (events : List Event) → opens self path.now start events
            → Self.Store.went store start events) }
        ensures tested { IfOk result (λ store. Self.Store.is_clean store → Self.Store.is_guarded store) }
        ensures takes { IfOk result (λ store. Self.Store.is_clean store → (n : ℕ) → has_room n store → Self.Store.takes n store) }
        ensures told { IfErr result (λ not. IfSome not.cause (λ cause. not.fault ≡ fault_of_cause cause)) }
        ensures refused { IfErr result (λ not. refuses self path.now not.fault not.rest) };

    /// Closes a store, which is then at rest. If that fails, what was committed doesn't change.
    fn close(store: Self::Store) -> Result<Self::Rest, Self::Left>
        ensures rests { IfOk result (λ rest. rests store rest) }
        ensures keeps { IfErr result (λ left. keeps store left) };
}
