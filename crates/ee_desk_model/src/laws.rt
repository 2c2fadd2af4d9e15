//! Laws of the definitions. A body here does nothing; the clauses state the laws.

ghost use Rattle.std.specs.Prelude.{◌≡◌, ◌↔◌, ℕ, true, [], Some};
ghost use Rattle.ee_desk_model.specs.declared.acts.Act.{Act};
ghost use Rattle.ee_desk_model.specs.declared.refusals.Refusal.{Refusal};
ghost use Rattle.ee_desk_model.specs.declared.replies.Reply.TheVariants.{Refused};
ghost use Rattle.ee_desk_model.specs.PlainBooks.{PlainBooks};
ghost use Rattle.ee_desk_model.specs.Seen.{Seen, shown};
ghost use Rattle.ee_desk_model.specs.Refusals.{length_refusal};
ghost use Rattle.ee_desk_model.specs.Views.{shown_by, view_of, needed_of};
ghost use Rattle.std.specs.List.{AllByRecursion};
ghost use Rattle.ee_desk_model.specs.Acts.{same_act, applied, books_after, reply_to};
ghost use Rattle.ee_desk_model.specs.Ranges.{IsInRange, IsActInRange};
ghost use Rattle.ee_desk_model.specs.Sound.{IsSound};
ghost use Rattle.ee_desk_model.specs.Effects.{effects_of};
ghost use Rattle.ee_desk_model.specs.Queries.{bonds_of, inventory};

/// If an act sees the same of two books, it has the same effects on both; so it has if both agree in what
/// the act depends on. An act that the length of its list refuses is refused whatever the books are.
pub const fn one_view_law()
    ensures seen { (one other : PlainBooks) (asked : Act) → view_of one asked ≡ view_of other asked
        → effects_of (shown one) asked ≡ effects_of (shown other) asked }
    ensures needed { (one other : PlainBooks) (asked : Act) → needed_of one asked ≡ needed_of other asked
        → effects_of (shown one) asked ≡ effects_of (shown other) asked }
    ensures length { (seen : Seen) (asked : Act) (refusal : Refusal) → length_refusal asked ≡ Some refusal
        → effects_of seen asked ≡ record { changes = []; reply = Refused refusal } }
{}

/// An act can be decided on what it sees of the books, and on what it needs of them: the reply is the same
/// as on the whole books, and its changes, applied in order, give the books after the act.
pub const fn view_decides_law()
    ensures reply { (books : PlainBooks) (asked : Act) → (effects_of (shown_by (view_of books asked)) asked).reply ≡ reply_to books asked }
    ensures books { (books : PlainBooks) (asked : Act) → applied books (effects_of (shown_by (view_of books asked)) asked).changes ≡ books_after books asked }
    ensures needed { (books : PlainBooks) (asked : Act)
        → effects_of (shown_by (needed_of books asked)) asked ≡ effects_of (shown_by (view_of books asked)) asked }
{}

/// An inventory depends only on that owner's unpaid bonds, the rates and the month: books that agree
/// there have the same sheet.
pub const fn shows_own_bonds_alone_law()
    ensures { (one other : PlainBooks) (customer month : ℕ) → one.rates ≡ other.rates → bonds_of one customer ≡ bonds_of other customer
        → inventory one customer month ≡ inventory other customer month }
{}

/// Acts that compare as the same are equal.
pub const fn same_acts_law()
    ensures { (one other : Act) → (same_act one other ≡ true) ↔ (one ≡ other) }
{}

/// Acts keep books sound, if the act's plain numbers are in range, as in every act of a program, or those
/// of its changes are.
pub const fn acts_keep_sound_law()
    ensures acts { (books : PlainBooks) (asked : Act) → IsSound books → IsActInRange asked → IsSound (books_after books asked) }
    ensures changes { (books : PlainBooks) (asked : Act) → IsSound books → AllByRecursion IsInRange (effects_of (shown books) asked).changes
        → IsSound (books_after books asked) }
{}
