//! Migrating a store of version 1 to version 2.

ghost use Rattle.std.specs.Prelude.{◌≡◌, ◌≢◌, ◌≤◌, ◌+◌, ◌^◌, ◌⊎◌, ℕ, false, IsTrue, IfErr, OnOk, OnErr, map, length};
ghost use Rattle.sqlite.specs.State.{HasCleanDisk, KeepsCommit, Survives};
ghost use Rattle.sqlite.specs.Held.{state};
ghost use Rattle.sqlite.specs.Effect.{IsDatabase};
ghost use Rattle.sqlite.specs.Tree.{Trees};
ghost use Rattle.std.specs.FinMap.{insert};
ghost use Rattle.ee_store_tables.specs.Rows.{Rows, Has, HasRoom, IsInside, Sees};
ghost use Rattle.ee_store_tables.specs.Statements.{TakesRoom};
ghost use Rattle.ee_store_schema.specs.declared.forms.Form.TheVariants.{Current};
ghost use Rattle.ee_store_tables.specs.Failures.{failure_of};
ghost use Rattle.ee_store_schema.specs.Faults.{FailsForCause, StaysOutside, fault_told};
ghost use Rattle.ee_store_schema.specs.Forms.{HasForm, HadIn};
ghost use Rattle.ee_store_schema.specs.Inner.Forms.{SeesForm, SeesIn};
ghost use Rattle.ee_store_schema.specs.Migrating.{Lists, become, migrated, Migrates, AnswersFit, CanBecome, answer_entry, BondsAndLinesHaveRoom};
ghost use Rattle.ee_store_schema.specs.Inner.Migrating.{BegunIn, unanswered, copied, CanAdd, CanAddAll, HasPlace, FailsIn};

use crate::answers::StoredAnswer;
use crate::faults::OpenFault;
use crate::forms::Form;
use crate::making::{define_extensions, replace_replies};
use ee_store_tables::{Failure, add_answer_texts, set_version};
use sqlite::{Alter, Connection, Error, Transaction};

/// The largest number that fits a column.
const LAST: u64 = 9_223_372_036_854_775_807;

/// Makes the tables of version 2 from those of version 1, without replies.
fn replace_tables<S: Alter>(tx: &mut Transaction<'_, S>, form: Form) -> Result<(), Failure>
    requires earlier { form ≢ Form.Current }
    ensures same_reference { tx.new.conn.ghost_name ≡ tx.old.conn.ghost_name }
    ensures open { HasCleanDisk (state S.Store tx.new.conn.now) → OnOk result (IsTrue (state S.Store tx.new.conn.now).is_open) }
    ensures inside { HasCleanDisk (state S.Store tx.new.conn.now) → OnOk result (BegunIn form (state S.Store tx.old.conn.now)
        → IsInside (state S.Store tx.new.conn.now)) }
    ensures made { HasCleanDisk (state S.Store tx.new.conn.now) → OnOk result ((rows : Rows) → SeesIn form (state S.Store tx.old.conn.now) rows
        → Sees (state S.Store tx.new.conn.now) (unanswered rows)) }
    ensures place { HasCleanDisk (state S.Store tx.new.conn.now) → OnOk result (SeesForm form (state S.Store tx.old.conn.now) → (n : ℕ) → 1 + n ≤ 2 ^ 63
        → HasPlace n (state S.Store tx.new.conn.now)) }
    ensures room { HasCleanDisk (state S.Store tx.new.conn.now) → OnOk result (SeesForm form (state S.Store tx.old.conn.now) → (n : ℕ)
        → BondsAndLinesHaveRoom n (state S.Store tx.old.conn.now).now.trees → 1 + n ≤ 2 ^ 63 → HasRoom n (state S.Store tx.new.conn.now)) }
    ensures cause { FailsIn (λ s. IsTrue s.in_transaction × SeesForm form s) (state S.Store tx.old.conn.now) (state S.Store tx.new.conn.now) result }
    ensures commit { HasCleanDisk (state S.Store tx.new.conn.now) → KeepsCommit (state S.Store tx.old.conn.now) (state S.Store tx.new.conn.now) }
    ensures crash { Survives (state S.Store tx.old.conn.now) (state S.Store tx.new.conn.now) (λ _. ⊥) }
{
    match form {
        Form::Current => Ok(()),
        Form::First => {
            replace_replies(tx)?;
            Ok(())
        }
        Form::Earliest => {
            define_extensions(tx)?;
            replace_replies(tx)?;
            Ok(())
        }
    }
}

/// Writes a reply under its desk and number.
fn add_answer<S: Alter>(tx: &mut Transaction<'_, S>, answer: &StoredAnswer) -> Result<(), Failure>
    ensures same_reference { tx.new.conn.ghost_name ≡ tx.old.conn.ghost_name }
    ensures open { HasCleanDisk (state S.Store tx.new.conn.now) → OnOk result (IsTrue (state S.Store tx.new.conn.now).is_open) }
    ensures inside { HasCleanDisk (state S.Store tx.new.conn.now) → IsInside (state S.Store tx.old.conn.now)
        → OnOk result (IsInside (state S.Store tx.new.conn.now)) }
    ensures added { HasCleanDisk (state S.Store tx.new.conn.now) → OnOk result ((rows : Rows) → Sees (state S.Store tx.old.conn.now) rows
        → Sees (state S.Store tx.new.conn.now)
        (record rows { answers = insert rows.answers (answer.now.desk, answer.now.number) (answer_entry answer.now).1 })) }
    ensures place { HasCleanDisk (state S.Store tx.new.conn.now) → IsInside (state S.Store tx.old.conn.now) → OnOk result ((n : ℕ)
        → HasPlace (n + 1) (state S.Store tx.old.conn.now) → HasPlace n (state S.Store tx.new.conn.now)) }
    ensures room { TakesRoom (state S.Store tx.old.conn.now) (state S.Store tx.new.conn.now) result 1 }
    ensures cause { FailsIn (λ s. IsInside s × (rows : Rows) × Sees s rows × CanAdd rows.answers (answer_entry answer.now)
        × HasPlace 1 s) (state S.Store tx.old.conn.now) (state S.Store tx.new.conn.now) result }
    ensures commit { HasCleanDisk (state S.Store tx.new.conn.now) → KeepsCommit (state S.Store tx.old.conn.now) (state S.Store tx.new.conn.now) }
    ensures crash { Survives (state S.Store tx.old.conn.now) (state S.Store tx.new.conn.now) (λ _. ⊥) }
{
    if answer.desk > LAST || answer.number > LAST {
        return Err(Failure::StoreFailed);
    }
    add_answer_texts(
        tx,
        answer.desk,
        answer.number,
        answer.act.as_str(),
        answer.reply.as_str(),
    )
}

/// Writes replies under their desks and numbers, in order.
fn add_answers<S: Alter>(
    tx: &mut Transaction<'_, S>,
    answers: &[StoredAnswer],
) -> Result<(), Failure>
    ensures same_reference { tx.new.conn.ghost_name ≡ tx.old.conn.ghost_name }
    ensures open { HasCleanDisk (state S.Store tx.new.conn.now) → IsTrue (state S.Store tx.old.conn.now).is_open
        → OnOk result (IsTrue (state S.Store tx.new.conn.now).is_open) }
    ensures inside { HasCleanDisk (state S.Store tx.new.conn.now) → IsInside (state S.Store tx.old.conn.now)
        → OnOk result (IsInside (state S.Store tx.new.conn.now)) }
    ensures added { HasCleanDisk (state S.Store tx.new.conn.now) → OnOk result ((rows : Rows) → Sees (state S.Store tx.old.conn.now) rows
        → Sees (state S.Store tx.new.conn.now) (record rows { answers = copied rows.answers (map answer_entry answers.now) })) }
    ensures place { HasCleanDisk (state S.Store tx.new.conn.now) → IsInside (state S.Store tx.old.conn.now) → OnOk result ((n : ℕ)
        → HasPlace (n + length answers.now) (state S.Store tx.old.conn.now) → HasPlace n (state S.Store tx.new.conn.now)) }
    ensures room { TakesRoom (state S.Store tx.old.conn.now) (state S.Store tx.new.conn.now) result (length answers.now) }
    ensures cause { FailsIn (λ s. IsInside s × (rows : Rows) × Sees s rows × CanAddAll rows.answers (map answer_entry answers.now)
        × HasPlace (length answers.now) s) (state S.Store tx.old.conn.now) (state S.Store tx.new.conn.now) result }
    ensures commit { HasCleanDisk (state S.Store tx.new.conn.now) → KeepsCommit (state S.Store tx.old.conn.now) (state S.Store tx.new.conn.now) }
    ensures crash { Survives (state S.Store tx.old.conn.now) (state S.Store tx.new.conn.now) (λ _. ⊥) }
{
    for answer in answers {
        add_answer(tx, answer)?;
    }
    Ok(())
}

/// Makes the tables of version 2 from those of version 1, with these replies, inside a transaction.
fn migrate_in<S: Alter>(
    tx: &mut Transaction<'_, S>,
    form: Form,
    answers: &[StoredAnswer],
) -> Result<(), Failure>
    requires earlier { form ≢ Form.Current }
    ensures same_reference { tx.new.conn.ghost_name ≡ tx.old.conn.ghost_name }
    ensures open { HasCleanDisk (state S.Store tx.new.conn.now) → OnOk result (IsTrue (state S.Store tx.new.conn.now).is_open) }
    ensures inside { HasCleanDisk (state S.Store tx.new.conn.now) → OnOk result (BegunIn form (state S.Store tx.old.conn.now)
        → IsInside (state S.Store tx.new.conn.now)) }
    ensures made { HasCleanDisk (state S.Store tx.new.conn.now) → OnOk result ((rows : Rows) → SeesIn form (state S.Store tx.old.conn.now) rows
        → Lists answers.now rows → Sees (state S.Store tx.new.conn.now) (migrated rows)) }
    ensures sound { HasCleanDisk (state S.Store tx.new.conn.now) → OnOk result (BegunIn form (state S.Store tx.old.conn.now)
        → IsTrue (state S.Store tx.new.conn.now).is_open → IsDatabase (state S.Store tx.new.conn.now).now) }
    ensures room { HasCleanDisk (state S.Store tx.new.conn.now) → OnOk result ((rows : Rows) → SeesIn form (state S.Store tx.old.conn.now) rows
        → HasForm form (state S.Store tx.old.conn.now) → (n : ℕ)
        → BondsAndLinesHaveRoom (n + length answers.now) (state S.Store tx.old.conn.now).now.trees → 1 + (n + length answers.now) ≤ 2 ^ 63
        → HasRoom n (state S.Store tx.new.conn.now)) }
    ensures cause { FailsIn (λ s. IsTrue s.in_transaction × (rows : Rows) × SeesIn form s rows × HasForm form s
        × Lists answers.now rows × AnswersFit rows) (state S.Store tx.old.conn.now) (state S.Store tx.new.conn.now) result }
    ensures commit { HasCleanDisk (state S.Store tx.new.conn.now) → KeepsCommit (state S.Store tx.old.conn.now) (state S.Store tx.new.conn.now) }
    ensures crash { Survives (state S.Store tx.old.conn.now) (state S.Store tx.new.conn.now) (λ _. ⊥) }
{
    replace_tables(tx, form)?;
    add_answers(tx, answers)?;
    set_version(tx, 2)
}

/// The fault of a commit that failed.
fn commit_fault(error: Error) -> OpenFault
    ensures { result ≡ fault_told (failure_of error) }
{
    OpenFault::from(Failure::from(error))
}

/// Migrates a store of version 1 to version 2, in one transaction, with the same rows. The replies are all that
/// the store keeps, by desk and number, as they were read just before; they belong to the first desk.
///
/// Creates the table of extensions if it is missing, then that of answers, and drops the table of replies.
/// Writes the replies, one by each statement, and sets the version last. A store in the present form isn't
/// changed. An error leaves what was committed. A stop leaves what it could leave before, or version 2 with
/// the same rows and nothing between; after `Ok` in a store of version 1 only that.
/// A store of version 1 then has the room for new rows that its bonds and lines had, less a row for each reply
/// (`room`).
///
/// # Errors
///
/// `NoMemory` if memory is refused, and otherwise `StoreFailed`, for example if the connection is in a
/// transaction. Outside a transaction and without a limit on steps, a store in the present form gives
/// `StoreFailed` only if its device fails during the call or it was shut before. So does a store of version 1
/// if these are its replies and they fit their new rows.
pub fn migrate<S: Alter>(
    conn: &mut Connection<S>,
    form: Form,
    answers: &[StoredAnswer],
) -> Result<(), OpenFault>
    ensures made { HasCleanDisk (state S.Store conn.new) → OnOk result ((rows : Rows) → HadIn form (state S.Store conn.old) rows → Lists answers.now rows
        → Has (state S.Store conn.new) (become form rows)) }
    ensures current { HasCleanDisk (state S.Store conn.new) → OnOk result (HasForm form (state S.Store conn.old) → HasForm Current (state S.Store conn.new)) }
    ensures same { form ≡ Current → conn.new ≡ conn.old }
    ensures room { HasCleanDisk (state S.Store conn.new) → OnOk result ((rows : Rows) → HadIn form (state S.Store conn.old) rows → form ≢ Current → (n : ℕ)
        → BondsAndLinesHaveRoom (n + length answers.now) (state S.Store conn.old).committed.trees → 1 + (n + length answers.now) ≤ 2 ^ 63
        → HasRoom n (state S.Store conn.new)) }
    ensures failed { HasCleanDisk (state S.Store conn.new) → OnErr result (KeepsCommit (state S.Store conn.old) (state S.Store conn.new)) }
    ensures told { IfErr result (λ e. (e ≢ OpenFault.Unusable) × (e ≢ OpenFault.WrongVersion)) }
    ensures cause { FailsForCause (λ s. (s.in_transaction ≡ false) × CanBecome form answers.now s)
        (state S.Store conn.old) (state S.Store conn.new) result }
    ensures ended { OnOk result ((state S.Store conn.new).in_transaction ≡ false) }
    ensures outside { StaysOutside (state S.Store conn.old) (state S.Store conn.new) }
    ensures crash { Survives (state S.Store conn.old) (state S.Store conn.new) (Migrates form answers.now (state S.Store conn.old)) }
    ensures open { HasCleanDisk (state S.Store conn.new) → IsTrue (state S.Store conn.old).is_open → OnOk result (IsTrue (state S.Store conn.new).is_open) }
    ensures durable { HasCleanDisk (state S.Store conn.new) → OnOk result ((form ≡ Current) ⊎ ((db : Trees) → (state S.Store conn.new).may_leave db
        → db ≡ (state S.Store conn.new).committed.trees)) }
{
    if !conn.is_autocommit() {
        return Err(OpenFault::StoreFailed);
    }
    if matches!(form, Form::Current) {
        return Ok(());
    }
    let mut tx = conn.transaction();
    migrate_in(&mut tx, form, answers)?;
    match tx.commit() {
        Ok(()) => Ok(()),
        Err(error) => Err(commit_fault(error)),
    }
}
