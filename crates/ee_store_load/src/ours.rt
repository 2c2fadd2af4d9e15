//! The form in which a store has the tables of this program.

ghost use Rattle.std.specs.Prelude.{◌≡◌, ◌↔◌, true, false, [], ◌∷◌, Some, All, IsTrue};
ghost use Rattle.sqlite_value.specs.declared.value.Value.TheVariants.{Null};
ghost use Rattle.sqlite_value.specs.declared.keys.Collation.TheVariants.{Binary};
ghost use Rattle.sqlite_value.specs.Keys.{plain};
ghost use Rattle.ee_store_tables.specs.Tables.{
  counter_schema,
  HasCounterTables,
  number_column,
  optional_column,
  text_column,
  keyed_table,
  pair_table,
  index_on,
  desk,
  rates,
  bonds,
  tickets,
  paid,
  batches,
  extensions,
  answers,
};
ghost use Rattle.ee_store_schema.specs.declared.forms.Form.{Form};
ghost use Rattle.ee_store_schema.specs.Forms.{replies, first_tables, earliest_tables, IsIn};
ghost use Rattle.ee_store_schema.specs.Making.{no_tables};
ghost use Rattle.ee_store_load.specs.Inner.Opening.{common_tables, IsOtherTable, IsOtherIndex, IsView};

use ee_store_schema::Form;
use sqlite_items::Items;
use sqlite_schema::code::Terms;
use sqlite_schema::schema::{Column, Index, Kind, Schema, Stamps, Table, View};
use sqlite_value::keys::Collation;
use sqlite_value::value::{Bytes, Value};

fn is_name(name: &Bytes, wanted: &str) -> bool
    ensures { (result ≡ true) ↔ (name.now ≡ wanted.now) }
{
    name.as_slice() == wanted.as_bytes()
}

/// Whether this is a column of a STRICT table, without a default.
fn is_column(column: &Column, name: &str, kind: Kind, not_null: bool) -> bool
    ensures { (result ≡ true) ↔ (column.now
        ≡ record { name = name.now; kind = kind; is_strict = true; not_null = not_null; default = Null; collation = Binary }) }
{
    is_name(&column.name, name)
        && column.kind == kind
        && column.is_strict
        && column.not_null == not_null
        && matches!(column.default, Value::Null)
        && column.collation == Collation::Binary
}

fn is_number(column: &Column, name: &str) -> bool
    ensures { (result ≡ true) ↔ (column.now ≡ number_column name.now) }
{
    is_column(column, name, Kind::Integer, true)
}

fn is_optional(column: &Column, name: &str) -> bool
    ensures { (result ≡ true) ↔ (column.now ≡ optional_column name.now) }
{
    is_column(column, name, Kind::Integer, false)
}

fn is_text(column: &Column, name: &str) -> bool
    ensures { (result ≡ true) ↔ (column.now ≡ text_column name.now) }
{
    is_column(column, name, Kind::Text, true)
}

fn is_pair(places: &Items<usize>, first: usize, second: usize) -> bool
    ensures { (result ≡ true) ↔ (places.now ≡ first ∷ second ∷ []) }
{
    match places.as_slice() {
        [a, b] => *a == first && *b == second,
        _ => false,
    }
}

fn has_no_terms(terms: &Terms) -> bool
    ensures { (result ≡ true) ↔ (terms.now ≡ []) }
{
    terms.roots.is_empty()
}

fn has_no_stamps(stamps: &Stamps) -> bool
    ensures { (result ≡ true) ↔ (stamps.now ≡ record { places = []; terms = []; formats = [] }) }
{
    stamps.places.is_empty() && has_no_terms(&stamps.terms) && stamps.formats.is_empty()
}

/// Whether a table has this name and tree, and no rules except those of its columns and keys.
fn is_plain_table(table: &Table, name: &str, tree: u32) -> bool
    ensures { (result ≡ true) ↔ (table.now
        ≡ record (keyed_table name.now tree table.now.columns) {
          key = table.now.key;
          primary = table.now.primary;
          uniques = table.now.uniques;
          orders = table.now.orders;
        }) }
{
    is_name(&table.name, name)
        && table.tree == tree
        && has_no_terms(&table.checks)
        && table.references.is_empty()
        && table.computed.is_empty()
        && has_no_stamps(&table.stamps)
        && !table.is_counted
}

/// Whether the first column is the rowid.
fn is_keyed(table: &Table, name: &str, tree: u32) -> bool
    ensures { (result ≡ true) ↔ (table.now ≡ keyed_table name.now tree table.now.columns) }
{
    is_plain_table(table, name, tree)
        && matches!(table.key, Some(0))
        && matches!(table.primary.as_slice(), [0])
        && table.uniques.is_empty()
        && table.orders.is_empty()
}

/// Whether the first two columns are the key, whatever else is unique.
fn is_paired(table: &Table, name: &str, tree: u32) -> bool
    ensures { (result ≡ true) ↔ (table.now ≡ record (pair_table name.now tree table.now.columns) { uniques = table.now.uniques; orders = table.now.orders }) }
{
    is_plain_table(table, name, tree) && table.key.is_none() && is_pair(&table.primary, 1, 2)
}

fn has_desk_columns(columns: &[Column]) -> bool
    ensures { (result ≡ true) ↔ (columns.now ≡ desk.columns) }
{
    let [id, version, day, last_day] = columns else {
        return false;
    };
    is_number(id, "id")
        && is_number(version, "version")
        && is_optional(day, "day")
        && is_optional(last_day, "last_day")
}

fn is_desk(table: &Table) -> bool
    ensures { (result ≡ true) ↔ (table.now ≡ desk) }
{
    is_keyed(table, "desk", 0) && has_desk_columns(table.columns.as_slice())
}

fn is_rates(table: &Table) -> bool
    ensures { (result ≡ true) ↔ (table.now ≡ rates) }
{
    let [period, rate] = table.columns.as_slice() else {
        return false;
    };
    is_keyed(table, "rates", 1) && is_number(period, "period") && is_number(rate, "rate")
}

fn has_one_key(table: &Table) -> bool
    ensures { (result ≡ true) ↔ (table.now ≡ record table.now { uniques = (1 ∷ 2 ∷ []) ∷ []; orders = plain ∷ [] }) }
{
    let [key] = table.uniques.as_slice() else {
        return false;
    };
    let [order] = table.orders.as_slice() else {
        return false;
    };
    is_pair(key, 1, 2) && order.digits == 0
}

fn has_two_keys(table: &Table) -> bool
    ensures { (result ≡ true) ↔ (table.now ≡ record table.now { uniques = (1 ∷ 2 ∷ []) ∷ (3 ∷ 4 ∷ []) ∷ []; orders = plain ∷ plain ∷ [] }) }
{
    let [key, bond] = table.uniques.as_slice() else {
        return false;
    };
    let [first, second] = table.orders.as_slice() else {
        return false;
    };
    is_pair(key, 1, 2) && is_pair(bond, 3, 4) && first.digits == 0 && second.digits == 0
}

fn has_bond_columns(columns: &[Column]) -> bool
    ensures { (result ≡ true) ↔ (columns.now ≡ bonds.columns) }
{
    let [letter, number, denom, issued, owner, coowner, ticket] = columns else {
        return false;
    };
    is_number(letter, "letter")
        && is_number(number, "number")
        && is_number(denom, "denom")
        && is_number(issued, "issued")
        && is_number(owner, "owner")
        && is_optional(coowner, "coowner")
        && is_optional(ticket, "ticket")
}

fn is_bonds(table: &Table) -> bool
    ensures { (result ≡ true) ↔ (table.now ≡ bonds) }
{
    is_paired(table, "bonds", 2) && has_one_key(table) && has_bond_columns(table.columns.as_slice())
}

/// Tests all five with `&`, so that the proof has one result to decide.
fn has_ticket_columns(columns: &[Column]) -> bool
    ensures { (result ≡ true) ↔ (columns.now ≡ tickets.columns) }
{
    let [ticket, day, payee, bonds, total] = columns else {
        return false;
    };
    is_number(ticket, "ticket")
        & is_number(day, "day")
        & is_number(payee, "payee")
        & is_number(bonds, "bonds")
        & is_number(total, "total")
}

fn is_tickets(table: &Table) -> bool
    ensures { (result ≡ true) ↔ (table.now ≡ tickets) }
{
    is_keyed(table, "tickets", 5) && has_ticket_columns(table.columns.as_slice())
}

/// Tests all five with `&`, so that the proof has one result to decide.
fn has_line_columns(columns: &[Column]) -> bool
    ensures { (result ≡ true) ↔ (columns.now ≡ paid.columns) }
{
    let [ticket, place, letter, number, cents] = columns else {
        return false;
    };
    is_number(ticket, "ticket")
        & is_number(place, "place")
        & is_number(letter, "letter")
        & is_number(number, "number")
        & is_number(cents, "cents")
}

fn is_paid(table: &Table) -> bool
    ensures { (result ≡ true) ↔ (table.now ≡ paid) }
{
    is_paired(table, "paid", 7) && has_two_keys(table) && has_line_columns(table.columns.as_slice())
}

fn has_batch_columns(columns: &[Column]) -> bool
    ensures { (result ≡ true) ↔ (columns.now ≡ batches.columns) }
{
    let [day, tickets, bonds, total] = columns else {
        return false;
    };
    is_number(day, "day")
        && is_number(tickets, "tickets")
        && is_number(bonds, "bonds")
        && is_number(total, "total")
}

fn is_batches(table: &Table) -> bool
    ensures { (result ≡ true) ↔ (table.now ≡ batches) }
{
    is_keyed(table, "batches", 10) && has_batch_columns(table.columns.as_slice())
}

fn is_replies(table: &Table) -> bool
    ensures { (result ≡ true) ↔ (table.now ≡ replies) }
{
    let [number, act, reply] = table.columns.as_slice() else {
        return false;
    };
    is_keyed(table, "replies", 11)
        && is_number(number, "number")
        && is_text(act, "act")
        && is_text(reply, "reply")
}

fn is_extensions(table: &Table) -> bool
    ensures { (result ≡ true) ↔ (table.now ≡ extensions) }
{
    let [period, rate] = table.columns.as_slice() else {
        return false;
    };
    is_keyed(table, "extensions", 12) && is_number(period, "period") && is_number(rate, "rate")
}

fn has_answer_columns(columns: &[Column]) -> bool
    ensures { (result ≡ true) ↔ (columns.now ≡ answers.columns) }
{
    let [desk, number, act, reply] = columns else {
        return false;
    };
    is_number(desk, "desk")
        && is_number(number, "number")
        && is_text(act, "act")
        && is_text(reply, "reply")
}

fn is_answers(table: &Table) -> bool
    ensures { (result ≡ true) ↔ (table.now ≡ answers) }
{
    is_paired(table, "answers", 13)
        && has_one_key(table)
        && has_answer_columns(table.columns.as_slice())
}

/// Whether an index has this name, tree and table, with all columns ascending.
fn is_index(index: &Index, name: &str, tree: u32, table: u32, columns: &[usize]) -> bool
    ensures { (result ≡ true) ↔ (index.now
        ≡ record { name = name.now; tree = tree; table = table; columns = columns.now; order = plain; is_unique = index.now.is_unique }) }
{
    is_name(&index.name, name)
        && index.tree == tree
        && index.table == table
        && index.columns.as_slice() == columns
        && index.order.digits == 0
}

fn is_plain(index: &Index, name: &str, tree: u32, table: u32, columns: &[usize]) -> bool
    ensures { (result ≡ true) ↔ (index.now ≡ index_on name.now tree table columns.now) }
{
    is_index(index, name, tree, table, columns) && !index.is_unique
}

fn is_key(index: &Index, name: &str, tree: u32, table: u32, columns: &[usize]) -> bool
    ensures { (result ≡ true) ↔ (index.now ≡ record (index_on name.now tree table columns.now) { is_unique = true }) }
{
    is_index(index, name, tree, table, columns) && index.is_unique
}

/// Whether these are the six tables that every form has.
fn are_common(tables: &[Table]) -> bool
    ensures { (result ≡ true) ↔ (tables.now ≡ common_tables) }
{
    let [desk, rates, bonds, tickets, paid, batches] = tables else {
        return false;
    };
    is_desk(desk)
        && is_rates(rates)
        && is_bonds(bonds)
        && is_tickets(tickets)
        && is_paid(paid)
        && is_batches(batches)
}

/// Whether these are the five indexes that every form has.
fn are_common_indexes(indexes: &[Index]) -> bool
    ensures { (result ≡ true) ↔ (indexes.now ≡ first_tables.indexes) }
{
    let [bond, owner, day, line, payment] = indexes else {
        return false;
    };
    is_key(bond, "sqlite_autoindex_bonds_1", 3, 2, &[1, 2])
        & is_plain(owner, "bonds_owner", 4, 2, &[5, 1, 2])
        & is_plain(day, "tickets_day", 6, 5, &[2, 0])
        & is_key(line, "sqlite_autoindex_paid_1", 8, 7, &[1, 2])
        & is_key(payment, "sqlite_autoindex_paid_2", 9, 7, &[3, 4])
}

/// Whether these are the indexes of version 2: the five, and that of the answers' key.
fn are_current_indexes(indexes: &[Index]) -> bool
    ensures { (result ≡ true) ↔ (indexes.now ≡ counter_schema.indexes) }
{
    let Some((last, common)) = indexes.split_last() else {
        return false;
    };
    are_common_indexes(common) && is_key(last, "sqlite_autoindex_answers_1", 14, 13, &[1, 2])
}

/// Whether there is no table, index or view.
pub(crate) fn has_no_tables(schema: &Schema) -> bool
    ensures { (result ≡ true) ↔ (schema.now ≡ no_tables) }
{
    schema.tables.is_empty() && schema.indexes.is_empty() && schema.views.is_empty()
}

/// Whether these are the eight tables of version 2.
fn are_current_tables(tables: &[Table]) -> bool
    ensures { (result ≡ true) ↔ (tables.now ≡ counter_schema.tables) }
{
    let Some((common, more)) = tables.split_at_checked(6) else {
        return false;
    };
    let [extensions, answers] = more else {
        return false;
    };
    are_common(common) && is_extensions(extensions) && is_answers(answers)
}

/// Whether a table has a tree behind the program's, and no foreign key.
fn is_other_table(table: &Table) -> bool
    ensures { (result ≡ true) ↔ IsOtherTable table.now }
{
    table.tree > 14 && table.references.is_empty()
}

/// Whether an index is on a table whose tree is behind the program's.
fn is_other_index(index: &Index) -> bool
    ensures { (result ≡ true) ↔ IsOtherIndex index.now }
{
    index.table > 14
}

fn are_other_tables(tables: &[Table]) -> bool
    ensures { IsTrue result ↔ All IsOtherTable tables.now }
{
    tables.iter().all(|table| is_other_table(table))
}

fn are_other_indexes(indexes: &[Index]) -> bool
    ensures { IsTrue result ↔ All IsOtherIndex indexes.now }
{
    indexes.iter().all(|index| is_other_index(index))
}

/// Whether this is a view, and no table or index that `sqlite` keeps as it is.
fn is_view(view: &View) -> bool
    ensures { (result ≡ true) ↔ IsView view.now }
{
    view.foreign.is_none()
}

fn are_views(views: &[View]) -> bool
    ensures { IsTrue result ↔ All IsView views.now }
{
    views.iter().all(|view| is_view(view))
}

/// Whether the schema begins with the tables and the indexes of version 2, and others' follow them.
fn is_current(schema: &Schema) -> bool
    ensures { (result ≡ true) ↔ HasCounterTables schema.now }
{
    let Some((tables, other_tables)) = schema.tables.as_slice().split_at_checked(8) else {
        return false;
    };
    let Some((indexes, other_indexes)) = schema.indexes.as_slice().split_at_checked(6) else {
        return false;
    };
    are_current_tables(tables)
        & are_current_indexes(indexes)
        & are_other_tables(other_tables)
        & are_other_indexes(other_indexes)
        & are_views(schema.views.as_slice())
}

/// Whether these are the tables of version 1.
fn are_first_tables(tables: &[Table]) -> bool
    ensures { (result ≡ true) ↔ (tables.now ≡ first_tables.tables) }
{
    let Some((common, more)) = tables.split_at_checked(6) else {
        return false;
    };
    let [replies, extensions] = more else {
        return false;
    };
    are_common(common) && is_replies(replies) && is_extensions(extensions)
}

/// Whether these are the tables of version 1 before extensions existed.
fn are_earliest_tables(tables: &[Table]) -> bool
    ensures { (result ≡ true) ↔ (tables.now ≡ earliest_tables.tables) }
{
    let Some((common, more)) = tables.split_at_checked(6) else {
        return false;
    };
    let [replies] = more else {
        return false;
    };
    are_common(common) && is_replies(replies)
}

fn is_first(schema: &Schema) -> bool
    ensures { (result ≡ true) ↔ (schema.now ≡ first_tables) }
{
    are_first_tables(schema.tables.as_slice())
        && are_common_indexes(schema.indexes.as_slice())
        && schema.views.is_empty()
}

fn is_earliest(schema: &Schema) -> bool
    ensures { (result ≡ true) ↔ (schema.now ≡ earliest_tables) }
{
    are_earliest_tables(schema.tables.as_slice())
        && are_common_indexes(schema.indexes.as_slice())
        && schema.views.is_empty()
}

/// The form of the tables, if the schema has those of this program.
pub(crate) fn form_of(schema: &Schema) -> Option<Form>
    ensures { (form : Form) → (result ≡ Some form) ↔ IsIn form schema.now }
{
    if is_current(schema) {
        return Some(Form::Current);
    }
    if is_first(schema) {
        return Some(Form::First);
    }
    is_earliest(schema).then_some(Form::Earliest)
}
