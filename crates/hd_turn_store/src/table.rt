//! Whether a database has a journal's tables and nothing else, or no table yet.

ghost use Rattle.std.specs.Prelude.{◌≡◌, ◌⊎◌, ◌∷◌, ◌↔◌, [], false, IsTrue, map};
ghost use Rattle.hd_turn_store.specs.Tables.{HasNoRule, IsJournal, column, column_of, no_schema, no_stamps};
ghost use Rattle.hd_turn_store.specs.Tables.{number_index, table_by};
ghost use Rattle.sqlite.specs.Kind.TheVariants.{Integer};

use crate::columns::{COLUMNS, Column, HEAD_COLUMNS};
use sqlite_schema::schema::{Column as Found, Index, Kind, Schema, Stamps, Table};
use sqlite_value::keys::{Collation, Order};
use sqlite_value::value::Value;

/// Whether a column is this one, of a STRICT table.
fn is_column(found: &Found, name: &[u8], kind: Kind, is_needed: bool) -> bool
    ensures { IsTrue result ↔ (found.now ≡ column name.now kind is_needed) }
{
    found.name.as_slice() == name
        && found.kind == kind
        && found.is_strict
        && found.not_null == is_needed
        && matches!(found.default, Value::Null)
        && found.collation == Collation::Binary
}

/// Whether columns are these, in their order.
fn are_columns(found: &[Found], wanted: &[Column]) -> bool
    ensures { IsTrue result ↔ (found.now ≡ map column_of wanted.now) }
{
    if found.len() != wanted.len() {
        return false;
    }
    for at in 0..wanted.len() {
        let Column {
            name,
            kind,
            is_needed,
        } = wanted[at];
        if !is_column(&found[at], name.as_bytes(), kind, is_needed) {
            return false;
        }
    }
    true
}

/// Whether the first column is the table's key, and these are the others.
fn are_keyed(found: &[Found], key: &[u8], wanted: &[Column]) -> bool
    ensures { IsTrue result ↔ (found.now ≡ column key.now Integer false ∷ map column_of wanted.now) }
{
    match found.split_first() {
        Some((first, others)) => is_column(first, key, Kind::Integer, false)
            && are_columns(others, wanted),
        None => false,
    }
}

/// Whether no column has a default that reads the time.
fn is_unstamped(stamps: &Stamps) -> bool
    ensures { IsTrue result ↔ (stamps.now ≡ no_stamps) }
{
    stamps.places.is_empty() && stamps.terms.roots.is_empty() && stamps.formats.is_empty()
}

/// Whether a table has no rule but that of its key.
fn is_without_rule(found: &Table) -> bool
    ensures { IsTrue result ↔ HasNoRule found.now }
{
    found.uniques.is_empty()
        && found.orders.is_empty()
        && found.checks.roots.is_empty()
        && found.references.is_empty()
        && found.computed.is_empty()
        && is_unstamped(&found.stamps)
        && !found.is_counted
}

/// Whether a table has this key as its first column, these others, and no other rule.
fn is_table(found: &Table, name: &[u8], tree: u32, key: &[u8], wanted: &[Column]) -> bool
    ensures { IsTrue result ↔ (found.now ≡ table_by name.now tree key.now (map column_of wanted.now)) }
{
    found.name.as_slice() == name
        && found.tree == tree
        && are_keyed(found.columns.as_slice(), key, wanted)
        && found.key == Some(0)
        && found.primary.as_slice() == [0].as_slice()
        && is_without_rule(found)
}

/// Whether it is the index of turns by number.
fn is_number_index(found: &Index) -> bool
    ensures { IsTrue result ↔ (found.now ≡ number_index) }
{
    found.name.as_slice() == b"turn_number".as_slice()
        && found.tree == 2
        && found.table == 1
        && found.columns.as_slice() == [14].as_slice()
        && found.order == Order::PLAIN
        && !found.is_unique
}

/// Whether there is no index, or that of turns by number alone.
fn are_indexes(found: &[Index]) -> bool
    ensures { IsTrue result ↔ ((found.now ≡ number_index ∷ []) ⊎ (found.now ≡ [])) }
{
    match found {
        [] => true,
        [only] => is_number_index(only),
        _ => false,
    }
}

/// Whether a database has the two tables of a journal, perhaps their index, and nothing else.
pub fn is_journal(schema: &Schema) -> bool
    ensures { IsTrue result ↔ IsJournal schema.now }
{
    match schema.tables.as_slice() {
        [journal, turn] => is_table(journal, b"journal", 0, b"only", &HEAD_COLUMNS)
            && is_table(turn, b"turn", 1, b"at", &COLUMNS)
            && are_indexes(schema.indexes.as_slice())
            && schema.views.is_empty(),
        _ => false,
    }
}

/// Whether a database has no table, index or view, as that of a new file.
pub fn is_blank(schema: &Schema) -> bool
    ensures { IsTrue result ↔ schema.now ≡ no_schema }
{
    schema.tables.is_empty() && schema.indexes.is_empty() && schema.views.is_empty()
}
