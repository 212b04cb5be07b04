//! A turn's row.

ghost use Rattle.std.specs.Prelude.{◌≡◌, ◌⊎◌, ◌<◌, length, IfErr, IfOk};
ghost use Rattle.std.specs.Option.{option_copied};
ghost use Rattle.sqlite.specs.declared.types.Value.TheVariants.{Text as Words};
ghost use Rattle.hd_turn_store.specs.Words.{bound, bound_value, column, or_null, owned};
ghost use Rattle.hd_turn_store.specs.Faults.{IsReadingFault};
ghost use Rattle.hd_turn_store.specs.Kept.{cells};
ghost use Rattle.hd_turn_store.specs.Rows.{bytes_if, bytes_in, kept, read_cells, text_if, text_in};

use crate::fault::Fault;
use sqlite::Row;
use sqlite::types::{FromSql, ToSql, ValueRef};

/// A turn, as it is kept in a journal. It lends its texts: those of whoever hands it in, or of the row of
/// values that it is read from.
#[derive(Clone, Copy)]
pub struct TurnRow<'a> {
    /// The seat that it came from.
    pub seat: u32,
    /// The name of the terminal that asked.
    pub terminal: &'a [u8],
    /// The transaction's day, or nothing where it has none.
    pub day: &'a [u8],
    /// What was to be done.
    pub act: &'a [u8],
    /// The patron's name.
    pub patron: Option<&'a [u8]>,
    /// The copy's name.
    pub copy: Option<&'a [u8]>,
    /// The title's name.
    pub title: Option<&'a [u8]>,
    /// The name of the branch: where a hold is picked up, or where the terminal stands.
    pub branch: Option<&'a [u8]>,
    /// What a hold admits.
    pub admits: Option<&'a [u8]>,
    /// The last day of a hold or of a loan.
    pub until: Option<&'a [u8]>,
    /// The message's line, where it carried a sequence number.
    pub line: Option<&'a [u8]>,
    /// Done, refused or otherwise: how it went.
    pub outcome: &'a [u8],
    /// The command's number, where there is one.
    pub number: Option<u32>,
    /// The reply.
    pub reply: &'a [u8],
}

impl<'a> TurnRow<'a> {
    /// The turn that a row of values shows.
    ///
    /// # Errors
    /// `Damaged`, where one of them isn't of its column's kind.
    #[tactic(auto, using(crate::proofs::Queries::number_read), unfolding(crate::specs::Rows::read_cells))]
    pub fn of(row: &'a Row) -> Result<TurnRow<'a>, Fault>
        ensures turn { IfOk result (λ turn. kept turn ≡ read_cells row.now) }
        ensures fault { IfErr result IsReadingFault }
    {
        Ok(TurnRow {
            seat: value(row, 0)?,
            terminal: text(row, 1)?,
            day: text(row, 2)?,
            act: text(row, 3)?,
            patron: text_if_any(row, 4)?,
            copy: text_if_any(row, 5)?,
            title: text_if_any(row, 6)?,
            branch: text_if_any(row, 7)?,
            admits: text_if_any(row, 8)?,
            until: text_if_any(row, 9)?,
            line: bytes_if_any(row, 10)?,
            outcome: text(row, 11)?,
            number: value(row, 12)?,
            reply: bytes(row, 13)?,
        })
    }

    /// The values of its columns, in their order.
    #[tactic(auto, unfolding(crate::specs::Kept::cells))]
    pub(crate) fn cells(&self) -> [ValueRef<'a>; 14]
        ensures { bound result ≡ cells (kept self.now) }
    {
        [
            self.seat.to_sql(),
            ValueRef::Text(self.terminal),
            ValueRef::Text(self.day),
            ValueRef::Text(self.act),
            text_or_null(self.patron),
            text_or_null(self.copy),
            text_or_null(self.title),
            text_or_null(self.branch),
            text_or_null(self.admits),
            text_or_null(self.until),
            self.line.to_sql(),
            ValueRef::Text(self.outcome),
            self.number.to_sql(),
            ValueRef::Blob(self.reply),
        ]
    }
}

fn text_or_null(text: Option<&[u8]>) -> ValueRef<'_>
    ensures { bound_value (owned result) ≡ or_null Words (option_copied text.entry) }
{
    text.map_or(ValueRef::Null, ValueRef::Text)
}

/// The value in a column.
pub(crate) fn value<T: FromSql>(row: &Row, at: usize) -> Result<T, Fault>
    ensures value { IfOk result (λ value. T.FromSql.reads_as (column row.now at) value) }
    ensures fault { IfErr result IsReadingFault }
    ensures why { at < length row.now → IfErr result (λ fault. (fault ≡ Fault.Memory)
        ⊎ ((fault ≡ Fault.Damaged) × ¬ T.FromSql.is_readable (column row.now at))) }
{
    row.get(at).map_err(Fault::of_reading)
}

/// The text in a column.
fn text(row: &Row, at: usize) -> Result<&[u8], Fault>
    ensures text { IfOk result (λ text. text.now ≡ text_in (column row.now at)) }
    ensures fault { IfErr result IsReadingFault }
{
    match row.get_ref(at) {
        Ok(ValueRef::Text(text)) => Ok(text),
        _ => Err(Fault::Damaged),
    }
}

/// The text in a column, where it has one.
fn text_if_any(row: &Row, at: usize) -> Result<Option<&[u8]>, Fault>
    ensures text { IfOk result (λ text. option_copied text ≡ text_if (column row.now at)) }
    ensures fault { IfErr result IsReadingFault }
{
    match row.get_ref(at) {
        Ok(ValueRef::Null) => Ok(None),
        Ok(ValueRef::Text(text)) => Ok(Some(text)),
        _ => Err(Fault::Damaged),
    }
}

/// The bytes in a column.
fn bytes(row: &Row, at: usize) -> Result<&[u8], Fault>
    ensures bytes { IfOk result (λ bytes. bytes.now ≡ bytes_in (column row.now at)) }
    ensures fault { IfErr result IsReadingFault }
{
    match row.get_ref(at) {
        Ok(ValueRef::Blob(bytes)) => Ok(bytes),
        _ => Err(Fault::Damaged),
    }
}

/// The bytes in a column, where it has some.
fn bytes_if_any(row: &Row, at: usize) -> Result<Option<&[u8]>, Fault>
    ensures bytes { IfOk result (λ bytes. option_copied bytes ≡ bytes_if (column row.now at)) }
    ensures fault { IfErr result IsReadingFault }
{
    match row.get_ref(at) {
        Ok(ValueRef::Null) => Ok(None),
        Ok(ValueRef::Blob(bytes)) => Ok(Some(bytes)),
        _ => Err(Fault::Damaged),
    }
}
