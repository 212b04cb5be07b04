//! What columns say.
ghost use Rattle.std.specs.Prelude.{◌≡◌, IfErr, IfOk, OnErr};
ghost use Rattle.std.specs.Option.{option_copied};
ghost use Rattle.hd_day_text.specs.Days.{IsDayText};
ghost use Rattle.hd_ask_parts.specs.Acts.{act_word, admits_word};
ghost use Rattle.hd_turn_row.specs.Columns.{AreShown, Says, day_of};
ghost use Rattle.hd_turn_row.specs.Faults.{IsFirstUnread, IsReading};
ghost use Rattle.hd_turn_store.specs.Rows.{kept};

use crate::fault::{Column, RowFault};
use hd_ask_parts::{Act, Admits, Parts};
use hd_catalogue::Catalogue;
use hd_day_text::day_said;
use hd_rules::{BranchNo, CopyNo, Day, PatronNo, TitleNo};
use hd_turn_store::TurnRow;
use std::alloc::Allocator;

/// What a column says that may be empty, or the fault that it says nothing.
type Read<T> = Result<Option<T>, RowFault>;

/// What the columns of a row say, or the first that says nothing.
pub(crate) fn parts_said<A: Allocator + Copy>(
    catalogue: &Catalogue<A>,
    row: &TurnRow<'_>,
) -> Result<Parts, RowFault>
    ensures shown { IfOk result (λ parts. AreShown catalogue.now parts (kept row.now)) }
    ensures fault { IfErr result (IsFirstUnread catalogue.now (kept row.now)) }
{
    Ok(Parts {
        day: own_day(row.day)?,
        act: act_said(row.act)?,
        patron: patron_in(catalogue, row.patron)?,
        copy: copy_in(catalogue, row.copy)?,
        title: title_in(catalogue, row.title)?,
        branch: branch_in(catalogue, row.branch)?,
        admits: admits_if_any(row.admits)?,
        until: day_if_any(Column::Until, row.until)?,
    })
}

/// The transaction day of a text, if it isn't empty.
fn own_day(text: &[u8]) -> Read<Day>
    ensures { IsReading IsDayText (RowFault.NoDay Column.Day) (day_of text.now) result }
{
    match text {
        [] => Ok(None),
        text => day_if_any(Column::Day, Some(text)),
    }
}

/// The day of a text, if there is one.
fn day_if_any(column: Column, text: Option<&[u8]>) -> Read<Day>
    ensures { IsReading IsDayText (RowFault.NoDay column) (option_copied text.entry) result }
{
    let Some(text) = text else {
        return Ok(None);
    };
    match day_said(text) {
        Some(day) => Ok(Some(day)),
        None => Err(RowFault::NoDay(column)),
    }
}

/// The act of a word.
#[tactic(auto, using(crate::proofs::ActLemmas::act_said, crate::proofs::ActLemmas::act_unsaid))]
fn act_said(word: &[u8]) -> Result<Act, RowFault>
    ensures said { IfOk result (λ act. word.now ≡ act_word act) }
    ensures fault { IfErr result (λ fault. fault ≡ RowFault.UnknownWord Column.Act) }
    ensures none { OnErr result ((act : Act) → ¬ (word.now ≡ act_word act)) }
{
    match Act::of_word(word) {
        Some(act) => Ok(act),
        None => Err(RowFault::UnknownWord(Column::Act)),
    }
}

/// What a hold admits by a word, if there is one.
#[tactic(auto, using(crate::proofs::ActLemmas::admits_said, crate::proofs::ActLemmas::admits_unsaid))]
fn admits_if_any(text: Option<&[u8]>) -> Read<Admits>
    ensures { IsReading (λ admits text. text ≡ admits_word admits) (RowFault.UnknownWord Column.Admits)
        (option_copied text.entry) result }
{
    let Some(word) = text else {
        return Ok(None);
    };
    match Admits::of_word(word) {
        Some(admits) => Ok(Some(admits)),
        None => Err(RowFault::UnknownWord(Column::Admits)),
    }
}

/// The patron of a name, if there is one.
fn patron_in<A: Allocator + Copy>(catalogue: &Catalogue<A>, text: Option<&[u8]>) -> Read<PatronNo>
    ensures { IsReading (Says catalogue.now Column.Patron) (RowFault.UnknownName Column.Patron)
        (option_copied text.entry) result }
{
    let unknown = RowFault::UnknownName(Column::Patron);
    match text {
        Some(name) => catalogue.patron(name).map(Some).ok_or(unknown),
        None => Ok(None),
    }
}

/// The copy of a name, if there is one.
fn copy_in<A: Allocator + Copy>(catalogue: &Catalogue<A>, text: Option<&[u8]>) -> Read<CopyNo>
    ensures { IsReading (Says catalogue.now Column.Copy) (RowFault.UnknownName Column.Copy)
        (option_copied text.entry) result }
{
    let unknown = RowFault::UnknownName(Column::Copy);
    match text {
        Some(name) => catalogue.copy(name).map(Some).ok_or(unknown),
        None => Ok(None),
    }
}

/// The title of a name, if there is one.
fn title_in<A: Allocator + Copy>(catalogue: &Catalogue<A>, text: Option<&[u8]>) -> Read<TitleNo>
    ensures { IsReading (Says catalogue.now Column.Title) (RowFault.UnknownName Column.Title)
        (option_copied text.entry) result }
{
    let unknown = RowFault::UnknownName(Column::Title);
    match text {
        Some(name) => catalogue.title(name).map(Some).ok_or(unknown),
        None => Ok(None),
    }
}

/// The branch of a name, if there is one.
fn branch_in<A: Allocator + Copy>(catalogue: &Catalogue<A>, text: Option<&[u8]>) -> Read<BranchNo>
    ensures { IsReading (Says catalogue.now Column.Branch) (RowFault.UnknownName Column.Branch)
        (option_copied text.entry) result }
{
    let unknown = RowFault::UnknownName(Column::Branch);
    match text {
        Some(name) => catalogue.branch(name).map(Some).ok_or(unknown),
        None => Ok(None),
    }
}
