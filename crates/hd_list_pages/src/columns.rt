//! The members of each row.
ghost use Rattle.std.specs.Prelude.{◌≡◌, Some, None};
ghost use Rattle.hd_list_pages.specs.Columns.{command_columns, copy_columns, hold_columns, title_part};
ghost use Rattle.hd_list_pages.specs.Columns.{turn_columns};

use crate::asked::{asked_parts, due_told, number_told, outcome_word, reply_due, why_refused};
use crate::part::{Column, Plain, day_column, plain_column};
use crate::state::state_parts;
use crate::words::{Heading, Word};
use hd_ask_parts::{admits_of, command_parts, copy_of};
use hd_rules::{
    Asked, CopyNo, CopyState, Hold, PatronNo, Reply, SeatNo, Survivor, TerminalNo, TitleNo,
    TurnReply,
};

/// A copy, and where it is.
pub(crate) fn copy_columns(word: Word, copy: CopyNo, state: &CopyState) -> [Column; 11]
    ensures { result ≡ copy_columns word copy state.now }
{
    let parts = state_parts(state);
    [
        plain_column(Heading::Row, Plain::Word(Some(word))),
        plain_column(Heading::Copy, Plain::Copy(Some(copy))),
        plain_column(Heading::Title, Plain::TitleOf(Some(copy))),
        plain_column(Heading::Home, Plain::HomeOf(Some(copy))),
        plain_column(Heading::State, Plain::Word(Some(parts.word))),
        plain_column(Heading::Branch, Plain::Branch(parts.branch)),
        plain_column(Heading::To, Plain::Branch(parts.to)),
        plain_column(Heading::Place, Plain::Number(parts.place)),
        plain_column(Heading::Patron, Plain::Patron(parts.patron)),
        day_column(Heading::Due, parts.due),
        plain_column(Heading::Renewals, Plain::Number(parts.renewals)),
    ]
}

/// A patron's hold of a title.
pub(crate) fn hold_columns(
    word: Word,
    title: TitleNo,
    position: Option<u64>,
    patron: PatronNo,
    hold: &Hold,
) -> [Column; 10]
    ensures { result ≡ hold_columns word title position patron (Some hold.now) }
{
    [
        plain_column(Heading::Row, Plain::Word(Some(word))),
        plain_column(Heading::Title, Plain::Title(Some(title))),
        plain_column(Heading::Position, Plain::Number(position)),
        plain_column(Heading::Patron, Plain::Patron(Some(patron))),
        plain_column(Heading::Stamp, Plain::Number(Some(hold.stamp))),
        plain_column(
            Heading::Admits,
            Plain::Word(Some(Word::Admits(admits_of(&hold.kind)))),
        ),
        plain_column(Heading::Only, Plain::Copy(copy_of(&hold.kind))),
        plain_column(Heading::Pickup, Plain::Branch(Some(hold.pickup))),
        day_column(Heading::Until, hold.expiry),
        plain_column(Heading::Copy, Plain::Copy(hold.copy)),
    ]
}

/// A patron's cell without a hold of the title.
pub(crate) fn no_hold_columns(word: Word, title: TitleNo, patron: PatronNo) -> [Column; 10]
    ensures { result ≡ hold_columns word title None patron None }
{
    [
        plain_column(Heading::Row, Plain::Word(Some(word))),
        plain_column(Heading::Title, Plain::Title(Some(title))),
        plain_column(Heading::Position, Plain::Number(None)),
        plain_column(Heading::Patron, Plain::Patron(Some(patron))),
        plain_column(Heading::Stamp, Plain::Number(None)),
        plain_column(Heading::Admits, Plain::Word(None)),
        plain_column(Heading::Only, Plain::Copy(None)),
        plain_column(Heading::Pickup, Plain::Branch(None)),
        day_column(Heading::Until, None),
        plain_column(Heading::Copy, Plain::Copy(None)),
    ]
}

/// A turn.
pub(crate) fn turn_columns(
    number: u64,
    seat: SeatNo,
    terminal: TerminalNo,
    asked: &Asked,
    reply: &TurnReply,
) -> [Column; 15]
    ensures { result ≡ turn_columns number seat terminal asked.now reply.now }
{
    let parts = asked_parts(asked);
    [
        plain_column(Heading::Row, Plain::Word(Some(Word::Turn))),
        plain_column(Heading::Turn, Plain::Number(Some(number))),
        plain_column(Heading::Seat, Plain::Number(Some(u64::from(seat.number())))),
        plain_column(Heading::Terminal, Plain::Terminal(terminal)),
        plain_column(Heading::Asked, Plain::Word(Some(parts.word))),
        day_column(Heading::Day, parts.day),
        plain_column(Heading::Patron, Plain::Patron(parts.patron)),
        plain_column(Heading::Copy, Plain::Copy(parts.copy)),
        plain_column(Heading::Title, title_part(parts.title, parts.copy)),
        plain_column(Heading::Branch, Plain::Branch(parts.branch)),
        day_column(Heading::Until, parts.until),
        plain_column(Heading::Outcome, Plain::Word(Some(outcome_word(reply)))),
        plain_column(Heading::Number, Plain::Number(number_told(reply))),
        plain_column(Heading::Why, Plain::Refusal(why_refused(reply))),
        day_column(Heading::Due, due_told(reply)),
    ]
}

/// A command, and the first that depends on it.
pub(crate) fn command_columns(
    survivor: &Survivor,
    reply: &Reply,
    dependent: Option<u64>,
) -> [Column; 12]
    ensures { result ≡ command_columns survivor.now reply.now dependent }
{
    let parts = command_parts(&survivor.command);
    [
        plain_column(Heading::Row, Plain::Word(Some(Word::Command))),
        plain_column(Heading::Command, Plain::Number(Some(survivor.number))),
        plain_column(Heading::Terminal, Plain::Terminal(survivor.terminal)),
        plain_column(Heading::Asked, Plain::Word(Some(Word::Act(parts.act)))),
        day_column(Heading::Day, parts.day),
        plain_column(Heading::Patron, Plain::Patron(parts.patron)),
        plain_column(Heading::Copy, Plain::Copy(parts.copy)),
        plain_column(Heading::Title, title_part(parts.title, parts.copy)),
        plain_column(Heading::Branch, Plain::Branch(parts.branch)),
        day_column(Heading::Until, parts.until),
        day_column(Heading::Due, reply_due(reply)),
        plain_column(Heading::Dependent, Plain::Number(dependent)),
    ]
}

/// The title that is named, or else that of the copy.
fn title_part(title: Option<TitleNo>, copy: Option<CopyNo>) -> Plain
    ensures { result ≡ title_part title copy }
{
    match title {
        Some(title) => Plain::Title(Some(title)),
        None => Plain::TitleOf(copy),
    }
}
