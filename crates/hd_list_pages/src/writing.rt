//! Writing a row as JSON.
ghost use Rattle.std.specs.Prelude.{◌≡◌, ◌++◌, OnOk, option_map};
ghost use Rattle.hd_json.specs.Texts.{value_text};
ghost use Rattle.hd_list_pages.specs.Columns.{cell_columns, columns_of};
ghost use Rattle.hd_rules.specs.RefusalTexts.{words_of};
ghost use Rattle.hd_list_pages.specs.Naming.{number_if_any, plain_value, text_if_any};
ghost use Rattle.hd_list_pages.specs.Words.{word_text};
ghost use Rattle.hd_list_pages.specs.Writing.{WritesObject, WritesPart};
ghost use Rattle.hd_list_pages.specs.Writing.{WritesMember, WritesMembers, WritesMoreMembers};

use crate::columns::{command_columns, copy_columns, hold_columns, no_hold_columns, turn_columns};
use crate::names::{
    branch_name, copy_name, home_name_of, patron_name, terminal_name, title_name, title_name_of,
};
use crate::part::{Column, Part, Plain, plain_column};
use crate::words::{Heading, Word};
use hd_catalogue::Catalogue;
use hd_day_text::day_text;
use hd_json::{write_name, write_null, write_number, write_text};
use hd_list_rows::Row;
use hd_rules::{Cell, Refusal, Value};
use std::alloc::{AllocError, Allocator};

/// Writes a text, or that there is none.
fn write_text_if_any(text: Option<&[u8]>, out: &mut Vec<u8>) -> Result<(), AllocError>
    ensures { OnOk result (out.new.items
        ≡ out.old.items ++ value_text (text_if_any (option_map (λ bytes. bytes.now) text.entry))) }
{
    match text {
        Some(text) => write_text(out, text),
        None => write_null(out),
    }
}

/// Writes a number, or that there is none.
fn write_number_if_any(number: Option<u64>, out: &mut Vec<u8>) -> Result<(), AllocError>
    ensures { OnOk result (out.new.items ≡ out.old.items ++ value_text (number_if_any number)) }
{
    match number {
        Some(number) => write_number(out, number),
        None => write_null(out),
    }
}

/// Writes what a member tells, but for days.
fn write_plain<A: Allocator + Copy>(
    catalogue: &Catalogue<A>,
    plain: &Plain,
    out: &mut Vec<u8>,
) -> Result<(), AllocError>
    ensures { OnOk result (out.new.items
        ≡ out.old.items ++ value_text (plain_value catalogue.now plain.now)) }
{
    match *plain {
        Plain::Word(word) => write_text_if_any(text_of(word), out),
        Plain::Refusal(why) => write_text_if_any(words_of(why), out),
        Plain::Number(number) => write_number_if_any(number, out),
        Plain::Copy(copy) => write_text_if_any(copy_name(catalogue, copy), out),
        Plain::TitleOf(copy) => write_text_if_any(title_name_of(catalogue, copy), out),
        Plain::HomeOf(copy) => write_text_if_any(home_name_of(catalogue, copy), out),
        Plain::Title(title) => write_text_if_any(title_name(catalogue, title), out),
        Plain::Branch(branch) => write_text_if_any(branch_name(catalogue, branch), out),
        Plain::Patron(patron) => write_text_if_any(patron_name(catalogue, patron), out),
        Plain::Terminal(terminal) => write_text_if_any(terminal_name(catalogue, terminal), out),
    }
}

/// The text of a word, if there is one.
fn text_of(word: Option<Word>) -> Option<&'static [u8]>
    ensures { option_map (λ bytes. bytes.now) result ≡ option_map word_text word }
{
    match word {
        Some(word) => Some(word.text()),
        None => None,
    }
}

/// The words of a refusal, if there is one.
fn words_of(why: Option<Refusal>) -> Option<&'static [u8]>
    ensures { option_map (λ bytes. bytes.now) result ≡ option_map words_of why }
{
    match why {
        Some(why) => Some(why.words()),
        None => None,
    }
}

/// Writes what a member tells.
fn write_part<A: Allocator + Copy>(
    catalogue: &Catalogue<A>,
    part: &Part,
    out: &mut Vec<u8>,
) -> Result<(), AllocError>
    ensures { OnOk result (WritesPart catalogue.now part.now out.old.items out.new.items) }
{
    match *part {
        Part::Plain(plain) => write_plain(catalogue, &plain, out),
        Part::Day(None) => write_null(out),
        Part::Day(Some(day)) => write_text(out, &day_text(day)),
    }
}

/// Writes a member.
fn write_column<A: Allocator + Copy>(
    catalogue: &Catalogue<A>,
    column: &Column,
    out: &mut Vec<u8>,
) -> Result<(), AllocError>
    ensures { OnOk result (WritesMember catalogue.now column.now out.old.items out.new.items) }
{
    write_name(out, column.heading.text())?;
    write_part(catalogue, &column.part, out)?;
    Ok(())
}

/// Writes members, with commas between them.
fn write_columns<A: Allocator + Copy>(
    catalogue: &Catalogue<A>,
    columns: &[Column],
    out: &mut Vec<u8>,
) -> Result<(), AllocError>
    ensures { OnOk result (WritesMembers catalogue.now columns.now out.old.items out.new.items) }
{
    match columns {
        [] => Ok(()),
        [first, rest @ ..] => {
            write_column(catalogue, first, out)?;
            write_more_columns(catalogue, rest, out)?;
            Ok(())
        }
    }
}

/// Writes members, each behind a comma.
fn write_more_columns<A: Allocator + Copy>(
    catalogue: &Catalogue<A>,
    columns: &[Column],
    out: &mut Vec<u8>,
) -> Result<(), AllocError>
    ensures { OnOk result (WritesMoreMembers catalogue.now columns.now out.old.items out.new.items) }
{
    for column in columns {
        out.push(b',')?;
        write_column(catalogue, column, out)?;
    }
    Ok(())
}

/// Writes an object of these members.
pub(crate) fn write_object<A: Allocator + Copy>(
    catalogue: &Catalogue<A>,
    columns: &[Column],
    out: &mut Vec<u8>,
) -> Result<(), AllocError>
    ensures { OnOk result (WritesObject catalogue.now columns.now out.old.items out.new.items) }
{
    out.push(b'{')?;
    write_columns(catalogue, columns, out)?;
    out.push(b'}')?;
    Ok(())
}

/// Writes a row, by names.
pub(crate) fn write_row<A: Allocator + Copy>(
    catalogue: &Catalogue<A>,
    row: &Row,
    out: &mut Vec<u8>,
) -> Result<(), AllocError>
    ensures { OnOk result (WritesObject catalogue.now (columns_of row.now) out.old.items out.new.items) }
{
    match row {
        Row::Copy { copy, state } => {
            write_object(catalogue, &copy_columns(Word::Copy, *copy, state), out)
        }
        Row::Hold {
            title,
            position,
            hold,
        } => {
            let columns = hold_columns(Word::Hold, *title, Some(*position), hold.patron, hold);
            write_object(catalogue, &columns, out)
        }
        Row::Turn {
            number,
            seat,
            terminal,
            asked,
            reply,
        } => {
            let columns = turn_columns(*number, *seat, *terminal, asked, reply);
            write_object(catalogue, &columns, out)
        }
        Row::Command {
            survivor,
            reply,
            dependent,
        } => write_object(
            catalogue,
            &command_columns(survivor, reply, *dependent),
            out,
        ),
        Row::Before { cell, value } => write_cell(catalogue, Word::Before, cell, value, out),
        Row::After { cell, value } => write_cell(catalogue, Word::After, cell, value, out),
    }
}

/// Writes what a cell has: where a copy is, or a hold.
fn write_cell<A: Allocator + Copy>(
    catalogue: &Catalogue<A>,
    word: Word,
    cell: &Cell,
    value: &Value,
    out: &mut Vec<u8>,
) -> Result<(), AllocError>
    ensures { let columns = cell_columns word cell.now value.now in
        OnOk result (WritesObject catalogue.now columns out.old.items out.new.items) }
{
    match (cell, value) {
        (Cell::Copy(copy), Value::Copy(state)) => {
            write_object(catalogue, &copy_columns(word, *copy, state), out)
        }
        (Cell::Hold(title, patron), Value::Hold(Some(hold))) => {
            let columns = hold_columns(word, *title, None, *patron, hold);
            write_object(catalogue, &columns, out)
        }
        (Cell::Hold(title, patron), Value::Hold(None)) => {
            write_object(catalogue, &no_hold_columns(word, *title, *patron), out)
        }
        _ => write_object(
            catalogue,
            &[plain_column(Heading::Row, Plain::Word(Some(word)))],
            out,
        ),
    }
}
