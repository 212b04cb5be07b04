//! Reads an opening file.
ghost use Rattle.std.specs.Prelude.{◌≡◌, ◌+◌, ◌++◌, ◌∷◌, ◌≤◌, [], IfErr, IfOk, OnErr, OnOk, length};
ghost use Rattle.std.specs.Prelude.{vec_capacity, vec_len};
ghost use Rattle.hd_catalogue.specs.Contents.{told_by};
ghost use Rattle.hd_catalogue.specs.Files.{lines_of};
ghost use Rattle.hd_opening.specs.Files.{IsFirstBad, Tells};
ghost use Rattle.hd_opening.specs.Lines.{row_said, values_said};
ghost use Rattle.hd_opening.specs.declared.cause.OpeningCause.TheVariants.{Memory};

use crate::cause::{OpeningCause, OpeningFault};
use crate::first::read_first;
use crate::hold::read_hold;
use crate::kinds::{read_kept, read_loan, read_sent, read_shelf, read_transit};
use crate::opening::Opening;
use hd_catalogue::{Catalogue, Values, first_line, is_letter, is_long};
use hd_rules::OpeningRow;
use std::alloc::Allocator;

/// Reads an opening file by a catalogue, or names its first bad line and the cause.
///
/// `digest` is the SHA-256 of the catalogue's file. The format is that of docs/opening.md. `Memory` is named
/// only at a line that says a row. Each line after the first is one row.
pub fn read<A: Allocator + Copy>(
    alloc: A,
    catalogue: &Catalogue<A>,
    digest: &[u8; 32],
    bytes: &[u8],
) -> Result<Opening<A>, OpeningFault>
    ensures told { IfOk result (λ opening. Tells catalogue.now digest.now (lines_of bytes.now)
        (told_by opening.rows.items opening.last)) }
    ensures refused { IfErr result (IsFirstBad catalogue.now digest.now (lines_of bytes.now)) }
    ensures lines { IfOk result (λ opening. length (lines_of bytes.now) ≡ length opening.rows.items + 1) }
{
    let first = first_line(bytes);
    let last = match read_first(digest, first.line) {
        Ok(last) => last,
        Err(cause) => return Err(OpeningFault { line: 1, cause }),
    };
    let mut rows = Vec::new(alloc);
    let mut rest = first.after;
    let mut number = 1usize;
    while !rest.is_empty() {
        let next = first_line(rest);
        number += 1;
        let row = match read_row(catalogue, last, next.line) {
            Ok(row) => row,
            Err(cause) => {
                return Err(OpeningFault {
                    line: number,
                    cause,
                });
            }
        };
        if let Err(cause) = keep(&mut rows, row) {
            return Err(OpeningFault {
                line: number,
                cause,
            });
        }
        rest = next.after;
    }
    rows.shrink_to_fit();
    Ok(Opening { rows, last })
}

/// Appends a row to those before it.
///
/// # Errors
/// `Memory`: they fill the room that there is, and there is no more.
fn keep<A: Allocator + Copy>(
    rows: &mut Vec<OpeningRow, A>,
    row: OpeningRow,
) -> Result<(), OpeningCause>
    ensures kept { OnOk result (rows.new.items ≡ rows.old.items ++ row ∷ []) }
    ensures same { OnErr result (rows.new.items ≡ rows.old.items) }
    ensures cause { IfErr result (λ cause. cause ≡ Memory) }
    ensures full { OnErr result (vec_capacity rows.old ≤ vec_len rows.old) }
{
    if rows.push(row).is_err() {
        return Err(OpeningCause::Memory);
    }
    Ok(())
}

/// What a line after the first says.
#[tactic(auto, unfolding(crate::specs::Lines::row_said))]
fn read_row<A: Allocator + Copy>(
    catalogue: &Catalogue<A>,
    last: u32,
    line: &[u8],
) -> Result<OpeningRow, OpeningCause>
    ensures { result ≡ row_said catalogue.now last line.now }
{
    read_values(catalogue, !is_long(line), last, Values::of(line))
}

/// What the values of a line after the first say.
fn read_values<A: Allocator + Copy>(
    catalogue: &Catalogue<A>,
    short: bool,
    last: u32,
    values: Values<'_>,
) -> Result<OpeningRow, OpeningCause>
    ensures { result ≡ values_said short catalogue.now last values.entry }
{
    let mut values = values;
    let Some(kind) = values.take() else {
        return Err(OpeningCause::Kind);
    };
    if is_letter(b'L', kind) {
        read_loan(catalogue, short, values)
    } else if is_letter(b'O', kind) {
        read_shelf(catalogue, short, values)
    } else if is_letter(b'R', kind) {
        read_hold(catalogue, short, last, values)
    } else if is_letter(b'K', kind) {
        read_kept(catalogue, short, values)
    } else if is_letter(b'W', kind) {
        read_sent(catalogue, short, values)
    } else if is_letter(b'U', kind) {
        read_transit(catalogue, short, values)
    } else {
        Err(OpeningCause::Kind)
    }
}
