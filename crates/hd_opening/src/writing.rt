//! Writes an opening file.
ghost use Rattle.std.specs.Prelude.{◌≡◌, ◌++◌, ◌∷◌, [], All, IfOk, List, OnOk, ℕ};
ghost use Rattle.hd_catalogue.specs.Contents.{facts_of, told_by};
ghost use Rattle.hd_catalogue.specs.Files.{lines_of};
ghost use Rattle.hd_rules.specs.Known.{IsKnownRow};
ghost use Rattle.hd_opening.specs.Files.{AreInLimits, IsDigest, IsOpeningText, Tells, heading_line};
ghost use Rattle.hd_opening.specs.Pieces.{ArePieceTexts, IsKnownPiece, IsPieceText, IsWithLine, admits_piece};
ghost use Rattle.hd_opening.specs.Pieces.{admits_text, behind_bars, copy_piece, day_piece};

use crate::days::day_text;
use crate::first::digest_text;
use crate::piece::{Admits, Piece};
use hd_catalogue::Catalogue;
use hd_rules::{CopyNo, Day, Hold, HoldKind, Loan, OpeningRow, PatronNo, TitleNo};
use itoa::Buffer;
use std::alloc::{AllocError, Allocator};

/// The text of an opening file: its first line, and a line for each row, in order. `last` is the last number
/// that was given before, and `digest` the SHA-256 of the catalogue's file. Where a line can say each, `read`
/// reads the same from it.
///
/// # Errors
/// Out of memory.
pub fn write<A: Allocator + Copy>(
    alloc: A,
    catalogue: &Catalogue<A>,
    rows: &[OpeningRow],
    last: u32,
    digest: &[u8; 32],
) -> Result<Vec<u8, A>, AllocError>
    requires known { All (IsKnownRow (facts_of catalogue.now)) rows.now }
    ensures text { IfOk result (λ text. IsOpeningText catalogue.now digest.now (told_by rows.now last)
        text.items) }
    ensures read_back { IsDigest digest.now → AreInLimits (told_by rows.now last) → IfOk result (λ text.
        Tells catalogue.now digest.now (lines_of text.items) (told_by rows.now last)) }
{
    opening_text(alloc, catalogue, rows, last, digest)
}

/// The text of an opening file, as `write`.
///
/// # Errors
/// Out of memory.
fn opening_text<A: Allocator + Copy>(
    alloc: A,
    catalogue: &Catalogue<A>,
    rows: &[OpeningRow],
    last: u32,
    digest: &[u8; 32],
) -> Result<Vec<u8, A>, AllocError>
    requires known { All (IsKnownRow (facts_of catalogue.now)) rows.now }
    ensures text { IfOk result (λ text. IsOpeningText catalogue.now digest.now (told_by rows.now last)
        text.items) }
{
    let mut out = Vec::new(alloc);
    put_first(&mut out, last, digest)?;
    for row in rows {
        put_row(catalogue, &mut out, row)?;
    }
    Ok(out)
}

/// Appends the first line.
fn put_first<A: Allocator>(
    out: &mut Vec<u8, A>,
    last: u32,
    digest: &[u8; 32],
) -> Result<(), AllocError>
    ensures { OnOk result (out.new.items ≡ out.old.items ++ heading_line digest.now last ++ 10 ∷ []) }
{
    out.extend_from_slice(b"H|opening|1|")?;
    let mut buffer = Buffer::new();
    out.extend_from_slice(buffer.format(last).as_bytes())?;
    out.push(b'|')?;
    out.extend_from_slice(&digest_text(digest))?;
    out.push(b'\n')?;
    Ok(())
}

/// Appends the line of a row.
fn put_row<A: Allocator + Copy>(
    catalogue: &Catalogue<A>,
    out: &mut Vec<u8, A>,
    row: &OpeningRow,
) -> Result<(), AllocError>
    requires known { IsKnownRow (facts_of catalogue.now) row.now }
    ensures { OnOk result (IsWithLine catalogue.now row.now out.old.items out.new.items) }
{
    match row {
        OpeningRow::Loan { copy, loan } => put_loan(catalogue, out, *copy, loan),
        OpeningRow::OpenShelf { copy, branch } => put_line(
            catalogue,
            out,
            b'O',
            &[Piece::Copy(*copy), Piece::Branch(*branch)],
        ),
        OpeningRow::Hold { title, hold } => put_hold(catalogue, out, *title, hold),
        OpeningRow::HoldShelf {
            copy,
            patron,
            place,
        } => put_kept(catalogue, out, *copy, *patron, *place),
        OpeningRow::HoldTransit { copy, patron, from } => put_line(
            catalogue,
            out,
            b'W',
            &[
                Piece::Copy(*copy),
                Piece::Patron(*patron),
                Piece::Branch(*from),
            ],
        ),
        OpeningRow::Transit { copy, from, to } => put_line(
            catalogue,
            out,
            b'U',
            &[Piece::Copy(*copy), Piece::Branch(*from), Piece::Branch(*to)],
        ),
    }
}

/// Appends the line of a loan.
fn put_loan<A: Allocator + Copy>(
    catalogue: &Catalogue<A>,
    out: &mut Vec<u8, A>,
    copy: CopyNo,
    loan: &Loan,
) -> Result<(), AllocError>
    requires known { IsKnownRow (facts_of catalogue.now) (OpeningRow.Loan copy loan.now) }
    ensures { OnOk result
        (IsWithLine catalogue.now (OpeningRow.Loan copy loan.now) out.old.items out.new.items) }
{
    put_line(
        catalogue,
        out,
        b'L',
        &[
            Piece::Copy(copy),
            Piece::Patron(loan.patron),
            Piece::Day(loan.due),
            Piece::Number(u64::from(loan.renewals)),
        ],
    )
}

/// Appends the line of a hold.
fn put_hold<A: Allocator + Copy>(
    catalogue: &Catalogue<A>,
    out: &mut Vec<u8, A>,
    title: TitleNo,
    hold: &Hold,
) -> Result<(), AllocError>
    requires known { IsKnownRow (facts_of catalogue.now) (OpeningRow.Hold title hold.now) }
    ensures { OnOk result
        (IsWithLine catalogue.now (OpeningRow.Hold title hold.now) out.old.items out.new.items) }
{
    put_line(
        catalogue,
        out,
        b'R',
        &[
            Piece::Title(title),
            Piece::Patron(hold.patron),
            Piece::Number(hold.stamp),
            admits_piece(&hold.kind),
            copy_piece(&hold.kind),
            Piece::Branch(hold.pickup),
            day_piece(&hold.expiry),
        ],
    )
}

/// Appends the line of a copy that is kept for a hold.
fn put_kept<A: Allocator + Copy>(
    catalogue: &Catalogue<A>,
    out: &mut Vec<u8, A>,
    copy: CopyNo,
    patron: PatronNo,
    place: u32,
) -> Result<(), AllocError>
    requires known { IsKnownRow (facts_of catalogue.now) (OpeningRow.HoldShelf copy patron place) }
    ensures { OnOk result
        (IsWithLine catalogue.now (OpeningRow.HoldShelf copy patron place) out.old.items out.new.items) }
{
    put_line(
        catalogue,
        out,
        b'K',
        &[
            Piece::Copy(copy),
            Piece::Patron(patron),
            Piece::Number(u64::from(place)),
        ],
    )
}

/// What a hold admits.
fn admits_piece(kind: &HoldKind) -> Piece
    ensures { result ≡ admits_piece kind.now }
{
    match kind {
        HoldKind::Any => Piece::Admits(Admits::Any),
        HoldKind::AtBranch => Piece::Admits(Admits::Branch),
        HoldKind::One(_) => Piece::Admits(Admits::Copy),
    }
}

/// The copy, where a hold admits one alone.
fn copy_piece(kind: &HoldKind) -> Piece
    ensures { result ≡ copy_piece kind.now }
{
    match kind {
        HoldKind::Any | HoldKind::AtBranch => Piece::Nothing,
        HoldKind::One(copy) => Piece::Copy(*copy),
    }
}

/// A day, or nothing.
fn day_piece(day: &Option<Day>) -> Piece
    ensures { result ≡ day_piece day.now }
{
    match day {
        Some(day) => Piece::Day(*day),
        None => Piece::Nothing,
    }
}

/// Appends a line: the letter of its kind, and each value after a bar.
fn put_line<A: Allocator + Copy>(
    catalogue: &Catalogue<A>,
    out: &mut Vec<u8, A>,
    letter: u8,
    pieces: &[Piece],
) -> Result<(), AllocError>
    requires known { All (IsKnownPiece (facts_of catalogue.now)) pieces.now }
    ensures { OnOk result ((texts : List (List ℕ)) × ArePieceTexts catalogue.now pieces.now texts
        × (out.new.items ≡ out.old.items ++ (letter ∷ behind_bars texts) ++ 10 ∷ [])) }
{
    out.push(letter)?;
    for piece in pieces {
        out.push(b'|')?;
        put(catalogue, out, *piece)?;
    }
    out.push(b'\n')?;
    Ok(())
}

/// Appends the text of a value.
#[tactic(auto, unfolding(hd_catalogue::specs::Contents::branch_number, hd_catalogue::specs::Contents::title_number, hd_catalogue::specs::Contents::copy_number, hd_catalogue::specs::Contents::patron_number))]
fn put<A: Allocator + Copy>(
    catalogue: &Catalogue<A>,
    out: &mut Vec<u8, A>,
    piece: Piece,
) -> Result<(), AllocError>
    requires known { IsKnownPiece (facts_of catalogue.now) piece }
    ensures { OnOk result ((text : List ℕ) × IsPieceText catalogue.now piece text
        × (out.new.items ≡ out.old.items ++ text)) }
{
    match piece {
        Piece::Copy(copy) => out.extend_from_slice(catalogue.copy_name(copy)),
        Piece::Patron(patron) => out.extend_from_slice(catalogue.patron_name(patron)),
        Piece::Title(title) => out.extend_from_slice(catalogue.title_name(title)),
        Piece::Branch(branch) => out.extend_from_slice(catalogue.branch_name(branch)),
        Piece::Number(number) => {
            let mut buffer = Buffer::new();
            out.extend_from_slice(buffer.format(number).as_bytes())
        }
        Piece::Day(day) => out.extend_from_slice(&day_text(day)),
        Piece::Admits(admits) => out.extend_from_slice(admits_text(admits)),
        Piece::Nothing => Ok(()),
    }
}

/// The word for what a hold admits.
fn admits_text(admits: Admits) -> &'static [u8]
    ensures { result.now ≡ admits_text admits }
{
    match admits {
        Admits::Any => b"any",
        Admits::Branch => b"branch",
        Admits::Copy => b"copy",
    }
}
