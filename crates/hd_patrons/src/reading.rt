//! Reads a patrons' file.
ghost use Rattle.std.specs.Prelude.{◌≡◌, IfErr, IfOk};
ghost use Rattle.hd_catalogue.specs.Files.{lines_of};
ghost use Rattle.hd_patrons.specs.Files.{IsFile, IsFirstBad};

use crate::fault::PatronsFault;
use crate::line::{is_heading, read_line};
use crate::patrons::Patrons;
use crate::table::TextTable;
use hd_catalogue::{Catalogue, Cause, first_line};
use std::alloc::Allocator;

impl<A: Allocator + Copy> Patrons<A> {
    /// Reads the patrons' file of a catalogue, or names its first bad line and the cause.
    ///
    /// The format is that of docs/patrons.md. `Memory` is named only at a line that passes.
    pub fn read(
        alloc: A,
        catalogue: &Catalogue<A>,
        bytes: &[u8],
    ) -> Result<Patrons<A>, PatronsFault>
        ensures accepted { IfOk result (IsFile catalogue.now (lines_of bytes.now)) }
        ensures refused { IfErr result (IsFirstBad catalogue.now (lines_of bytes.now)) }
    {
        let first = first_line(bytes);
        if !is_heading(first.line) {
            return Err(refused(1, Cause::Header));
        }
        let Ok(mut table) = TextTable::new(alloc, catalogue.patrons(), bytes.len()) else {
            return Err(refused(1, Cause::Memory));
        };
        let mut rest = first.after;
        let mut number = 1usize;
        while !rest.is_empty() {
            let next = first_line(rest);
            number += 1;
            let said = match read_line(catalogue, &table, next.line) {
                Ok(said) => said,
                Err(cause) => return Err(refused(number, cause)),
            };
            if table.add(&said).is_err() {
                return Err(refused(number, Cause::Memory));
            }
            rest = next.after;
        }
        Ok(Patrons::of(table))
    }
}

/// The line with this number is refused for this cause.
fn refused(line: usize, cause: Cause) -> PatronsFault
    ensures line { result.line ≡ line }
    ensures cause { result.cause ≡ cause }
{
    PatronsFault { line, cause }
}
