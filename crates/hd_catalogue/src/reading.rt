//! Reads a catalogue file.
ghost use Rattle.std.specs.Prelude.{◌≡◌, IfErr, IfOk};
ghost use Rattle.hd_catalogue.specs.Contents.{no_rows};
ghost use Rattle.hd_catalogue.specs.Files.{IsAccepted, IsFirstBad, lines_of};
ghost use Rattle.hd_catalogue.specs.Lines.{first_contents, header_cause, line_cause, values_cause, with_line};
ghost use Rattle.hd_catalogue.specs.Lines.{with_values};
ghost use Rattle.hd_catalogue.specs.Reading.{Begins, Reads};

use crate::catalogue::Catalogue;
use crate::cause::{CatFault, Cause};
use crate::header::{read_heading, settings};
use crate::lines::first_line;
use crate::text::{is_letter, is_long};
use crate::values::Values;
use std::alloc::Allocator;

impl<A: Allocator + Copy> Catalogue<A> {
    /// Reads a catalogue file, or names its first bad line and the cause.
    ///
    /// The format is that of docs/catalogue.md. `Memory` is named only at a line that passes. The catalogue's
    /// journal is its library's first one.
    pub fn read(alloc: A, bytes: &[u8]) -> Result<Catalogue<A>, CatFault>
        ensures accepted { IfOk result (λ catalogue. IsAccepted (lines_of bytes.now) catalogue) }
        ensures rows { IfOk result (λ catalogue. catalogue.opening ≡ no_rows) }
        ensures refused { IfErr result (λ fault. IsFirstBad (lines_of bytes.now) fault) }
    {
        let first = first_line(bytes);
        let mut catalogue = match Catalogue::begin(alloc, first.line) {
            Ok(catalogue) => catalogue,
            Err(cause) => return Err(CatFault { line: 1, cause }),
        };
        let mut rest = first.after;
        let mut number = 1usize;
        while !rest.is_empty() {
            let next = first_line(rest);
            number += 1;
            if let Err(cause) = catalogue.read_line(alloc, next.line) {
                return Err(CatFault {
                    line: number,
                    cause,
                });
            }
            rest = next.after;
        }
        Ok(catalogue)
    }

    /// The catalogue that a first line begins.
    #[tactic(auto, unfolding(crate::specs::Lines::header_cause, crate::specs::Lines::first_contents))]
    fn begin(alloc: A, line: &[u8]) -> Result<Catalogue<A>, Cause>
        ensures { Begins (header_cause line.now) (first_contents line.now) result }
    {
        let Some(heading) = read_heading(Values::of(line)) else {
            return Err(Cause::Header);
        };
        let settings = settings(is_long(line), heading)?;
        let Ok(institution) = Vec::from_slice(alloc, heading.institution) else {
            return Err(Cause::Memory);
        };
        Ok(Catalogue::new(alloc, settings, institution))
    }

    /// Reads a line after the first.
    #[tactic(auto, unfolding(crate::specs::Lines::line_cause, crate::specs::Lines::with_line))]
    fn read_line(&mut self, alloc: A, line: &[u8]) -> Result<(), Cause>
        ensures { Reads (line_cause self.old line.now) (with_line self.old line.now) self.new result }
    {
        self.read_values(alloc, is_long(line), Values::of(line))
    }

    /// Reads the values of a line after the first.
    fn read_values(&mut self, alloc: A, long: bool, values: Values<'_>) -> Result<(), Cause>
        ensures { Reads (values_cause long self.old values.entry)
            (with_values self.old values.entry) self.new result }
    {
        let mut values = values;
        let Some(kind) = values.take() else {
            return Err(Cause::Kind);
        };
        if is_letter(b'B', kind) {
            self.read_branch(alloc, long, values)
        } else if is_letter(b'S', kind) {
            self.read_terminal(alloc, long, values)
        } else if is_letter(b'P', kind) {
            self.read_patron(alloc, long, values)
        } else if is_letter(b'T', kind) {
            self.read_title(alloc, long, values)
        } else if is_letter(b'C', kind) {
            self.read_copy(alloc, long, values)
        } else {
            Err(Cause::Kind)
        }
    }
}
