//! The files of the sheets.
ghost use Rattle.std.specs.Prelude.{◌≡◌};
ghost use Rattle.hd_import.specs.Texts.{file_of};

use crate::column::Sheet;

/// The file of a sheet.
#[derive(Clone, Copy)]
pub struct Source<'a> {
    /// Its path, as faults are to name it.
    pub path: &'a str,
    /// Its bytes.
    pub bytes: &'a [u8],
}

/// The files of all sheets.
#[derive(Clone, Copy)]
pub struct Sources<'a> {
    /// The library's branches.
    pub branches: Source<'a>,
    /// Its terminals.
    pub terminals: Source<'a>,
    /// Its patrons.
    pub patrons: Source<'a>,
    /// Its titles.
    pub titles: Source<'a>,
    /// Its copies.
    pub copies: Source<'a>,
}

impl<'a> Sources<'a> {
    /// The file of a sheet.
    pub fn file_of(&self, sheet: Sheet) -> Source<'a>
        ensures { result ≡ file_of self.now sheet }
    {
        match sheet {
            Sheet::Branches => self.branches,
            Sheet::Terminals => self.terminals,
            Sheet::Patrons => self.patrons,
            Sheet::Titles => self.titles,
            Sheet::Copies => self.copies,
        }
    }
}
