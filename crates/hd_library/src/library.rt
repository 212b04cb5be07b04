//! A library, by its files.
ghost use Rattle.std.specs.Prelude.{◌≡◌, [], IfErr, IfOk, IsFalse, IsTrue, None};
ghost use Rattle.hd_catalogue.specs.Contents.{told_by};
ghost use Rattle.hd_catalogue.specs.Files.{lines_of};
ghost use Rattle.hd_library.specs.Libraries.{IsGrown, IsJoinedBy, IsJoinedOfFiles, IsOfCatalogue};
ghost use Rattle.hd_library.specs.Libraries.{IsOfFiles};
ghost use Rattle.hd_library.specs.Libraries.{IsOfSomeCatalogue, IsOpened, IsOpenedBy, IsWithJoined, SaysAt};
ghost use Rattle.hd_library.specs.declared.fault.SetupFault.TheVariants.{CatalogueIsNoText};

use crate::fault::SetupFault;
use crate::joined::joined_lines;
use crate::reading::read_file;
use hd_catalogue::{Catalogue, OffsetMinutes, OpeningRow};
use hd_command_line::LibraryFiles;
use hd_desk::Meter;
use hd_joining::{grown_text, with_arrivals};
use hd_journal::Journal;
use hd_opening::Opening;
use hd_zone::read_at;
use sha2::{Digest, Sha256};
use std::alloc::Global;

/// What a library's files say.
#[derive(Drop)]
pub struct Library {
    /// What the catalogue file says and, where there is one, the opening file.
    pub catalogue: Catalogue,
    /// The SHA-256 of the opening file where there is one, else of the catalogue file.
    pub digest: [u8; 32],
    /// Whether the catalogue file is UTF-8, as names in a journal's file have to be.
    pub is_text: bool,
}

impl Library {
    /// Reads a library.
    ///
    /// # Errors
    /// A file can't be read, or is refused.
    pub fn read(rt: &HostRuntime, files: &LibraryFiles<'_>) -> Result<Library, SetupFault>
        ensures files { IfOk result (IsJoinedOfFiles None files.now.opening) }
    {
        Library::read_at(rt, files, None)
    }

    /// Reads a library that goes by this offset, where there is one, in place of its own. The digest is the
    /// same.
    ///
    /// # Errors
    /// Those of `read`.
    pub fn read_at(
        rt: &HostRuntime,
        files: &LibraryFiles<'_>,
        offset: Option<OffsetMinutes>,
    ) -> Result<Library, SetupFault>
        ensures files { IfOk result (IsJoinedOfFiles offset files.now.opening) }
    {
        Library::before_join(rt, files, offset)?.and_joined(rt, files, offset)
    }

    /// Reads a library without the names that joined it.
    ///
    /// # Errors
    /// Those of `read`.
    fn before_join(
        rt: &HostRuntime,
        files: &LibraryFiles<'_>,
        offset: Option<OffsetMinutes>,
    ) -> Result<Library, SetupFault>
        ensures files { IfOk result (IsOfFiles offset files.now.opening) }
    {
        let library = Library::of_path(rt, files.catalogue, offset)?;
        match files.opening {
            Some(path) => library.opened(rt, path),
            None => Ok(library),
        }
    }

    /// The library with the names that joined it, where there are such: its catalogue file is read again, with
    /// their lines behind its own.
    ///
    /// # Errors
    /// A file can't be read, or is refused.
    pub fn and_joined(
        self,
        rt: &HostRuntime,
        files: &LibraryFiles<'_>,
        offset: Option<OffsetMinutes>,
    ) -> Result<Library, SetupFault>
        ensures { IfOk result (IsWithJoined offset self) }
    {
        let Some(path) = files.joined else {
            return Ok(self);
        };
        let Some(lines) = joined_lines(rt, path)? else {
            return Ok(self);
        };
        let file = read_file(rt, "catalogue", files.catalogue)?;
        self.joined_by(rt, file.as_slice(), lines.as_slice(), offset)
    }

    /// The library whose catalogue file has these bytes, with lines behind its own that joined it. The opening's
    /// rows stay, and behind them each copy that joined is on its way to its home. The digest stays.
    ///
    /// # Errors
    /// What the lines make of the catalogue is refused.
    pub fn joined_by(
        self,
        rt: &HostRuntime,
        file: &[u8],
        lines: &[u8],
        offset: Option<OffsetMinutes>,
    ) -> Result<Library, SetupFault>
        ensures { IfOk result (IsJoinedBy offset self file.now lines.now) }
    {
        let alloc = rt.alloc();
        let (digest, is_text) = (self.digest, self.is_text);
        let Library { catalogue, .. } = self;
        let (copies, last) = (catalogue.copies(), catalogue.last_before());
        let rows = Vec::from_slice(alloc, catalogue.opening())?;
        drop(catalogue);
        let grown = grown_catalogue(alloc, file, lines, offset)?;
        let rows = with_arrivals(rows, &grown, copies)?;
        Ok(Library {
            catalogue: grown.with_opening(rows, last)?,
            digest,
            is_text: is_text && str::from_utf8(lines).is_ok(),
        })
    }

    /// Reads a library whose names are text.
    ///
    /// # Errors
    /// Those of `read`, and that the catalogue is no text.
    pub fn read_text(rt: &HostRuntime, files: &LibraryFiles<'_>) -> Result<Library, SetupFault>
        ensures files { IfOk result (IsJoinedOfFiles None files.now.opening) }
        ensures text { IfOk result (λ library. IsTrue library.is_text) }
    {
        Library::read(rt, files)?.with_text()
    }

    /// The library of the catalogue file at a path. It goes by this offset, where there is one.
    ///
    /// # Errors
    /// The file can't be read, or is refused.
    fn of_path(
        rt: &HostRuntime,
        path: &str,
        offset: Option<OffsetMinutes>,
    ) -> Result<Library, SetupFault>
        ensures { IfOk result (IsOfSomeCatalogue offset) }
    {
        let file = read_file(rt, "catalogue", path)?;
        Library::of_file(rt, file.as_slice(), offset)
    }

    /// The library of a catalogue file with these bytes.
    ///
    /// # Errors
    /// It is refused.
    pub fn of_catalogue(rt: &HostRuntime, file: &[u8]) -> Result<Library, SetupFault>
        ensures { IfOk result (IsOfCatalogue None file.now) }
    {
        Library::of_file(rt, file, None)
    }

    /// The library of a catalogue file with these bytes. It goes by this offset, where there is one.
    ///
    /// # Errors
    /// It is refused.
    fn of_file(
        rt: &HostRuntime,
        file: &[u8],
        offset: Option<OffsetMinutes>,
    ) -> Result<Library, SetupFault>
        ensures { IfOk result (IsOfCatalogue offset file.now) }
    {
        Ok(Library {
            catalogue: catalogue_of(rt.alloc(), file, offset)?,
            digest: Sha256::digest(file),
            is_text: str::from_utf8(file).is_ok(),
        })
    }

    /// The library, if its names are text.
    ///
    /// # Errors
    /// They aren't.
    pub fn with_text(self) -> Result<Library, SetupFault>
        ensures text { IfOk result (λ library. (library ≡ self) × IsTrue self.is_text) }
        ensures no_text { IfErr result (λ fault. (fault ≡ CatalogueIsNoText) × IsFalse self.is_text) }
    {
        if self.is_text {
            Ok(self)
        } else {
            Err(SetupFault::CatalogueIsNoText)
        }
    }

    /// The library whose journal begins as the opening file at this path says.
    ///
    /// # Errors
    /// The file can't be read, or is refused.
    pub fn opened(self, rt: &HostRuntime, path: &str) -> Result<Library, SetupFault>
        ensures { IfOk result (IsOpened self) }
    {
        let file = read_file(rt, "opening", path)?;
        self.opened_by(rt, file.as_slice())
    }

    /// The library whose journal begins as an opening file with these bytes says.
    ///
    /// # Errors
    /// It is refused.
    pub fn opened_by(self, rt: &HostRuntime, file: &[u8]) -> Result<Library, SetupFault>
        ensures { IfOk result (IsOpenedBy self file.now) }
    {
        let opening = hd_opening::read(rt.alloc(), &self.catalogue, &self.digest, file)?;
        let Opening { rows, last } = opening;
        let mut library = self.beginning_with(rows, last)?;
        library.digest = Sha256::digest(file);
        Ok(library)
    }

    /// The library whose journal begins with what these rows tell, behind this last number. Its digest stays.
    ///
    /// # Errors
    /// A row doesn't fit the catalogue.
    pub fn beginning_with(self, rows: Vec<OpeningRow>, last: u32) -> Result<Library, SetupFault>
        ensures digest { IfOk result (λ library. library.digest ≡ self.digest) }
        ensures text { IfOk result (λ library. library.is_text ≡ self.is_text) }
        ensures says { IfOk result (λ library. library.catalogue
            ≡ record self.catalogue { opening = told_by rows.items last }) }
    {
        let Library {
            catalogue,
            digest,
            is_text,
        } = self;
        Ok(Library {
            catalogue: catalogue.with_opening(rows, last)?,
            digest,
            is_text,
        })
    }

    /// The library's journal before any turn.
    ///
    /// # Errors
    /// A row of the opening may not stand; out of memory.
    pub fn journal(self, rt: &HostRuntime) -> Result<Journal, SetupFault>
        ensures turns { IfOk result (λ journal. journal.turns ≡ []) }
        ensures contents { IfOk result (λ journal. journal.contents ≡ self.catalogue) }
    {
        let Library { catalogue, .. } = self;
        let alloc = rt.alloc();
        Ok(hd_journal::open(alloc, alloc, Meter::new(rt), catalogue)?)
    }
}

/// What a catalogue file says; where there is an offset, with that in place of its own.
///
/// # Errors
/// It is refused.
fn catalogue_of(
    alloc: Global,
    file: &[u8],
    offset: Option<OffsetMinutes>,
) -> Result<Catalogue, SetupFault>
    ensures { IfOk result (SaysAt offset (lines_of file.now)) }
{
    match offset {
        Some(offset) => Ok(read_at(alloc, file, offset)?),
        None => Ok(Catalogue::read(alloc, file)?),
    }
}

/// What a catalogue file says with lines behind its own; where there is an offset, with that in place of its own.
///
/// # Errors
/// It is refused.
fn grown_catalogue(
    alloc: Global,
    file: &[u8],
    lines: &[u8],
    offset: Option<OffsetMinutes>,
) -> Result<Catalogue, SetupFault>
    ensures { IfOk result (IsGrown offset file.now lines.now) }
{
    let text = grown_text(alloc, file, lines)?;
    catalogue_of(alloc, text.as_slice(), offset)
}
