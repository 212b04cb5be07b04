//! What the lines of a file define.
ghost use Rattle.std.specs.Prelude.{◌≡◌, OnOk};
ghost use Rattle.hd_diagnosis.specs.Known.{nothing_known, with_line, with_values};

use crate::defined::Defined;
use crate::kind::Kind;
use hd_catalogue::{Values, is_letter};
use std::alloc::{AllocError, Global};

/// The names that some lines of a file define, each with its line, whatever else is wrong with these lines.
pub(crate) struct Known {
    /// Whether the file's version is 2, where a title's line has a priority.
    pub(crate) has_priorities: bool,
    pub(crate) branches: Defined,
    pub(crate) terminals: Defined,
    pub(crate) patrons: Defined,
    pub(crate) titles: Defined,
    pub(crate) copies: Defined,
}

// Written out, so that a caller's proof sees one call and not the drop of each field.
impl Drop for Known {
    fn drop(self) {
        let Known {
            has_priorities: _has_priorities,
            branches: _branches,
            terminals: _terminals,
            patrons: _patrons,
            titles: _titles,
            copies: _copies,
        } = self;
    }
}

impl Known {
    /// No names yet.
    pub(crate) fn new(alloc: Global, has_priorities: bool) -> Known
        ensures { result ≡ nothing_known has_priorities }
    {
        Known {
            has_priorities,
            branches: Defined::new(alloc),
            terminals: Defined::new(alloc),
            patrons: Defined::new(alloc),
            titles: Defined::new(alloc),
            copies: Defined::new(alloc),
        }
    }

    /// The names of a kind.
    pub(crate) fn names_of(&self, kind: Kind) -> &Defined {
        match kind {
            Kind::Branch => &self.branches,
            Kind::Terminal => &self.terminals,
            Kind::Patron => &self.patrons,
            Kind::Title => &self.titles,
            Kind::Copy => &self.copies,
        }
    }

    /// Takes down what a line defines: the name that is its second value.
    ///
    /// # Errors
    /// Out of memory.
    pub(crate) fn add(
        &mut self,
        alloc: Global,
        line: &[u8],
        number: usize,
    ) -> Result<(), AllocError>
        ensures { OnOk result (self.new ≡ with_line self.old line.now number) }
    {
        let mut values = Values::of(line);
        let Some(kind) = values.take() else {
            return Ok(());
        };
        let Some(name) = values.take() else {
            return Ok(());
        };
        if is_letter(b'B', kind) {
            self.branches.define(alloc, name, number)
        } else if is_letter(b'S', kind) {
            self.terminals.define(alloc, name, number)
        } else if is_letter(b'P', kind) {
            self.patrons.define(alloc, name, number)
        } else if is_letter(b'T', kind) {
            self.titles.define(alloc, name, number)
        } else if is_letter(b'C', kind) {
            self.copies.define(alloc, name, number)
        } else {
            Ok(())
        }
    }
}
