//! The catalogue.
ghost use Rattle.std.specs.Prelude.{◌≡◌, ◌≤◌, true};
ghost use Rattle.hd_rules.specs.declared.limits.TheConstants.{MOST_COMMANDS};
ghost use Rattle.hd_catalogue.specs.Contents.{without_names};
ghost use Rattle.hd_catalogue.specs.Text.{is_name};

use crate::facts::{BranchFacts, CopyFacts, PatronFacts, Settings, TitleFacts};
use crate::names::Names;
use crate::terminal::TerminalFacts;
use hd_rules::OpeningRow;
use std::alloc::{Allocator, Global};
use std::marker::Model;

/// What a catalogue file says, found by name or by number (docs/catalogue.md).
///
/// The names of each kind are numbered from 0, in the order in which they first appear in the file. It also
/// says how its journal begins: as the library's first one, until [`with_opening`](Catalogue::with_opening)
/// gives another desk.
pub struct Catalogue<A: Allocator = Global> {
    pub(crate) settings: Settings,
    pub(crate) institution: Vec<u8, A>,
    pub(crate) branches: Names<BranchFacts, A>,
    pub(crate) terminals: Names<TerminalFacts<A>, A>,
    pub(crate) patrons: Names<PatronFacts, A>,
    pub(crate) titles: Names<TitleFacts, A>,
    pub(crate) copies: Names<CopyFacts, A>,
    pub(crate) rows: Vec<OpeningRow, A>,
    pub(crate) last: u32,
}

// Written out, so that a caller's proof sees one call and not the drop of each field.
impl<A: Allocator> Drop for Catalogue<A> {
    fn drop(self) {
        let Catalogue {
            settings: _settings,
            institution: _institution,
            branches: _branches,
            terminals: _terminals,
            patrons: _patrons,
            titles: _titles,
            copies: _copies,
            rows: _rows,
            last: _last,
        } = self;
    }
}

impl<A: Allocator> Model for Catalogue<A> {
    ghost use Rattle.hd_catalogue.specs.Contents.{Contents, IsCatalogue, told_by};

    ghost Value = { Contents };

    ghost view = { λ c. record {
      settings = c.settings;
      institution = c.institution.items;
      branches = c.branches;
      terminals = c.terminals;
      patrons = c.patrons;
      titles = c.titles;
      copies = c.copies;
      opening = told_by c.rows.items c.last;
    } };

    ghost invariant = { λ c. IsCatalogue (record {
      settings = c.settings;
      institution = c.institution.items;
      branches = c.branches;
      terminals = c.terminals;
      patrons = c.patrons;
      titles = c.titles;
      copies = c.copies;
      opening = told_by c.rows.items c.last;
    }) };
}

impl<A: Allocator + Copy> Catalogue<A> {
    /// A catalogue without names.
    pub(crate) fn new(alloc: A, settings: Settings, institution: Vec<u8, A>) -> Catalogue<A>
        requires some_command { 1 ≤ settings.command_limit }
        requires commands { settings.command_limit ≤ MOST_COMMANDS }
        requires name { is_name institution.items ≡ true }
        ensures { result ≡ without_names settings institution.items }
    {
        Catalogue {
            settings,
            institution,
            branches: Names::new(alloc),
            terminals: Names::new(alloc),
            patrons: Names::new(alloc),
            titles: Names::new(alloc),
            copies: Names::new(alloc),
            rows: Vec::new(alloc),
            last: 0,
        }
    }
}
