//! How much a patrons' file tells. None of its text is printed.

use crate::fault::CatalogueCommandFault;
use hd_catalogue::Catalogue;
use hd_library::read_patrons;
use hd_patrons::{PasswordCheck, PatronNo, Patrons};
use std::io;

/// Of how many patrons a patrons' file has these texts.
#[derive(Clone, Copy)]
pub(crate) struct Told {
    passwords: usize,
    languages: usize,
    names: usize,
}

impl Told {
    /// What the patrons' file at a path tells of the patrons of a catalogue.
    ///
    /// # Errors
    /// It can't be read, or is refused.
    pub(crate) fn read(
        rt: &HostRuntime,
        path: &str,
        catalogue: &Catalogue,
    ) -> Result<Told, CatalogueCommandFault> {
        let patrons = read_patrons(rt, path, catalogue)?;
        Ok(Told::of(&patrons, catalogue))
    }

    /// What a patrons' file tells of the patrons of a catalogue.
    fn of(patrons: &Patrons, catalogue: &Catalogue) -> Told {
        let mut told = Told {
            passwords: 0,
            languages: 0,
            names: 0,
        };
        for number in 0..catalogue.patrons() {
            let patron = PatronNo::new(number as u32).unwrap();
            told.passwords = one_more(told.passwords, has_password(patrons, patron));
            told.languages = one_more(told.languages, patrons.language(patron).is_some());
            told.names = one_more(told.names, patrons.name(patron).is_some());
        }
        told
    }

    /// Prints it, in three lines.
    pub(crate) fn print<R: Print>(&self, rt: &R) -> io::Result<()> {
        println!(rt;
            "patrons with a password: {}\npatrons with a language: {}\npatrons with a name: {}",
            self.passwords, self.languages, self.names
        )
    }
}

/// A count, and one more where it is to be counted.
fn one_more(count: usize, is_counted: bool) -> usize {
    if is_counted {
        count.saturating_add(1)
    } else {
        count
    }
}

/// Whether the file has a password of a patron: no bytes at all are one that nobody has.
fn has_password(patrons: &Patrons, patron: PatronNo) -> bool {
    patrons.check_password(patron, b"") == PasswordCheck::Wrong
}
