//! What a patrons' file says, by patron.
ghost use Rattle.std.specs.Prelude.{◌≡◌, ◌<◌, ℕ, IfOk, IfSome, None, OnOk, length, option_map, true};
ghost use Rattle.hd_patrons.specs.Stored.{is_told, language_of, name_of, password_of, place_of, texts_of};
ghost use Rattle.hd_patrons.specs.Texts.{AreProper, is_language, is_text, said_before};

use crate::line::PatronLine;
use hd_rules::PatronNo;
use std::alloc::{AllocError, Allocator, Global};
use std::marker::Model;

/// Where a patron's password and name are among the texts, one after the other; and the language.
#[derive(Clone, Copy)]
pub(crate) struct Place {
    start: usize,
    password: u8,
    name: u8,
    language: Option<[u8; 3]>,
}

/// The texts of patrons: all in one, with a place for each patron of the catalogue.
///
/// Its memory is taken at once: a place for each patron, and as many bytes as the file has.
#[derive(Drop)]
pub(crate) struct TextTable<A: Allocator = Global> {
    texts: Vec<u8, A>,
    places: Vec<Option<Place>, A>,
}

impl<A: Allocator> Model for TextTable<A> {
    ghost use Rattle.hd_patrons.specs.Stored.{AreStored, Stored};

    ghost Value = { Stored };

    ghost view = { λ t. record { texts = t.texts.items; places = t.places.items } };

    ghost invariant = { λ t. AreStored (record { texts = t.texts.items; places = t.places.items }) };
}

impl<A: Allocator + Copy> TextTable<A> {
    /// No texts, with a place for each of `patrons` patrons, and room for `bytes` bytes. `AllocError` where
    /// there is no memory for them.
    pub(crate) fn new(alloc: A, patrons: usize, bytes: usize) -> Result<TextTable<A>, AllocError>
        ensures empty { IfOk result (λ table. (p : ℕ) → texts_of table p ≡ None) }
        ensures count { IfOk result (λ table. length table.places ≡ patrons) }
    {
        let texts = Vec::with_capacity(alloc, bytes)?;
        let places = vec![in alloc; None; patrons]?;
        Ok(TextTable { texts, places })
    }

    /// Adds what a line says. `AllocError` where there is no memory for it.
    pub(crate) fn add(&mut self, line: &PatronLine<'_>) -> Result<(), AllocError>
        requires known { line.now.patron < length self.old.places }
        requires proper { AreProper line.now.texts }
        ensures added { OnOk result
            ((p : ℕ) → texts_of self.new p ≡ said_before line.now p (texts_of self.old p)) }
        ensures count { length self.new.places ≡ length self.old.places }
    {
        let place = Place {
            start: self.texts.len(),
            password: line.password.len() as u8,
            name: line.name.len() as u8,
            language: line.language,
        };
        self.texts.extend_from_slice(line.password)?;
        self.texts.extend_from_slice(line.name)?;
        self.places[line.patron.number() as usize] = Some(place);
        Ok(())
    }
}

impl<A: Allocator> TextTable<A> {
    /// Whether it has texts of this patron, be they empty.
    pub(crate) fn has(&self, patron: PatronNo) -> bool
        ensures { result ≡ is_told self.now patron }
    {
        self.place(patron).is_some()
    }

    /// The password of a patron, which may be empty.
    pub(crate) fn password(&self, patron: PatronNo) -> Option<&[u8]>
        ensures { option_map (λ text. text.now) result ≡ password_of self.now patron }
    {
        let texts = self.texts.as_slice();
        let place = self.place(patron)?;
        Some(&texts[place.start..place.start + usize::from(place.password)])
    }

    /// The name of a patron, which may be empty.
    pub(crate) fn name(&self, patron: PatronNo) -> Option<&[u8]>
        ensures name { option_map (λ text. text.now) result ≡ name_of self.now patron }
        ensures text { IfSome result (λ text. is_text text.now ≡ true) }
    {
        let texts = self.texts.as_slice();
        let place = self.place(patron)?;
        let start = place.start + usize::from(place.password);
        Some(&texts[start..start + usize::from(place.name)])
    }

    /// The language of a patron.
    pub(crate) fn language(&self, patron: PatronNo) -> Option<[u8; 3]>
        ensures language { result ≡ language_of self.now patron }
        ensures digits { IfSome result (λ language. is_language language ≡ true) }
    {
        let _ = &self.places;
        self.place(patron)?.language
    }

    /// Where a patron's texts are, if it has any.
    fn place(&self, patron: PatronNo) -> Option<Place>
        ensures { result ≡ place_of self.now patron }
    {
        *self.places.get(patron.number() as usize)?
    }
}
