//! The patrons' file.
ghost use Rattle.std.specs.Prelude.{◌≡◌, IfSome, None, Some, option_and_then, option_map, true};
ghost use Rattle.hd_catalogue.specs.Contents.{IsShortName};
ghost use Rattle.hd_catalogue.specs.Text.{is_name};
ghost use Rattle.hd_patrons.specs.Checks.{against, check_in, language_in, name_in, some_text};
ghost use Rattle.hd_patrons.specs.Stored.{password_of};
ghost use Rattle.hd_patrons.specs.Texts.{is_language, is_text};

use crate::check::PasswordCheck;
use crate::table::TextTable;
use hd_rules::PatronNo;
use std::alloc::{Allocator, Global};
use std::marker::Model;

/// What a patrons' file says of the patrons of a catalogue, or that there is none (docs/patrons.md).
#[derive(Drop)]
pub struct Patrons<A: Allocator = Global> {
    file: Option<TextTable<A>>,
}

impl<A: Allocator> Model for Patrons<A> {
    ghost use Rattle.std.specs.Prelude.{Option};
    ghost use Rattle.hd_patrons.specs.Stored.{Stored};

    ghost Value = { Option Stored };

    ghost view = { λ patrons. patrons.file };
}

impl<A: Allocator> Patrons<A> {
    /// No patrons' file.
    pub fn none() -> Patrons<A>
        ensures { result ≡ None }
    {
        Patrons { file: None }
    }

    /// What a file says.
    pub(crate) fn of(table: TextTable<A>) -> Patrons<A>
        ensures { result ≡ Some table }
    {
        Patrons { file: Some(table) }
    }

    /// A patron's name: 1 to 60 bytes. `None` where the file has none of the patron, or there is no file.
    pub fn name(&self, patron: PatronNo) -> Option<&[u8]>
        ensures name { option_map (λ name. name.now) result ≡ name_in self.now patron }
        ensures proper { IfSome result (λ name. is_name name.now ≡ true) }
        ensures short { IfSome result (λ name. IsShortName name.now) }
    {
        name_or_none(self.file.as_ref()?.name(patron)?)
    }

    /// A patron's language: three digits, as messages have it. `None` where the file has none of the patron,
    /// or there is no file.
    pub fn language(&self, patron: PatronNo) -> Option<[u8; 3]>
        ensures language { result ≡ language_in self.now patron }
        ensures digits { IfSome result (λ language. is_language language ≡ true) }
    {
        self.file.as_ref()?.language(patron)
    }

    /// What the check of a password that was given for a patron says.
    pub fn check_password(&self, patron: PatronNo, given: &[u8]) -> PasswordCheck
        ensures { result ≡ check_in self.now patron given.now }
    {
        match &self.file {
            Some(table) => check_in(table, patron, given),
            None => PasswordCheck::NoFile,
        }
    }
}

/// What the check by a file says.
fn check_in<A: Allocator>(table: &TextTable<A>, patron: PatronNo, given: &[u8]) -> PasswordCheck
    ensures { result ≡ against given.now (option_and_then some_text (password_of table.now patron)) }
{
    match table.password(patron) {
        Some(password) if password.is_empty() => PasswordCheck::NoPassword,
        Some(password) if given == password => PasswordCheck::Right,
        Some(_) => PasswordCheck::Wrong,
        None => PasswordCheck::NoPassword,
    }
}

/// The name, where it isn't empty.
fn name_or_none(text: &[u8]) -> Option<&[u8]>
    requires { is_text text.now ≡ true }
    ensures name { option_map (λ name. name.now) result ≡ some_text text.now }
    ensures proper { IfSome result (λ name. is_name name.now ≡ true) }
    ensures short { IfSome result (λ name. IsShortName name.now) }
{
    if text.is_empty() { None } else { Some(text) }
}
