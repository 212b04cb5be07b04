//! What a reply reports of a patron.
ghost use Rattle.std.specs.Prelude.{◌≡◌, ◌<◌, ◌≤◌, Some, length};
ghost use Rattle.std.specs.Option.{option_copied, unwrap_or};
ghost use Rattle.hd_catalogue.specs.Contents.{facts_of, patron_name};
ghost use Rattle.hd_patrons.specs.Checks.{name_in};
ghost use Rattle.hd_exchange.specs.Extensions.{extensions_lent};
ghost use Rattle.hd_exchange.specs.ToldPatrons.{IsToldOf, counts_of, flags_of, name_told, password_told};
ghost use Rattle.hd_exchange.specs.ToldPatrons.{validity_of};

use crate::extensions::{Extensions, check_password, name_of};
use hd_catalogue::Catalogue;
use hd_message::{Counts, KnownPatron, PasswordValidity, PatronFlags};
use hd_patrons::PasswordCheck;
use hd_rules::{Borrowing, PatronNo, PatronView};
use std::alloc::Allocator;

/// What a reply reports of the patron whom a message names `own`, with this view of the desk, and with the
/// password checked so.
pub(crate) fn known_patron<'a, A: Allocator + Copy>(
    catalogue: &'a Catalogue<A>,
    extensions: Option<&'a Extensions<A>>,
    patron: PatronNo,
    password: PasswordValidity,
    view: &PatronView,
    own: &'a [u8],
) -> KnownPatron<'a>
    requires known { patron < (facts_of catalogue.now).patrons }
    requires named { patron_name catalogue.now patron ≡ Some own.now }
    ensures told { IsToldOf (extensions_lent extensions.entry).patrons patron password view.now own.now
        result }
    ensures short { length result.name.now ≤ 60 }
{
    KnownPatron {
        flags: flags_of(view.borrowing),
        name: told_name(catalogue, extensions, patron, password, own),
        password,
    }
}

/// AE: the name of a patron, or nothing where the password is wrong.
fn told_name<'a, A: Allocator + Copy>(
    catalogue: &'a Catalogue<A>,
    extensions: Option<&'a Extensions<A>>,
    patron: PatronNo,
    password: PasswordValidity,
    own: &'a [u8],
) -> &'a [u8]
    requires known { patron < (facts_of catalogue.now).patrons }
    requires named { patron_name catalogue.now patron ≡ Some own.now }
    ensures name { result.now ≡ name_told (extensions_lent extensions.entry).patrons patron password own.now }
    ensures short { length result.now ≤ 60 }
{
    match password {
        PasswordValidity::Unasked | PasswordValidity::Right => {
            own_name(catalogue, extensions, patron, own)
        }
        PasswordValidity::Wrong => b"",
    }
}

/// The name of a patron: that in the patrons' file, else the one in the catalogue, which the message has.
fn own_name<'a, A: Allocator + Copy>(
    catalogue: &'a Catalogue<A>,
    extensions: Option<&'a Extensions<A>>,
    patron: PatronNo,
    own: &'a [u8],
) -> &'a [u8]
    requires known { patron < (facts_of catalogue.now).patrons }
    requires named { patron_name catalogue.now patron ≡ Some own.now }
    ensures name { result.now
        ≡ unwrap_or (name_in (extensions_lent extensions.entry).patrons patron) own.now }
    ensures short { length result.now ≤ 60 }
{
    match name_of(extensions, patron) {
        Some(name) => name,
        None => catalogue.patron_name(patron),
    }
}

/// CQ of a message, which may give a password.
pub(crate) fn told_password<A: Allocator>(
    extensions: Option<&Extensions<A>>,
    patron: PatronNo,
    given: Option<&[u8]>,
) -> PasswordValidity
    ensures { result ≡ password_told (extensions_lent extensions.entry).patrons patron
        (option_copied given.entry) }
{
    match given {
        Some(given) => validity_of(check_password(extensions, patron, given)),
        None => PasswordValidity::Unasked,
    }
}

/// CQ by what the check of a password says.
fn validity_of(check: PasswordCheck) -> PasswordValidity
    ensures { result ≡ validity_of check }
{
    match check {
        PasswordCheck::NoFile => PasswordValidity::Unasked,
        PasswordCheck::Right => PasswordValidity::Right,
        PasswordCheck::Wrong | PasswordCheck::NoPassword => PasswordValidity::Wrong,
    }
}

/// What a patron may do.
fn flags_of(borrowing: Borrowing) -> PatronFlags
    ensures { result ≡ flags_of borrowing }
{
    PatronFlags {
        charge_denied: borrowing == Borrowing::Denied,
        too_many_charged: borrowing == Borrowing::TooMany,
    }
}

/// How much a patron has.
pub(crate) fn counts_of(view: &PatronView) -> Counts
    ensures { result ≡ counts_of view.now }
{
    Counts {
        hold_items: u64::from(view.kept),
        overdue_items: u64::from(view.overdue),
        charged_items: u64::from(view.charged),
        unavailable_holds: u64::from(view.waiting),
    }
}
