//! What extends the standard messages.
ghost use Rattle.std.specs.Prelude.{◌≡◌, IfSome, length};
ghost use Rattle.std.specs.Option.{ForSome, option_copied};
ghost use Rattle.hd_catalogue.specs.Contents.{IsShortName};
ghost use Rattle.hd_patrons.specs.Checks.{check_in, language_in, name_in};
ghost use Rattle.hd_exchange.specs.Extensions.{extensions_lent};

use hd_message::Profile;
use hd_patrons::{PasswordCheck, PatronNo, Patrons};
use std::alloc::{Allocator, Global};
use std::marker::Model;

/// What extends the standard messages at a server: which extensions are on, and what the patrons' file says.
#[derive(Drop)]
pub struct Extensions<A: Allocator = Global> {
    profile: Profile,
    patrons: Patrons<A>,
}

impl<A: Allocator> Model for Extensions<A> {
    ghost use Rattle.hd_exchange.specs.Extensions.{Extensions};

    ghost Value = { Extensions };

    ghost view = { λ extensions. record { profile = extensions.profile; patrons = extensions.patrons } };
}

impl<A: Allocator> Extensions<A> {
    /// Extensions that are on by a profile, with what a patrons' file says, or that there is none.
    pub fn new(profile: Profile, patrons: Patrons<A>) -> Extensions<A>
        ensures profile { result.profile ≡ profile }
        ensures patrons { result.patrons ≡ patrons }
    {
        Extensions { profile, patrons }
    }

    /// Which extensions are on.
    pub fn profile(&self) -> Profile
        ensures { result ≡ self.now.profile }
    {
        self.profile
    }

    /// What the patrons' file says.
    pub fn patrons(&self) -> &Patrons<A>
        ensures { result.now ≡ self.now.patrons }
    {
        &self.patrons
    }
}

/// Which extensions are on, where some are lent; else none.
pub fn profile_of<A: Allocator>(extensions: Option<&Extensions<A>>) -> Profile
    ensures { result ≡ (extensions_lent extensions.entry).profile }
{
    match extensions {
        Some(extensions) => extensions.profile,
        None => Profile {
            patron_messages: false,
            sorter_fields: false,
        },
    }
}

/// The name that the patrons' file has for a patron, where it has one.
pub(crate) fn name_of<A: Allocator>(
    extensions: Option<&Extensions<A>>,
    patron: PatronNo,
) -> Option<&[u8]>
    ensures name { option_copied result ≡ name_in (extensions_lent extensions.entry).patrons patron }
    ensures short { ForSome (option_copied result) IsShortName }
{
    extensions?.patrons.name(patron)
}

/// The language that it has for a patron, where it has one.
pub(crate) fn language_of<A: Allocator>(
    extensions: Option<&Extensions<A>>,
    patron: PatronNo,
) -> Option<[u8; 3]>
    ensures language { result ≡ language_in (extensions_lent extensions.entry).patrons patron }
    ensures long { IfSome result (λ language. length language ≡ 3) }
{
    extensions?.patrons.language(patron)
}

/// What it says of a password that was given for a patron.
pub(crate) fn check_password<A: Allocator>(
    extensions: Option<&Extensions<A>>,
    patron: PatronNo,
    given: &[u8],
) -> PasswordCheck
    ensures { result ≡ check_in (extensions_lent extensions.entry).patrons patron given.now }
{
    match extensions {
        Some(extensions) => extensions.patrons.check_password(patron, given),
        None => PasswordCheck::NoFile,
    }
}
