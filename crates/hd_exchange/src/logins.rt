//! Logins (93).
ghost use Rattle.std.specs.Prelude.{◌≡◌, ◌<◌, IfSome};
ghost use Rattle.std.specs.Option.{ForSome};
ghost use Rattle.hd_rules.specs.Facts.{Facts};
ghost use Rattle.hd_catalogue.specs.Contents.{facts_of};
ghost use Rattle.hd_exchange.specs.Answers.{login_after};
ghost use Rattle.hd_exchange.specs.Arrivals.{IsKnownLogin, login_of};
ghost use Rattle.hd_exchange.specs.Messages.{login_made, login_terminal};

use crate::login::Login;
use hd_catalogue::Catalogue;
use hd_message::LoginRequest;
use hd_rules::TerminalNo;
use std::alloc::Allocator;

/// The login that a login message makes; nothing where it isn't taken.
pub(crate) fn login_made<A: Allocator + Copy>(
    catalogue: &Catalogue<A>,
    request: &LoginRequest<'_>,
) -> Option<Login>
    ensures made { result ≡ login_made catalogue.now request.now }
    ensures known { ForSome result (IsKnownLogin (facts_of catalogue.now)) }
{
    let terminal = login_terminal(catalogue, request)?;
    Some(Login {
        terminal,
        branch: catalogue.branch_of(terminal),
    })
}

/// The terminal that a login names, with its password. One with encrypted values names none.
fn login_terminal<A: Allocator + Copy>(
    catalogue: &Catalogue<A>,
    request: &LoginRequest<'_>,
) -> Option<TerminalNo>
    ensures terminal { result ≡ login_terminal catalogue.now request.now }
    ensures known { IfSome result (λ terminal. terminal < (facts_of catalogue.now).terminals) }
{
    if request.clear {
        catalogue.terminal(request.name, request.password)
    } else {
        None
    }
}

/// As whom a session is logged in after a login message: as before where that isn't taken.
pub(crate) fn login_after(login: Option<Login>, made: Option<Login>) -> Option<Login>
    ensures after { result ≡ login_after login made }
    ensures known { (k : Facts) → ForSome login (IsKnownLogin k) → ForSome made (IsKnownLogin k) →
        ForSome result (IsKnownLogin k) }
{
    match made {
        Some(_) => made,
        None => login,
    }
}
