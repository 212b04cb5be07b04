//! Reading the messages that lend, renew, take back and ask for one copy, and the login.
ghost use Rattle.std.specs.Prelude.{◌≡◌, length, IfSome, is_none};
ghost use Rattle.hd_message.specs.Requests.{IsCheckin, IsCheckout, IsItem, IsLogin, IsRenew};
ghost use Rattle.hd_message.specs.Table.{lacks_required};
ghost use Rattle.hd_message.specs.declared.kind.Kind.TheVariants.{Login, Desk};
ghost use Rattle.hd_message.specs.declared.kind.DeskKind.TheVariants.{Checkout, Checkin, Renew, Item};

use crate::request::{CheckinRequest, CheckoutRequest, ItemRequest, LoginRequest, RenewRequest};
use crate::values::{first_values, is_yes, unless_empty};

/// The login of a fixed part and its fields, if it is readable.
pub(crate) fn login<'a>(fixed: &'a [u8], part: &'a [u8]) -> Option<LoginRequest<'a>>
    requires { length fixed.now ≡ 4 }
    ensures held { IfSome result (IsLogin fixed.now part.now) }
    ensures unreadable { is_none result ≡ lacks_required Login part.now }
{
    let values = first_values(part);
    let name = values.name?;
    let password = values.password?;
    Some(LoginRequest {
        clear: fixed[2] == b'0' && fixed[3] == b'0',
        name,
        password,
    })
}

/// The checkout, if it is readable.
pub(crate) fn checkout<'a>(fixed: &'a [u8], part: &'a [u8]) -> Option<CheckoutRequest<'a>>
    requires { length fixed.now ≡ 40 }
    ensures held { IfSome result (IsCheckout fixed.now part.now) }
    ensures unreadable { is_none result ≡ lacks_required (Desk Checkout) part.now }
{
    let values = first_values(part);
    let patron = values.patron?;
    let copy = values.copy?;
    let cancels = is_yes(values.cancel);
    let offline = fixed[3] == b'Y' && !cancels;
    Some(CheckoutRequest {
        renews: fixed[2] == b'Y',
        date: &fixed[4..22],
        due: if offline { Some(&fixed[22..40]) } else { None },
        patron,
        copy,
        cancels,
    })
}

/// The checkin, if it is readable.
pub(crate) fn checkin<'a>(fixed: &'a [u8], part: &'a [u8]) -> Option<CheckinRequest<'a>>
    requires { length fixed.now ≡ 39 }
    ensures held { IfSome result (IsCheckin fixed.now part.now) }
    ensures unreadable { is_none result ≡ lacks_required (Desk Checkin) part.now }
{
    let values = first_values(part);
    let copy = values.copy?;
    Some(CheckinRequest {
        date: &fixed[3..21],
        copy,
        branch: unless_empty(values.branch),
        cancels: is_yes(values.cancel),
    })
}

/// The renewal, if it is readable.
pub(crate) fn renew<'a>(fixed: &'a [u8], part: &'a [u8]) -> Option<RenewRequest<'a>>
    requires { length fixed.now ≡ 40 }
    ensures held { IfSome result (IsRenew fixed.now part.now) }
    ensures unreadable { is_none result ≡ lacks_required (Desk Renew) part.now }
{
    let values = first_values(part);
    let patron = values.patron?;
    let copy = values.copy?;
    Some(RenewRequest {
        date: &fixed[4..22],
        patron,
        copy,
        title: unless_empty(values.title),
        cancels: is_yes(values.cancel),
    })
}

/// The question about a copy, if it is readable.
pub(crate) fn item<'a>(fixed: &'a [u8], part: &'a [u8]) -> Option<ItemRequest<'a>>
    requires { length fixed.now ≡ 20 }
    ensures held { IfSome result (IsItem fixed.now part.now) }
    ensures unreadable { is_none result ≡ lacks_required (Desk Item) part.now }
{
    let values = first_values(part);
    let copy = values.copy?;
    Some(ItemRequest {
        date: &fixed[2..20],
        copy,
    })
}
