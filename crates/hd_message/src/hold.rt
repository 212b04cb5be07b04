//! Reading a hold message.
ghost use Rattle.std.specs.Prelude.{◌≡◌, ◌||◌, List, ℕ, length, IfSome, is_none};
ghost use Rattle.std.specs.Option.{option_copied};
ghost use Rattle.hd_message.specs.Hold.{AreWishes, IsHold, expiry_of, has_bad_wishes, is_bad_hold, mode_of};
ghost use Rattle.hd_message.specs.Hold.{wanted_of};
ghost use Rattle.hd_message.specs.Table.{lacks_required};
ghost use Rattle.hd_message.specs.Values.{unless_empty};
ghost use Rattle.hd_message.specs.Walk.{AreFirst};
ghost use Rattle.hd_message.specs.declared.kind.Kind.TheVariants.{Desk};
ghost use Rattle.hd_message.specs.declared.kind.DeskKind.TheVariants.{Hold};

use crate::request::{HoldRequest, Mode, Wanted, Wishes};
use crate::values::{Values, first_values, is_yes, unless_empty};

/// The hold request of a fixed part and its fields, if it is readable.
pub(crate) fn hold<'a>(fixed: &'a [u8], part: &'a [u8]) -> Option<HoldRequest<'a>>
    requires { length fixed.now ≡ 21 }
    ensures held { IfSome result (IsHold fixed.now part.now) }
    ensures unreadable { is_none result
        ≡ (lacks_required (Desk Hold) part.now || is_bad_hold fixed.now part.now) }
{
    let mode = mode(fixed[2])?;
    let values = first_values(part);
    let patron = values.patron?;
    let copy = unless_empty(values.copy);
    let title = unless_empty(values.title);
    if copy.is_none() && title.is_none() {
        return None;
    }
    let cancels = is_yes(values.cancel);
    let wishes = wishes(&values, mode, cancels)?;
    Some(HoldRequest {
        mode,
        cancels,
        date: &fixed[3..21],
        patron,
        copy,
        title,
        wishes,
    })
}

/// The wishes that the first values of a part state, where the mode has wishes; nothing where they are
/// unreadable.
fn wishes<'a>(values: &Values<'a>, mode: Mode, cancels: bool) -> Option<Option<Wishes<'a>>>
    ensures wishes { (part : List ℕ) → AreFirst part values.now →
        IfSome result (AreWishes part mode cancels) }
    ensures unreadable { (part : List ℕ) → AreFirst part values.now →
        is_none result ≡ has_bad_wishes part mode cancels }
{
    if cancels || mode == Mode::Delete {
        return Some(None);
    }
    let wanted = wanted_of(values.wanted)?;
    if wanted == Some(Wanted::OneCopy) && unless_empty(values.copy).is_none() {
        return None;
    }
    Some(Some(Wishes {
        wanted,
        pickup: unless_empty(values.pickup),
        expiry: expiry(values.expiry),
    }))
}

/// The mode that a byte writes.
fn mode(byte: u8) -> Option<Mode>
    ensures { result ≡ mode_of byte }
{
    match byte {
        b'+' => Some(Mode::Add),
        b'-' => Some(Mode::Delete),
        b'*' => Some(Mode::Change),
        _ => None,
    }
}

/// Which copies a value of BY asks for, where it says so; nothing where that is unreadable.
fn wanted_of(value: Option<&[u8]>) -> Option<Option<Wanted>>
    ensures { result ≡ wanted_of (option_copied value.entry) }
{
    match value {
        None | Some([]) | Some([b' ' | b'1', ..]) => Some(None),
        Some([b'2', ..]) => Some(Some(Wanted::AnyCopy)),
        Some([b'3', ..]) => Some(Some(Wanted::OneCopy)),
        Some([b'4', ..]) => Some(Some(Wanted::AtBranch)),
        Some(_) => None,
    }
}

/// The date of expiry of a value of BW, where there is one.
fn expiry(value: Option<&[u8]>) -> Option<&[u8]>
    ensures { option_copied result ≡ expiry_of (unless_empty (option_copied value.entry)) }
{
    let text = unless_empty(value)?;
    if text == [b' '; 18].as_slice() {
        None
    } else {
        Some(text)
    }
}
