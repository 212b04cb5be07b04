//! The dates of a message.
ghost use Rattle.std.specs.Prelude.{◌≡◌, ℤ};
ghost use Rattle.std.specs.Option.{option_copied};
ghost use Rattle.hd_date.specs.Stamps.{IsStamp, Prints};
ghost use Rattle.hd_exchange.specs.Dates.{AreDatesOf, IsStatedAs};

use hd_date::{Day, OffsetMinutes, Stamp18, local_text, read};

/// The dates of a message, read.
#[derive(Clone, Copy, PartialEq, Eq, Debug)]
pub(crate) struct Dates {
    /// The transaction date, where it can be read.
    pub(crate) transaction: Option<Stamp18>,
    /// The transaction date in local form, as a reply prints it: the present where it can't be read.
    pub(crate) printed: [u8; 18],
    /// The day of the other date, the due date of an off-line checkout or the expiration date of a hold, if
    /// the message states one; nothing where that can't be read.
    pub(crate) other: Option<Option<Day>>,
}

/// The dates of a transaction date, where the message has one, and of another date that it may state.
pub(crate) fn dates_of(
    now: &Stamp18,
    text: Option<&[u8]>,
    other: Option<&[u8]>,
    offset: OffsetMinutes,
) -> Dates
    ensures { AreDatesOf offset now.now (option_copied text.entry) (option_copied other.entry) result }
{
    let other = stated_day(other, offset);
    let Some(text) = text else {
        return Dates {
            transaction: None,
            printed: now.print(),
            other,
        };
    };
    match read(text, offset) {
        Ok(stamp) => Dates {
            transaction: Some(stamp),
            printed: stamp_text(text, &stamp),
            other,
        },
        Err(_) => Dates {
            transaction: None,
            printed: now.print(),
            other,
        },
    }
}

/// A stamp as a reply prints it: the text that reads as it where that is in local form.
fn stamp_text(text: &[u8], stamp: &Stamp18) -> [u8; 18]
    requires { (offset : ℤ) × IsStamp text.now offset stamp.now }
    ensures { Prints stamp.now result }
{
    match local_text(text) {
        Some(text) => *text,
        None => stamp.print(),
    }
}

/// The day of a date that may be stated; nothing where it can't be read.
fn stated_day(text: Option<&[u8]>, offset: OffsetMinutes) -> Option<Option<Day>>
    ensures { IsStatedAs offset (option_copied text.entry) result }
{
    let Some(text) = text else {
        return Some(None);
    };
    match read(text, offset) {
        Ok(stamp) => Some(Some(stamp.day())),
        Err(_) => None,
    }
}
