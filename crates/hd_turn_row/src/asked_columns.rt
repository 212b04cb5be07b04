//! What is asked, as columns.
ghost use Rattle.std.specs.Prelude.{◌≡◌};
ghost use Rattle.std.specs.Option.{option_copied};
ghost use Rattle.hd_day_text.specs.Days.{IsDayText};
ghost use Rattle.hd_turn_row.specs.Columns.{IsShown};
ghost use Rattle.hd_turn_row.specs.Rows.{text_or_empty};

use hd_ask_parts::{Parts, parts_of};
use hd_day_text::day_text;
use hd_rules::{Asked, Day};

/// What is asked, column by column, with the texts of its days, which a row lends.
#[derive(Clone, Copy)]
pub struct AskedColumns {
    pub(crate) parts: Parts,
    day: Option<[u8; 10]>,
    until: Option<[u8; 10]>,
}

impl AskedColumns {
    ghost use Rattle.std.specs.Prelude.{IfNone, IfSome, None};
    ghost use Rattle.hd_ask_parts.specs.Parts.{asked_parts};
    ghost use Rattle.hd_turn_row.specs.Rows.{AreAskedColumns};

    /// The columns of what is asked, or `None` of a query, which changes nothing and has no row. The days are
    /// its transaction day, and the day on which something is due or ends by it.
    pub fn of(asked: &Asked) -> Option<AskedColumns>
        ensures columns { IfSome result (AreAskedColumns asked.now) }
        ensures query { IfNone result (asked_parts asked.now ≡ None) }
    {
        let parts = parts_of(asked)?;
        Some(AskedColumns {
            parts,
            day: text_if_any(parts.day),
            until: text_if_any(parts.until),
        })
    }

    /// The text of the transaction day, which is empty where there is none.
    pub(crate) fn day(&self) -> &[u8]
        ensures { result.now ≡ text_or_empty self.now.day }
    {
        match &self.day {
            Some(text) => text.as_slice(),
            None => b"",
        }
    }

    /// The text of the other day.
    pub(crate) fn until(&self) -> Option<&[u8]>
        ensures { option_copied result ≡ self.now.until }
    {
        self.until.as_ref().map(|text| text.as_slice())
    }
}

/// The text of a day, if there is one.
fn text_if_any(day: Option<Day>) -> Option<[u8; 10]>
    ensures { IsShown IsDayText day result }
{
    match day {
        Some(day) => Some(day_text(day)),
        None => None,
    }
}
