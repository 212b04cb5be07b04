//! Days as they are printed where something is due on them or ends with them.
ghost use Rattle.std.specs.Prelude.{◌≡◌};
ghost use Rattle.hd_message.specs.Due.{due_text};

use hd_date::{Day, days_are_dates, print_due};

/// A day as it is printed.
pub(crate) fn day_text(day: &Day) -> [u8; 18]
    ensures { result ≡ due_text day.now }
{
    days_are_dates();
    print_due(*day)
}
