//! What holds of the texts of days.
ghost use Rattle.std.specs.Prelude.{◌≡◌, ℕ, List};
ghost use Rattle.hd_day_text.specs.Days.{IsDayText};

use hd_date::{prints_show_their_stamp, texts_show_one_stamp};

/// A text is that of one day at most.
pub fn texts_are_of_one_day()
    ensures { (text : List ℕ) (day other : ℕ) → IsDayText day text → IsDayText other text → day ≡ other }
{
    prints_show_their_stamp();
    texts_show_one_stamp();
}
