//! Printing and reading.
ghost use Rattle.std.specs.Prelude.{◌≡◌, ℕ, ◌-◌, List, ℤ};
ghost use Rattle.hd_date.specs.Clock.{IsStampAt, first_day};
ghost use Rattle.hd_day.specs.Days.{end_of_days};
ghost use Rattle.hd_date.specs.Days.{IsCalendarDay};
ghost use Rattle.hd_date.specs.Faults.{IsFirstFault};
ghost use Rattle.hd_date.specs.Stamps.{IsLocal, IsMoment, IsOwnPrint, IsStamp, Prints, Stamp};

use crate::fault::DateFault;

/// What is printed of a stamp is one text, and shows that stamp under each offset. A text in local
/// time is what is printed of each stamp that it shows.
pub fn prints_show_their_stamp()
    ensures one { (stamp : Stamp) (text other : List ℕ) → Prints stamp text → Prints stamp other
        → text ≡ other }
    ensures shown { (stamp : Stamp) (text : List ℕ) (offset : ℤ) → IsMoment stamp → Prints stamp text
        → IsStamp text offset stamp }
    ensures own { (text : List ℕ) → IsLocal text → IsOwnPrint text }
{}

/// The days are those of the calendar up to 31 December 9999, and a number is of one of its dates.
pub fn days_are_dates()
    ensures last { IsCalendarDay 9999 12 31 (end_of_days - 1) }
    ensures one_number { (year month day m n : ℕ) → IsCalendarDay year month day m
        → IsCalendarDay year month day n → m ≡ n }
    ensures one_date { (y m d y' m' d' n : ℕ) → IsCalendarDay y m d n → IsCalendarDay y' m' d' n
        → (y ≡ y') × (m ≡ m') × (d ≡ d') }
{}

/// A text shows one stamp at most, has one first fault at most, and not both.
pub fn texts_show_one_stamp()
    ensures one { (text : List ℕ) (offset : ℤ) (s t : Stamp) → IsStamp text offset s → IsStamp text offset t
        → s ≡ t }
    ensures one_fault { (text : List ℕ) (offset : ℤ) (f g : DateFault) → IsFirstFault text offset f
        → IsFirstFault text offset g → f ≡ g }
    ensures no_fault { (text : List ℕ) (offset : ℤ) (s : Stamp) (fault : DateFault) → IsStamp text offset s
        → ¬ IsFirstFault text offset fault }
{}

/// Clocks begin on 1 January 1970. What a clock tells is one stamp at most, in each local time.
pub fn clocks_tell_one_stamp()
    ensures first { IsCalendarDay 1970 1 1 first_day }
    ensures one { (told offset : ℤ) (s t : Stamp) → IsStampAt told offset s → IsStampAt told offset t
        → s ≡ t }
{}
