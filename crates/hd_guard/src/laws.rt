//! The laws of trailers: what is proved of the definitions.
ghost use Rattle.hd_guard.specs.Laws.{OneReadingHolds, OneNumberIsRight, OwnDigitIsRead, SealedIsReadBack};

/// For any bytes just one number of 16 bits is right (SIP2 2.00, checksum).
///
/// Nothing more is claimed of it: two texts with one sum have one check number.
pub fn one_number_is_right()
    ensures { OneNumberIsRight }
{}

/// Of one line just one reading holds: its kind, body and digit
/// are determined, so [`trailer`](crate::trailer) has one answer.
pub fn one_reading_holds()
    ensures { OneReadingHolds }
{}

/// A sealed body is read back with its digit, for every body and every digit (docs/protocol.md, trailers).
///
/// A body that is sealed with no digit must not end in `AY` and a digit itself; see [`own_digit_is_read`].
pub fn sealed_is_read_back()
    ensures { SealedIsReadBack }
{}

/// A body that ends in `AY` and a digit, sealed with no digit, is read as the rest of it with that digit.
pub fn own_digit_is_read()
    ensures { OwnDigitIsRead }
{}
