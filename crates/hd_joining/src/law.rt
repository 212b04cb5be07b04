//! What joined extends a catalogue.
ghost use Rattle.hd_joining.specs.Joining.{WhatJoinedExtends};

use hd_catalogue::an_extended_catalogue_grows;

/// A catalogue with the lines after its own that joined it, and with the arrivals of their copies after the
/// rows of its opening, extends it, and is what a file says that has these lines after its own.
pub fn what_joined_extends()
    ensures { WhatJoinedExtends }
{
    an_extended_catalogue_grows();
}
