//! The law of replays.
ghost use Rattle.std.specs.Prelude.{◌≡◌, ℕ, List};
ghost use Rattle.hd_date.specs.Stamps.{Stamp};
ghost use Rattle.hd_catalogue.specs.Contents.{Contents};
ghost use Rattle.hd_exchange.specs.Extensions.{Extensions};
ghost use Rattle.hd_replay.specs.Endings.{WritesWell, WritesWellOver};

use hd_catalogue::accepted_or_refused;
use hd_date::texts_show_one_stamp;
use hd_journal::Journal;
use hd_session::scripts_are_determined;
use std::alloc::Global;

/// Where a replay ends well, what it writes is a function of the catalogue file, the present and the input:
/// no other text is ever written of them by a replay that ends well. With extensions it is a function of the
/// library, the extensions, the present and the input.
pub fn replays_are_determined()
    ensures standard { (file present input text other : List ℕ)
        → WritesWell file present input text
        → WritesWell file present input other
        → text ≡ other }
    ensures extended { (k : Contents) (e : Extensions) (now : Stamp) (input text other : List ℕ)
        → WritesWellOver k e now input text
        → WritesWellOver k e now input other
        → text ≡ other }
{
    accepted_or_refused();
    texts_show_one_stamp();
    scripts_are_determined::<Global, Journal<Global>>();
}
