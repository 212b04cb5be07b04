//! The library that is played in: its catalogue file, its names, a present, and journals without turns.
ghost use Rattle.std.specs.Prelude.{◌≡◌, [], IfSome};

use hd_catalogue::Catalogue;
use hd_date::{OffsetMinutes, Stamp18};
use hd_desk::Meter;
use hd_journal::Journal;
use hd_session::{Extensions, Patrons, Profile};
use std::alloc::Global;

/// Its catalogue file (docs/catalogue.md): two terminals, three patrons, two titles and five copies.
const CATALOGUE: &[u8] = b"H|1|lib|60|100
B|north
B|south
S|t1|pw|north
S|t2|pw|south
P|p1|3
P|p2|3
P|p3|1
T|ta|21|1
T|tb|14|0
C|a1|ta|north
C|a2|ta|north
C|a3|ta|south
C|b1|tb|north
C|b2|tb|north
";

/// A patrons' file of it.
const PATRONS_FILE: &[u8] = b"H|patrons|1\nP|p1|1234|001|Ada\n";

/// Its copies.
pub(crate) const COPIES: [&[u8]; 5] = [b"a1", b"a2", b"a3", b"b1", b"b2"];

/// Its titles.
pub(crate) const TITLES: [&[u8]; 2] = [b"ta", b"tb"];

/// Its patrons.
pub(crate) const PATRONS: [&[u8]; 3] = [b"p1", b"p2", b"p3"];

/// A present, as `replay` is told it.
const NOW: &[u8] = b"20260301    120000";

/// Its catalogue file. The proof of a function that calls this has one name for the file, and that of one
/// that names the constant has all its bytes.
fn catalogue() -> &'static [u8] {
    CATALOGUE
}

/// That present, read at the library's offset. `None` never comes, since it can be read.
pub(crate) fn present() -> Option<Stamp18> {
    hd_date::read(NOW, OffsetMinutes::new(60)?).ok()
}

/// A journal without turns. None where there is no memory.
pub(crate) fn new_journal(rt: &HostRuntime) -> Option<Journal>
    ensures { IfSome result (λ journal. journal.turns ≡ []) }
{
    let alloc = rt.alloc();
    let catalogue = Catalogue::read(alloc, catalogue()).ok()?;
    match hd_journal::open(alloc, alloc, Meter::new(rt), catalogue) {
        Ok(journal) => Some(journal),
        Err(_) => None,
    }
}

/// Patron messages, with what the patrons' file says. None where there is no memory.
pub(crate) fn extensions(alloc: Global) -> Option<Extensions> {
    let catalogue = Catalogue::read(alloc, catalogue()).ok()?;
    let patrons = Patrons::read(alloc, &catalogue, PATRONS_FILE).ok()?;
    let profile = Profile {
        patron_messages: true,
        sorter_fields: false,
    };
    Some(Extensions::new(profile, patrons))
}
