//! Terminals by name.
ghost use Rattle.std.specs.Prelude.{◌≡◌};
ghost use Rattle.hd_catalogue.specs.Names.{number_of};

use hd_catalogue::{Catalogue, TerminalNo};
use std::alloc::Allocator;

/// The terminal whose name these bytes are, whatever its password, or `None` where there is none. It looks at
/// one terminal after another.
pub(crate) fn terminal_named<A: Allocator + Copy>(
    catalogue: &Catalogue<A>,
    name: &[u8],
) -> Option<TerminalNo>
    ensures { result ≡ number_of catalogue.now.terminals name.now }
{
    for number in 0..catalogue.terminals() {
        let terminal = TerminalNo::new(number as u16).unwrap();
        if catalogue.terminal_name(terminal) == name {
            return Some(terminal);
        }
    }
    None
}
