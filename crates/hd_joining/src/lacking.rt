//! Whether a catalogue lacks the name that a line defines.
#![tactic(auto, unfolding(hd_catalogue::specs::Contents::branch_number, hd_catalogue::specs::Contents::title_number, hd_catalogue::specs::Contents::copy_number, hd_catalogue::specs::Contents::patron_number, hd_catalogue::specs::Contents::terminal_name, hd_catalogue::specs::Contents::facts_of))]

ghost use Rattle.std.specs.Prelude.{◌≡◌, is_none, is_some};
ghost use Rattle.hd_catalogue.specs.Names.{number_of};
ghost use Rattle.hd_joining.specs.Joining.{lacks, lacks_name};

use hd_catalogue::{Catalogue, TerminalNo, Values, is_letter};
use std::alloc::Allocator;

/// Whether a line of a catalogue file defines a name that a catalogue lacks.
#[tactic(auto, unfolding(crate::specs::Joining::lacks))]
pub fn lacks<A: Allocator + Copy>(old: &Catalogue<A>, line: &[u8]) -> bool
    ensures { result ≡ lacks old.now line.now }
{
    let mut values = Values::of(line);
    let Some(kind) = values.take() else {
        return false;
    };
    let Some(name) = values.take() else {
        return false;
    };
    lacks_name(old, kind, name)
}

/// Whether a catalogue has no such name of the kind with a letter.
fn lacks_name<A: Allocator + Copy>(old: &Catalogue<A>, kind: &[u8], name: &[u8]) -> bool
    ensures { result ≡ lacks_name old.now kind.now name.now }
{
    if is_letter(b'B', kind) {
        old.branch(name).is_none()
    } else if is_letter(b'S', kind) {
        lacks_terminal(old, name)
    } else if is_letter(b'P', kind) {
        old.patron(name).is_none()
    } else if is_letter(b'T', kind) {
        old.title(name).is_none()
    } else if is_letter(b'C', kind) {
        old.copy(name).is_none()
    } else {
        false
    }
}

/// Whether a catalogue has no terminal with a name. There are few, and they are looked up by name and
/// password alone, so each is compared.
fn lacks_terminal<A: Allocator + Copy>(old: &Catalogue<A>, name: &[u8]) -> bool
    ensures { result ≡ is_none (number_of old.now.terminals name.now) }
{
    for number in 0..old.terminals() {
        let terminal = TerminalNo::new(number as u16).unwrap();
        if old.terminal_name(terminal) == name {
            return false;
        }
    }
    true
}
