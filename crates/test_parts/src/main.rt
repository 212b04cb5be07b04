//! Plays the parts of the house each by itself, and says of each row whether it went as it is to.
//!
//! Here is what needs calls in the process: sessions whose office is estranged; two seats of a hall, and two
//! threads; terminals over TCP at servers with a gate, a keeper or a port of their own; and a journal's file
//! whose disks stop at each call. A heading stands over the rows of each. What can be seen from outside
//! scripts play at the program itself.
#![tactic(auto)]

mod alone;
mod comparing;
mod crashes;
mod halls;
mod library;
mod serving;
mod sessions;
mod verdict;
mod wishes;

use std::io;
use std::sync::Wait;
use std::thread::Threads;
use std::time::Clock;

/// A part of the house, with a heading over its rows.
#[derive(Clone, Copy)]
enum Part {
    Sessions,
    Hall,
    Serving,
    Crashes,
}

static PARTS: [(&str, Part); 4] = [
    ("Sessions", Part::Sessions),
    ("A hall", Part::Hall),
    ("Serving", Part::Serving),
    ("Stops of a journal's disks", Part::Crashes),
];

fn main(rt: HostRuntime) -> io::Result<()> {
    for (heading, part) in parts() {
        println!(rt; "{heading}")?;
        part.play(&rt, &rt)?;
    }
    Ok(())
}

/// All parts.
fn parts() -> &'static [(&'static str, Part)] {
    &PARTS
}

impl Part {
    /// Plays its rows, by handles that wait, start threads and have a clock, and that print.
    fn play<R: Threads + Wait + Clock + Sync>(self, rt: &R, host: &HostRuntime) -> io::Result<()> {
        match self {
            Part::Sessions => sessions::play(host),
            Part::Hall => halls::play(rt, host),
            Part::Serving => serving::play(rt, host),
            Part::Crashes => crashes::play(host),
        }
    }
}
