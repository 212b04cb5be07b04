//! How what was played is told.
use std::io;

/// Prints a row's name, and whether it went as it is to.
pub(crate) fn tell(rt: &HostRuntime, name: &str, is_well: bool) -> io::Result<()> {
    let verdict = verdict(is_well);
    println!(rt; "{name}: {verdict}")
}

/// What is printed of something that went as it is to, or didn't.
pub(crate) fn verdict(is_well: bool) -> &'static str {
    if is_well { "ok" } else { "FAILED" }
}
