//! Answering the messages of the standard input.

use crate::fault::Fault;
use hd_command_line::Replay;
use hd_connection::Fallible;
use hd_library::{Library, extensions_of, is_extended, read_file};
use hd_replay::{ReplayFault, replay_over};
use hd_server::replay;

/// Answers the messages of the standard input.
pub(crate) fn answer(rt: &HostRuntime, order: &Replay<'_>) -> Result<(), Fault> {
    match answer_all(rt, order) {
        Ok(()) => Ok(()),
        Err(fault) => Err(fault.without_path()),
    }
}

/// The same, where a file that can't be read is told with its path.
fn answer_all(rt: &HostRuntime, order: &Replay<'_>) -> Result<(), Fault> {
    if order.library.opening.is_some() || is_extended(&order.extended) {
        return answer_over(rt, Library::read(rt, &order.library)?, order);
    }
    let file = read_file(rt, "catalogue", order.library.catalogue)?;
    let now = order.now.as_bytes();
    let mut from = Fallible(rt.stdin());
    let mut to = Fallible(rt.stdout());
    replay(rt, file.as_slice(), now, &mut from, &mut to)?;
    Ok(())
}

/// Answers the messages of the standard input over a library, from its opening on, with what extends them.
fn answer_over(rt: &HostRuntime, library: Library, order: &Replay<'_>) -> Result<(), Fault> {
    let journal = library.journal(rt)?;
    let catalogue = journal.desk().catalogue();
    let extensions = extensions_of(rt, &order.extended, catalogue)?;
    let Ok(now) = hd_date::read(order.now.as_bytes(), catalogue.offset()) else {
        return Err(Fault::from(ReplayFault::BadNow));
    };
    let mut from = Fallible(rt.stdin());
    let mut to = Fallible(rt.stdout());
    let extensions = Some(&extensions);
    replay_over(rt.alloc(), journal, now, extensions, &mut from, &mut to)?;
    Ok(())
}
