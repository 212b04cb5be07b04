//! The door at which a server is seen.

use crate::fault::Fault;
use hd_door::{Door, DoorFault};
use std::alloc::Global;

/// Opens a door at a path.
pub(crate) fn open_door(host: &HostRuntime, path: &str) -> Result<Door, Fault> {
    match Door::open(host, host.alloc(), path) {
        Ok(door) => Ok(door),
        Err(fault) => Err(door_fault(host.alloc(), path, &fault)),
    }
}

/// Why there is no door at a path.
fn door_fault(alloc: Global, path: &str, fault: &DoorFault) -> Fault {
    let said = match fault {
        DoorFault::Live => format!(in alloc; "a server listens at {path}"),
        DoorFault::OtherFile => format!(in alloc; "the file {path} is no socket"),
        DoorFault::Refused(why) => format!(in alloc; "cannot listen at {path}: {why}"),
    };
    match said {
        Ok(said) => Fault::NoDoor(said),
        Err(_) => Fault::Memory,
    }
}
