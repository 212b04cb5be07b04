//! Why the program stops.

use hd_catalogue_commands::CatalogueCommandFault;
use hd_door_commands::DoorCommandFault;
use hd_folder::FolderFault;
use hd_journal::WriteFault;
use hd_journal_commands::JournalCommandFault;
use hd_library::SetupFault;
use hd_library_journal::LibraryJournalFault;
use hd_replay::ReplayFault;
use hd_serve::ServeFault;
use hd_server::ServerFault;
use std::alloc::{AllocError, AllocFailed};
use std::{fmt, io};
use thiserror::Error;

/// Why the program stops before its end, printed as one line on standard error.
#[derive(Drop, Error)]
pub(crate) enum Fault {
    /// A library isn't set up, or what is read beside it.
    #[error("{0}")]
    Setup(SetupFault),
    /// A folder, or a file in it, isn't as a command needs it.
    #[error("{0}")]
    Folder(FolderFault),
    /// The journal of a library isn't begun, opened or ended.
    #[error("{0}")]
    Journal(LibraryJournalFault),
    /// A command over a catalogue file stopped.
    #[error("{0}")]
    CatalogueCommand(CatalogueCommandFault),
    /// A command over a journal's file stopped.
    #[error("{0}")]
    JournalCommand(JournalCommandFault),
    /// A command that asks a running server stopped.
    #[error("{0}")]
    DoorCommand(DoorCommandFault),
    /// A file of a library can't be read, in a line that is one for all paths.
    #[error("cannot read the {0}")]
    Unread(&'static str),
    /// What the program tells can't be written.
    #[error("cannot write")]
    CannotWrite,
    /// Out of memory.
    #[error("no memory")]
    Memory,
    /// There can be no door at the path, for this reason.
    #[error("{0}")]
    NoDoor(String),
    /// A replay or a server stopped.
    #[error("{0}")]
    Server(ServerFault),
}

impl Fault {
    /// The fault as `replay` tells it: of a file that can't be read in a line that is one for all paths.
    pub(crate) fn without_path(self) -> Fault {
        match self {
            Fault::Setup(
                SetupFault::CannotRead {
                    kind,
                    path: _path,
                    why: _why,
                },
            ) => Fault::Unread(kind),
            other => other,
        }
    }
}

// Written out, since the proof of the derived one takes as long as that of thirty functions.
impl fmt::Debug for Fault {
    fn fmt<W: fmt::Write>(&self, f: &mut fmt::Formatter<W>) -> fmt::Result {
        write!(f, "{self}")
    }
}

impl From<SetupFault> for Fault {
    fn from(fault: SetupFault) -> Fault {
        Fault::Setup(fault)
    }
}

impl From<FolderFault> for Fault {
    fn from(fault: FolderFault) -> Fault {
        Fault::Folder(fault)
    }
}

impl From<LibraryJournalFault> for Fault {
    fn from(fault: LibraryJournalFault) -> Fault {
        Fault::Journal(fault)
    }
}

impl From<CatalogueCommandFault> for Fault {
    fn from(fault: CatalogueCommandFault) -> Fault {
        Fault::CatalogueCommand(fault)
    }
}

impl From<JournalCommandFault> for Fault {
    fn from(fault: JournalCommandFault) -> Fault {
        Fault::JournalCommand(fault)
    }
}

impl From<DoorCommandFault> for Fault {
    fn from(fault: DoorCommandFault) -> Fault {
        Fault::DoorCommand(fault)
    }
}

impl From<ServerFault> for Fault {
    fn from(fault: ServerFault) -> Fault {
        Fault::Server(fault)
    }
}

impl From<ReplayFault> for Fault {
    fn from(fault: ReplayFault) -> Fault {
        Fault::Server(ServerFault::Replay(fault))
    }
}

impl From<ServeFault> for Fault {
    fn from(fault: ServeFault) -> Fault {
        Fault::Server(ServerFault::Serve(fault))
    }
}

impl From<WriteFault> for Fault {
    fn from(why: WriteFault) -> Fault {
        Fault::from(ServeFault::Unwritten(why))
    }
}

impl From<AllocError> for Fault {
    fn from(_: AllocError) -> Fault {
        Fault::Memory
    }
}

impl<T: Drop> From<AllocFailed<T>> for Fault {
    fn from(_: AllocFailed<T>) -> Fault {
        Fault::Memory
    }
}

/// What fails is a write of what the program tells: of a file, a socket or the clock each caller says so.
impl From<io::Error> for Fault {
    fn from(_: io::Error) -> Fault {
        Fault::CannotWrite
    }
}
