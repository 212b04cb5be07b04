//! The file of a Unix socket.
ghost use Rattle.std.specs.Prelude.{◌≡◌, MatchResult, Ok, OnErr, OnOk};
ghost use Rattle.std.specs.Fs.{permissions_mode};
ghost use Rattle.hd_door.specs.SocketFiles.{IsForOwnerAlone, IsFoundBy, IsShortEnough, IsUsedByOwner};
ghost use Rattle.hd_door.specs.SocketFiles.{gives_way};
ghost use Rattle.hd_door.specs.declared.socket_file.Occupant.TheVariants.{Live};

use crate::fault::DoorFault;
use crate::private_folder::{folder_of, new_folder};
use std::alloc::Global;
use std::fs::{self, Files, Metadata, Permissions};
use std::io::{self, ErrorKind};
use std::net::Net;
use std::os::unix::fs::{FileTypeExt, MetadataExt, PermissionsExt};
use std::os::unix::net::{UnixListener, UnixStream};

/// How many bytes the path of a socket's file may have: the system keeps it in 108, with a zero behind it.
const MOST_BYTES: usize = 107;

/// How many of them its folder may have: the socket is made at `/.0/s` in it, before it has its path.
const MOST_OF_FOLDER: usize = 102;

/// What is at a path.
#[derive(Clone, Copy, Debug, PartialEq, Eq)]
pub(crate) enum Occupant {
    /// Nothing.
    Nothing,
    /// The file of a socket at which nobody listens.
    Dead,
    /// The file of a socket at which somebody listens.
    Live,
    /// Another file.
    Other,
}

/// Which file it is: its file system, and its number there.
#[derive(Clone, Copy, Debug, PartialEq, Eq)]
pub(crate) struct FileId {
    device: u64,
    number: u64,
}

impl FileId {
    /// The file of these data.
    fn of(file: &Metadata) -> FileId {
        FileId {
            device: file.dev(),
            number: file.ino(),
        }
    }
}

/// Listens at a path, in the place of a socket's file at which nobody listens any more, if one is there. The
/// file is for its owner alone from the first: it is made in a new folder that nobody else may enter, and has
/// its mode before it has the path.
///
/// # Errors
/// `Live` and `OtherFile`, where what is there isn't such a file; it stays then. `Refused` where the path is
/// too long, the system refuses, or memory runs out.
pub(crate) fn bind<R: Files + Net>(
    rt: &R,
    alloc: Global,
    path: &str,
) -> Result<(UnixListener, FileId), DoorFault> {
    let within = folder_of(path);
    see_length(path, within)?;
    if gives_way(found_at(rt, path)?)? {
        fs::remove_file(rt, path)?;
    }
    let folder = new_folder(rt, alloc, within)?;
    let bound = bind_in(rt, alloc, folder.as_str(), path);
    let _ = fs::remove_dir(rt, folder.as_str());
    Ok(bound?)
}

/// Sees that a socket's file may have this path, in this folder.
///
/// # Errors
/// One of them is too long.
fn see_length(path: &str, folder: &str) -> io::Result<()>
    ensures short { OnOk result (IsShortEnough path.now folder.now) }
    ensures long { OnErr result (¬ IsShortEnough path.now folder.now) }
{
    if path.len() <= MOST_BYTES && folder.len() <= MOST_OF_FOLDER {
        return Ok(());
    }
    let why = "a door's path has at most 107 bytes, and its folder at most 102";
    Err(io::Error::new(ErrorKind::InvalidInput, why))
}

/// Listens at a name in a folder, and moves the socket's file from there to a path.
///
/// # Errors
/// As `give`; where the system doesn't listen there, or memory runs out.
fn bind_in<R: Files + Net>(
    rt: &R,
    alloc: Global,
    folder: &str,
    path: &str,
) -> io::Result<(UnixListener, FileId)> {
    let name = format!(in alloc; "{folder}/s")?;
    let listener = UnixListener::bind(rt, name.as_str())?;
    let given = give(rt, name.as_str(), path);
    let _ = fs::remove_file(rt, name.as_str());
    Ok((listener, given?))
}

/// Has a file be for its owner alone, gives it another path too, and tells which file it is.
///
/// # Errors
/// Where the system refuses, as it does where a file is at the path; that stays.
fn give<R: Files>(rt: &R, name: &str, path: &str) -> io::Result<FileId> {
    fs::set_permissions(rt, name, permissions())?;
    let id = FileId::of(&fs::symlink_metadata(rt, name)?);
    fs::hard_link(rt, name, path)?;
    Ok(id)
}

/// Who may use the file of a socket: its owner alone, who may connect.
fn permissions() -> Permissions
    ensures alone { IsForOwnerAlone (permissions_mode result) }
    ensures owner { IsUsedByOwner (permissions_mode result) }
{
    Permissions::from_mode(0o600)
}

/// Whether a socket's file gives way to a new one: `true` where it has to be removed, and `false` where there
/// is none.
///
/// # Errors
/// `Live` where somebody listens there, and `OtherFile` where it is another file.
fn gives_way(found: Occupant) -> Result<bool, DoorFault>
    ensures { result ≡ gives_way found }
{
    match found {
        Occupant::Nothing => Ok(false),
        Occupant::Dead => Ok(true),
        Occupant::Live => Err(DoorFault::Live),
        Occupant::Other => Err(DoorFault::OtherFile),
    }
}

/// What is at a path.
///
/// # Errors
/// Where the system doesn't tell.
fn found_at<R: Files + Net>(rt: &R, path: &str) -> io::Result<Occupant> {
    match fs::symlink_metadata(rt, path) {
        Ok(file) if file.file_type().is_socket() => found_by(UnixStream::connect(rt, path)),
        Ok(_) => Ok(Occupant::Other),
        Err(error) if error.kind() == ErrorKind::NotFound => Ok(Occupant::Nothing),
        Err(error) => Err(error),
    }
}

/// Which socket it is, where connecting to it went so: nobody listens exactly where the connection is
/// refused.
///
/// # Errors
/// The connection's, where it failed in another way.
fn found_by<T: Drop>(connected: io::Result<T>) -> io::Result<Occupant>
    ensures { MatchResult connected (λ _. result ≡ Ok Live) (λ why. IsFoundBy why result) }
{
    match connected {
        Ok(_) => Ok(Occupant::Live),
        Err(error) if error.kind() == ErrorKind::ConnectionRefused => Ok(Occupant::Dead),
        Err(error) => Err(error),
    }
}

/// Removes a file from its path, where it is there.
///
/// # Errors
/// Where the system refuses.
pub(crate) fn remove<R: Files>(rt: &R, path: &str, id: FileId) -> io::Result<()> {
    let there = FileId::of(&fs::symlink_metadata(rt, path)?);
    if there == id {
        fs::remove_file(rt, path)?;
    }
    Ok(())
}
