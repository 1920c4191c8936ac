//! The file of the operator's socket.
use mio::net::UnixListener;
use std::fs::{self, Files, Permissions};
use std::io::{self, ErrorKind};
use std::net::Net;
use std::os::unix::fs::{FileTypeExt, MetadataExt, PermissionsExt};

/// Who may connect.
const OWNER_ALONE: u32 = 0o600;

/// Which file a socket has, so that another one at the same path is not taken for it.
#[derive(Clone, Copy, Debug, PartialEq, Eq)]
pub(crate) struct FileId {
    device: u64,
    inode: u64,
}

// The socket that stands at a path, if there is one. Anything else there is an error.
fn socket_at<R: Files>(rt: &R, path: &str) -> io::Result<Option<FileId>> {
    match fs::symlink_metadata(rt, path) {
        Ok(found) if found.file_type().is_socket() => Ok(Some(FileId {
            device: found.dev(),
            inode: found.ino(),
        })),
        Ok(_) => Err(io::Error::from(ErrorKind::AlreadyExists)),
        Err(error) => match error.kind() {
            ErrorKind::NotFound => Ok(None),
            _ => Err(error),
        },
    }
}

/// Listens at a path, for its owner alone. A socket that a service before has left there is
/// removed.
pub(crate) fn listen<R: Files + Net>(rt: &R, path: &str) -> io::Result<(UnixListener, FileId)> {
    if socket_at(rt, path)?.is_some() {
        fs::remove_file(rt, path)?;
    }
    let listener = UnixListener::bind(rt, path)?;
    match make_private(rt, path) {
        Ok(file) => {
            turn_away(&listener);
            Ok((listener, file))
        }
        Err(error) => {
            let _ = fs::remove_file(rt, path);
            Err(error)
        }
    }
}

// From now on only the owner connects at a path.
fn make_private<R: Files>(rt: &R, path: &str) -> io::Result<FileId> {
    fs::set_permissions(rt, path, Permissions::from_mode(OWNER_ALONE))?;
    socket_at(rt, path)?.ok_or(io::Error::from(ErrorKind::NotFound))
}

// Lets go whoever has connected before that: a socket has its mode only once it is bound.
fn turn_away(listener: &UnixListener) {
    for _ in 0..u32::MAX {
        if listener.accept().is_err() {
            break;
        }
    }
}

/// Removes the socket at a path, if it is this one.
pub(crate) fn remove<R: Files>(rt: &R, path: &str, file: FileId) {
    if let Ok(Some(found)) = socket_at(rt, path) {
        if found == file {
            let _ = fs::remove_file(rt, path);
        }
    }
}
