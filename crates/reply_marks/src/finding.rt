//! What stands beside a file.

use file_sums::{Noted, Record};
use kept_sums::{Access, KeptSums, make_beside, open_beside, read_beside, remove_beside};
use std::fs::File;
use std::hash::{BuildHasher, RandomState};
use std::io::{self, ErrorKind};

/// What was found beside a file.
#[derive(Drop)]
pub struct Found {
    /// What it says, where it can be read.
    pub noted: Noted,
    pub(crate) sums: Standing,
}

/// What stands in the place of FILE-sums.
#[derive(Drop)]
pub(crate) enum Standing {
    /// One that is appended to.
    Kept(KeptSums<File>),
    /// Nothing, or what says nothing, or what has been read: another one takes its place.
    Replaceable,
    /// Something that cannot be read.
    Unreadable(io::Error),
}

/// What the FILE-sums of a file says, by the file's path without links. Nothing is noted where there
/// is none that can be read. Nothing is written.
pub fn noted_beside(rt: &HostRuntime, path: &str) -> Noted {
    match read_beside(&Access { rt, path }) {
        Ok(Some(noted)) => noted,
        _ => Noted::new(),
    }
}

/// Takes the FILE-sums of a file away, if there is one, by the file's path without links.
pub fn forget_beside(rt: &HostRuntime, path: &str) -> io::Result<()> {
    remove_beside(&Access { rt, path })
}

/// What stands beside a file, by the file's path without links. `WouldBlock` where another process
/// has it.
pub(crate) fn find_beside(rt: &HostRuntime, path: &str) -> io::Result<Found> {
    match open_beside(&Access { rt, path }) {
        Ok(Some(kept)) => Ok(Found {
            noted: kept.noted(),
            sums: Standing::Kept(kept),
        }),
        Err(error) if error.kind() == ErrorKind::WouldBlock => Err(error),
        _ => Ok(read_alone(rt, path)),
    }
}

// What stands there, where it cannot be appended to.
fn read_alone(rt: &HostRuntime, path: &str) -> Found {
    match read_beside(&Access { rt, path }) {
        Ok(noted) => Found {
            noted: noted.unwrap_or(Noted::new()),
            sums: Standing::Replaceable,
        },
        Err(error) => Found {
            noted: Noted::new(),
            sums: Standing::Unreadable(error),
        },
    }
}

/// Makes the FILE-sums of a file, with this mark alone.
pub(crate) fn make_marked(rt: &HostRuntime, path: &str, mark: u64) -> io::Result<KeptSums<File>> {
    let key = RandomState::new(rt)?.hash_one(&0u8);
    make_beside(&Access { rt, path }, key, &[Record::Mark(mark)])
}
