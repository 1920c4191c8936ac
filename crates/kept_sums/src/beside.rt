//! FILE-sums beside a file of this machine.

use crate::KeptSums;
use file_sums::{Noted, Record, Sums};
use os::RangeLock;
use std::alloc::AllocError;
use std::fs::{self, File, OpenOptions, Permissions};
use std::io::{self, ErrorKind, Read};
use std::os::fd::AsRawFd;
use std::os::unix::fs::{MetadataExt, OpenOptionsExt, PermissionsExt, fchown};

/// The mode of a file that is made, until it gets the access of the file beside it.
const OWNER_ALONE: u32 = 0o600;

/// A FILE-sums longer than this is not read.
const MOST_BYTES: u64 = 1 << 30;

/// The size of pages that a head has, where no digests of pages follow.
const NO_PAGES: u32 = 0;

/// The file whose FILE-sums it is, by its path without links.
#[derive(Clone, Copy)]
pub struct Access<'a> {
    pub rt: &'a HostRuntime,
    pub path: &'a str,
}

impl Access<'_> {
    fn name(&self) -> Result<String, AllocError> {
        let path = self.path;
        format!(in self.rt.alloc(); "{path}-sums")
    }

    fn part_name(&self) -> Result<String, AllocError> {
        let path = self.path;
        format!(in self.rt.alloc(); "{path}-sums.part")
    }

    fn sync_folder(&self) -> io::Result<()> {
        let folder = match self.path.rfind('/') {
            Some(0) => "/",
            Some(at) => &self.path[..at],
            None => ".",
        };
        File::open(self.rt, folder)?.sync_all()
    }
}

/// The FILE-sums beside a file, if there is one that can be read, to be appended to. What a crash
/// has cut off is gone from it. `WouldBlock` where another process has it.
pub fn open_beside(access: &Access<'_>) -> io::Result<Option<KeptSums<File>>> {
    let name = access.name()?;
    let Some(mut file) = open_own(access.rt, name.as_str())? else {
        return Ok(None);
    };
    settle(&file)?;
    access.sync_folder()?;
    match read_whole(access.rt, &mut file)? {
        Some((sums, len)) => {
            file.set_len(len as u64)?;
            Ok(Some(KeptSums::over(file, sums, len as u64)))
        }
        None => Ok(None),
    }
}

/// What the FILE-sums beside a file says, if there is one that can be read. Nothing is written or
/// locked.
pub fn read_beside(access: &Access<'_>) -> io::Result<Option<Noted>> {
    let name = access.name()?;
    match fs::symlink_metadata(access.rt, name.as_str()) {
        Ok(found) if found.is_file() => {}
        Ok(_) => return Ok(None),
        Err(error) if error.kind() == ErrorKind::NotFound => return Ok(None),
        Err(error) => return Err(error),
    }
    let mut file = above_streams(File::open(access.rt, name.as_str())?)?;
    match read_whole(access.rt, &mut file)? {
        Some((sums, _len)) => Ok(Some(sums.noted())),
        None => Ok(None),
    }
}

// What a file of FILE-sums is, and how many bytes of it.
fn read_whole(rt: &HostRuntime, file: &mut File) -> io::Result<Option<(Sums, usize)>> {
    if file.metadata()?.len() > MOST_BYTES {
        return Ok(None);
    }
    let mut bytes = Vec::new(rt.alloc());
    file.read_to_end(&mut bytes)?;
    Ok(Sums::read(&bytes))
}

/// Makes the FILE-sums of a file anew, with these records, under a key that is drawn at random. The
/// one before stands until the new one is on the disk, and where the call fails.
pub fn make_beside(
    access: &Access<'_>,
    key: u64,
    entries: &[Record],
) -> io::Result<KeptSums<File>> {
    let part = access.part_name()?;
    let _was_there = remove(access.rt, part.as_str())?;
    match make_named(access, part.as_str(), key, entries) {
        Ok(kept) => {
            // It is the one to append to, even where a loss of power may still take its name away.
            let _ = access.sync_folder();
            Ok(kept)
        }
        Err(error) => {
            let _ = remove(access.rt, part.as_str());
            Err(error)
        }
    }
}

// Makes it under another name, and gives it its own once it is whole and synced.
fn make_named(
    access: &Access<'_>,
    part: &str,
    key: u64,
    entries: &[Record],
) -> io::Result<KeptSums<File>> {
    let (alloc, name) = (access.rt.alloc(), access.name()?);
    let file = make_own(access, part)?;
    let (sums, head) = Sums::begin(alloc, NO_PAGES, key)?;
    let mut kept = KeptSums::begin(file, sums, &head)?;
    for entry in entries {
        kept.append(alloc, *entry)?;
    }
    kept.sync()?;
    fs::rename(access.rt, part, name.as_str())?;
    Ok(kept)
}

/// Takes the FILE-sums of a file away, if it is there.
pub fn remove_beside(access: &Access<'_>) -> io::Result<()> {
    if remove(access.rt, access.name()?.as_str())? {
        access.sync_folder()?;
    }
    Ok(())
}

// Takes a file away, and says whether it was there.
fn remove(rt: &HostRuntime, path: &str) -> io::Result<bool> {
    match fs::remove_file(rt, path) {
        Ok(()) => Ok(true),
        Err(error) if error.kind() == ErrorKind::NotFound => Ok(false),
        Err(error) => Err(error),
    }
}

// A regular file that has this name and no other, locked as the database file is. None where
// something else stands there, or nothing.
fn open_own(rt: &HostRuntime, path: &str) -> io::Result<Option<File>> {
    match fs::symlink_metadata(rt, path) {
        Ok(found) if found.is_file() => {}
        Ok(_) => return Ok(None),
        Err(error) if error.kind() == ErrorKind::NotFound => return Ok(None),
        Err(error) => return Err(error),
    }
    let file = above_streams(OpenOptions::new().read(true).write(true).open(rt, path)?)?;
    let (found, named) = (file.metadata()?, fs::symlink_metadata(rt, path)?);
    if found.dev() != named.dev() || found.ino() != named.ino() || found.nlink() != 1 {
        return Ok(None);
    }
    lock(&file)?;
    Ok(Some(file))
}

// A new file with the access of the file beside it.
fn make_own(access: &Access<'_>, path: &str) -> io::Result<File> {
    let file = above_streams(
        OpenOptions::new()
            .read(true)
            .write(true)
            .create_new(true)
            .mode(OWNER_ALONE)
            .open(access.rt, path)?,
    )?;
    let beside = fs::metadata(access.rt, access.path)?;
    unless_denied(fchown(&file, None, Some(beside.gid())))?;
    unless_denied(fchown(&file, Some(beside.uid()), None))?;
    file.set_permissions(Permissions::from_mode(beside.mode() & 0o777))?;
    lock(&file)?;
    Ok(file)
}

// What is meant for a standard stream that was closed must not land in the file.
fn above_streams(file: File) -> io::Result<File> {
    if file.as_raw_fd() <= 2 {
        file.try_clone()
    } else {
        Ok(file)
    }
}

fn unless_denied(outcome: io::Result<()>) -> io::Result<()> {
    match outcome {
        Err(error) if error.kind() != ErrorKind::PermissionDenied => Err(error),
        _ => Ok(()),
    }
}

// The bytes that SQLite locks of a database file.
fn lock(file: &File) -> io::Result<()> {
    if os::try_lock_range(file.as_raw_fd(), RangeLock::Exclusive, 1 << 30, 512) == 0 {
        Ok(())
    } else {
        Err(io::Error::from_raw_os_error(os::errno()))
    }
}

// Syncs a file, and drops the kernel's copies of its pages, which a failed sync of an earlier
// process may have left other than the disk has them.
fn settle(file: &File) -> io::Result<()> {
    file.sync_all()?;
    match libc::posix_fadvise(file.as_raw_fd(), 0, 0, libc::POSIX_FADV_DONTNEED) {
        0 => Ok(()),
        advised => Err(io::Error::from_raw_os_error(advised)),
    }
}
