//! The names of a copy.
ghost use Rattle.std.specs.Prelude.{◌≡◌, IfOk, string_bytes};
ghost use Rattle.copies.specs.CopyNames.{AreAt};

use crate::fault::CopyFault;
use std::fs;
use std::io::ErrorKind;

/// The name of a copy, and its name before it is whole, with that of its log; all in one folder.
#[derive(Drop)]
pub(crate) struct Names {
    db: String,
    part: String,
    log: String,
    folder: String,
}

// Whether something has a name, a link that leads nowhere among it.
fn is_taken(rt: &HostRuntime, path: &str) -> Result<bool, CopyFault> {
    match fs::symlink_metadata(rt, path) {
        Ok(_) => Ok(true),
        Err(error) if error.kind() == ErrorKind::NotFound => Ok(false),
        Err(error) => Err(CopyFault::from(error)),
    }
}

// Removes a file, if it is there.
fn remove(rt: &HostRuntime, path: &str) {
    let _ = fs::remove_file(rt, path);
}

// The folder in which a path lies.
fn folder_of(path: &str) -> &str {
    match path.rfind('/') {
        Some(0) => "/",
        Some(at) => &path[..at],
        None => ".",
    }
}

impl Names {
    /// Those of a copy at a path.
    pub(crate) fn at(rt: &HostRuntime, path: &str) -> Result<Names, CopyFault>
        ensures { IfOk result (AreAt path.now) }
    {
        let alloc = rt.alloc();
        Ok(Names {
            db: String::from_str(alloc, path)?,
            part: format!(in rt.alloc(); "{path}.part")?,
            log: format!(in rt.alloc(); "{path}.part-wal")?,
            folder: String::from_str(rt.alloc(), folder_of(path))?,
        })
    }

    /// Takes away what is left of a copy that was cut short, and looks whether the names are free.
    /// They are the copy's, and those of a log, a journal and FILE-sums beside it.
    pub(crate) fn are_free(&self, rt: &HostRuntime) -> Result<bool, CopyFault> {
        self.clear(rt);
        Ok(!self.are_taken(rt)?)
    }

    // Whether one of these names is taken.
    fn are_taken(&self, rt: &HostRuntime) -> Result<bool, CopyFault> {
        let db = self.db.as_str();
        for end in ["", "-wal", "-journal", "-sums"] {
            let path = format!(in rt.alloc(); "{db}{end}")?;
            if is_taken(rt, path.as_str())? {
                return Ok(true);
            }
        }
        Ok(false)
    }

    /// The name of the copy before it is whole.
    pub(crate) fn part(&self) -> &str
        ensures { result.now ≡ string_bytes self.now.part }
    {
        self.part.as_str()
    }

    /// The name of its log.
    pub(crate) fn log(&self) -> &str
        ensures { result.now ≡ string_bytes self.now.log }
    {
        self.log.as_str()
    }

    /// What is left of a copy that is not whole is removed.
    pub(crate) fn clear(&self, rt: &HostRuntime) {
        remove(rt, self.part.as_str());
        remove(rt, self.log.as_str());
    }

    /// Gives the copy its name. Its log, which has nothing, is removed.
    pub(crate) fn put_in_place(&self, rt: &HostRuntime) -> Result<(), CopyFault> {
        if self.are_taken(rt)? {
            return Err(CopyFault::Exists);
        }
        fs::rename(rt, self.part.as_str(), self.db.as_str())?;
        remove(rt, self.log.as_str());
        match fs::File::open(rt, self.folder.as_str()).and_then(|folder| folder.sync_all()) {
            Ok(()) => Ok(()),
            Err(error) => {
                remove(rt, self.db.as_str());
                Err(CopyFault::from(error))
            }
        }
    }
}
