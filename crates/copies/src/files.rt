//! The files of a ledger and of its copy.
ghost use Rattle.std.specs.Prelude.{◌<◌, vec_len, IfOk};

use crate::fault::CopyFault;
use crate::names::Names;
use crate::pieces::{copy_piece, match_all, match_piece};
use std::fs::{File, OpenOptions};
use std::os::unix::fs::OpenOptionsExt;

/// How many bytes are read at once: so few that those of a file and of its copy stay in a
/// processor's own cache until they are compared.
const ROOM: usize = 128 * 1024;

/// Who may read and write a copy.
const OWNER_ALONE: u32 = 0o600;

/// The two files of a ledger, those of a copy, and room for pieces of them.
#[derive(Drop)]
pub(crate) struct Files {
    db: File,
    log: File,
    db_copy: File,
    log_copy: File,
    room: Vec<u8>,
    other: Vec<u8>,
    /// Without room a file would seem to have ended.
    ghost has_room: { 0 < vec_len room },
}

// A new file for its owner alone.
fn make(rt: &HostRuntime, path: &str) -> Result<File, CopyFault> {
    Ok(
        OpenOptions::new()
            .read(true)
            .write(true)
            .create_new(true)
            .mode(OWNER_ALONE)
            .open(rt, path)?,
    )
}

// Room for a piece.
fn zeros(rt: &HostRuntime) -> Result<Vec<u8>, CopyFault>
    ensures { IfOk result (λ room. 0 < vec_len room) }
{
    let mut room = Vec::new(rt.alloc());
    room.resize(ROOM, 0)?;
    Ok(room)
}

impl Files {
    /// Those of a ledger, and new ones for its copy.
    pub(crate) fn open(rt: &HostRuntime, from: &str, names: &Names) -> Result<Files, CopyFault> {
        let log = format!(in rt.alloc(); "{from}-wal")?;
        Ok(Files {
            db: File::open(rt, from)?,
            log: File::open(rt, log.as_str())?,
            db_copy: make(rt, names.part())?,
            log_copy: make(rt, names.log())?,
            room: zeros(rt)?,
            other: zeros(rt)?,
        })
    }

    /// Copies what the database has at a place. Says how many bytes that is: 0 at its end.
    pub(crate) fn copy_on(&mut self, at: u64) -> Result<u64, CopyFault> {
        let count = copy_piece(&self.db, &mut self.db_copy, &mut self.room, at)?;
        Ok(count as u64)
    }

    /// The same where most of it is copied already, and has not changed.
    pub(crate) fn match_on(&mut self, at: u64) -> Result<u64, CopyFault> {
        let (room, other) = (&mut self.room, &mut self.other);
        let count = match_piece(&self.db, &mut self.db_copy, room, other, at)?;
        Ok(count as u64)
    }

    /// Makes the copy of the database what that is.
    pub(crate) fn match_db(&mut self) -> Result<(), CopyFault> {
        let (room, other) = (&mut self.room, &mut self.other);
        match_all(&self.db, &mut self.db_copy, room, other)?;
        Ok(())
    }

    /// The same of the log.
    pub(crate) fn match_log(&mut self) -> Result<(), CopyFault> {
        let (room, other) = (&mut self.room, &mut self.other);
        match_all(&self.log, &mut self.log_copy, room, other)?;
        Ok(())
    }

    /// What was written of the database's copy stays where the power is lost.
    pub(crate) fn sync(&self) -> Result<(), CopyFault> {
        Ok(self.db_copy.sync_all()?)
    }

    /// How many bytes the database's copy has.
    pub(crate) fn len(&self) -> Result<u64, CopyFault> {
        Ok(self.db_copy.metadata()?.len())
    }
}
