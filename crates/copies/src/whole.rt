//! A database in one file: its log is written back.
ghost use Rattle.std.specs.Prelude.{IfOk, IsTrue};
ghost use Rattle.copies.specs.Whole.{IsWrittenBack};

use crate::fault::CopyFault;
use sqlite_disk::{Disk, Files, Unknown};
use sqlite_std_file::open;
use sqlite_wal::{Log, probe_page_size};
use std::alloc::Global;
use std::hash::{BuildHasher, RandomState};

/// Writes the log of a database back into its file, and cuts the log to its header. The salt of the
/// header is made from `seed`, which is to be random. Where it fails, the log has what it had.
pub fn write_back<D: Disk + Drop>(
    alloc: Global,
    files: Files<D>,
    seed: u64,
) -> Result<Files<D>, CopyFault>
    requires log { IsTrue (D.Disk.is_usable files.log) }
    requires db { IsTrue (D.Disk.is_usable files.db) }
    ensures { IfOk result (IsWrittenBack D.Disk files) }
{
    let mut files = files;
    let Some(size) = probe_page_size(&mut files)? else {
        return Err(CopyFault::Failed);
    };
    let mut log = Log::new(alloc, files, size, seed)?;
    log.recover()?;
    log.finish()?;
    Ok(log.into_files())
}

/// The same of the database at a path, which is locked meanwhile.
pub(crate) fn write_back_at(rt: &HostRuntime, path: &str) -> Result<(), CopyFault> {
    let seed = RandomState::new(rt)?.hash_one(&0u8);
    let _files = write_back(rt.alloc(), open(rt, path, Unknown)?, seed)?;
    Ok(())
}
