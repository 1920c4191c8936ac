//! Copies of files.
ghost use Rattle.std.specs.Prelude.{◌≡◌, ◌⊎◌, IfErr, IfOk, MatchResult};
ghost use Rattle.sqlite_wal.specs.Files.{image_at};
ghost use Rattle.std.specs.String.{string_bytes};
ghost use Rattle.commands.specs.Copying.{IsPathOf, copy_fault};
ghost use Rattle.commands.specs.Holding.{IsFrom};
ghost use Rattle.commands.specs.Undone.{IsNotCopied, IsUndone};

use crate::counting::CountingAudit;
use crate::opening::open_file;
use admin_client::real_path;
use chain::InUse;
use command_texts::Fault;
use control::is_from_root;
pub(crate) use copies::Progress;
use copies::{CopyFault, Copying, copy_whole};
use sqlite_disk::{Disk, Start};
use sqlite_std_file::FileFrom;
use std::env;
use store::Store;

/// A path as any process finds it, whatever folder it is in.
pub(crate) fn absolute(rt: &HostRuntime, path: &str) -> Result<String, Fault>
    ensures { MatchResult result (λ found. IsPathOf path.now (string_bytes found))
        (λ fault. (fault ≡ Fault.Unavailable) ⊎ (fault ≡ Fault.Output)) }
{
    if is_from_root(path) {
        return Ok(String::from_str(rt.alloc(), path)?);
    }
    let Ok(folder) = env::current_dir(rt) else {
        return Err(Fault::Output);
    };
    let folder = folder.as_str();
    Ok(format!(in rt.alloc(); "{folder}/{path}")?)
}

/// Copies a file that nobody serves, once it was audited, and says how many bytes the copy has. The
/// ledger is open meanwhile, so that nobody else can have it.
pub(crate) fn copy_file<St: Start>(
    rt: &HostRuntime,
    db: &str,
    to: &str,
    start: St,
    audit: &CountingAudit,
) -> Result<(u64, InUse<Store<FileFrom<St>>>), Fault>
    ensures opened { IfOk result (λ done. IsFrom (image_at St.Start) done.1) }
    ensures fault { IfErr result
        (IsUndone ⟦<FileFrom<St> as Disk>⟧ (image_at St.Start) IsNotCopied) }
{
    let store = open_file(rt, db, start, audit)?;
    let real = real_path(rt, db)?.ok_or(Fault::Unreadable)?;
    match copy_whole(rt, real.as_str(), to) {
        Ok(bytes) => Ok((bytes, store)),
        Err(fault) => Err(copy_fault(fault)),
    }
}

/// Goes on with a copy of a file that is served, by one turn. Nothing is written to the file
/// meanwhile.
pub(crate) fn copy_on(rt: &HostRuntime, copying: Copying) -> Result<Progress, Fault> {
    match copying.go_on(rt) {
        Ok(progress) => Ok(progress),
        Err(fault) => Err(copy_fault(fault)),
    }
}

/// Begins a copy of a file that is served.
pub(crate) fn begin_copy(rt: &HostRuntime, db: &str, to: &str) -> Result<Copying, Fault> {
    let real = real_path(rt, db)?.ok_or(Fault::Unreadable)?;
    match Copying::begin(rt, real.as_str(), to) {
        Ok(copying) => Ok(copying),
        Err(fault) => Err(copy_fault(fault)),
    }
}

/// What the program tells where no copy is made.
pub(crate) fn copy_fault(fault: CopyFault) -> Fault
    ensures { result ≡ copy_fault fault }
{
    match fault {
        CopyFault::Exists => Fault::Exists,
        CopyFault::Failed => Fault::Output,
        CopyFault::Memory => Fault::Unavailable,
    }
}
