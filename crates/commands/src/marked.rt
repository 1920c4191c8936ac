//! Whether a ledger has all commits that were answered, by the mark in FILE-sums.
ghost use Rattle.std.specs.Prelude.{IfErr};
ghost use Rattle.commands.specs.Openings.{IsUnmarked, IsUnopened};

use admin_client::real_path;
use command_texts::Fault;
use file_sums::is_behind;
use reply_marks::{Marks, forget_beside, noted_beside};

/// Whether answered commits are missing from the ledger in a file, whose latest clock this is.
pub(crate) fn is_lacking(rt: &HostRuntime, path: &str, clock: u64) -> bool {
    match real_path(rt, path) {
        Ok(Some(real)) => is_behind(&noted_beside(rt, real.as_str()), clock),
        _ => false,
    }
}

/// Marks the replies from now on, unless answered commits are missing: `Behind`. Where another
/// process has FILE-sums, it is about to let go of the file as well: `InUse`.
pub(crate) fn begin_marks(
    rt: &HostRuntime,
    path: &str,
    clock: u64,
    marks: &Marks<'_>,
) -> Result<(), Fault>
    ensures { IfErr result IsUnmarked }
{
    let Ok(Some(real)) = real_path(rt, path) else {
        return Ok(());
    };
    let Ok(found) = marks.find(real.as_str()) else {
        return Err(Fault::InUse);
    };
    if is_behind(&found.noted, clock) {
        return Err(Fault::Behind);
    }
    marks.begin(real.as_str(), found, clock);
    Ok(())
}

/// Takes away the FILE-sums of another ledger, where one is made in the place of that.
pub(crate) fn forget(rt: &HostRuntime, path: &str) -> Result<(), Fault>
    ensures { IfErr result IsUnopened }
{
    if let Ok(Some(real)) = real_path(rt, path) {
        let Ok(()) = forget_beside(rt, real.as_str()) else {
            return Err(Fault::Unreadable);
        };
    }
    Ok(())
}
