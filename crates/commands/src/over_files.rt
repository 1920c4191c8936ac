//! Commands on a file as a whole, on the service that has it, and on one account.
ghost use Rattle.std.specs.Prelude.{◌≡◌, ◌⊎◌, ◌≤◌, ℕ, decimal, IfErr, IfOk};
ghost use Rattle.std.specs.String.{string_bytes};
ghost use Rattle.sqlite_wal.specs.Files.{image_at};
ghost use Rattle.control.specs.Answers.{TellsCopied};
ghost use Rattle.commands.specs.Holding.{HasOpened, HasToldOr, IsBroughtTo, IsFrom, IsNotBrought};
ghost use Rattle.commands.specs.Migrating.{migrate_fault};
ghost use Rattle.commands.specs.Openings.{IsOpeningFault, RefusesImage, RefusesOlder};
ghost use Rattle.commands.specs.OverFiles.{HasWrittenStatement, IsWrittenFrom, TellsContents};
ghost use Rattle.commands.specs.OverFiles.{count_form, text_of};
ghost use Rattle.admin_client.specs.Served.{IsStatementServed};
ghost use Rattle.commands.specs.Program.{AsksStatus, Checks, CopiesFile, Migrates, Stops};
ghost use Rattle.commands.specs.Program.{WritesStatement};
ghost use Rattle.commands.specs.Undone.{IsNotCopied, IsNotWritten, IsUndone};

use crate::contents::contents_line;
use crate::copied::{absolute, copy_file};
use crate::counting::CountingAudit;
use crate::ended::{Ended, Held};
use crate::opening::{Audited, examine, open_file, open_to_migrate};
use crate::stores::may_be_called;
use admin_client::{Asked, ask, ask_first, ask_served, write_asked, write_served};
use chain::InUse;
use command_line::StatementWords;
use command_texts::{
    Fault, account_id, damage_line, name, put_copied, put_schema, put_stopped, put_text, version,
};
use control::{Call, CountForm, copied_in, put_counted, stopped_in};
use migrate::{LedgerOfVersion, MigrateFault, migrate};
use records::Drain;
use sqlite_disk::{Disk, Start};
use sqlite_std_file::FileFrom;
use store::Store;
use tenants::TenantName;

/// Tells what the service that has a file tells of itself.
pub(crate) fn run_status<O: Drain + Drop, D: Disk + Drop>(
    rt: &HostRuntime,
    db: &str,
    as_metrics: bool,
    mut out: O,
) -> Result<Ended<'static, O, D>, Fault>
    ensures { AsksStatus O.written as_metrics out result }
{
    let answer = ask_served(rt, db, &Call::Status)?;
    put_counted(rt.alloc(), &mut out, count_form(as_metrics), answer.body())?;
    Ok(Ended {
        out,
        is_damaged: false,
        made: None,
        contents: None,
        held: Held::Asked(answer),
    })
}

// How counts are asked for.
fn count_form(as_metrics: bool) -> CountForm
    ensures { result ≡ count_form as_metrics }
{
    if as_metrics {
        CountForm::Metric
    } else {
        CountForm::Plain
    }
}

/// Copies a file, and tells how many bytes the copy has, and what is in a file that nobody serves.
pub(crate) fn run_copy<St: Start, O: Drain + Drop>(
    rt: &HostRuntime,
    db: &str,
    to: &str,
    start: St,
    mut out: O,
) -> Result<Ended<'static, O, FileFrom<St>>, Fault>
    ensures { CopiesFile O.written (image_at St.Start) to.now out result }
{
    let to = absolute(rt, to)?;
    let Copied {
        digits,
        contents,
        held,
    } = copy(rt, db, to.as_str(), start)?;
    put_copied(&mut out, digits.as_str())?;
    Ok(Ended {
        out,
        is_damaged: false,
        made: None,
        contents,
        held,
    })
}

// A copy that was made.
#[derive(Drop)]
struct Copied<D: Disk + Drop> {
    /// How many bytes it has.
    digits: String,
    /// The line that says what is in it, where this command has read it.
    contents: Option<String>,
    held: Held<D>,
}

// Has the service that has a file copy it, or copies it where nobody serves the file.
fn copy<St: Start>(
    rt: &HostRuntime,
    db: &str,
    to: &str,
    start: St,
) -> Result<Copied<FileFrom<St>>, Fault>
    ensures copied { IfOk result (λ done. HasToldOr
        (TellsCopied to.now (string_bytes done.digits))
        (HasOpened (IsFrom (image_at St.Start))) done.held) }
    ensures number { IfOk result (λ done.
        (bytes : ℕ) × (string_bytes done.digits ≡ decimal bytes)) }
    ensures contents { IfOk result (λ done. TellsContents done.held (text_of done.contents)) }
    ensures fault { IfErr result
        (IsUndone ⟦<FileFrom<St> as Disk>⟧ (image_at St.Start) IsNotCopied) }
{
    match ask(rt, db, &Call::Copy { to })? {
        Some(answer) => Ok(Copied {
            digits: copied_in(rt.alloc(), answer.body())?,
            contents: None,
            held: Held::Asked(answer),
        }),
        None => {
            let audit = CountingAudit::new();
            let (bytes, store) = copy_file(rt, db, to, start, &audit)?;
            Ok(Copied {
                digits: format!(in rt.alloc(); "{bytes}")?,
                contents: Some(contents_line(rt.alloc(), &audit.contents())?),
                held: Held::Opened(store),
            })
        }
    }
}

/// Stops the service that has a file, and tells so once it has let go of it.
pub(crate) fn run_stop<O: Drain + Drop, D: Disk + Drop>(
    rt: &HostRuntime,
    db: &str,
    mut out: O,
) -> Result<Ended<'static, O, D>, Fault>
    ensures { Stops O.written out result }
{
    let answer = ask_served(rt, db, &Call::Stop)?;
    stopped_in(rt.alloc(), answer.body())?;
    put_stopped(&mut out)?;
    Ok(Ended {
        out,
        is_damaged: false,
        made: None,
        contents: None,
        held: Held::Asked(answer),
    })
}

/// Writes an account's statement.
pub(crate) fn run_statement<St: Start, O: Drain + Drop>(
    rt: &HostRuntime,
    db: &str,
    tenant: &str,
    account: &str,
    words: &StatementWords<'_>,
    start: St,
    out: O,
) -> Result<Ended<'static, O, FileFrom<St>>, Fault>
    ensures { WritesStatement O.written (image_at St.Start) tenant.now account.now words.now out
        result }
{
    let tenant = name(tenant)?;
    let account = account_id(account)?;
    let asked = Asked::read(words)?;
    let (out, held) = write(rt, db, &tenant, account, &asked, start, out)?;
    Ok(Ended {
        out,
        is_damaged: false,
        made: None,
        contents: None,
        held,
    })
}

// Writes it from what the service that has the file answers, or from a file that nobody serves.
fn write<St: Start, O: Drain + Drop>(
    rt: &HostRuntime,
    db: &str,
    tenant: &TenantName,
    account: u128,
    asked: &Asked,
    start: St,
    out: O,
) -> Result<(O, Held<FileFrom<St>>), Fault>
    ensures written { IfOk result (λ done. HasToldOr
        (IsStatementServed tenant.now account asked.now (O.written out) (O.written done.0))
        (HasOpened (HasWrittenStatement (image_at St.Start)
        (IsWrittenFrom O.written tenant.now account asked.now out done.0))) done.1) }
    ensures fault { IfErr result (IsUndone ⟦<FileFrom<St> as Disk>⟧ (image_at St.Start)
        (IsNotWritten ⟦<FileFrom<St> as Disk>⟧ (image_at St.Start)
        O.written tenant.now account asked.now out)) }
{
    match ask_first(rt, db, tenant, account, asked)? {
        Some((first, answer)) => {
            let (out, written) = write_served(rt, db, first, asked, out);
            written?;
            Ok((out, Held::Asked(answer)))
        }
        None => {
            let (out, store) = write_unserved(rt, db, tenant, account, asked, start, out)?;
            Ok((out, Held::Opened(store)))
        }
    }
}

fn write_unserved<St: Start, O: Drain + Drop>(
    rt: &HostRuntime,
    db: &str,
    tenant: &TenantName,
    account: u128,
    asked: &Asked,
    start: St,
    out: O,
) -> Result<(O, InUse<Store<FileFrom<St>>>), Fault>
    ensures written { IfOk result (λ done. HasWrittenStatement (image_at St.Start)
        (IsWrittenFrom O.written tenant.now account asked.now out done.0) done.1) }
    ensures fault { IfErr result (λ fault.
        RefusesImage ⟦<FileFrom<St> as Disk>⟧ (image_at St.Start) fault
        ⊎ IsNotWritten ⟦<FileFrom<St> as Disk>⟧ (image_at St.Start)
        O.written tenant.now account asked.now out fault) }
{
    let mut store = open_file(rt, db, start, &CountingAudit::new())?;
    let Ok(found) = store.backend.digest_of(tenant) else {
        return Err(Fault::Unavailable);
    };
    let digest = found.ok_or(Fault::NoTenant)?;
    let written = write_asked(rt.alloc(), &mut store, &digest, account, asked, out);
    may_be_called(&store);
    Ok((written?, store))
}

/// Audits a file, and tells its first damage, or that there is none and what is in it.
pub(crate) fn run_check<St: Start, O: Drain + Drop>(
    rt: &HostRuntime,
    db: &str,
    start: St,
    mut out: O,
) -> Result<Ended<'static, O, FileFrom<St>>, Fault>
    ensures { Checks O.written (image_at St.Start) out result }
{
    let audit = CountingAudit::new();
    match examine(rt, db, start, &audit)? {
        Audited::Sound(store) => {
            let contents = contents_line(rt.alloc(), &audit.contents())?;
            put_text(&mut out, "ok\n")?;
            Ok(Ended {
                out,
                is_damaged: false,
                made: None,
                contents: Some(contents),
                held: Held::Opened(store),
            })
        }
        Audited::Damaged(damage, files) => {
            put_text(&mut out, damage_line(rt.alloc(), &damage)?.as_str())?;
            Ok(Ended {
                out,
                is_damaged: true,
                made: None,
                contents: None,
                held: Held::Damaged(files),
            })
        }
    }
}

/// Brings a file to a version of the schema, and tells so.
pub(crate) fn run_migrate<St: Start, O: Drain + Drop>(
    rt: &HostRuntime,
    db: &str,
    to: &str,
    start: St,
    mut out: O,
) -> Result<Ended<'static, O, FileFrom<St>>, Fault>
    ensures { Migrates O.written (image_at St.Start) to.now out result }
{
    let version = version(to)?;
    let ledger = bring_to(rt, db, version, start)?;
    put_schema(&mut out, to)?;
    Ok(Ended {
        out,
        is_damaged: false,
        made: None,
        contents: None,
        held: Held::Migrated(ledger),
    })
}

fn bring_to<St: Start>(
    rt: &HostRuntime,
    db: &str,
    version: u32,
    start: St,
) -> Result<LedgerOfVersion<FileFrom<St>>, Fault>
    requires { version ≤ 3 }
    ensures brought { IfOk result (IsBroughtTo (image_at St.Start) version) }
    ensures fault { IfErr result (λ fault.
        RefusesOlder ⟦<FileFrom<St> as Disk>⟧ (image_at St.Start) fault
        ⊎ IsNotBrought ⟦<FileFrom<St> as Disk>⟧ (image_at St.Start) version fault) }
{
    let mut ledger = open_to_migrate(rt, db, start)?;
    match migrate(rt.alloc(), &mut ledger, version) {
        Ok(()) => Ok(ledger),
        Err(fault) => Err(migrate_fault(fault)),
    }
}

// What the program tells where a ledger is not migrated.
fn migrate_fault(fault: MigrateFault) -> Fault
    ensures told { result ≡ migrate_fault fault }
    ensures named { IsOpeningFault result }
{
    match fault {
        MigrateFault::NewerSchema => Fault::NewerSchema,
        MigrateFault::Damaged(_) => Fault::Damaged,
        MigrateFault::Unavailable(_) => Fault::Unavailable,
    }
}
