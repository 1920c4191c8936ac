//! Commands on the tenants of the ledger in a file.
ghost use Rattle.std.specs.Prelude.{◌≡◌, ◌⊎◌, is_some, IfErr, IfOk, IfSome};
ghost use Rattle.sqlite_wal.specs.Files.{image_at};
ghost use Rattle.command_line.specs.Values.{text_in};
ghost use Rattle.commands.specs.Changing.{IsMadeFor, TellsChange};
ghost use Rattle.commands.specs.Holding.{HasOpened, HasToldOr};
ghost use Rattle.commands.specs.Openings.{RefusesImage};
ghost use Rattle.commands.specs.OverFiles.{AreTenantsTold, HasListed, HasMade, TellsContents};
ghost use Rattle.commands.specs.OverFiles.{text_of};
ghost use Rattle.commands.specs.Program.{ChangesTenant, ListsTenants};
ghost use Rattle.commands.specs.Undone.{IsNotMade, IsUndone};

use crate::changing::TenantChange;
use crate::contents::contents_line;
use crate::counting::CountingAudit;
use crate::ended::{Ended, Held};
use crate::listing::listed;
use crate::opening::open_file;
use admin_client::{GivenKey, ask};
use chain::InUse;
use command_texts::{Fault, key_digest, name};
use control::{Call, put_listed};
use records::Drain;
use sqlite_disk::{Disk, Start};
use sqlite_std_file::FileFrom;
use store::Store;
use tenants::TenantName;

/// Changes the tenants of a file, which for a new one is made where there is none.
pub(crate) fn run_change<'a, St: Start, O: Drain + Drop>(
    rt: &HostRuntime,
    what: TenantChange,
    db: &'a str,
    tenant: &str,
    key: Option<&str>,
    start: St,
    mut out: O,
) -> Result<Ended<'a, O, FileFrom<St>>, Fault>
    ensures { ChangesTenant what O.written (image_at St.Start) db.now tenant.now
        (text_in key.entry) out result }
{
    let tenant = name(tenant)?;
    let key = GivenKey::read(rt, key)?;
    let digest = key_digest(key.as_str())?;
    let (made, held) = change(rt, what, db, &tenant, key.as_str(), &digest, start)?;
    what.put(&mut out, &tenant)?;
    key.tell(&mut out)?;
    Ok(Ended {
        out,
        is_damaged: false,
        made,
        contents: None,
        held,
    })
}

// Has the service that has a file make the change, or makes it where nobody serves the file. Says
// which file has become a new ledger.
fn change<'a, St: Start>(
    rt: &HostRuntime,
    what: TenantChange,
    db: &'a str,
    tenant: &TenantName,
    key: &str,
    digest: &[u8; 32],
    start: St,
) -> Result<(Option<&'a str>, Held<FileFrom<St>>), Fault>
    ensures made { IfOk result (λ done. IsMadeFor what db.now done.0) }
    ensures changed { IfOk result (λ done. HasToldOr (TellsChange what tenant.now key.now)
        (HasOpened (HasMade (image_at St.Start) what (text_in done.0) tenant.now digest.now))
        done.1) }
    ensures fault { IfErr result (IsUndone ⟦<FileFrom<St> as Disk>⟧ (image_at St.Start)
        (IsNotMade ⟦<FileFrom<St> as Disk>⟧ (image_at St.Start) what tenant.now digest.now)) }
{
    match ask(rt, db, &what.call(tenant, key))? {
        Some(answer) => {
            what.is_told_in(rt.alloc(), answer.body(), tenant)?;
            Ok((None, Held::Asked(answer)))
        }
        None => {
            let (made, store) = change_in(rt, what, db, tenant, digest, start)?;
            Ok((made, Held::Opened(store)))
        }
    }
}

fn change_in<'a, St: Start>(
    rt: &HostRuntime,
    what: TenantChange,
    db: &'a str,
    tenant: &TenantName,
    digest: &[u8; 32],
    start: St,
) -> Result<(Option<&'a str>, InUse<Store<FileFrom<St>>>), Fault>
    ensures made { IfOk result (λ done. IsMadeFor what db.now done.0) }
    ensures changed { IfOk result (λ done.
        HasMade (image_at St.Start) what (text_in done.0) tenant.now digest.now done.1) }
    ensures fault { IfErr result (λ fault.
        RefusesImage ⟦<FileFrom<St> as Disk>⟧ (image_at St.Start) fault
        ⊎ IsNotMade ⟦<FileFrom<St> as Disk>⟧ (image_at St.Start) what tenant.now digest.now fault) }
{
    let mut opened = what.open(rt, db, start)?;
    what.make(&mut opened.store, tenant, digest)?;
    Ok((made_if(opened.is_new, db), opened.store))
}

// The file that has become a new ledger, if it has.
fn made_if(is_new: bool, db: &str) -> Option<&str>
    ensures new { is_some (text_in result) ≡ is_new }
    ensures path { IfSome result (λ path. path.now ≡ db.entry.now) }
{
    if is_new { Some(db) } else { None }
}

/// Lists the tenants.
pub(crate) fn run_tenants<St: Start, O: Drain + Drop>(
    rt: &HostRuntime,
    db: &str,
    start: St,
    mut out: O,
) -> Result<Ended<'static, O, FileFrom<St>>, Fault>
    ensures { ListsTenants O.written (image_at St.Start) out result }
{
    let (contents, held) = list(rt, db, start, &mut out)?;
    Ok(Ended {
        out,
        is_damaged: false,
        made: None,
        contents,
        held,
    })
}

// Lists those that the service which has a file tells, or those of a file that nobody serves. The
// line says what is in such a file.
fn list<St: Start, O: Drain>(
    rt: &HostRuntime,
    db: &str,
    start: St,
    out: &mut O,
) -> Result<(Option<String>, Held<FileFrom<St>>), Fault>
    ensures listed { IfOk result (λ done. HasToldOr
        (AreTenantsTold (O.written out.old) (O.written out.new))
        (HasOpened (HasListed (image_at St.Start) (O.written out.old) (O.written out.new)))
        done.1) }
    ensures contents { IfOk result (λ done. TellsContents done.1 (text_of done.0)) }
    ensures fault { IfErr result
        (IsUndone ⟦<FileFrom<St> as Disk>⟧ (image_at St.Start) (λ fault. ⊥)) }
{
    match ask(rt, db, &Call::Tenants)? {
        Some(answer) => {
            put_listed(rt.alloc(), out, answer.body())?;
            Ok((None, Held::Asked(answer)))
        }
        None => {
            let audit = CountingAudit::new();
            let store = list_in(rt, db, start, out, &audit)?;
            let contents = contents_line(rt.alloc(), &audit.contents())?;
            Ok((Some(contents), Held::Opened(store)))
        }
    }
}

fn list_in<St: Start, O: Drain>(
    rt: &HostRuntime,
    db: &str,
    start: St,
    out: &mut O,
    audit: &CountingAudit,
) -> Result<InUse<Store<FileFrom<St>>>, Fault>
    ensures listed { IfOk result
        (HasListed (image_at St.Start) (O.written out.old) (O.written out.new)) }
    ensures fault { IfErr result
        (IsUndone ⟦<FileFrom<St> as Disk>⟧ (image_at St.Start) (λ fault. ⊥)) }
{
    let mut store = open_file(rt, db, start, audit)?;
    let Ok(tenants) = store.backend.tenants() else {
        return Err(Fault::Unavailable);
    };
    let body = listed(rt.alloc(), tenants.as_slice())?;
    put_listed(rt.alloc(), out, body.as_slice())?;
    Ok(store)
}
