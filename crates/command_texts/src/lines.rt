//! What commands write.
ghost use Rattle.std.specs.Prelude.{◌≡◌, ◌∷◌, ◌++◌, [], false};
ghost use Rattle.std.specs.String.{string_bytes};
ghost use Rattle.std.specs.Io.KnownBytes.{Appends};
ghost use Rattle.command_texts.specs.Answered.{PutsText, TellsIfAvailable};
ghost use Rattle.command_texts.specs.Faults.{status_of};
ghost use Rattle.command_texts.specs.Lines.{IsFaultWritten, IsWritten, added_line, changed_line, copied_line};
ghost use Rattle.command_texts.specs.Lines.{count_line, damage_line, fault_line, key_line};
ghost use Rattle.command_texts.specs.Lines.{metric_line, new_ledger_line, schema_line, stopped_line};
ghost use Rattle.command_texts.specs.Lines.{tenant_line, tenants_line};

use crate::Fault;
use audit::Damage;
use records::{Drain, put_all};
use std::alloc::Global;
use tenants::TenantName;

/// Tells a fault on standard error, as far as that can be written, and says the status.
pub fn tell_fault<E: Drain>(err: &mut E, fault: Fault) -> u8
    ensures status { result ≡ status_of fault }
    ensures line { IsWritten (E.written err.old) (E.written err.new) (E.failed err.new)
        (fault_line fault) }
{
    let _ = put_all(err, fault.line().as_bytes());
    fault.status()
}

/// Tells a fault and the reason for it, a line each, as far as that can be written, and says the
/// status. Where memory is wanting the reason is left out.
pub fn tell_fault_for<E: Drain>(alloc: Global, err: &mut E, fault: Fault, reason: &str) -> u8
    ensures status { result ≡ status_of fault }
    ensures lines { IsFaultWritten (E.written err.old) (E.written err.new) (E.failed err.new) fault }
{
    let line = fault.line();
    match format!(in alloc; "{line}{reason}\n") {
        Ok(text) => {
            let _ = put_all(err, text.as_bytes());
            fault.status()
        }
        Err(_) => tell_fault(err, fault),
    }
}

/// Writes a text to standard output.
pub fn put_text<O: Drain>(out: &mut O, text: &str) -> Result<(), Fault>
    ensures { PutsText text.now O.written O.failed out.old out.new result }
{
    put_all(out, text.as_bytes()).map_err(|_| Fault::Output)
}

// A line of a word and a text.
fn put_line<O: Drain>(out: &mut O, word: &str, text: &str) -> Result<(), Fault>
    ensures { PutsText (word.now ++ text.now ++ 10 ∷ []) O.written O.failed out.old out.new result }
{
    put_text(out, word)?;
    put_text(out, text)?;
    put_text(out, "\n")
}

/// Tells a new tenant.
pub fn put_added<O: Drain>(out: &mut O, name: &TenantName) -> Result<(), Fault>
    ensures { PutsText (added_line name.now) O.written O.failed out.old out.new result }
{
    put_line(out, "added ", name.as_str())
}

/// Tells that a tenant has another key.
pub fn put_changed<O: Drain>(out: &mut O, name: &TenantName) -> Result<(), Fault>
    ensures { PutsText (changed_line name.now) O.written O.failed out.old out.new result }
{
    put_line(out, "changed ", name.as_str())
}

/// Tells a key that was drawn, in hexadecimal digits.
pub fn put_key<O: Drain>(out: &mut O, key: &str) -> Result<(), Fault>
    ensures { PutsText (key_line key.now) O.written O.failed out.old out.new result }
{
    put_line(out, "key ", key)
}

/// Tells how many bytes a copy has.
pub fn put_copied<O: Drain>(out: &mut O, bytes: &str) -> Result<(), Fault>
    ensures { PutsText (copied_line bytes.now) O.written O.failed out.old out.new result }
{
    put_line(out, "copied ", bytes)
}

/// Tells that the service of a file has ended.
pub fn put_stopped<O: Drain>(out: &mut O) -> Result<(), Fault>
    ensures { PutsText stopped_line O.written O.failed out.old out.new result }
{
    put_text(out, "stopped\n")
}

/// Begins a list of tenants, as CSV.
pub fn put_tenants<O: Drain>(out: &mut O) -> Result<(), Fault>
    ensures { PutsText tenants_line O.written O.failed out.old out.new result }
{
    put_text(out, "name,digest,clock\n")
}

/// Tells one of them: the name, the key's digest in hexadecimal digits, and the clock, the greatest
/// timestamp so far, in decimal. None of them has a comma or a quote, so nothing is quoted.
pub fn put_tenant<O: Drain>(out: &mut O, name: &str, digest: &str, clock: &str) -> Result<(), Fault>
    ensures { PutsText (tenant_line name.now digest.now clock.now)
        O.written O.failed out.old out.new result }
{
    put_text(out, name)?;
    put_text(out, ",")?;
    put_text(out, digest)?;
    put_line(out, ",", clock)
}

/// Tells a count of a service, in decimal.
pub fn put_count<O: Drain>(out: &mut O, name: &str, count: &str) -> Result<(), Fault>
    ensures { PutsText (count_line name.now count.now) O.written O.failed out.old out.new result }
{
    put_text(out, name)?;
    put_line(out, " ", count)
}

/// Tells a count of a service as Prometheus reads it.
pub fn put_metric<O: Drain>(out: &mut O, name: &str, count: &str) -> Result<(), Fault>
    ensures { PutsText (metric_line name.now count.now) O.written O.failed out.old out.new result }
{
    put_text(out, "ledgerd_")?;
    put_count(out, name, count)
}

/// Tells the version that a file has come to, as it was written.
pub fn put_schema<O: Drain>(out: &mut O, version: &str) -> Result<(), Fault>
    ensures { PutsText (schema_line version.now) O.written O.failed out.old out.new result }
{
    put_line(out, "schema ", version)
}

/// Tells on standard error that a file has become a new ledger, as far as that can be written.
pub fn tell_new_ledger<E: Drain>(err: &mut E, path: &str)
    ensures { E.failed err.new ≡ false
        → Appends (E.written err.old) (E.written err.new) (new_ledger_line path.now) }
{
    let _ = put_line(err, "new ledger ", path);
}

/// The line that tells where a file is damaged.
pub fn damage_line(alloc: Global, damage: &Damage) -> Result<String, Fault>
    ensures { TellsIfAvailable result (λ line. string_bytes line ≡ damage_line damage.now) }
{
    let kind = damage.kind.number();
    let place = damage.place;
    let digest = hex::encode(alloc, damage.digest.as_slice())?;
    Ok(format!(in alloc; "damaged {kind} {digest} {place}\n")?)
}
