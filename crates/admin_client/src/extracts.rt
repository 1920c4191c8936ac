//! The statement of a period, written to standard output.
ghost use Rattle.std.specs.Prelude.{◌≡◌, IfErr, IfOk, MatchResult};
ghost use Rattle.records.specs.Reads.{in_order};
ghost use Rattle.records.specs.declared.filter.Order.TheVariants.{Oldest};
ghost use Rattle.statement.specs.Extract.{closing_of, kept_of, opening_of};
ghost use Rattle.admin_client.specs.Extracts.{AreTransfersOf, IsAbsenceTold, IsExtractFound};
ghost use Rattle.admin_client.specs.Extracts.{IsExtractTold, IsTextAsked};
ghost use Rattle.admin_client.specs.Statements.{ReadsOf, answer_in};

use crate::asked::Asked;
use crate::statements::statement_fault;
use chain::Ledgers;
use command_texts::Fault;
use records::{Drain, Order, Transfer, put_all};
use statement::{Extract, extract_text, rows_make_an_extract};
use std::alloc::Global;

// What of an account's statement lies in a period, in the order asked.
fn extract_of<L: Ledgers>(
    alloc: Global,
    ledgers: &mut L,
    digest: &[u8; 32],
    account: u128,
    asked: &Asked,
) -> Result<Extract, Fault>
    ensures { ReadsOf L.means digest.now (λ tenant.
        IsExtractFound tenant account asked.now result) ledgers.old ledgers.new }
{
    rows_make_an_extract();
    let mut extract = Extract::new(alloc, asked.period);
    let oldest = Order::Oldest;
    if let Err(why) = ledgers.each_statement_row(alloc, digest, account, oldest, &mut extract) {
        return Err(statement_fault(why));
    }
    Ok(turned(extract, asked.order))
}

// An extract, oldest entry first, in the order asked.
fn turned(mut extract: Extract, order: Order) -> Extract
    ensures rows { kept_of result ≡ in_order order (kept_of extract) }
    ensures opening { opening_of result ≡ opening_of extract }
    ensures closing { closing_of result ≡ closing_of extract }
{
    match order {
        Order::Oldest => extract,
        Order::Newest => {
            extract.turn();
            extract
        }
    }
}

// The transfers of an extract's entries, in their order, where wide lines are asked for.
fn transfers_of<L: Ledgers>(
    alloc: Global,
    ledgers: &mut L,
    digest: &[u8; 32],
    is_wide: bool,
    extract: &Extract,
) -> Result<Vec<Transfer>, Fault>
    ensures found { ReadsOf L.means digest.now (λ tenant. IfOk result (λ found.
        AreTransfersOf tenant is_wide (kept_of extract.now) found.items))
        ledgers.old ledgers.new }
    ensures fault { IfErr result (λ fault. fault ≡ Fault.Unavailable) }
{
    if !is_wide {
        return Ok(Vec::new(alloc));
    }
    let ids = extract.ids(alloc)?;
    match ledgers.lookup_transfers(alloc, digest, ids.as_slice()) {
        Ok(found) if found.entries.len() == extract.rows().len() => Ok(found.entries),
        _ => Err(Fault::Unavailable),
    }
}

// The statement of a period of a tenant's account, made whole in memory.
fn text_asked<L: Ledgers>(
    alloc: Global,
    ledgers: &mut L,
    digest: &[u8; 32],
    account: u128,
    asked: &Asked,
) -> Result<Vec<u8>, Fault>
    ensures { ReadsOf L.means digest.now (λ tenant. MatchResult result
        (λ text. IsTextAsked tenant account asked.now text.items)
        (IsAbsenceTold (answer_in tenant account Oldest))) ledgers.old ledgers.new }
{
    let extract = extract_of(alloc, ledgers, digest, account, asked)?;
    let is_wide = asked.layout.is_wide;
    let transfers = transfers_of(alloc, ledgers, digest, is_wide, &extract)?;
    let text = extract_text(alloc, asked.layout, &extract, transfers.as_slice())?;
    Ok(text)
}

/// Writes the statement of a period of a tenant's account, and gives the writer back. After a
/// failed write a beginning of it is written, after any other fault nothing.
pub(crate) fn write_extract<L: Ledgers, O: Drain + Drop>(
    alloc: Global,
    ledgers: &mut L,
    digest: &[u8; 32],
    account: u128,
    asked: &Asked,
    mut out: O,
) -> (O, Result<(), Fault>)
    ensures { ReadsOf L.means digest.now (λ tenant.
        IsExtractTold O.written tenant account asked.now out result.0 result.1)
        ledgers.old ledgers.new }
{
    let text = match text_asked(alloc, ledgers, digest, account, asked) {
        Ok(text) => text,
        Err(fault) => return (out, Err(fault)),
    };
    match put_all(&mut out, text.as_slice()) {
        Ok(()) => (out, Ok(())),
        Err(_) => (out, Err(Fault::Output)),
    }
}
