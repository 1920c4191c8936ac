//! Statements written to standard output.
ghost use Rattle.std.specs.Prelude.{◌≡◌};
ghost use Rattle.admin_client.specs.Extracts.{IsAskedTold};
ghost use Rattle.admin_client.specs.Statements.{IsGivenBack, IsStatementTold, ReadsOf, answer_in};
ghost use Rattle.admin_client.specs.Statements.{statement_fault};

use crate::asked::Asked;
use crate::extracts::write_extract;
use chain::{Ledgers, ReadFault};
use command_texts::Fault;
use records::{Drain, Order};
use statement::{StatementWriter, rows_begin_a_statement, rows_make_a_statement};
use std::alloc::Global;

/// Writes the statement of a tenant's account, row by row, and gives the writer back. After a fault
/// a beginning of the statement is written.
pub(crate) fn write_statement<L: Ledgers, O: Drain + Drop>(
    alloc: Global,
    ledgers: &mut L,
    digest: &[u8; 32],
    account: u128,
    order: Order,
    out: O,
) -> (O, Result<(), Fault>)
    ensures { ReadsOf L.means digest.now (λ tenant.
        IsStatementTold O.written (answer_in tenant account order) out result.0 result.1)
        ledgers.old ledgers.new }
{
    rows_make_a_statement::<O>();
    rows_begin_a_statement::<O>();
    let mut writer = StatementWriter::new(alloc, out);
    if let Err(why) = ledgers.each_statement_row(alloc, digest, account, order, &mut writer) {
        return (writer.into_inner(), Err(statement_fault(why)));
    }
    let (out, ended) = writer.finish();
    match ended {
        Ok(()) => (out, Ok(())),
        Err(_) => (out, Err(Fault::Output)),
    }
}

/// Writes what is asked for of the statement of a tenant's account, and gives the writer back where
/// all of it is written.
pub fn write_asked<L: Ledgers, O: Drain + Drop>(
    alloc: Global,
    ledgers: &mut L,
    digest: &[u8; 32],
    account: u128,
    asked: &Asked,
    out: O,
) -> Result<O, Fault>
    ensures { ReadsOf L.means digest.now (λ tenant.
        IsGivenBack (IsAskedTold O.written tenant account asked.now out) result)
        ledgers.old ledgers.new }
{
    let (out, written) = put_asked(alloc, ledgers, digest, account, asked, out);
    match written {
        Ok(()) => Ok(out),
        Err(fault) => Err(fault),
    }
}

// Writes it, and gives the writer back. After a fault a beginning of it may be written.
fn put_asked<L: Ledgers, O: Drain + Drop>(
    alloc: Global,
    ledgers: &mut L,
    digest: &[u8; 32],
    account: u128,
    asked: &Asked,
    out: O,
) -> (O, Result<(), Fault>)
    ensures { ReadsOf L.means digest.now (λ tenant.
        IsAskedTold O.written tenant account asked.now out result.0 result.1)
        ledgers.old ledgers.new }
{
    if asked.is_whole() {
        return write_statement(alloc, ledgers, digest, account, asked.order, out);
    }
    write_extract(alloc, ledgers, digest, account, asked, out)
}

/// What the program tells where a statement is not read, or not to its end.
pub(crate) fn statement_fault(why: ReadFault) -> Fault
    ensures { result ≡ statement_fault why }
{
    match why {
        ReadFault::UnknownKey => Fault::NoTenant,
        ReadFault::NoAccount => Fault::NoAccount,
        ReadFault::Sink(why) => Fault::from(why),
        ReadFault::NoHistory | ReadFault::Unavailable(_) => Fault::Unavailable,
    }
}
