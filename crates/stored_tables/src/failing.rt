ghost use Rattle.stored_tables.specs.Meaning.{HandsOn};

use ledger_tables::LedgerTables;
use records::Unavailable;

/// What a call gave. Where it failed, the transaction fails with it.
pub(crate) fn or_give_up<T: LedgerTables, A>(
    tables: &mut T,
    given: Result<A, Unavailable>,
) -> Result<A, Unavailable>
    ensures { HandsOn T.state given tables.old tables.new result }
{
    if given.is_err() {
        tables.abandon();
    }
    given
}
