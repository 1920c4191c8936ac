//! What is left of a ledger's tables after a call that failed.

ghost use Rattle.std.specs.Prelude.{◌≡◌, ◌≢◌, ◌↔◌, Ok, Err, IsErr, IfOk, OnOk, OnErr, IsTrue};
ghost use Rattle.std.specs.Bool.{OnTrue};
ghost use Rattle.records.specs.declared.unavailable.Unavailable.TheVariants.{Disk};
ghost use Rattle.sqlite.specs.State.{HasCleanDisk};
ghost use Rattle.ledger_sql.specs.Calls.{LeavesOver};
ghost use Rattle.ledger_sql.specs.Frames.{Live, Follows};
ghost use Rattle.stored_ledgers.specs.Transactions.{IsQuiet, IsSame};

use ledger_tables::LedgerTables;
use records::Unavailable;

/// An answer as it is, or why there is none: a fault of the disk where the database is shut, and
/// where that cannot be told.
pub fn judged<T: LedgerTables, A>(
    tables: &mut T,
    tried: Result<A, Unavailable>,
) -> Result<A, Unavailable>
    ensures ok { IfOk result (λ answer. (tried ≡ Ok answer) × (tables.new ≡ tables.old)) }
    ensures kept { OnOk tried ((result ≡ tried) × (tables.new ≡ tables.old)) }
    ensures failed { OnErr tried (IsErr result) }
    ensures open { HasCleanDisk (T.state tables.new) → OnErr tried
        (result ≢ Err Disk → IsTrue (T.state tables.new).is_open) }
    ensures same { Live (T.state tables.new) → IsQuiet (T.state tables.old)
        → IsSame (T.state tables.old) (T.state tables.new) }
    ensures follows { Follows (T.state tables.old) (T.state tables.new) }
{
    match tried {
        Ok(answer) => Ok(answer),
        Err(why) => Err(or_disk_fault(tables, why)),
    }
}

/// Why a call failed: the fault is the disk's where the database is shut, and where that cannot be
/// told. The transaction, if one is open, ends with nothing of it kept.
pub fn or_disk_fault<T: LedgerTables>(tables: &mut T, why: Unavailable) -> Unavailable
    ensures open { HasCleanDisk (T.state tables.new) → result ≢ Disk
        → IsTrue (T.state tables.new).is_open }
    ensures over { LeavesOver (T.state tables.old) (T.state tables.new) }
{
    if ends_open(tables) {
        why
    } else {
        Unavailable::Disk
    }
}

/// Ends the transaction, if one is open, with nothing of it kept. Whether the database is open
/// after it: false where that cannot be told.
pub(crate) fn ends_open<T: LedgerTables>(tables: &mut T) -> bool
    ensures open { HasCleanDisk (T.state tables.new)
        → OnTrue result (IsTrue (T.state tables.new).is_open) }
    ensures over { LeavesOver (T.state tables.old) (T.state tables.new) }
{
    tables.abandon();
    if tables.is_open() {
        return true;
    }
    // Where the question was not answered, nothing else is known of the tables.
    tables.abandon();
    false
}

/// Whether a call was answered that the disk failed.
pub fn is_disk_fault<T>(answer: &Result<T, Unavailable>) -> bool
    ensures { IsTrue result ↔ (answer.now ≡ Err Disk) }
{
    matches!(answer, Err(Unavailable::Disk))
}
