//! Changes that are made in one transaction, or not at all.

ghost use Rattle.std.specs.Prelude.{◌≢◌, Err, OnOk, IsTrue};
ghost use Rattle.records.specs.declared.unavailable.Unavailable.TheVariants.{Disk};
ghost use Rattle.sqlite.specs.Effect.{Database};
ghost use Rattle.sqlite.specs.State.{HasCleanDisk, Survives};
ghost use Rattle.ledger_sql.specs.Frames.{Live, Follows};
ghost use Rattle.stored_ledgers.specs.Ledger.{HoldsLedgers};
ghost use Rattle.stored_ledgers.specs.Transactions.{IsReady, HasOnlyBegun, IsQuiet, IsSame, IfAnswered, UnlessMade, MayLeave};

use crate::own_keys::law_ledgers_own_their_keys;
use crate::probe::{ends_open, or_disk_fault};
use ledger_tables::LedgerTables;
use records::Unavailable;

/// A change to a database, and to what is kept of it in memory.
pub trait Change {
    type Output: Drop;
    /// Why the change is not made, where that is no fault.
    type Refusal: Drop;

    type Memory;

    // What it needs of the memory and of the database.
    ghost needs: { Self → Self.Memory → Database → Type 0 };
    // What the memory and the database before it, the output, and both after it are to one another.
    ghost does: { Self → Self.Memory → Database → Self.Output → Self.Memory → Database → Type 0 };
    // Of which memory and which database it is refused.
    ghost refuses: { Self → Self.Memory → Database → Self.Refusal → Type 0 };
    // The database after it holds ledgers.
    ghost holds: { (change : Self) (memory : Self.Memory) (old : Database) →
        (output : Self.Output) (after : Self.Memory) (new : Database) →
        does change memory old output after new → HoldsLedgers new };

    /// Makes it inside a transaction. Whatever it answers, the memory still serves the database
    /// before it.
    fn run<T: LedgerTables>(
        self,
        tables: &mut T,
        memory: &mut Self::Memory,
    ) -> Result<Result<Self::Output, Self::Refusal>, Unavailable>
        requires { HasCleanDisk (T.state tables.old)
            → HasOnlyBegun (needs self memory.old) (T.state tables.old) }
        ensures told { Live (T.state tables.new) → IfAnswered result
            (λ output. does self memory.old (T.state tables.old).now output memory.new
            (T.state tables.new).now)
            (refuses self memory.old (T.state tables.old).now) }
        ensures again { Live (T.state tables.new)
            → needs self memory.new (T.state tables.old).now }
        ensures open { HasCleanDisk (T.state tables.new)
            → OnOk result (IsTrue (T.state tables.new).is_open) }
        ensures follows { Follows (T.state tables.old) (T.state tables.new) };
}

/// Makes a change and commits it. One that is refused or fails leaves the database as it was; only
/// where the disk failed may the next opening find it made.
pub fn in_transaction<T: LedgerTables, C: Change + Drop>(
    tables: &mut T,
    memory: &mut C::Memory,
    change: C,
) -> Result<Result<C::Output, C::Refusal>, Unavailable>
    requires { HasCleanDisk (T.state tables.old)
        → IsReady (C.needs change memory.old) (T.state tables.old) }
    ensures told { Live (T.state tables.new) → IfAnswered result
        (λ output. C.does change memory.old (T.state tables.old).now output memory.new
        (T.state tables.new).now)
        (C.refuses change memory.old (T.state tables.old).now) }
    ensures again { Live (T.state tables.new) → UnlessMade result
        (C.needs change memory.new (T.state tables.old).now) }
    ensures quiet { Live (T.state tables.new) → IsQuiet (T.state tables.new) }
    ensures same { Live (T.state tables.new) → UnlessMade result
        (IsSame (T.state tables.old) (T.state tables.new)) }
    ensures open { HasCleanDisk (T.state tables.new) → result ≢ Err Disk
        → IsTrue (T.state tables.new).is_open }
    ensures survives { Survives (T.state tables.old) (T.state tables.new)
        (MayLeave (C.does change memory.old (T.state tables.old).now)) }
{
    if let Err(why) = tables.begin() {
        return Err(or_disk_fault(tables, why));
    }
    law_ledgers_own_their_keys();
    match change.run(tables, memory) {
        Ok(Ok(output)) => match tables.commit() {
            Ok(()) => Ok(Ok(output)),
            Err(why) => Err(or_disk_fault(tables, why)),
        },
        Ok(Err(refusal)) => {
            if !ends_open(tables) {
                return Err(Unavailable::Disk);
            }
            Ok(Err(refusal))
        }
        Err(why) => Err(or_disk_fault(tables, why)),
    }
}
