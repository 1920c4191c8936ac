//! Batches of work on one tenant's tables.

ghost use Rattle.std.specs.Prelude.{◌≡◌, None};
ghost use Rattle.sqlite.specs.State.{Survives};
ghost use Rattle.records.specs.declared.unavailable.Unavailable.TheVariants.{Disk};
ghost use Rattle.chain.specs.Ledgers.{IsRun};
ghost use Rattle.ledger_sql.specs.Frames.{Live};
ghost use Rattle.stored_ledgers.specs.Calls.{ServesOn};
ghost use Rattle.stored_ledgers.specs.Directory.{tenants_in};
ghost use Rattle.stored_ledgers.specs.Outcomes.{batch_answer, IsAfterBatch, IsBatchTimed, KeepsTables};
ghost use Rattle.stored_ledgers.specs.Resting.{IsServing, CanServe};

use crate::transactions::{Change, in_transaction};
use crate::working::{Worked, forget, work_here};
use chain::{BatchFault, Work};
use ledger_tables::LedgerTables;
use records::Unavailable;
use std::collections::{BTreeMap, BTreeSet};

/// For each tenant's number the due times, in nanoseconds, and ids of its pending transfers.
pub type DueSets = BTreeMap<i64, BTreeSet<(u64, u128)>>;

/// No tenant has this digest.
#[derive(Clone, Copy, Debug, PartialEq, Eq)]
pub struct UnknownKey;

/// Runs a batch of work on the tables of the tenant with this digest, if there is one, and commits
/// all of it or nothing.
pub fn in_batch<T: LedgerTables, W: Work + Drop>(
    tables: &mut T,
    due: &mut DueSets,
    digest: &[u8; 32],
    work: W,
) -> Result<Result<W::Output, UnknownKey>, Unavailable>
    requires { IsServing due.old (T.state tables.old) }
    ensures run { Live (T.state tables.new) → IsRun (W.gives work) digest.now
        (tenants_in (T.state tables.old).now.trees)
        (tenants_in (T.state tables.new).now.trees) (batch_answer result) }
    ensures tables { Live (T.state tables.new)
        → KeepsTables (T.state tables.old).now (T.state tables.new).now }
    ensures serves { ServesOn Disk due.new (T.state tables.new) result }
    ensures survives { Survives (T.state tables.old) (T.state tables.new)
        (IsAfterBatch (W.gives work) digest.now (T.state tables.old).now) }
{
    match in_transaction(tables, due, TenantBatch { digest, work }) {
        Ok(Ok(worked)) => {
            // Behind the commit nothing leads back to a clock before it.
            forget(due, worked.past);
            Ok(Ok(worked.output))
        }
        Ok(Err(unknown)) => Ok(Err(unknown)),
        Err(why) => Err(why),
    }
}

/// A batch of work on the tables of the tenant with this digest.
#[derive(Drop)]
struct TenantBatch<'a, W> {
    digest: &'a [u8; 32],
    work: W,
}

impl<W: Work + Drop> Change for TenantBatch<'_, W> {
    type Output = Worked<W::Output>;

    type Refusal = UnknownKey;

    type Memory = DueSets;

    ghost needs = { λ batch. CanServe };

    ghost does = { λ batch sets old worked sets' new.
        IsBatchTimed (W.gives batch.work) batch.digest.now old new worked.output worked.past
        × CanServe sets' new };

    ghost refuses = { λ batch sets old unknown. tenants_in old.trees batch.digest.now ≡ None };

    ghost holds = { λ it sets old output after new done. done.1.ledgers };

    fn run<T: LedgerTables>(
        self,
        tables: &mut T,
        due: &mut DueSets,
    ) -> Result<Result<Worked<W::Output>, UnknownKey>, Unavailable> {
        work_here(tables, due, self.digest, self.work)
    }
}

/// What a batch answers.
pub fn batch_answer<O: Drop>(
    done: Result<Result<O, UnknownKey>, Unavailable>,
) -> Result<O, BatchFault>
    ensures { result ≡ batch_answer done }
{
    match done {
        Ok(Ok(output)) => Ok(output),
        Ok(Err(UnknownKey)) => Err(BatchFault::UnknownKey),
        Err(why) => Err(BatchFault::Unavailable(why)),
    }
}
