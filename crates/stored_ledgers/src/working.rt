//! Work on one tenant's tables inside a transaction.

ghost use Rattle.std.specs.Prelude.{◌≡◌, None, IfOk, OnOk};
ghost use Rattle.std.specs.BTreeSet.{IsSubset};
ghost use Rattle.sqlite.specs.State.{HasCleanDisk};
ghost use Rattle.sqlite_trees.specs.Tree.{Trees};
ghost use Rattle.ledger_sql.specs.Frames.{Live};
ghost use Rattle.stored_tables.specs.InBatch.{FollowsInBatch};
ghost use Rattle.stored_ledgers.specs.Directory.{tenants_in};
ghost use Rattle.stored_ledgers.specs.DueSets.{AreCovered, due_cmp};
ghost use Rattle.stored_ledgers.specs.Outcomes.{IsBatchTimed, IsWorkable, HasWorkedHere, IsPast};
ghost use Rattle.stored_ledgers.specs.Rounds.{IsInRound, FollowsHere, GrowsSets};
ghost use Rattle.stored_ledgers.specs.Transactions.{IfAnswered};

use crate::batches::{DueSets, UnknownKey};
use chain::{Tables, Work};
use ledger_tables::LedgerTables;
use records::Unavailable;
use std::collections::BTreeSet;
use stored_tables::{Batch, TenantNumber, forget_past};

/// A moment, in nanoseconds, that a tenant's clock has behind it.
#[derive(Clone, Copy)]
pub(crate) struct Past {
    tenant: TenantNumber,
    clock: u64,
}

/// What work on a tenant's tables came to, and the tenant's clock before it.
#[derive(Drop)]
pub(crate) struct Worked<O> {
    pub(crate) output: O,
    pub(crate) past: Past,
}

/// Does the work on the tables of the tenant with this digest, if there is one, inside a
/// transaction. What fell due by the tenant's clock is passed over, and stays in the sets: a
/// rollback may lead back to where it was open.
pub(crate) fn work_here<T: LedgerTables, W: Work + Drop>(
    tables: &mut T,
    due: &mut DueSets,
    digest: &[u8; 32],
    work: W,
) -> Result<Result<Worked<W::Output>, UnknownKey>, Unavailable>
    requires { HasCleanDisk (T.state tables.old)
        → IsInRound due.old (T.state tables.old) }
    ensures told { Live (T.state tables.new) → IfAnswered result
        (λ worked. IsBatchTimed (W.gives work) digest.now (T.state tables.old).now
        (T.state tables.new).now worked.output worked.past)
        (λ unknown. (tenants_in (T.state tables.old).now.trees digest.now ≡ None)
        × ((T.state tables.new).now ≡ (T.state tables.old).now)) }
    ensures here { HasCleanDisk (T.state tables.new)
        → OnOk result (IsInRound due.new (T.state tables.new)) }
    ensures grows { GrowsSets due.old due.new }
    ensures follows { FollowsHere (T.state tables.old) (T.state tables.new) }
{
    let Some(number) = tables.find_tenant(digest)? else {
        return Ok(Err(UnknownKey));
    };
    // Every tenant has a set; one without it is a lie of the disk.
    let Some(set) = due.get_mut(&number) else {
        return Err(Unavailable::Disk);
    };
    let worked = run_work(tables, set, TenantNumber(number), work)?;
    Ok(Ok(worked))
}

/// Does the work on a tenant's tables.
#[tactic(auto, unfolding(stored_tables::specs::InBatch::shown))]
fn run_work<T: LedgerTables, W: Work + Drop>(
    tables: &mut T,
    due: &mut BTreeSet<(u64, u128)>,
    tenant: TenantNumber,
    work: W,
) -> Result<Worked<W::Output>, Unavailable>
    requires { HasCleanDisk (T.state tables.old)
        → IsWorkable tenant.0 due.old (T.state tables.old) }
    ensures worked { HasCleanDisk (T.state tables.new) → IfOk result
        (λ worked. HasWorkedHere (W.gives work) tenant.0 due.new (T.state tables.old)
        (T.state tables.new) worked.output worked.past) }
    ensures grows { IsSubset due_cmp due.old due.new }
    ensures follows { FollowsInBatch tenant.0 (T.state tables.old) (T.state tables.new) }
{
    let mut batch = Batch {
        tables,
        due,
        tenant,
        past: 0,
    };
    let clock = batch.clock()?;
    batch.past = clock;
    let output = work.run(&mut batch)?;
    Ok(Worked {
        output,
        past: Past { tenant, clock },
    })
}

/// Drops what fell due for a tenant by a moment that its clock has behind it.
pub(crate) fn forget(due: &mut DueSets, past: Past)
    ensures { (trees : Trees) → IsPast trees past → AreCovered due.old trees →
        AreCovered due.new trees }
{
    if let Some(set) = due.get_mut(&past.tenant.0) {
        forget_past(set, past.clock);
    }
}
