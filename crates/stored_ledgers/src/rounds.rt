//! Rounds: work of several tenants in one transaction.

ghost use Rattle.std.specs.Prelude.{None, IfOk, OnOk, OnErr};
ghost use Rattle.sqlite.specs.State.{Survives};
ghost use Rattle.sqlite_trees.specs.Tree.{Trees};
ghost use Rattle.records.specs.declared.unavailable.Unavailable.TheVariants.{Disk};
ghost use Rattle.ledger_sql.specs.Frames.{Live};
ghost use Rattle.stored_ledgers.specs.Calls.{ServesOn};
ghost use Rattle.stored_ledgers.specs.Directory.{tenants_in};
ghost use Rattle.stored_ledgers.specs.DueSets.{AreCovered};
ghost use Rattle.stored_ledgers.specs.Outcomes.{ArePast, KeepsTables};
ghost use Rattle.stored_ledgers.specs.Resting.{IsSame, IsServing, CanServe};
ghost use Rattle.stored_ledgers.specs.Rounds.{CanGoOn, FollowsHere, GrowsSets, IsAfterRound, IsRoundDone};

use crate::batches::DueSets;
use crate::round::Round;
use crate::transactions::{Change, in_transaction};
use crate::working::{Past, forget};
use chain::{Backend, InUse, RoundWork};
use core::mem::replace_with;
use ledger_tables::LedgerTables;
use records::Unavailable;
use std::alloc::Global;
use std::convert::Infallible;

/// Does the work of a round, and commits all of it or nothing.
pub fn in_round<T: LedgerTables, W: RoundWork + Drop>(
    alloc: Global,
    tables: &mut T,
    due: &mut DueSets,
    work: W,
) -> Result<W::Output, Unavailable>
    requires { IsServing due.old (T.state tables.old) }
    ensures run { Live (T.state tables.new) → IfOk result (λ output. W.gives work
        (tenants_in (T.state tables.old).now.trees) output
        (tenants_in (T.state tables.new).now.trees)) }
    ensures tables { Live (T.state tables.new)
        → KeepsTables (T.state tables.old).now (T.state tables.new).now }
    ensures serves { ServesOn Disk due.new (T.state tables.new) result }
    ensures same { Live (T.state tables.new) → OnErr result
        (IsSame (T.state tables.old) (T.state tables.new)) }
    ensures survives { Survives (T.state tables.old) (T.state tables.new)
        (IsAfterRound (W.gives work) (T.state tables.old).now) }
{
    match in_transaction(tables, due, WholeRound { alloc, work }) {
        Ok(Ok(done)) => {
            // Behind the commit nothing leads back to the clocks before it.
            forget_all(due, &done.pasts);
            Ok(done.output)
        }
        Ok(Err(never)) => match never {},
        Err(why) => Err(why),
    }
}

/// The work of a round.
#[derive(Drop)]
struct WholeRound<W> {
    alloc: Global,
    work: W,
}

/// What a round came to, and the clocks before each of its batches.
#[derive(Drop)]
struct RoundDone<O> {
    output: O,
    pasts: Vec<Past>,
}

impl<W: RoundWork + Drop> Change for WholeRound<W> {
    type Output = RoundDone<W::Output>;

    type Refusal = Infallible;

    type Memory = DueSets;

    ghost needs = { λ round. CanServe };

    ghost does = { λ round sets old done sets' new.
        IsRoundDone (W.gives round.work) old new done.output done.pasts.items
        × CanServe sets' new };

    ghost refuses = { λ round sets old never. ⊥ };

    ghost holds = { λ it sets old output after new done. done.1.ledgers };

    fn run<T: LedgerTables>(
        self,
        tables: &mut T,
        due: &mut DueSets,
    ) -> Result<Result<RoundDone<W::Output>, Infallible>, Unavailable> {
        let mut pasts = Vec::new(self.alloc);
        let output = run_round(tables, due, &mut pasts, self.work)?;
        Ok(Ok(RoundDone { output, pasts }))
    }
}

/// Does the work in an open transaction, and keeps the clocks before each of its batches.
fn run_round<T: LedgerTables, W: RoundWork + Drop>(
    tables: &mut T,
    due: &mut DueSets,
    pasts: &mut Vec<Past>,
    work: W,
) -> Result<W::Output, Unavailable>
    requires { CanGoOn None due.old pasts.old.items (T.state tables.old) }
    ensures given { Live (T.state tables.new) → IfOk result (λ output. W.gives work
        (tenants_in (T.state tables.old).now.trees) output
        (tenants_in (T.state tables.new).now.trees)) }
    ensures goes_on { OnOk result
        (CanGoOn None due.new pasts.new.items (T.state tables.new)) }
    ensures grows { GrowsSets due.old due.new }
    ensures follows { FollowsHere (T.state tables.old) (T.state tables.new) }
{
    let mut round = Round {
        tables,
        due,
        failure: None,
        pasts,
    };
    let ran = replace_with(&mut round, (work, None), run_in_use);
    // The first fault says why, whatever the work made of it.
    match round.failure {
        Some(why) => Err(why),
        None => ran,
    }
}

/// Does the work of a round on the ledgers of a backend, which is given back. Beside the work stands
/// the place of its output, which has none yet.
fn run_in_use<B: Backend, W: RoundWork + Drop>(
    backend: B,
    job: (W, Option<W::Output>),
) -> (B, Result<W::Output, Unavailable>)
    requires { B.means.is_usable backend }
    ensures gives { B.means.ledgers.is_live result.0 → IfOk result.1 (λ output. W.gives job.0
        (B.means.ledgers.tenants backend) output (B.means.ledgers.tenants result.0)) }
    ensures follows { B.means.ledgers.follows backend result.0 }
    ensures usable { B.means.is_usable result.0 }
{
    let (work, _output) = job;
    let mut ledgers = InUse { backend };
    let ran = work.run(&mut ledgers);
    (ledgers.into_backend(), ran)
}

/// Drops what fell due by moments that clocks have behind them.
fn forget_all(due: &mut DueSets, pasts: &[Past])
    ensures { (trees : Trees) → ArePast pasts.now trees → AreCovered due.old trees →
        AreCovered due.new trees }
{
    for past in pasts {
        forget(due, *past);
    }
}
