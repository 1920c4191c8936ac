use super::firms::*;
use crate::tests::asserting::same;
use chain::{BatchFault, BatchReply, Ledgers, ReadFault, Tables, Work};
use records::{
    AccountFilter, EventResult, FilterFlags, Order, TransferEvent, TransferResult, Unavailable,
};
use samples::transfer;
use std::alloc::Global;
use std::test::Fail;

const UNKNOWN_KEY: Option<ReadFault> = Some(ReadFault::UnknownKey);

// Runs a batch and wants memory at its end.
#[derive(Drop)]
struct Failing<'a> {
    sending: Sending<'a>,
}

impl Work for Failing<'_> {
    type Output = ();

    ghost gives = { λ _ _ _ _. Unit {0} };

    fn run<T: Tables>(self, tables: &mut T) -> Result<(), Unavailable> {
        self.sending.run(tables)?;
        Err(Unavailable::Memory)
    }
}

#[test]
fn knows_each_tenant_by_its_digest(rt: HostRuntime) -> Result<(), Fail> {
    let mut firms = Firms::base(rt.alloc())?;
    for (case, digest, want) in [
        ("the first firm", FIRM, true),
        ("the other firm", OTHER, true),
        ("nobody", NOBODY, false),
    ] {
        same(&rt, case, firms.ledgers.knows(&digest), Ok(want));
    }
    Ok(())
}

#[test]
fn a_batch_is_its_tenants_alone(rt: HostRuntime) -> Result<(), Fail> {
    let mut firms = Firms::base(rt.alloc())?;
    let transfers = [transfer(100, (1, 2), 10)];
    let sending = sending(rt.alloc(), &transfers, 0);
    let BatchReply::Done { clock, results } = firms.ledgers.in_batch(&FIRM, sending)? else {
        return Err("the clock is exhausted".into());
    };
    same(&rt, "the clock", clock, 5);
    let accepted = [EventResult {
        result: TransferResult::Accepted,
        timestamp: 5,
    }];
    same(&rt, "results", results.as_slice(), accepted.as_slice());

    let of_other = firms.ledgers.lookup_transfers(rt.alloc(), &OTHER, &[100])?;
    same(&rt, "the other firm's clock", of_other.clock, 0);
    same(&rt, "the other firm", of_other.entries.len(), 0);
    Ok(())
}

#[test]
fn a_batch_that_fails_keeps_nothing(rt: HostRuntime) -> Result<(), Fail> {
    let mut firms = Firms::base(rt.alloc())?;
    let transfers = [transfer(100, (1, 2), 10), transfer(101, (9, 2), 1)];
    let failing = Failing {
        sending: sending(rt.alloc(), &transfers, 50),
    };
    let told = firms.ledgers.in_batch(&FIRM, failing);
    let memory = BatchFault::Unavailable(Unavailable::Memory);
    same(&rt, "the batch", told, Err(memory));
    let found = firms.ledgers.lookup_transfers(rt.alloc(), &FIRM, &[100])?;
    same(&rt, "the clock", found.clock, 4);
    same(&rt, "what is kept", found.entries.len(), 0);
    Ok(())
}

#[test]
fn nobody_is_answered(rt: HostRuntime) -> Result<(), Fail> {
    let alloc = rt.alloc();
    let mut firms = Firms::base(alloc)?;
    let ledgers = &mut firms.ledgers;
    let told = ledgers.in_batch(&NOBODY, sending(alloc, &[], 0));
    same(&rt, "a batch", told.err(), Some(BatchFault::UnknownKey));
    let accounts = ledgers.lookup_accounts(alloc, &NOBODY, &[1]).err();
    same(&rt, "accounts", accounts, UNKNOWN_KEY);
    let transfers = ledgers.lookup_transfers(alloc, &NOBODY, &[100]).err();
    same(&rt, "transfers", transfers, UNKNOWN_KEY);
    let asked = AccountFilter {
        account_id: 1,
        timestamp_min: 0,
        timestamp_max: 0,
        limit: 10,
        flags: FilterFlags(3),
    };
    let history = ledgers.history_transfers(alloc, &NOBODY, &asked).err();
    same(&rt, "a history", history, UNKNOWN_KEY);
    let balances = ledgers.history_balances(alloc, &NOBODY, &asked).err();
    same(&rt, "balances", balances, UNKNOWN_KEY);
    let (told, rows) = firms.statement(&NOBODY, 1, Order::Oldest, 10);
    same(&rt, "a statement", told.err(), UNKNOWN_KEY);
    same(&rt, "its rows", rows.len(), 0);
    Ok(())
}

fn sending(alloc: Global, transfers: &[TransferEvent], moment: u64) -> Sending<'_> {
    Sending {
        alloc,
        transfers,
        moment,
    }
}
