//! A ledger of one tenant over plain lists, and what it tells in the fewest words.
use chain::{BatchReply, Tables, run_accounts, run_transfers};
use plain::PlainTables;
use records::{AccountEvent, AccountResult, Balances, TransferEvent, TransferResult};
use std::alloc::{AllocError, Global};
use std::test::Fail;

/// A ledger of one tenant.
#[derive(Drop)]
pub(super) struct Ledger {
    alloc: Global,
    tables: PlainTables,
}

impl Ledger {
    /// A new tenant's.
    pub(super) fn new(alloc: Global) -> Ledger {
        Ledger {
            alloc,
            tables: PlainTables::new(alloc),
        }
    }

    /// Runs a batch of accounts at a moment; events beyond the thousandth are left out.
    pub(super) fn open(&mut self, moment: u64, batch: &[AccountEvent]) -> Result<String, Fail> {
        let batch = &batch[..batch.len().min(1000)];
        self.tables.begin();
        let reply = run_accounts(self.alloc, &mut self.tables, batch, moment)?;
        told(self.alloc, &reply)
    }

    /// Runs a batch of transfers at a moment; events beyond the thousandth are left out.
    pub(super) fn send(&mut self, moment: u64, batch: &[TransferEvent]) -> Result<String, Fail> {
        let batch = &batch[..batch.len().min(1000)];
        self.tables.begin();
        let reply = run_transfers(self.alloc, &mut self.tables, batch, moment)?;
        told(self.alloc, &reply)
    }

    /// The sums of an account that are not 0.
    pub(super) fn balances(&mut self, id: u128) -> Result<String, Fail> {
        self.tables.begin();
        let found = self.tables.account(id)?.ok_or("there is no such account")?;
        let Balances { debits, credits } = &found.balances;
        let mut text = String::new(self.alloc);
        for (name, sum) in [
            ("debits_pending", debits.pending),
            ("debits_posted", debits.posted),
            ("credits_pending", credits.pending),
            ("credits_posted", credits.posted),
        ] {
            let sum = sum.value();
            if sum != 0 {
                push(&mut text, &format!(in self.alloc; "{name} {sum}")?)?;
            }
        }
        Ok(text)
    }

    /// The ids of the transfers, each with the amount that is stored of it.
    pub(super) fn amounts(&self) -> Result<String, Fail> {
        let mut text = String::new(self.alloc);
        for transfer in self.tables.transfers() {
            let (id, amount) = (transfer.id, transfer.amount.value());
            push(&mut text, &format!(in self.alloc; "{id}: {amount}")?)?;
        }
        Ok(text)
    }

    /// The ids that failed for good, and the clock.
    pub(super) fn failed(&mut self) -> Result<String, Fail> {
        self.tables.begin();
        let clock = self.tables.clock()?;
        let mut text = String::new(self.alloc);
        for id in self.tables.failed_ids() {
            push(&mut text, &format!(in self.alloc; "{id}")?)?;
        }
        push(&mut text, &format!(in self.alloc; "clock {clock}")?)?;
        Ok(text)
    }

    /// The tables themselves.
    pub(super) fn into_tables(self) -> PlainTables {
        self.tables
    }
}

/// A result, as it is numbered.
trait Numbered {
    fn number(&self) -> u16;
}

impl Numbered for AccountResult {
    fn number(&self) -> u16 {
        AccountResult::number(*self)
    }
}

impl Numbered for TransferResult {
    fn number(&self) -> u16 {
        TransferResult::number(*self)
    }
}

// Each result's number and timestamp, and the clock.
fn told<R: Numbered>(alloc: Global, reply: &BatchReply<R>) -> Result<String, Fail> {
    match reply {
        BatchReply::ClockExhausted => Ok(format!(in alloc; "clock_exhausted")?),
        BatchReply::Done { clock, results } => {
            let mut text = String::new(alloc);
            for event in results.iter() {
                let (number, timestamp) = (event.result.number(), event.timestamp);
                push(&mut text, &format!(in alloc; "{number}@{timestamp}")?)?;
            }
            push(&mut text, &format!(in alloc; "clock {clock}")?)?;
            Ok(text)
        }
    }
}

// Adds a word behind a comma.
fn push(text: &mut String, word: &str) -> Result<(), AllocError> {
    if !text.as_str().is_empty() {
        text.push_str(", ")?;
    }
    text.push_str(word)
}
