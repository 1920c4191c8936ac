//! Two firms whose ledgers are kept in memory, and what is sent to them.

use chain::{
    BatchFault, BatchReply, InUse, Ledgers, ReadFault, Tables, Work, run_accounts, run_transfers,
};
use failing_streams::TakenRows;
use plain::{Book, PlainTables};
use records::{
    AccountEvent, AccountResult, Order, StatementRow, TransferEvent, TransferResult, Unavailable,
};
use samples::{KEEPS_HISTORY, LIMITS_DEBITS, account};
use std::alloc::Global;
use std::test::Fail;

/// The digest of the firm whose accounts and transfers the examples speak of.
pub const FIRM: [u8; 32] = [1; 32];

/// The digest of a firm without accounts.
pub const OTHER: [u8; 32] = [2; 32];

/// The digest of no firm.
pub const NOBODY: [u8; 32] = [3; 32];

/// A batch of accounts; events beyond the thousandth are left out.
#[derive(Drop)]
struct Opening<'a> {
    alloc: Global,
    accounts: &'a [AccountEvent],
}

impl Work for Opening<'_> {
    type Output = BatchReply<AccountResult>;

    ghost gives = { λ _ _ _ _. Unit {0} };

    fn run<T: Tables>(self, tables: &mut T) -> Result<BatchReply<AccountResult>, Unavailable> {
        let accounts = &self.accounts[..self.accounts.len().min(1000)];
        run_accounts(self.alloc, tables, accounts, 0)
    }
}

/// A batch of transfers at a moment, in nanoseconds; events beyond the thousandth are left out.
#[derive(Drop)]
pub struct Sending<'a> {
    pub alloc: Global,
    pub transfers: &'a [TransferEvent],
    pub moment: u64,
}

impl Work for Sending<'_> {
    type Output = BatchReply<TransferResult>;

    ghost gives = { λ _ _ _ _. Unit {0} };

    fn run<T: Tables>(self, tables: &mut T) -> Result<BatchReply<TransferResult>, Unavailable> {
        let transfers = &self.transfers[..self.transfers.len().min(1000)];
        run_transfers(self.alloc, tables, transfers, self.moment)
    }
}

/// The ledgers of the two firms.
pub struct Firms {
    alloc: Global,
    pub ledgers: InUse<Book>,
}

// It is written out, so that who lets firms go does not prove again how each part is dropped.
impl Drop for Firms {
    fn drop(self) {
        let Firms {
            alloc: _,
            ledgers: _,
        } = self;
    }
}

impl Firms {
    /// The base of the examples: the first firm has accounts 1 to 4.
    pub fn base(alloc: Global) -> Result<Firms, Fail> {
        let mut book = Book::new(alloc);
        book.add(FIRM, PlainTables::new(alloc))?;
        book.add(OTHER, PlainTables::new(alloc))?;
        let mut firms = Firms {
            alloc,
            ledgers: InUse { backend: book },
        };
        let accounts = [
            account(1, 0),
            account(2, 0),
            account(3, LIMITS_DEBITS + KEEPS_HISTORY),
            account(4, 0),
        ];
        let opening = Opening {
            alloc,
            accounts: &accounts,
        };
        firms.ledgers.in_batch(&FIRM, opening)?;
        Ok(firms)
    }

    /// The base with a batch of transfers behind it.
    pub fn after(alloc: Global, transfers: &[TransferEvent]) -> Result<Firms, Fail> {
        let mut firms = Firms::base(alloc)?;
        firms.send(0, transfers)?;
        Ok(firms)
    }

    /// Sends a batch of transfers at a moment, in nanoseconds.
    pub fn send(&mut self, moment: u64, transfers: &[TransferEvent]) -> Result<(), BatchFault> {
        let sending = Sending {
            alloc: self.alloc,
            transfers,
            moment,
        };
        self.ledgers.in_batch(&FIRM, sending)?;
        Ok(())
    }

    /// How an account's statement ends, and its rows, of which so many are taken.
    pub fn statement(
        &mut self,
        digest: &[u8; 32],
        account: u128,
        order: Order,
        room: usize,
    ) -> (Result<(), ReadFault>, Vec<StatementRow>) {
        let mut rows = TakenRows {
            taken: Vec::new(self.alloc),
            room,
        };
        let told = self
            .ledgers
            .each_statement_row(self.alloc, digest, account, order, &mut rows);
        (told, rows.taken)
    }
}
