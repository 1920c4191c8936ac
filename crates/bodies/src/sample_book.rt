ghost use Rattle.std.specs.Prelude.{◌≡◌, Some, IfOk};
ghost use Rattle.plain.specs.Book.{machine_with};
ghost use Rattle.bodies.specs.SampleBook.{account_event, opened};

use chain::run_accounts;
use plain::{Book, PlainTables};
use records::{AccountEvent, Unavailable};
use std::alloc::Global;

/// The digest of the first tenant.
pub const FIRST: [u8; 32] = [0; 32];

/// The digest of the second tenant.
pub const SECOND: [u8; 32] = [1; 32];

fn account(id: u128) -> AccountEvent
    ensures { result ≡ account_event id }
{
    AccountEvent {
        id,
        ledger: 7,
        code: 10,
        ..AccountEvent::default()
    }
}

// A tenant with accounts 1 and 2.
fn new_tenant(alloc: Global) -> Result<PlainTables, Unavailable>
    ensures { IfOk result (λ tables. tables.now ≡ opened) }
{
    let mut tables = PlainTables::new(alloc);
    run_accounts(alloc, &mut tables, &[account(1), account(2)], 0)?;
    Ok(tables)
}

/// A book of two tenants, each with accounts 1 and 2 of ledger 7 and code 10.
pub fn two_tenants(alloc: Global) -> Result<Book, Unavailable>
    ensures first { IfOk result (λ book. machine_with FIRST book ≡ Some opened) }
    ensures second { IfOk result (λ book. machine_with SECOND book ≡ Some opened) }
{
    let mut book = Book::new(alloc);
    book.add(FIRST, new_tenant(alloc)?)?;
    book.add(SECOND, new_tenant(alloc)?)?;
    Ok(book)
}
