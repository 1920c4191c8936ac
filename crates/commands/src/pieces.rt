//! Pieces of an account's statement, each read in a batch of its own.
ghost use Rattle.std.specs.Prelude.{◌≡◌, [], IfSome};
ghost use Rattle.chain.specs.Backends.{in_use};
ghost use Rattle.parts.specs.Parts.{IsPart};
ghost use Rattle.service.specs.Courses.{Tried};
ghost use Rattle.service.specs.Openings.{run_meaning, Moves};
ghost use Rattle.store.specs.StoreLaws.{store_meaning};
ghost use Rattle.store.specs.Stores.{IsLive, OfDatabase, tenants_of};
ghost use Rattle.commands.specs.Endings.{ending_told};
ghost use Rattle.commands.specs.Pieces.{asked_for, piece_told, machine_named};
ghost use Rattle.commands.specs.Pieces.{IsPieceTold, IsReadForOperator, IsTried};

use crate::orders::Done;
use crate::stores::{is_settled, may_be_called};
use chain::{AccountEntry, InUse, Listed, ReadFault};
use command_texts::Fault;
use parts::{Part, Rest};
use records::Span;
use sqlite_disk::Disk;
use std::alloc::Global;
use store::Store;
use tenants::TenantName;

// What is told of a piece that was read.
fn piece_told(read: Result<Listed<AccountEntry>, ReadFault>) -> Result<Done, Fault>
    ensures { result ≡ piece_told read }
{
    match read {
        Ok(listed) => Ok(Done::Read(listed)),
        Err(ReadFault::UnknownKey) => Err(Fault::NoTenant),
        Err(ReadFault::NoAccount) => Err(Fault::NoAccount),
        Err(ReadFault::NoHistory | ReadFault::Unavailable(_) | ReadFault::Sink(_)) => {
            Err(Fault::Unavailable)
        }
    }
}

// Reads a piece of the statement of the tenant with a digest.
fn entries_of<D: Disk + Drop>(
    alloc: Global,
    store: &mut InUse<Store<D>>,
    digest: &[u8; 32],
    account: u128,
    span: &Span,
) -> Result<Done, Fault>
    ensures told { IsLive store.new
        → IsPieceTold account span.now (tenants_of store.old digest.now) result }
    ensures moves { Moves (run_meaning (in_use store_meaning)) store.old
        (Tried (asked_for digest.now account) (ending_told result)) store.new }
    ensures lived { IsLive store.new → IsLive store.old }
{
    let read = parts::read_piece(alloc, store, digest, account, span);
    is_settled(store);
    piece_told(read)
}

/// Reads the part of a statement that comes next for a client that is told it.
pub(crate) fn next_part<D: Disk + Drop>(
    alloc: Global,
    store: &mut InUse<Store<D>>,
    rest: &Rest,
) -> Option<Part>
    ensures told { IfSome result (λ part. IsLive store.new
        → IsPart [] (tenants_of store.new rest.now.digest) rest.now part) }
    ensures tried { IsTried rest.now store.old store.new }
{
    let read = rest.part(alloc, store, b"");
    is_settled(store);
    read.ok()
}

/// Reads a piece of an account's statement for an operator.
pub(crate) fn read_piece<D: Disk + Drop>(
    alloc: Global,
    store: &mut InUse<Store<D>>,
    tenant: &TenantName,
    account: u128,
    span: &Span,
) -> Result<Done, Fault>
    ensures told { IsLive store.new → OfDatabase
        (λ db. IsPieceTold account span.now (machine_named tenant.now db.trees) result) store.old }
    ensures read { IsReadForOperator account store.old result store.new }
{
    let found = store.backend.digest_of(tenant);
    may_be_called(store);
    match found {
        Ok(Some(digest)) => entries_of(alloc, store, &digest, account, span),
        Ok(None) => Err(Fault::NoTenant),
        Err(_) => Err(Fault::Unavailable),
    }
}
