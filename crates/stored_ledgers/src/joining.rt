//! New tenants.

ghost use Rattle.std.specs.Prelude.{◌≡◌, ◌<◌, ◌≤◌, ℕ, pos, true, None, Some, Err, IfSome};
ghost use Rattle.std.specs.Ordering.{int_eq};
ghost use Rattle.records.specs.declared.unavailable.Unavailable.TheVariants.{Disk};
ghost use Rattle.ledger_tables.specs.Calls.{IfHonest};
ghost use Rattle.stored_ledgers.specs.Calls.{ChangesTenants, LeavesSeen};
ghost use Rattle.stored_ledgers.specs.Directory.{IsLeastFree, IsLeastMissing, has_number};
ghost use Rattle.stored_ledgers.specs.Joining.{HasJoined, Joined, IsJoined, joining_answer, AreTaken};
ghost use Rattle.stored_ledgers.specs.Ledger.{HoldsLedgers};
ghost use Rattle.stored_ledgers.specs.Resting.{IsServing, CanServe};

use crate::batches::DueSets;
use crate::transactions::{Change, in_transaction};
use ledger_tables::LedgerTables;
use records::Unavailable;
use rows::DirectoryRow;
use std::alloc::Global;
use std::collections::BTreeSet;
use tenants::TenantName;

/// Why a tenant was not added, in the order in which it is tested. Nothing has changed; only where
/// the disk failed may the next opening find the tenant.
#[derive(Clone, Copy, Debug, PartialEq, Eq)]
pub enum AddTenant {
    /// Another tenant has this name.
    NameTaken,
    /// Another tenant has this digest.
    DigestTaken,
    Unavailable(Unavailable),
}

/// What of a new tenant another one has.
#[derive(Clone, Copy, Debug, PartialEq, Eq)]
pub enum Taken {
    Name,
    Digest,
}

/// Adds a tenant to the directory, with its clock, or tells what is taken.
pub fn join<T: LedgerTables>(
    alloc: Global,
    tables: &mut T,
    due: &mut DueSets,
    name: &TenantName,
    digest: &[u8; 32],
) -> Result<Result<(), Taken>, Unavailable>
    requires { IsServing due.old (T.state tables.old) }
    ensures { ChangesTenants Disk
        (λ old new. HasJoined name.now digest.now old new (joining_answer result))
        (Joined name.now digest.now) due.new (T.state tables.old) (T.state tables.new)
        result }
{
    let joining = Joining {
        alloc,
        name,
        digest,
    };
    in_transaction(tables, due, joining)
}

/// The adding of a tenant.
#[derive(Drop)]
struct Joining<'a> {
    alloc: Global,
    name: &'a TenantName,
    digest: &'a [u8; 32],
}

impl Change for Joining<'_> {
    type Output = ();

    type Refusal = Taken;

    type Memory = DueSets;

    ghost needs = { λ it. CanServe };

    ghost does = { λ it sets old done sets' new.
        (AreTaken it.name.now it.digest.now old.trees None
        × IsJoined it.name.now it.digest.now old new) × CanServe sets' new };

    ghost refuses = { λ it sets old taken.
        AreTaken it.name.now it.digest.now old.trees (Some taken) };

    ghost holds = { λ it sets old output after new done. done.1.ledgers };

    fn run<T: LedgerTables>(
        self,
        tables: &mut T,
        due: &mut DueSets,
    ) -> Result<Result<(), Taken>, Unavailable> {
        if let Some(taken) = what_is_taken(tables, self.name, self.digest)? {
            return Ok(Err(taken));
        }
        let number = free_number(self.alloc, tables)?;
        tables.add_tenant(i64::from(number), self.name.as_str(), self.digest)?;
        tables.add_clock(i64::from(number), 0)?;
        due.insert(i64::from(number), BTreeSet::new(self.alloc))?;
        Ok(Ok(()))
    }
}

/// What another tenant has, the name being asked for first.
fn what_is_taken<T: LedgerTables>(
    tables: &mut T,
    name: &TenantName,
    digest: &[u8; 32],
) -> Result<Option<Taken>, Unavailable>
    requires { IfHonest (λ s. HoldsLedgers s.now) (T.state tables.old) }
    ensures { LeavesSeen (λ db taken. AreTaken name.now digest.now db.trees taken)
        (T.state tables.old) (T.state tables.new) result }
{
    if tables.find_tenant_by_name(name.as_str())?.is_some() {
        return Ok(Some(Taken::Name));
    }
    Ok(
        tables
            .find_tenant(digest)?
            .is_some()
            .then_some(Taken::Digest),
    )
}

/// The least number from 1 that no tenant has.
fn free_number<T: LedgerTables>(alloc: Global, tables: &mut T) -> Result<u32, Unavailable>
    requires { IfHonest (λ s. HoldsLedgers s.now) (T.state tables.old) }
    ensures { LeavesSeen (λ db number. IsLeastFree number db.trees)
        (T.state tables.old) (T.state tables.new) result }
{
    let rows = tables.directory(alloc)?;
    least_missing(rows.as_slice()).ok_or(Unavailable::Size)
}

/// The least number from 1 that no row has. It is searched for only where the rows are not in the
/// order of their numbers.
fn least_missing(rows: &[DirectoryRow]) -> Option<u32>
    ensures { IfSome result (IsLeastMissing rows.now) }
{
    let number = first_gap(rows);
    if !has_number(rows, number) {
        return Some(number);
    }
    for number in 1..u32::MAX {
        if !has_number(rows, number) {
            return Some(number);
        }
    }
    None
}

/// The number behind those from 1 on that the rows have one after the other.
fn first_gap(rows: &[DirectoryRow]) -> u32
    ensures positive { 0 < result }
    ensures before { (other : ℕ) → 0 < other → other < result → has_number rows.now other ≡ true }
{
    let mut number: u32 = 1;
    for row in rows {
        number = behind(row, number);
    }
    number
}

/// The number behind this one, where the row has it.
fn behind(row: &DirectoryRow, number: u32) -> u32
    ensures rises { number ≤ result }
    ensures before { (other : ℕ) → number ≤ other → other < result
        → int_eq row.now.number (pos other) ≡ true }
{
    if row.number == i64::from(number) {
        number.saturating_add(1)
    } else {
        number
    }
}

/// Whether a row has this number.
fn has_number(rows: &[DirectoryRow], number: u32) -> bool
    ensures { result ≡ has_number rows.now number }
{
    rows.iter().any(|row| row.number == i64::from(number))
}

/// What the adding of a tenant answers.
pub fn joining_answer(joined: Result<Result<(), Taken>, Unavailable>) -> Result<(), AddTenant>
    ensures told { result ≡ joining_answer joined }
    ensures disk { result ≡ Err (AddTenant.Unavailable Disk) → joined ≡ Err Disk }
{
    match joined {
        Ok(Ok(())) => Ok(()),
        Ok(Err(Taken::Name)) => Err(AddTenant::NameTaken),
        Ok(Err(Taken::Digest)) => Err(AddTenant::DigestTaken),
        Err(why) => Err(AddTenant::Unavailable(why)),
    }
}
