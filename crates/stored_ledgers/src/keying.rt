//! Another key for a tenant.

ghost use Rattle.std.specs.Prelude.{◌≡◌, Err};
ghost use Rattle.records.specs.declared.unavailable.Unavailable.TheVariants.{Disk};
ghost use Rattle.stored_ledgers.specs.Calls.{ChangesTenants};
ghost use Rattle.stored_ledgers.specs.Keying.{HasKeyed, Keyed, IsKeyed, IsKeyRefused, keying_answer};
ghost use Rattle.stored_ledgers.specs.Resting.{IsServing, CanServe};

use crate::batches::DueSets;
use crate::transactions::{Change, in_transaction};
use ledger_tables::LedgerTables;
use records::Unavailable;
use tenants::TenantName;

/// Why a tenant's key was not changed, in the order in which it is tested. Nothing has changed;
/// only where the disk failed may the next opening find the new key.
#[derive(Clone, Copy, Debug, PartialEq, Eq)]
pub enum ChangeKey {
    /// No tenant has this name.
    NoTenant,
    /// Another tenant has this digest.
    DigestTaken,
    Unavailable(Unavailable),
}

/// Why a key is refused.
#[derive(Clone, Copy, Debug, PartialEq, Eq)]
pub enum KeyRefused {
    NoTenant,
    DigestTaken,
}

/// Gives the tenant with this name the key of this digest. One that has it already keeps it, and
/// nothing changes.
pub fn change_key<T: LedgerTables>(
    tables: &mut T,
    due: &mut DueSets,
    name: &TenantName,
    digest: &[u8; 32],
) -> Result<Result<(), KeyRefused>, Unavailable>
    requires { IsServing due.old (T.state tables.old) }
    ensures { ChangesTenants Disk
        (λ old new. HasKeyed name.now digest.now old new (keying_answer result))
        (Keyed name.now digest.now) due.new (T.state tables.old) (T.state tables.new)
        result }
{
    in_transaction(tables, due, Keying { name, digest })
}

/// The change of a tenant's key.
#[derive(Drop)]
struct Keying<'a> {
    name: &'a TenantName,
    digest: &'a [u8; 32],
}

impl Change for Keying<'_> {
    type Output = ();

    type Refusal = KeyRefused;

    type Memory = DueSets;

    ghost needs = { λ it. CanServe };

    ghost does = { λ it sets old done sets' new.
        IsKeyed it.name.now it.digest.now old new × CanServe sets' new };

    ghost refuses = { λ it sets old refused.
        IsKeyRefused it.name.now it.digest.now old.trees refused };

    ghost holds = { λ it sets old output after new done. done.1.ledgers };

    fn run<T: LedgerTables>(
        self,
        tables: &mut T,
        due: &mut DueSets,
    ) -> Result<Result<(), KeyRefused>, Unavailable> {
        let Keying { name, digest } = self;
        let Some(row) = tables.find_tenant_by_name(name.as_str())? else {
            return Ok(Err(KeyRefused::NoTenant));
        };
        if row.digest == *digest {
            return Ok(Ok(()));
        }
        if tables.find_tenant(digest)?.is_some() {
            return Ok(Err(KeyRefused::DigestTaken));
        }
        tables.set_digest(row.number, digest)?;
        Ok(Ok(()))
    }
}

/// What the change of a tenant's key answers.
pub fn keying_answer(keyed: Result<Result<(), KeyRefused>, Unavailable>) -> Result<(), ChangeKey>
    ensures told { result ≡ keying_answer keyed }
    ensures disk { result ≡ Err (ChangeKey.Unavailable Disk) → keyed ≡ Err Disk }
{
    match keyed {
        Ok(Ok(())) => Ok(()),
        Ok(Err(KeyRefused::NoTenant)) => Err(ChangeKey::NoTenant),
        Ok(Err(KeyRefused::DigestTaken)) => Err(ChangeKey::DigestTaken),
        Err(why) => Err(ChangeKey::Unavailable(why)),
    }
}
