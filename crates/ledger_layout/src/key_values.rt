//! The values of keys, written over a row that is used again. A failure leaves the row anyhow.

ghost use Rattle.std.specs.Prelude.{◌≡◌, [], ◌∷◌, OnOk, string_bytes};
ghost use Rattle.sqlite_value.specs.declared.value.Value.TheVariants.{Blob, Int, Text};
ghost use Rattle.amount.specs.Column.{column_of};

use amount::Amount;
use sqlite_value::row::Row;
use sqlite_value::value::ValueRef;
use std::alloc::AllocError;

/// The first value of a key, with which all rows of a tenant begin.
pub fn write_tenant_key(key: &mut Row, tenant: i64) -> Result<(), AllocError>
    ensures { OnOk result (key.new ≡ Int tenant ∷ []) }
{
    key.clear();
    key.push(ValueRef::Int(tenant))
}

/// The values of `ById`.
pub fn write_id_key(key: &mut Row, tenant: i64, id: u128) -> Result<(), AllocError>
    ensures { OnOk result (key.new ≡ Int tenant ∷ Blob (column_of id) ∷ []) }
{
    let id = Amount::new(id).to_column();
    key.clear();
    key.push(ValueRef::Int(tenant))?;
    key.push(ValueRef::Blob(&id))
}

/// The values of `ByTime`.
pub fn write_time_key(key: &mut Row, tenant: i64, timestamp: i64) -> Result<(), AllocError>
    ensures { OnOk result (key.new ≡ Int tenant ∷ Int timestamp ∷ []) }
{
    key.clear();
    key.push(ValueRef::Int(tenant))?;
    key.push(ValueRef::Int(timestamp))
}

/// The values of `ByEntry`. Its first two are those that `write_id_key` writes of the account.
pub fn write_entry_key(
    key: &mut Row,
    tenant: i64,
    account: u128,
    timestamp: i64,
) -> Result<(), AllocError>
    ensures { OnOk result
        (key.new ≡ Int tenant ∷ Blob (column_of account) ∷ Int timestamp ∷ []) }
{
    write_id_key(key, tenant, account)?;
    key.push(ValueRef::Int(timestamp))
}

/// The value of `ByName`.
pub fn write_name_key(key: &mut Row, name: &str) -> Result<(), AllocError>
    ensures { OnOk result (key.new ≡ Text name.now ∷ []) }
{
    key.clear();
    key.push(ValueRef::Text(name.as_bytes()))
}

/// The value of `ByDigest`.
pub fn write_digest_key(key: &mut Row, digest: &[u8]) -> Result<(), AllocError>
    ensures { OnOk result (key.new ≡ Blob digest.now ∷ []) }
{
    key.clear();
    key.push(ValueRef::Blob(digest))
}
