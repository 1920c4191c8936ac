//! Names, keys, ids, versions and addresses, as the command line has them.
ghost use Rattle.std.specs.Prelude.{◌≡◌, ◌≢◌, ◌^◌, ◌<◌, ◌≤◌, ◌↔◌, ℕ, IsOk, IfOk, IfErr};
ghost use Rattle.amount.specs.Decimal.{decimal_of};
ghost use Rattle.tenants.specs.KeyText.{key_of};
ghost use Rattle.tenants.specs.NameText.{IsTenantName};
ghost use Rattle.command_texts.specs.Words.{IsDigestOfKey, ReadsAddress};

use crate::Fault;
use amount::Amount;
use std::net::IpAddr;
use tenants::{Key, TenantName, digest};

/// A tenant's name.
pub fn name(text: &str) -> Result<TenantName, Fault>
    ensures good { IsOk result ↔ IsTenantName text.now }
    ensures same { IfOk result (λ name. name ≡ text.now) }
    ensures fault { IfErr result (λ fault. fault ≡ Fault.BadName) }
{
    TenantName::read(text).ok_or(Fault::BadName)
}

/// The digest by which the tenant with a key is known.
pub fn key_digest(text: &str) -> Result<[u8; 32], Fault>
    ensures { IsDigestOfKey (key_of text.now) result }
{
    let key = Key::read(text.as_bytes()).ok_or(Fault::BadKey)?;
    Ok(digest(&key))
}

/// An account's id, in canonical decimal.
pub fn account_id(text: &str) -> Result<u128, Fault>
    ensures ok { IfOk result (λ id. text.now ≡ decimal_of id) }
    ensures err { IfErr result (λ fault. (fault ≡ Fault.BadAccount)
        × ((id : ℕ) → id < 2 ^ 128 → text.now ≢ decimal_of id)) }
{
    let id = Amount::read_decimal(text).ok_or(Fault::BadAccount)?;
    Ok(id.value())
}

/// An address of IPv4 or IPv6, in digits.
pub fn address(text: &str) -> Result<IpAddr, Fault>
    ensures { ReadsAddress text.now result }
{
    match text.parse::<IpAddr>() {
        Ok(address) => Ok(address),
        Err(_) => Err(Fault::BadAddress),
    }
}

/// A version of the schema up to the current one, in canonical decimal.
pub fn version(text: &str) -> Result<u32, Fault>
    ensures known { IfOk result (λ version. (1 ≤ version) × (version ≤ 3)) }
    ensures ok { IfOk result (λ version. text.now ≡ decimal_of version) }
    ensures err { IfErr result (λ fault. (fault ≡ Fault.BadVersion)
        × ((version : ℕ) → 1 ≤ version → version ≤ 3 → text.now ≢ decimal_of version)) }
{
    let version = Amount::read_decimal(text).ok_or(Fault::BadVersion)?.value();
    if version == 0 || 3 < version {
        return Err(Fault::BadVersion);
    }
    Ok(version as u32)
}
