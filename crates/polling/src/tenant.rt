//! Which tenant a message is of.
ghost use Rattle.polling.specs.Tenant.{IsTenantOf};

use ledger_http::asked;
use std::alloc::Global;
use tenants::digest;

/// The tenant of a whole message, by the first 16 bytes of the digest of its key. It is 0 if the
/// message names no key, or if memory lacks to look for it.
pub(crate) fn tenant_of(alloc: Global, message: &[u8]) -> u128
    ensures { IsTenantOf message.now result }
{
    let Ok(asked) = asked(alloc, message) else {
        return 0;
    };
    match digest(&asked.key).first_chunk::<16>() {
        Some(front) => u128::from_be_bytes(*front),
        None => 0,
    }
}
