//! Who a tenant is: the key that it shows, the digest that it is known by, and its name.
#![tactic(auto)]

mod key;
mod name;

pub use key::{Key, digest};
pub use name::TenantName;
