ghost use Rattle.std.specs.Prelude.{◌≡◌, ◌-◌, ◌≤◌, ◌↔◌, ◌++◌, length, replicate, IsTrue, IsSome, IfSome};
ghost use Rattle.tenants.specs.NameText.{IsTenantName};
ghost use Rattle.tenants.specs.declared.name.TheConstants.{MAX_LEN};

use std::fmt;
use std::marker::Model;

const MAX_LEN: usize = 64;

/// A tenant's name: 1 to 64 ASCII letters, digits or `-`. Names that differ in case are different.
#[derive(Clone, Copy, PartialEq, Eq)]
pub struct TenantName {
    // Zeros follow the name, so that equal names are equal field by field.
    bytes: [u8; MAX_LEN],
    len: usize,
}

impl Model for TenantName {
    ghost use Rattle.std.specs.Prelude.{ℕ, ◌-◌, List, ◌++◌, length, take, replicate};
    ghost use Rattle.std.proofs.Common.{length-take-le};
    ghost use Rattle.tenants.specs.Padded.{IsPaddedName, padded-take};

    ghost Value = { List ℕ };

    ghost view = { λ name. take name.len name.bytes };

    ghost invariant = { λ name. IsPaddedName name.bytes name.len };

    ghost inverse = { λ text. record {
      bytes = text ++ replicate (64 - length text) 0;
      len = length text;
    } };

    ghost inverse_ok = { λ name h i. record {
      bytes = padded-take name.bytes name.len h i;
      len = length-take-le name.len name.bytes h.within i;
    } };
}

fn is_name(text: &[u8]) -> bool
    ensures { IsTrue result ↔ IsTenantName text.now }
{
    let is_name_byte = |byte: &u8| byte.is_ascii_alphanumeric() || *byte == b'-';
    !text.is_empty() && text.len() <= MAX_LEN && text.iter().all(is_name_byte)
}

// The text, and zeros behind it.
fn padded(text: &[u8]) -> [u8; MAX_LEN]
    requires { length text.now ≤ MAX_LEN }
    ensures { result ≡ text.now ++ replicate (MAX_LEN - length text.now) 0 }
{
    let mut bytes = [0; MAX_LEN];
    bytes[..text.len()].copy_from_slice(text);
    bytes
}

impl TenantName {
    pub fn read(text: &str) -> Option<Self>
        ensures good { IsSome result ↔ IsTenantName text.now }
        ensures same { IfSome result (λ name. name ≡ text.now) }
    {
        let text = text.as_bytes();
        if !is_name(text) {
            return None;
        }
        Some(TenantName {
            bytes: padded(text),
            len: text.len(),
        })
    }

    pub fn as_str(&self) -> &str
        ensures same { result.now ≡ self.now }
        ensures name { IsTenantName self.now }
    {
        str::from_utf8(&self.bytes[..self.len]).unwrap()
    }
}

impl fmt::Debug for TenantName {
    fn fmt<W: fmt::Write>(&self, f: &mut fmt::Formatter<W>) -> fmt::Result {
        f.debug_tuple("TenantName").field(&self.as_str()).finish()
    }
}
