ghost use Rattle.std.specs.Prelude.{◌≡◌, length, IfSome};
ghost use Rattle.sha2.specs.Sha256.{sha256};
ghost use Rattle.tenants.specs.KeyText.{key_of};

use hex::FromHex;
use sha2::{Digest, Sha256};
use std::fmt;
use std::marker::Model;

/// A tenant's secret. `Debug` does not show it, and there is no `Display`.
#[derive(Clone, Copy, PartialEq, Eq)]
pub struct Key {
    bytes: [u8; 32],
}

impl Model for Key {
    ghost use Rattle.std.specs.Prelude.{ℕ, List};

    ghost Value = { List ℕ };

    ghost view = { λ key. key.bytes };

    ghost inverse = { λ bytes. record { bytes = bytes } };
}

impl Key {
    /// Reads a key as it is sent, with nothing before or behind its digits.
    pub fn read(text: &[u8]) -> Option<Self>
        ensures key { result ≡ key_of text.now }
        ensures size { IfSome result (λ key. length key ≡ 32) }
    {
        let bytes = <[u8; 32] as FromHex>::from_hex(text).ok()?;
        Some(Key { bytes })
    }
}

impl fmt::Debug for Key {
    ghost use Rattle.std.specs.Prelude.{Some, codes};

    ghost debug_output = { λ _. Some (codes "Key(..)") };

    fn fmt<W: fmt::Write>(&self, f: &mut fmt::Formatter<W>) -> fmt::Result {
        f.write_str("Key(..)")
    }
}

/// The SHA-256 digest (FIPS 180-4) of a key's bytes, by which its tenant is known. Two keys with
/// one digest are one tenant.
pub fn digest(key: &Key) -> [u8; 32]
    ensures { result ≡ sha256 key.now }
{
    Sha256::digest(key.bytes.as_slice())
}
