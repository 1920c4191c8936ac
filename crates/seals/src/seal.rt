ghost use Rattle.std.specs.Prelude.{◌≡◌, ℕ, List, ◌++◌};
ghost use Rattle.std.specs.List.{concat};
ghost use Rattle.sha2.specs.Hashers.{Holds256};
ghost use Rattle.seals.specs.Seals.{account_columns, transfer_columns, text_of};
ghost use Rattle.seals.specs.Seals.{first_seal, next_seal};

use crate::Record;
use records::{Account, Transfer};
use sha2::{Digest, Sha256};
use std::marker::Model;

/// The seal of a tenant's records (SHA-256, FIPS 180-4). Whoever noted an earlier one sees by it
/// whether the records up to then are still the same.
#[derive(Clone, Copy, Debug, PartialEq, Eq)]
pub struct Seal {
    bytes: [u8; 32],
}

impl Model for Seal {
    ghost use Rattle.std.specs.Prelude.{ℕ, List};

    ghost Value = { List ℕ };

    ghost view = { λ seal. seal.bytes };

    ghost inverse = { λ bytes. record { bytes = bytes } };
}

impl Seal {
    /// The seal of a new tenant: 32 zero bytes.
    pub fn first() -> Seal
        ensures { result ≡ first_seal }
    {
        Seal { bytes: [0; 32] }
    }

    /// A seal as it was kept.
    pub fn from_bytes(bytes: [u8; 32]) -> Seal
        ensures { result ≡ bytes }
    {
        Seal { bytes }
    }

    pub fn to_bytes(&self) -> [u8; 32]
        ensures { result ≡ self.now }
    {
        self.bytes
    }

    /// The seal after one record more.
    pub fn next(&self, newest: &Record) -> Seal
        ensures { result ≡ next_seal self.now newest.now }
    {
        let mut hasher = Sha256::new();
        hasher.update(&self.bytes);
        add_record(&mut hasher, newest);
        Seal {
            bytes: hasher.finalize(),
        }
    }
}

/// Feeds a hasher with the text of a record.
fn add_record(hasher: &mut Sha256, newest: &Record)
    ensures { (m : List ℕ) → Holds256 hasher.old m
        → Holds256 hasher.new (m ++ text_of newest.now) }
{
    match newest {
        Record::Account(account) => add_account(hasher, account),
        Record::Transfer(transfer) => add_transfer(hasher, transfer),
    }
}

/// Feeds a hasher with the columns of an account.
fn add_account(hasher: &mut Sha256, account: &Account)
    ensures { (m : List ℕ) → Holds256 hasher.old m
        → Holds256 hasher.new (m ++ concat (account_columns account.now)) }
{
    hasher.update(&[1]);
    hasher.update(&account.id.to_be_bytes());
    hasher.update(&account.user_data_128.to_be_bytes());
    hasher.update(&account.user_data_64.to_be_bytes());
    hasher.update(&account.user_data_32.to_be_bytes());
    hasher.update(&account.ledger.to_be_bytes());
    hasher.update(&account.code.to_be_bytes());
    hasher.update(&account.flags.0.to_be_bytes());
    hasher.update(&account.timestamp.to_be_bytes());
}

/// Feeds a hasher with the columns of a transfer.
fn add_transfer(hasher: &mut Sha256, transfer: &Transfer)
    ensures { (m : List ℕ) → Holds256 hasher.old m
        → Holds256 hasher.new (m ++ concat (transfer_columns transfer.now)) }
{
    hasher.update(&[2]);
    hasher.update(&transfer.id.to_be_bytes());
    hasher.update(&transfer.debit_account_id.to_be_bytes());
    hasher.update(&transfer.credit_account_id.to_be_bytes());
    hasher.update(&transfer.amount.value().to_be_bytes());
    hasher.update(&transfer.pending_id.to_be_bytes());
    hasher.update(&transfer.user_data_128.to_be_bytes());
    hasher.update(&transfer.user_data_64.to_be_bytes());
    hasher.update(&transfer.user_data_32.to_be_bytes());
    hasher.update(&transfer.timeout.to_be_bytes());
    hasher.update(&transfer.ledger.to_be_bytes());
    hasher.update(&transfer.code.to_be_bytes());
    hasher.update(&transfer.flags.0.to_be_bytes());
    hasher.update(&transfer.timestamp.to_be_bytes());
    hasher.update(&transfer.at.to_be_bytes());
}
