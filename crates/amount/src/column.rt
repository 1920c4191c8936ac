ghost use Rattle.std.specs.Prelude.{◌≡◌, ◌≢◌, ◌↔◌, ℕ, ◌<◌, ◌^◌, length, IfOk, IsErr};
ghost use Rattle.amount.specs.Column.{column_of, IsOneToOne, KeepsOrder};

use crate::money::Amount;
use std::error::Error;
use std::fmt;

/// The bytes are no column of an amount: there are fewer or more than 16 of them.
#[derive(Clone, Copy, Debug, PartialEq, Eq, Hash)]
pub struct ColumnFault;

impl fmt::Display for ColumnFault {
    fn fmt<W: fmt::Write>(&self, f: &mut fmt::Formatter<W>) -> fmt::Result {
        write!(f, "a column of an amount has 16 bytes")
    }
}

impl Error for ColumnFault {}

impl Amount {
    /// The bytes that a store keeps: where it compares them, it compares the amounts.
    #[tactic(auto, unfolding(crate::specs::Column::column_of))]
    pub fn to_column(self) -> [u8; 16]
        ensures { result ≡ column_of self }
    {
        self.value().to_be_bytes()
    }

    /// Reads what `to_column` writes. Any 16 bytes are the column of an amount.
    pub fn from_column(column: &[u8]) -> Result<Amount, ColumnFault>
        ensures ok { IfOk result (λ a. column.now ≡ column_of a) }
        ensures fits { IfOk result (λ a. a < 2 ^ 128) }
        ensures undoes { (a : ℕ) → a < 2 ^ 128 → column.now ≡ column_of a → result ≡ Ok a }
        ensures fault { IsErr result ↔ (length column.now ≢ 16) }
    {
        let bytes: [u8; 16] = column.try_into().map_err(|_| ColumnFault)?;
        Ok(Amount::new(u128::from_be_bytes(bytes)))
    }
}

/// A law: columns in the order of their bytes are amounts in their order, and no two amounts share
/// one. The call does nothing, and a proof learns the law from it.
pub fn columns_keep_order()
    ensures one_to_one { IsOneToOne }
    ensures order { KeepsOrder }
{}
