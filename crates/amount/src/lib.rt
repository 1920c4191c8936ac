//! Amounts of money as a double-entry ledger counts them: whole numbers of 128 bits.
#![tactic(auto)]

mod column;
mod decimal;
mod money;

pub use column::{ColumnFault, columns_keep_order};
pub use decimal::MAX_DIGITS;
pub use money::Amount;
