//! Amounts as the columns of a file and as digits.

mod columns;
mod decimals;
