use rows::{HistoryCells, TransferCells};

/// An entry of an account: the row of its history, and the transfer of the same time.
#[derive(Clone, Copy, Debug, PartialEq, Eq)]
pub struct EntryCells {
    pub history: HistoryCells,
    pub transfer: TransferCells,
}
