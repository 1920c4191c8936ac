use records::{Kind, Side};

/// What a line of a statement tells.
#[derive(Clone, Copy, Debug, PartialEq, Eq)]
pub(crate) enum LineKind {
    /// The sums before the period.
    Opening,
    /// An entry: the side on which it has the account, and what kind of transfer it is.
    Entry(Side, Kind),
    /// The sums at the period's end.
    Closing,
}
