use crate::Form;

/// How the statement of a period is written.
#[derive(Clone, Copy, Debug, PartialEq, Eq)]
pub struct Layout {
    pub form: Form,
    /// Whether a line tells of its transfer as well.
    pub is_wide: bool,
    /// Whether a line before all others and one behind them tell the sums before the period and at
    /// its end.
    pub with_sums: bool,
}
