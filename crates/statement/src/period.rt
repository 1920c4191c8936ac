ghost use Rattle.std.specs.Prelude.{◌≡◌};
ghost use Rattle.statement.specs.Period.{is_before, is_within};

use records::StatementRow;

/// A time from one moment to another, both inclusive, in nanoseconds since 1970.
#[derive(Clone, Copy, Debug, PartialEq, Eq)]
pub struct Period {
    pub from: u64,
    pub to: u64,
}

impl Period {
    /// All time.
    pub const ALWAYS: Period = Period {
        from: 0,
        to: u64::MAX,
    };

    /// Whether an entry is earlier than the period.
    pub fn is_before(self, row: &StatementRow) -> bool
        ensures { result ≡ is_before self row.now }
    {
        row.timestamp < self.from
    }

    /// Whether an entry lies in the period.
    pub fn is_within(self, row: &StatementRow) -> bool
        ensures { result ≡ is_within self row.now }
    {
        self.from <= row.timestamp && row.timestamp <= self.to
    }
}
