ghost use Rattle.std.specs.Prelude.{◌≡◌};
ghost use Rattle.statement.specs.Columns.{column_name, columns_behind};

/// A column of a statement.
#[derive(Clone, Copy, Debug, PartialEq, Eq)]
pub(crate) enum Column {
    Timestamp,
    TransferId,
    Side,
    Kind,
    Amount,
    DebitsPending,
    DebitsPosted,
    CreditsPending,
    CreditsPosted,
    OtherAccount,
    PendingId,
    Code,
    UserData128,
    UserData64,
    UserData32,
}

// Those behind the first.
static COLUMNS: [Column; 14] = [
    Column::TransferId,
    Column::Side,
    Column::Kind,
    Column::Amount,
    Column::DebitsPending,
    Column::DebitsPosted,
    Column::CreditsPending,
    Column::CreditsPosted,
    Column::OtherAccount,
    Column::PendingId,
    Column::Code,
    Column::UserData128,
    Column::UserData64,
    Column::UserData32,
];

impl Column {
    /// The columns behind the first, which is the timestamp; the last six are those of wide lines.
    pub(crate) fn behind_first(is_wide: bool) -> &'static [Column]
        ensures { result.now ≡ columns_behind is_wide }
    {
        if is_wide { &COLUMNS } else { &COLUMNS[..8] }
    }

    pub(crate) fn name(self) -> &'static [u8]
        ensures { result.now ≡ column_name self }
    {
        match self {
            Column::Timestamp => b"timestamp",
            Column::TransferId => b"transfer_id",
            Column::Side => b"side",
            Column::Kind => b"kind",
            Column::Amount => b"amount",
            Column::DebitsPending => b"debits_pending",
            Column::DebitsPosted => b"debits_posted",
            Column::CreditsPending => b"credits_pending",
            Column::CreditsPosted => b"credits_posted",
            Column::OtherAccount => b"other_account",
            Column::PendingId => b"pending_id",
            Column::Code => b"code",
            Column::UserData128 => b"user_data_128",
            Column::UserData64 => b"user_data_64",
            Column::UserData32 => b"user_data_32",
        }
    }
}
