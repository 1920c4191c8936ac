ghost use Rattle.std.specs.Prelude.{◌≡◌};
ghost use Rattle.statement.specs.Lines.{details_of};

use records::{Side, Transfer};

/// What a wide line tells of its transfer.
#[derive(Clone, Copy, Debug, PartialEq, Eq)]
pub(crate) struct Details {
    pub other_account: u128,
    pub pending_id: u128,
    pub code: u16,
    pub user_data_128: u128,
    pub user_data_64: u64,
    pub user_data_32: u32,
}

impl Details {
    /// Of no transfer.
    pub(crate) const NONE: Details = Details {
        other_account: 0,
        pending_id: 0,
        code: 0,
        user_data_128: 0,
        user_data_64: 0,
        user_data_32: 0,
    };

    /// Of a transfer that has the account on this side.
    pub(crate) fn of(side: Side, transfer: &Transfer) -> Details
        ensures { result ≡ details_of side transfer.now }
    {
        Details {
            other_account: match side {
                Side::Debit => transfer.credit_account_id,
                Side::Credit => transfer.debit_account_id,
            },
            pending_id: transfer.pending_id,
            code: transfer.code,
            user_data_128: transfer.user_data_128,
            user_data_64: transfer.user_data_64,
            user_data_32: transfer.user_data_32,
        }
    }
}
