ghost use Rattle.std.specs.Prelude.{◌≡◌, ℕ, List};
ghost use Rattle.records.specs.AccountResultNames as account;
ghost use Rattle.records.specs.TransferResultNames as transfer;

use records::{AccountResult, TransferResult};

/// What became of an event, by the number and the name that a reply tells.
pub(crate) trait ReplyResult: Copy {
    ghost told_of: { Self → ℕ × List ℕ };

    fn told(self) -> (u16, &'static str)
        ensures { (result.0, result.1.now) ≡ told_of self };
}

impl ReplyResult for TransferResult {
    ghost told_of = { λ r. (transfer.number_of r, transfer.name_of r) };

    fn told(self) -> (u16, &'static str) {
        (self.number(), self.name())
    }
}

impl ReplyResult for AccountResult {
    ghost told_of = { λ r. (account.number_of r, account.name_of r) };

    fn told(self) -> (u16, &'static str) {
        (self.number(), self.name())
    }
}
