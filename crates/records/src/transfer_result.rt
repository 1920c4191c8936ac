ghost use Rattle.std.specs.Prelude.{◌≡◌, Some};
ghost use Rattle.records.specs.TransferResultNames.{number_of, name_of};
ghost use Rattle.records.specs.TransferVerdict.{fails_for_good};

use crate::text_at::text_at;
use std::fmt;

// The names by number; no result has the number 41, 54, 57, 58 or 59.
static NAMES: [&str; 61] = [
    "ok",
    "linked_event_chain_open",
    "linked_event_failed",
    "timestamp_must_be_zero",
    "reserved_flag",
    "id_must_not_be_zero",
    "id_must_not_be_int_max",
    "exists_with_different_flags",
    "exists_with_different_pending_id",
    "exists_with_different_timeout",
    "exists_with_different_debit_account_id",
    "exists_with_different_credit_account_id",
    "exists_with_different_amount",
    "exists_with_different_user_data_128",
    "exists_with_different_user_data_64",
    "exists_with_different_user_data_32",
    "exists_with_different_ledger",
    "exists_with_different_code",
    "exists",
    "flags_are_mutually_exclusive",
    "pending_id_must_not_be_zero",
    "pending_id_must_not_be_int_max",
    "pending_id_must_be_different",
    "timeout_reserved_for_pending_transfer",
    "pending_transfer_not_found",
    "pending_transfer_not_pending",
    "pending_transfer_has_different_debit_account_id",
    "pending_transfer_has_different_credit_account_id",
    "pending_transfer_has_different_ledger",
    "pending_transfer_has_different_code",
    "exceeds_pending_transfer_amount",
    "pending_transfer_has_different_amount",
    "pending_transfer_already_posted",
    "pending_transfer_already_voided",
    "pending_transfer_expired",
    "debit_account_id_must_not_be_zero",
    "debit_account_id_must_not_be_int_max",
    "credit_account_id_must_not_be_zero",
    "credit_account_id_must_not_be_int_max",
    "accounts_must_be_different",
    "pending_id_must_be_zero",
    "",
    "ledger_must_not_be_zero",
    "code_must_not_be_zero",
    "debit_account_not_found",
    "credit_account_not_found",
    "accounts_must_have_the_same_ledger",
    "transfer_must_have_the_same_ledger_as_accounts",
    "overflows_debits_pending",
    "overflows_credits_pending",
    "overflows_debits_posted",
    "overflows_credits_posted",
    "overflows_debits",
    "overflows_credits",
    "",
    "exceeds_credits",
    "exceeds_debits",
    "",
    "",
    "",
    "id_already_failed",
];

/// What became of a transfer event, by number. The conditions and their order stand in
/// `docs/RESULTS.md`; names and numbers are those of replies.
#[derive(Clone, Copy, PartialEq, Eq)]
pub enum TransferResult {
    Accepted = 0,
    LinkedEventChainOpen = 1,
    LinkedEventFailed = 2,
    TimestampMustBeZero = 3,
    ReservedFlag = 4,
    IdMustNotBeZero = 5,
    IdMustNotBeIntMax = 6,
    ExistsWithDifferentFlags = 7,
    ExistsWithDifferentPendingId = 8,
    ExistsWithDifferentTimeout = 9,
    ExistsWithDifferentDebitAccountId = 10,
    ExistsWithDifferentCreditAccountId = 11,
    ExistsWithDifferentAmount = 12,
    ExistsWithDifferentUserData128 = 13,
    ExistsWithDifferentUserData64 = 14,
    ExistsWithDifferentUserData32 = 15,
    ExistsWithDifferentLedger = 16,
    ExistsWithDifferentCode = 17,
    Exists = 18,
    FlagsAreMutuallyExclusive = 19,
    PendingIdMustNotBeZero = 20,
    PendingIdMustNotBeIntMax = 21,
    PendingIdMustBeDifferent = 22,
    TimeoutReservedForPendingTransfer = 23,
    PendingTransferNotFound = 24,
    PendingTransferNotPending = 25,
    PendingTransferHasDifferentDebitAccountId = 26,
    PendingTransferHasDifferentCreditAccountId = 27,
    PendingTransferHasDifferentLedger = 28,
    PendingTransferHasDifferentCode = 29,
    ExceedsPendingTransferAmount = 30,
    PendingTransferHasDifferentAmount = 31,
    PendingTransferAlreadyPosted = 32,
    PendingTransferAlreadyVoided = 33,
    PendingTransferExpired = 34,
    DebitAccountIdMustNotBeZero = 35,
    DebitAccountIdMustNotBeIntMax = 36,
    CreditAccountIdMustNotBeZero = 37,
    CreditAccountIdMustNotBeIntMax = 38,
    AccountsMustBeDifferent = 39,
    PendingIdMustBeZero = 40,
    LedgerMustNotBeZero = 42,
    CodeMustNotBeZero = 43,
    DebitAccountNotFound = 44,
    CreditAccountNotFound = 45,
    AccountsMustHaveTheSameLedger = 46,
    TransferMustHaveTheSameLedgerAsAccounts = 47,
    OverflowsDebitsPending = 48,
    OverflowsCreditsPending = 49,
    OverflowsDebitsPosted = 50,
    OverflowsCreditsPosted = 51,
    OverflowsDebits = 52,
    OverflowsCredits = 53,
    ExceedsCredits = 55,
    ExceedsDebits = 56,
    IdAlreadyFailed = 60,
}

impl TransferResult {
    /// Whether the id of a transfer that failed so stays failed, for want of a pending transfer, an
    /// account or funds.
    pub fn fails_for_good(self) -> bool
        ensures { result ≡ fails_for_good self }
    {
        matches!(
            self,
            TransferResult::PendingTransferNotFound
                | TransferResult::DebitAccountNotFound
                | TransferResult::CreditAccountNotFound
                | TransferResult::ExceedsCredits
                | TransferResult::ExceedsDebits
        )
    }

    /// The number of the result in a reply.
    pub fn number(self) -> u16
        ensures { result ≡ number_of self }
    {
        self as u16
    }

    /// The name of the result in a reply.
    pub fn name(self) -> &'static str
        ensures { result.now ≡ name_of self }
    {
        text_at(&NAMES, self.number())
    }
}

impl fmt::Debug for TransferResult {
    ghost debug_output = { λ answered. Some (name_of answered) };

    fn fmt<W: fmt::Write>(&self, f: &mut fmt::Formatter<W>) -> fmt::Result {
        f.write_str(self.name())
    }
}
