ghost use Rattle.std.specs.Prelude.{◌≡◌, Some};
ghost use Rattle.records.specs.AccountResultNames.{number_of, name_of};

use crate::text_at::text_at;
use std::fmt;

// The names by number.
static NAMES: [&str; 21] = [
    "ok",
    "linked_event_chain_open",
    "linked_event_failed",
    "timestamp_must_be_zero",
    "reserved_flag",
    "id_must_not_be_zero",
    "id_must_not_be_int_max",
    "exists_with_different_flags",
    "exists_with_different_user_data_128",
    "exists_with_different_user_data_64",
    "exists_with_different_user_data_32",
    "exists_with_different_ledger",
    "exists_with_different_code",
    "exists",
    "flags_are_mutually_exclusive",
    "debits_pending_must_be_zero",
    "debits_posted_must_be_zero",
    "credits_pending_must_be_zero",
    "credits_posted_must_be_zero",
    "ledger_must_not_be_zero",
    "code_must_not_be_zero",
];

/// What became of an account event, in the order in which the conditions are tested. The
/// conditions stand in `docs/RESULTS.md`; names and numbers are those of replies.
#[derive(Clone, Copy, PartialEq, Eq)]
pub enum AccountResult {
    Accepted = 0,
    LinkedEventChainOpen = 1,
    LinkedEventFailed = 2,
    TimestampMustBeZero = 3,
    ReservedFlag = 4,
    IdMustNotBeZero = 5,
    IdMustNotBeIntMax = 6,
    ExistsWithDifferentFlags = 7,
    ExistsWithDifferentUserData128 = 8,
    ExistsWithDifferentUserData64 = 9,
    ExistsWithDifferentUserData32 = 10,
    ExistsWithDifferentLedger = 11,
    ExistsWithDifferentCode = 12,
    Exists = 13,
    FlagsAreMutuallyExclusive = 14,
    DebitsPendingMustBeZero = 15,
    DebitsPostedMustBeZero = 16,
    CreditsPendingMustBeZero = 17,
    CreditsPostedMustBeZero = 18,
    LedgerMustNotBeZero = 19,
    CodeMustNotBeZero = 20,
}

impl AccountResult {
    /// The number of the result in a reply.
    pub fn number(self) -> u16
        ensures { result ≡ number_of self }
    {
        self as u16
    }

    /// The name of the result in a reply.
    pub fn name(self) -> &'static str
        ensures { result.now ≡ name_of self }
    {
        text_at(&NAMES, self.number())
    }
}

impl fmt::Debug for AccountResult {
    ghost debug_output = { λ answered. Some (name_of answered) };

    fn fmt<W: fmt::Write>(&self, f: &mut fmt::Formatter<W>) -> fmt::Result {
        f.write_str(self.name())
    }
}
