ghost use Rattle.std.specs.Prelude.{◌≡◌};
ghost use Rattle.command_texts.specs.Faults.{fault_of, sink_fault, status_of, word_of};
ghost use Rattle.command_texts.specs.Lines.{fault_line};
ghost use Rattle.command_texts.specs.declared.fault.Fault.TheVariants.{Unavailable};

use records::SinkFault;
use std::alloc::AllocError;

/// Why a command has not done what it was asked to do.
#[derive(Clone, Copy, Debug, PartialEq, Eq)]
pub enum Fault {
    /// Another tenant has the name.
    NameTaken,
    /// Another tenant has the key's digest.
    DigestTaken,
    /// No tenant has the name.
    NoTenant,
    /// The tenant has no account with the id.
    NoAccount,
    /// No process serves the file.
    NotServed,
    /// Something has one of the names that a copy is to have.
    Exists,
    /// A name is 1 to 64 ASCII letters, digits or `-`.
    BadName,
    /// A key is 64 hexadecimal digits.
    BadKey,
    /// An account's id is canonical decimal below 2^128.
    BadAccount,
    /// A version of the schema is canonical decimal from 1 to the current one.
    BadVersion,
    /// A moment is a day, `YYYY-MM-DD` from 1970 on, or canonical decimal below 2^64.
    BadTime,
    /// A form of a statement is `csv`, `sheet` or `json`.
    BadFormat,
    /// An address is one of IPv4 or IPv6, in digits.
    BadAddress,
    /// A route is a path to which bodies are posted.
    BadRoute,
    /// Memory ran out, or the store answers no calls.
    Unavailable,
    /// The port cannot be bound, or a connection not be accepted.
    Socket,
    /// Standard output could not be written.
    Output,
    /// The file is absent or may not be read, is no database, or has other tables before a ledger's.
    Unreadable,
    /// The file is a database of something else.
    NotALedger,
    /// The file has a schema before the current one.
    OldSchema,
    /// The file has a schema behind the current one.
    NewerSchema,
    /// The audit refuses the file's rows.
    Damaged,
    /// Commits that were answered are missing from the file.
    Behind,
    /// Another process has the file.
    InUse,
}

// The word of a fault, between two other texts.
macro_rules! told {
    ($fault:expr, $before:literal, $behind:literal) => {
        match $fault {
            Fault::NameTaken => concat!($before, "name_taken", $behind),
            Fault::DigestTaken => concat!($before, "digest_taken", $behind),
            Fault::NoTenant => concat!($before, "no_tenant", $behind),
            Fault::NoAccount => concat!($before, "no_account", $behind),
            Fault::NotServed => concat!($before, "not_served", $behind),
            Fault::Exists => concat!($before, "exists", $behind),
            Fault::BadName => concat!($before, "bad_name", $behind),
            Fault::BadKey => concat!($before, "bad_key", $behind),
            Fault::BadAccount => concat!($before, "bad_account", $behind),
            Fault::BadVersion => concat!($before, "bad_version", $behind),
            Fault::BadTime => concat!($before, "bad_time", $behind),
            Fault::BadFormat => concat!($before, "bad_format", $behind),
            Fault::BadAddress => concat!($before, "bad_address", $behind),
            Fault::BadRoute => concat!($before, "bad_route", $behind),
            Fault::Unavailable => concat!($before, "unavailable", $behind),
            Fault::Socket => concat!($before, "socket", $behind),
            Fault::Output => concat!($before, "output", $behind),
            Fault::Unreadable => concat!($before, "unreadable", $behind),
            Fault::NotALedger => concat!($before, "not_a_ledger", $behind),
            Fault::OldSchema => concat!($before, "old_schema", $behind),
            Fault::NewerSchema => concat!($before, "newer_schema", $behind),
            Fault::Damaged => concat!($before, "damaged", $behind),
            Fault::Behind => concat!($before, "behind", $behind),
            Fault::InUse => concat!($before, "in_use", $behind),
        }
    };
}

impl Fault {
    /// The word that tells it.
    pub fn word(self) -> &'static str
        ensures word { result.now ≡ word_of self }
        ensures back { fault_of result.now ≡ Some self }
    {
        told!(self, "", "")
    }

    /// The fault that a word tells, if it tells one.
    pub fn of_word(word: &str) -> Option<Fault>
        ensures { result ≡ fault_of word.now }
    {
        match word {
            "name_taken" => Some(Fault::NameTaken),
            "digest_taken" => Some(Fault::DigestTaken),
            "no_tenant" => Some(Fault::NoTenant),
            "no_account" => Some(Fault::NoAccount),
            "not_served" => Some(Fault::NotServed),
            "exists" => Some(Fault::Exists),
            "bad_name" => Some(Fault::BadName),
            "bad_key" => Some(Fault::BadKey),
            "bad_account" => Some(Fault::BadAccount),
            "bad_version" => Some(Fault::BadVersion),
            "bad_time" => Some(Fault::BadTime),
            "bad_format" => Some(Fault::BadFormat),
            "bad_address" => Some(Fault::BadAddress),
            "bad_route" => Some(Fault::BadRoute),
            "unavailable" => Some(Fault::Unavailable),
            "socket" => Some(Fault::Socket),
            "output" => Some(Fault::Output),
            "unreadable" => Some(Fault::Unreadable),
            "not_a_ledger" => Some(Fault::NotALedger),
            "old_schema" => Some(Fault::OldSchema),
            "newer_schema" => Some(Fault::NewerSchema),
            "damaged" => Some(Fault::Damaged),
            "behind" => Some(Fault::Behind),
            "in_use" => Some(Fault::InUse),
            _ => None,
        }
    }

    /// The line that tells it on standard error, with its line feed.
    pub fn line(self) -> &'static str
        ensures { result.now ≡ fault_line self }
    {
        told!(self, "ledgerd: ", "\n")
    }

    /// The status with which the program ends.
    pub fn status(self) -> u8
        ensures { result ≡ status_of self }
    {
        match self {
            Fault::NameTaken
            | Fault::DigestTaken
            | Fault::NoTenant
            | Fault::NoAccount
            | Fault::NotServed
            | Fault::Exists => 1,
            Fault::BadName
            | Fault::BadKey
            | Fault::BadAccount
            | Fault::BadVersion
            | Fault::BadTime
            | Fault::BadFormat
            | Fault::BadAddress
            | Fault::BadRoute => 2,
            Fault::Unavailable | Fault::Socket | Fault::Output => 3,
            Fault::Unreadable
            | Fault::NotALedger
            | Fault::OldSchema
            | Fault::NewerSchema
            | Fault::Damaged
            | Fault::Behind => 4,
            Fault::InUse => 5,
        }
    }
}

impl From<AllocError> for Fault {
    ghost from_gives = { λ _ fault. fault ≡ Unavailable };

    fn from(_error: AllocError) -> Fault {
        Fault::Unavailable
    }
}

impl From<SinkFault> for Fault {
    ghost from_gives = { λ why fault. fault ≡ sink_fault why };

    fn from(why: SinkFault) -> Fault {
        match why {
            SinkFault::Write => Fault::Output,
            SinkFault::Memory => Fault::Unavailable,
        }
    }
}
