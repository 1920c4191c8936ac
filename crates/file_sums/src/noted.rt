//! What the records of FILE-sums say.

ghost use Rattle.std.specs.Prelude.{◌≡◌, ◌∷◌, [], List};
ghost use Rattle.file_sums.specs.Records.{done, noted_of};
ghost use Rattle.file_sums.specs.declared.record.Record.{Record as Records};

use crate::Record;

/// The log that the records name, by its salt.
#[derive(Clone, Copy, Debug, PartialEq, Eq)]
pub enum LogNoted {
    /// None was named.
    Unnamed,
    /// It is in use: it may have what the file lacks.
    InUse(u64),
    /// It was in use, and has nothing that the file lacks.
    Done(u64),
}

impl LogNoted {
    // The log after what it had was written to the file.
    fn done(self) -> LogNoted
        ensures { result ≡ done self }
    {
        match self {
            LogNoted::Unnamed => LogNoted::Unnamed,
            LogNoted::InUse(salt) | LogNoted::Done(salt) => LogNoted::Done(salt),
        }
    }
}

/// What the records say together.
#[derive(Clone, Copy, Debug, PartialEq, Eq)]
pub struct Noted {
    pub log: LogNoted,
    /// The latest moment that is known to have been committed, and 0 where none is.
    pub mark: u64,
    /// A page was found to be damaged.
    pub has_doubt: bool,
}

impl Noted {
    /// What no record says.
    pub fn new() -> Noted
        ensures { result ≡ noted_of [] }
    {
        Noted {
            log: LogNoted::Unnamed,
            mark: 0,
            has_doubt: false,
        }
    }

    /// Takes in one record more.
    pub fn note(&mut self, entry: Record)
        ensures { (records : List Records) → self.old ≡ noted_of records
            → self.new ≡ noted_of (entry ∷ records) }
    {
        match entry {
            Record::Pages | Record::NoLog => self.log = self.log.done(),
            Record::Log(salt) => self.log = LogNoted::InUse(salt),
            Record::Mark(moment) => self.mark = self.mark.max(moment),
            Record::Doubt(_) => self.has_doubt = true,
        }
    }
}
