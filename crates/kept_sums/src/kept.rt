//! FILE-sums that is appended to.

ghost use Rattle.std.specs.Prelude.{◌≡◌, [], ◌∷◌, List, IfOk, OnErr, OnOk};
ghost use Rattle.file_sums.specs.declared.record.Record.{Record as AnyRecord};
ghost use Rattle.file_sums.specs.Sums.{Knows};
ghost use Rattle.kept_sums.specs.Kept.{Keeps};

use crate::Place;
use file_sums::{Noted, Record, Sums};
use std::alloc::Global;
use std::io;

/// FILE-sums in a file.
#[derive(Drop)]
pub struct KeptSums<F: Place> {
    place: F,
    sums: Sums,
    len: u64,
}

impl<F: Place> KeptSums<F> {
    /// The FILE-sums that stands in the first `len` bytes of a file.
    pub fn over(place: F, sums: Sums, len: u64) -> KeptSums<F>
        ensures place { result.place ≡ place }
        ensures sums { result.sums ≡ sums }
        ensures len { result.len ≡ len }
    {
        KeptSums { place, sums, len }
    }

    /// Appends a record, and does not sync it. Where the call fails, what stood there stands, and
    /// the next record is written in the place of this one.
    pub fn append(&mut self, alloc: Global, entry: Record) -> io::Result<()>
        ensures ok { OnOk result ((records : List AnyRecord)
            → Keeps (F.bytes self.old.place) self.old.sums self.old.len records
            → Keeps (F.bytes self.new.place) self.new.sums self.new.len (entry ∷ records)) }
        ensures err { OnErr result ((records : List AnyRecord)
            → Keeps (F.bytes self.old.place) self.old.sums self.old.len records
            → Keeps (F.bytes self.new.place) self.new.sums self.new.len records) }
    {
        let mut sums = self.sums;
        let part = sums.append(alloc, entry)?;
        let Some(len) = self.len.checked_add(part.len() as u64) else {
            return Err(io::ErrorKind::FileTooLarge.into());
        };
        self.place.write_part(self.len, &part)?;
        self.sums = sums;
        self.len = len;
        Ok(())
    }

    /// Syncs what was appended. Where the call fails nothing more may be appended.
    pub fn sync(&mut self) -> io::Result<()>
        ensures bytes { F.bytes self.new.place ≡ F.bytes self.old.place }
        ensures sums { self.new.sums ≡ self.old.sums }
        ensures len { self.new.len ≡ self.old.len }
    {
        self.place.sync()
    }

    /// What the records say.
    pub fn noted(&self) -> Noted
        ensures { result ≡ self.now.sums.noted }
    {
        self.sums.noted()
    }

    /// How many bytes there are.
    pub fn len(&self) -> u64
        ensures { result ≡ self.now.len }
    {
        self.len
    }
}

impl<F: Place + Drop> KeptSums<F> {
    /// A new FILE-sums in an empty file, with this head.
    pub fn begin(mut place: F, sums: Sums, head: &[u8]) -> io::Result<KeptSums<F>>
        ensures { IfOk result (λ begun. F.bytes place ≡ Some [] → Knows sums [] head.now
            → Keeps (F.bytes begun.place) begun.sums begun.len []) }
    {
        place.write_part(0, head)?;
        Ok(KeptSums::over(place, sums, head.len() as u64))
    }
}
