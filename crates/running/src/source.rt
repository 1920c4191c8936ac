use crate::Entry;

/// Entries in an order, which are had one by one, so that no list of them has to be made.
pub trait EntrySource {
    ghost use Rattle.std.specs.Prelude.{◌≡◌, ◌<◌, List, length, Some, slice_get};
    ghost use Rattle.running.specs.declared.entry.Entry.{Entry};

    /// Whether these are the entries.
    ghost has: { Self → List Entry → Type 0 };

    /// How many there are.
    fn len(&self) -> usize
        requires { (entries : List Entry) × has self.now entries }
        ensures { (entries : List Entry) → has self.now entries → result ≡ length entries };

    /// The entry at a place, from 0.
    fn entry(&self, place: usize) -> Entry
        requires { (entries : List Entry) × has self.now entries × (place < length entries) }
        ensures { (entries : List Entry) →
            has self.now entries → slice_get entries place ≡ Some result };
}

/// A slice of entries.
#[derive(Debug, Drop)]
pub(crate) struct Listed<'a>(pub(crate) &'a [Entry]);

impl EntrySource for Listed<'_> {
    ghost use Rattle.std.specs.Prelude.{◌≡◌};

    ghost has = { λ listed entries. listed.0.now ≡ entries };

    fn len(&self) -> usize {
        self.0.len()
    }

    fn entry(&self, place: usize) -> Entry {
        self.0[place]
    }
}
