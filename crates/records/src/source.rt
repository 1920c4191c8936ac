//! Where bytes come from.
ghost use Rattle.std.specs.Prelude.{◌≡◌, ◌≤◌, ◌||◌, ℕ, Bool, List, Option, true, length, is_err, IfOk};
ghost use Rattle.std.specs.Io.KnownBytes.{ReadConsumes};

/// A reader or a writer failed, and is of no use any more.
#[derive(Clone, Copy, Debug, PartialEq, Eq)]
pub struct Failed;

/// A reader. Once a call has failed, so does each further one.
pub trait Source {
    // The bytes that are left, where the reader tells them.
    ghost left: { Self → Option (List ℕ) };

    // Whether a call has failed.
    ghost failed: { Self → Bool };

    /// Reads into the front of `piece` and says how many bytes it read. 0 for a piece that has room
    /// is the end.
    fn take(&mut self, piece: &mut [u8]) -> Result<usize, Failed>
        ensures bound { IfOk result (λ n. n ≤ length piece.new) }
        ensures bytes { ReadConsumes (left self.old) (left self.new) result piece.new }
        ensures failed { failed self.new ≡ (is_err result || failed self.old) }
        ensures stays { failed self.old ≡ true → is_err result ≡ true };
}
