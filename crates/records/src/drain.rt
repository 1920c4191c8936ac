//! Where bytes go to.
ghost use Rattle.std.specs.Prelude.{◌≡◌, ◌<◌, ◌≤◌, ◌||◌, ℕ, Bool, List, Option, true, length, is_err, IfOk};
ghost use Rattle.std.specs.Io.KnownBytes.{WriteAppends};
ghost use Rattle.records.specs.Streams.{Puts};

use crate::Failed;

/// A writer. Once a call has failed, so does each further one.
pub trait Drain {
    // The bytes that have been written, where the writer tells them.
    ghost written: { Self → Option (List ℕ) };

    // Whether a call has failed.
    ghost failed: { Self → Bool };

    /// Writes bytes from the front of `piece`, at least one where there is one, and says how many.
    /// Nothing of it is written where the call fails.
    fn put(&mut self, piece: &[u8]) -> Result<usize, Failed>
        ensures bound { IfOk result (λ n. n ≤ length piece.now) }
        ensures some { IfOk result (λ n. 0 < length piece.now → 0 < n) }
        ensures bytes { WriteAppends (written self.old) (written self.new) result piece.now }
        ensures failed { failed self.new ≡ (is_err result || failed self.old) }
        ensures stays { failed self.old ≡ true → is_err result ≡ true };
}

/// Writes all of `bytes`, or a beginning of them where the writer fails.
pub fn put_all<W: Drain>(writer: &mut W, bytes: &[u8]) -> Result<(), Failed>
    ensures { Puts bytes.now W.written W.failed writer.old writer.new result }
{
    let mut rest = bytes;
    while !rest.is_empty() {
        let count = writer.put(rest)?;
        rest = &rest[count..];
    }
    Ok(())
}
