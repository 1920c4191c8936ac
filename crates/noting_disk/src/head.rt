//! What is seen of the writes of a log's header.

ghost use Rattle.std.specs.Prelude.{◌≡◌, ◌<◌, ◌≤◌, ◌+◌, List, ℕ, length, slice_index, IsTrue};
ghost use Rattle.sqlite_disk.specs.Disk.{Cut, Holds, Torn};
ghost use Rattle.noting_disk.specs.Heads.{Shows};

/// Where a header's salt ends, behind its 8 bytes.
const SALT_END: usize = 24;

/// The first byte of a header that is signed.
const SIGN: u8 = 0x37;

/// How far the header of a new log is written.
#[derive(Clone, Copy, Debug, PartialEq, Eq)]
pub enum HeadSeen {
    /// There is no new one, or nothing is known of it.
    Unknown,
    /// It has this salt, and its first byte is still to come.
    Unsigned([u8; 8]),
    /// It has this salt, and its first byte.
    Signed([u8; 8]),
}

impl HeadSeen {
    /// What is known once these bytes were written at this offset: all of them, or where the call
    /// has failed any of them.
    pub(crate) fn after_write(self, at: usize, bytes: &[u8], is_done: bool) -> HeadSeen
        ensures { (old new : List ℕ) → Torn at (length bytes.now) old new
            → (IsTrue is_done → 0 < length bytes.now → Holds new at bytes.now)
            → Shows self old → Shows result new }
    {
        if at >= SALT_END {
            return self;
        }
        if !is_done {
            return HeadSeen::Unknown;
        }
        match (at, bytes, self) {
            (0, [SIGN], HeadSeen::Unsigned(salt)) => HeadSeen::Signed(salt),
            (1, _, _) if bytes.len() >= SALT_END - 1 => HeadSeen::Unsigned(salt_in(bytes)),
            _ => HeadSeen::Unknown,
        }
    }

    /// What is known once the log was given this length.
    pub(crate) fn after_cut(self, len: usize) -> HeadSeen
        ensures { (old new : List ℕ) → Cut len old new → Shows self old → Shows result new }
    {
        if len >= SALT_END {
            self
        } else {
            HeadSeen::Unknown
        }
    }
}

// The salt in what is written behind a header's first byte.
fn salt_in(bytes: &[u8]) -> [u8; 8]
    requires { 23 ≤ length bytes.now }
    ensures { (i : ℕ) → i < 8 → slice_index result i ≡ slice_index bytes.now (15 + i) }
{
    let mut salt = [0; 8];
    salt.copy_from_slice(&bytes[15..23]);
    salt
}
