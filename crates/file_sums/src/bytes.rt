//! Numbers at the beginning of bytes.

ghost use Rattle.std.specs.Prelude.{◌≡◌, ◌<◌, ◌≢◌, ◌++◌, ◌↔◌, ℕ, List, length, IsTrue, MatchOption};
ghost use Rattle.std.specs.Int.{w32, w64, to_le_bytes};

/// What stands behind this beginning of bytes.
pub(crate) fn behind<'a>(bytes: &'a [u8], first: &[u8]) -> Option<&'a [u8]>
    ensures { MatchOption result ((rest : List ℕ) → bytes.now ≡ first.now ++ rest → ⊥)
        (λ rest. bytes.now ≡ first.now ++ rest.now) }
{
    let (front, rest) = bytes.split_at_checked(first.len())?;
    if are_same(front, first) {
        Some(rest)
    } else {
        None
    }
}

// Whether two parts are the same bytes.
fn are_same(one: &[u8], other: &[u8]) -> bool
    ensures { IsTrue result ↔ (one.now ≡ other.now) }
{
    one == other
}

/// The number that the first four bytes are, and what stands behind them.
pub(crate) fn first_u32(bytes: &[u8]) -> Option<(u32, &[u8])>
    ensures { MatchOption result (length bytes.now < 4)
        (λ found. bytes.now ≡ to_le_bytes w32 found.0 ++ found.1.now) }
{
    let (first, rest) = bytes.split_first_chunk::<4>()?;
    Some((u32::from_le_bytes(*first), rest))
}

/// The same of the first eight.
pub(crate) fn first_u64(bytes: &[u8]) -> Option<(u64, &[u8])>
    ensures { MatchOption result (length bytes.now < 8)
        (λ found. bytes.now ≡ to_le_bytes w64 found.0 ++ found.1.now) }
{
    let (first, rest) = bytes.split_first_chunk::<8>()?;
    Some((u64::from_le_bytes(*first), rest))
}

/// The number that these bytes are, where there are four.
pub(crate) fn whole_u32(bytes: &[u8]) -> Option<u32>
    ensures { MatchOption result (length bytes.now ≢ 4)
        (λ found. bytes.now ≡ to_le_bytes w32 found) }
{
    Some(u32::from_le_bytes(*bytes.as_array::<4>()?))
}

/// The same where there are eight.
pub(crate) fn whole_u64(bytes: &[u8]) -> Option<u64>
    ensures { MatchOption result (length bytes.now ≢ 8)
        (λ found. bytes.now ≡ to_le_bytes w64 found) }
{
    Some(u64::from_le_bytes(*bytes.as_array::<8>()?))
}
