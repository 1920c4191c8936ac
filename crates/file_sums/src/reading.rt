//! The record at the beginning of bytes.

ghost use Rattle.std.specs.Prelude.{◌≡◌, ◌<◌, ◌^◌, length, MatchOption};
ghost use Rattle.file_sums.specs.Bytes.{kind_of, IsContent, StandsFirst};
ghost use Rattle.file_sums.specs.declared.record.Record.{Record as AnyRecord};
ghost use Rattle.file_sums.specs.declared.reading.Found.{Found as AnyFound};

use crate::Record;
use crate::bytes::{first_u32, first_u64, whole_u32, whole_u64};
use sqlite_disk::digest_of;

/// A record that was found, its seal, and how many bytes it has.
#[derive(Clone, Copy, Debug, PartialEq, Eq)]
pub struct Found {
    pub entry: Record,
    pub seal: u64,
    pub len: usize,
}

/// The record at the beginning of these bytes, whose seal covers this seal before it.
pub(crate) fn first_record(before: u64, bytes: &[u8]) -> Option<Found>
    ensures { MatchOption result ((found : AnyFound) → StandsFirst before bytes.now found → ⊥)
        (StandsFirst before bytes.now) }
{
    let (kind, rest) = first_u32(bytes)?;
    let (len, rest) = first_u32(rest)?;
    let (content, rest) = rest.split_at_checked(len as usize)?;
    let (seal, _rest) = first_u64(rest)?;
    let body = &bytes[..8 + content.len()];
    if seal != digest_of(before, body) {
        return None;
    }
    let entry = meaning(kind, content)?;
    Some(Found {
        entry,
        seal,
        len: 16 + content.len(),
    })
}

// The record of this kind with this content.
fn meaning(kind: u32, content: &[u8]) -> Option<Record>
    requires { length content.now < 2 ^ 32 }
    ensures { MatchOption result
        ((entry : AnyRecord) → kind ≡ kind_of entry → IsContent entry content.now → ⊥)
        (λ entry. (kind ≡ kind_of entry) × IsContent entry content.now) }
{
    match kind {
        1 => Some(Record::Pages),
        2 => Some(Record::Log(whole_u64(content)?)),
        3 if content.is_empty() => Some(Record::NoLog),
        4 => Some(Record::Mark(whole_u64(content)?)),
        5 => Some(Record::Doubt(whole_u32(content)?)),
        _ => None,
    }
}
