//! FILE-sums as a whole.

ghost use Rattle.std.specs.Prelude.{◌≡◌, ◌<◌, ◌^◌, ◌++◌, [], ◌∷◌, List, ℕ, length, MatchOption, IfOk, OnErr};
ghost use Rattle.file_sums.specs.Bytes.{body_of, kind_of, head_of, IsContent};
ghost use Rattle.file_sums.specs.Sums.{HasHead, IsHead, IsRead, Knows};
ghost use Rattle.file_sums.specs.declared.record.Record.{Record as AnyRecord};

use crate::bytes::{behind, first_u32, first_u64};
use crate::reading::first_record;
use crate::{Noted, Record};
use sqlite_disk::digest_of;
use std::alloc::{AllocError, Global};

/// The name at the beginning of FILE-sums, and the version of its format.
const NAME: &[u8] = b"LDGRSUMS\x01\x00\x00\x00";

/// What is known of a FILE-sums, so that records can be appended to it.
#[derive(Clone, Copy, Debug, PartialEq, Eq)]
pub struct Sums {
    page_size: u32,
    key: u64,
    /// The last record's, or the head's.
    seal: u64,
    noted: Noted,
}

impl Sums {
    /// A new one, and its bytes. The key is to be drawn at random.
    pub fn begin(alloc: Global, page_size: u32, key: u64) -> Result<(Sums, Vec<u8>), AllocError>
        ensures { IfOk result (λ begun. Knows begun.0 [] begun.1.items
            × (begun.0.page_size ≡ page_size)) }
    {
        let mut bytes = head(alloc, page_size, key)?;
        let seal = digest_of(key, &bytes);
        bytes.extend_from_slice(&seal.to_le_bytes())?;
        let noted = Noted::new();
        Ok((
            Sums {
                page_size,
                key,
                seal,
                noted,
            },
            bytes,
        ))
    }

    /// What these bytes are, and how many of them: their longest beginning that is a head and whole
    /// records. What stands behind it has to be cut off before anything is appended. None where
    /// they begin with no head of this format.
    pub fn read(bytes: &[u8]) -> Option<(Sums, usize)>
        ensures { MatchOption result (HasHead bytes.now → ⊥)
            (λ found. IsRead bytes.now found.0 found.1) }
    {
        let mut sums = Sums::read_head(bytes)?;
        let mut len = 32;
        while let Some(found) = first_record(sums.seal, &bytes[len..]) {
            sums.seal = found.seal;
            sums.noted.note(found.entry);
            len += found.len;
        }
        Some((sums, len))
    }

    // What a head says.
    fn read_head(bytes: &[u8]) -> Option<Sums>
        ensures { MatchOption result (HasHead bytes.now → ⊥)
            (λ sums. (head : List ℕ) × (rest : List ℕ) × (bytes.now ≡ head ++ rest)
            × (length head ≡ 32) × Knows sums [] head) }
    {
        let rest = behind(bytes, NAME)?;
        let (page_size, rest) = first_u32(rest)?;
        let (key, rest) = first_u64(rest)?;
        let (seal, _rest) = first_u64(rest)?;
        if seal != digest_of(key, &bytes[..24]) {
            return None;
        }
        Some(Sums {
            page_size,
            key,
            seal,
            noted: Noted::new(),
        })
    }

    /// Adds a record, and returns the bytes to be appended.
    pub fn append(&mut self, alloc: Global, entry: Record) -> Result<Vec<u8>, AllocError>
        ensures ok { IfOk result (λ more. (records : List AnyRecord) (bytes : List ℕ)
            → Knows self.old records bytes
            → Knows self.new (entry ∷ records) (bytes ++ more.items)) }
        ensures size { self.new.page_size ≡ self.old.page_size }
        ensures err { OnErr result (self.new ≡ self.old) }
    {
        let mut bytes = body(alloc, entry)?;
        let seal = digest_of(self.seal, &bytes);
        bytes.extend_from_slice(&seal.to_le_bytes())?;
        self.seal = seal;
        self.noted.note(entry);
        Ok(bytes)
    }

    /// What its records say.
    pub fn noted(&self) -> Noted
        ensures { result ≡ self.now.noted }
    {
        self.noted
    }

    /// The size of the pages that it speaks of.
    pub fn page_size(&self) -> u32
        ensures { result ≡ self.now.page_size }
    {
        self.page_size
    }
}

// A head before its seal.
fn head(alloc: Global, page_size: u32, key: u64) -> Result<Vec<u8>, AllocError>
    ensures { IfOk result (λ bytes. bytes.items ≡ head_of page_size key) }
{
    let mut bytes = Vec::new(alloc);
    bytes.extend_from_slice(NAME)?;
    bytes.extend_from_slice(&page_size.to_le_bytes())?;
    bytes.extend_from_slice(&key.to_le_bytes())?;
    Ok(bytes)
}

// A record before its seal.
fn body(alloc: Global, entry: Record) -> Result<Vec<u8>, AllocError>
    ensures { IfOk result (λ bytes. (content : List ℕ) × IsContent entry content
        × (bytes.items ≡ body_of (kind_of entry) content)) }
{
    match entry {
        Record::Pages => body_with(alloc, 1, &[]),
        Record::Log(salt) => body_with(alloc, 2, &salt.to_le_bytes()),
        Record::NoLog => body_with(alloc, 3, &[]),
        Record::Mark(moment) => body_with(alloc, 4, &moment.to_le_bytes()),
        Record::Doubt(place) => body_with(alloc, 5, &place.to_le_bytes()),
    }
}

fn body_with(alloc: Global, kind: u32, content: &[u8]) -> Result<Vec<u8>, AllocError>
    requires { length content.now < 2 ^ 32 }
    ensures { IfOk result (λ bytes. bytes.items ≡ body_of kind content.now) }
{
    let mut bytes = Vec::new(alloc);
    bytes.extend_from_slice(&kind.to_le_bytes())?;
    bytes.extend_from_slice(&(content.len() as u32).to_le_bytes())?;
    bytes.extend_from_slice(content)?;
    Ok(bytes)
}
