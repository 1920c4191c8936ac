//! Pieces of a file, and of its copy.
ghost use Rattle.std.specs.Prelude.{◌≡◌, ◌↔◌, ◌<◌, ◌≤◌, ℕ, List, length, take, drop, IsTrue, IfOk, OnOk, Some};
ghost use Rattle.copies.specs.Places.{Copies, IsCopied, overwritten};

use crate::fault::CopyFault;
use crate::places::Places;

/// So much of what differs is written at once: a page of the database.
const PAGE: usize = 4096;

// Whether two parts are the same bytes.
fn are_same(one: &[u8], other: &[u8]) -> bool
    ensures { IsTrue result ↔ (one.now ≡ other.now) }
{
    one == other
}

/// Copies what a file has at a place to the same place of its copy. Says how much that is.
pub(crate) fn copy_piece<F: Places, G: Places>(
    file: &F,
    copy: &mut G,
    room: &mut [u8],
    at: u64,
) -> Result<usize, CopyFault>
    ensures { IfOk result (λ count.
        Copies at (length room.old) (F.bytes file.now) (G.bytes copy.old) (G.bytes copy.new) count) }
{
    let size = file.read_from(room, at)?;
    copy.write_to(&room[..size], at)?;
    Ok(size)
}

// Makes of a copy, which has these bytes at a place, what it is to have there, page by page.
fn mend<G: Places>(copy: &mut G, had: &[u8], part: &[u8], at: u64) -> Result<(), CopyFault>
    requires { length had.now ≡ length part.now }
    ensures { OnOk result ((all : List ℕ) → G.bytes copy.old ≡ Some all → at ≤ length all
        → take (length part.now) (drop at all) ≡ had.now
        → G.bytes copy.new ≡ Some (overwritten at part.now all)) }
{
    let mut done = 0;
    while done < part.len() {
        let end = done + PAGE.min(part.len() - done);
        if !are_same(&had[done..end], &part[done..end]) {
            let place = at.checked_add(done as u64).ok_or(CopyFault::Failed)?;
            copy.write_to(&part[done..end], place)?;
        }
        done = end;
    }
    Ok(())
}

/// Copies a piece that the copy may have already: then nothing is written, and else the pages alone
/// that differ. Says how much the file has there.
pub(crate) fn match_piece<F: Places, G: Places>(
    file: &F,
    copy: &mut G,
    room: &mut [u8],
    other: &mut [u8],
    at: u64,
) -> Result<usize, CopyFault>
    ensures { IfOk result (λ count.
        Copies at (length room.old) (F.bytes file.now) (G.bytes copy.old) (G.bytes copy.new) count) }
{
    let count = file.read_from(room, at)?;
    let had = copy.read_from(other, at)?;
    if had < count {
        copy.write_to(&room[..count], at)?;
    } else if !are_same(&other[..count], &room[..count]) {
        mend(copy, &other[..count], &room[..count], at)?;
    }
    Ok(count)
}

/// Makes a copy what the file is. Says how many bytes it has.
pub(crate) fn match_all<F: Places, G: Places>(
    file: &F,
    copy: &mut G,
    room: &mut [u8],
    other: &mut [u8],
) -> Result<u64, CopyFault>
    requires { 0 < length room.old }
    ensures { IfOk result (λ size.
        IsCopied (F.bytes file.now) (G.bytes copy.old) (G.bytes copy.new) size) }
{
    let mut at = 0u64;
    for _ in 0..u32::MAX {
        let count = match_piece(file, copy, room, other, at)?;
        if count == 0 {
            copy.cut(at)?;
            return Ok(at);
        }
        at = at.checked_add(count as u64).ok_or(CopyFault::Failed)?;
    }
    Err(CopyFault::Failed)
}
