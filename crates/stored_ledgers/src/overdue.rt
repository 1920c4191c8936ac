//! Tenants whose holds are due, and how many of these are released at once.

ghost use Rattle.std.specs.Prelude.{◌≡◌, ◌≤◌, ◌⊎◌, None, Some};
ghost use Rattle.std.specs.Prelude.{IfOk, IfSome, OnErr, MatchOption};
ghost use Rattle.records.specs.declared.unavailable.Unavailable.TheVariants.{Disk};
ghost use Rattle.sqlite.specs.State.{HasCleanDisk};
ghost use Rattle.stored_ledgers.specs.Directory.{first_digest, with_number};
ghost use Rattle.stored_ledgers.specs.Overdue.{FindsOverdue, FindsSome, FindsNone};
ghost use Rattle.stored_ledgers.specs.Overdue.{FindsUnlisted, piece_of};
ghost use Rattle.stored_ledgers.specs.Looks.{ReadsAtRest};
ghost use Rattle.stored_ledgers.specs.Resting.{HoldsHere};

use crate::batches::DueSets;
use crate::directory::digest_numbered;
use crate::due_search::Piece;
pub use crate::due_search::Search;
use ledger_tables::LedgerTables;
use records::Unavailable;

/// A tenant with holds that are due.
#[derive(Clone, Copy, Debug, PartialEq, Eq)]
pub struct Overdue {
    /// The tenant's number.
    pub number: i64,
    /// The digest of its key.
    pub digest: [u8; 32],
    /// When the last of those is due that are to be released at once, in nanoseconds.
    pub until: u64,
    /// Whether more are due than are released at once.
    pub has_more: bool,
}

/// The tenant with this number and this digest, and what of it is to be released.
fn with_digest(number: i64, piece: Piece, digest: Option<[u8; 32]>) -> Option<Overdue>
    ensures { MatchOption result (digest ≡ None) (λ overdue. (overdue.number ≡ number)
        × (piece_of overdue ≡ piece) × (digest ≡ Some overdue.digest)) }
{
    Some(Overdue {
        number,
        digest: digest?,
        until: piece.until,
        has_more: piece.has_more,
    })
}

/// Looks at the tenants that a search comes to next for holds that are due by a moment, in
/// nanoseconds, and tells the first tenant that has some: many, or one for a second. The sets alone
/// are looked at, and of the tables no more than that tenant's row of the directory. None is told
/// too of a number that the directory lacks, and after an `Err` the search has gone on as well.
pub fn find_overdue<T: LedgerTables>(
    tables: &mut T,
    due: &DueSets,
    search: &mut Search,
    moment: u64,
) -> Result<Option<Overdue>, Unavailable>
    requires { HoldsHere (T.state tables.old) }
    ensures by { IfOk result (λ found. IfSome found (λ overdue. overdue.until ≤ moment)) }
    ensures found { IfOk result (λ found. IfSome found (λ overdue.
        FindsOverdue due.now moment search.old search.new overdue.number (piece_of overdue))) }
    ensures listed { HasCleanDisk (T.state tables.new) → IfOk result (λ found.
        IfSome found (λ overdue. Some overdue.digest
        ≡ first_digest (with_number overdue.number (T.state tables.old).now.trees))) }
    ensures none { IfOk result (λ found. found ≡ None
        → FindsNone due.now moment search.old search.new
        ⊎ FindsUnlisted due.now moment search.old search.new (λ number.
        HasCleanDisk (T.state tables.new)
        → first_digest (with_number number (T.state tables.old).now.trees) ≡ None)) }
    ensures failed { OnErr result (FindsSome due.now moment search.old search.new) }
    ensures reads { ReadsAtRest Disk (T.state tables.old) (T.state tables.new) result }
{
    let Some((number, piece)) = search.next(due, moment) else {
        return Ok(None);
    };
    let digest = digest_numbered(tables, number)?;
    Ok(with_digest(number, piece, digest))
}
