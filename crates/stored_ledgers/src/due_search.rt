//! The search for tenants with holds that are due, over the due times in memory.

ghost use Rattle.std.specs.Prelude.{◌≡◌, ◌≤◌, ◌↔◌, MatchOption, IsTrue};
ghost use Rattle.stored_ledgers.specs.Overdue.{HasOneAt, IsOverdue, IsNotOverdue, IsDuePiece};
ghost use Rattle.stored_ledgers.specs.Overdue.{BeginsSearch, settled_to, least_number};
ghost use Rattle.stored_ledgers.specs.Overdue.{FindsOverdue, FindsNone};

use crate::batches::DueSets;
use records::SECOND;
use std::collections::BTreeSet;

/// How many holds of a tenant are released at once, and those that are due with the last of them.
const PIECE: usize = 200;

/// At how many tenants it is looked at once.
const LOOKS: usize = 256;

/// For how many nanoseconds a few holds that are due are left to their tenant's own next batch,
/// which releases them without a commit more.
const LEFT: u64 = SECOND;

/// The first holds of a tenant that are due.
#[derive(Clone, Copy)]
pub(crate) struct Piece {
    /// When the last of them is due.
    pub until: u64,
    /// Whether more are due than are released at once.
    pub has_more: bool,
}

/// The first holds of a set that are due by a moment, as many as are released at once behind those
/// that are already, where the earliest of all is due at `first`.
fn first_holds(set: &BTreeSet<(u64, u128)>, first: u64, released: u64, moment: u64) -> Piece
    requires { first ≤ moment }
    ensures { HasOneAt set.now first → IsDuePiece set.now released moment result }
{
    let mut until = first;
    let mut count = 0;
    for hold in set.iter() {
        if hold.0 > moment {
            return Piece {
                until,
                has_more: false,
            };
        }
        if count == PIECE {
            return Piece {
                until,
                has_more: true,
            };
        }
        until = hold.0;
        if hold.0 > released {
            count += 1;
        }
    }
    Piece {
        until,
        has_more: false,
    }
}

/// What is to be released of a set at a moment, where its tenant was settled to a time before. A
/// set keeps what its tenant's last batch has released, so that all it has due may be released
/// already: then one more batch drops that.
fn due_in(set: &BTreeSet<(u64, u128)>, released: u64, moment: u64) -> Option<Piece>
    ensures { MatchOption result (IsNotOverdue set.now released moment) (λ piece.
        IsOverdue set.now released moment × IsDuePiece set.now released moment piece) }
{
    let first = set.first()?.0;
    if first > moment {
        return None;
    }
    let piece = first_holds(set, first, released, moment);
    if piece.has_more || first <= moment.saturating_sub(LEFT) {
        Some(piece)
    } else {
        None
    }
}

/// How far it was looked for holds that are due: at the tenants in order of their numbers, and then
/// at the first again. Whoever is found is settled before it is looked on, unless it is told
/// otherwise.
#[derive(Clone, Copy, Debug, PartialEq, Eq)]
pub struct Search {
    from: i64,
    /// The number of the tenant that was found last, and the time that was told of it.
    last: (i64, u64),
}

impl Search {
    /// One that begins.
    pub fn new() -> Search
        ensures begins { BeginsSearch result }
        ensures last { result.last ≡ (least_number, 0) }
    {
        Search {
            from: i64::MIN,
            last: (i64::MIN, 0),
        }
    }

    /// Whether it begins, since all tenants were looked at or none was.
    pub fn begins(&self) -> bool
        ensures { IsTrue result ↔ BeginsSearch self.now }
    {
        self.from == i64::MIN
    }

    /// Whoever was found last was not settled.
    pub fn forget_last(&mut self)
        ensures { self.new ≡ record self.old { last = (least_number, 0) } }
    {
        self.last = (i64::MIN, 0);
    }

    /// To what time a tenant was settled, where it was found last.
    fn released(&self, number: i64) -> u64
        ensures { result ≡ settled_to self.now number }
    {
        if number == self.last.0 {
            self.last.1
        } else {
            0
        }
    }

    /// The next tenant with holds that are to be released at a moment, and which: of some that are
    /// looked at.
    pub(crate) fn next(&mut self, due: &DueSets, moment: u64) -> Option<(i64, Piece)>
        ensures { MatchOption result (FindsNone due.now moment self.old self.new) (λ found.
            FindsOverdue due.now moment self.old self.new found.0 found.1) }
    {
        let mut looks = 0;
        for (number, set) in due.range(self.from..) {
            if looks == LOOKS {
                self.from = *number;
                return None;
            }
            if let Some(piece) = due_in(set, self.released(*number), moment) {
                // Behind the greatest number of all is the least.
                self.from = number.wrapping_add(1);
                self.last = (*number, piece.until);
                return Some((*number, piece));
            }
            looks += 1;
        }
        self.from = i64::MIN;
        None
    }
}
