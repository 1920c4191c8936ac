ghost use Rattle.std.specs.Prelude.{IfOk};
ghost use Rattle.chain.specs.Ledgers.{Tenants, RunsRound};

use crate::Ledgers;
use records::Unavailable;

/// What is done with the ledgers of many tenants in one round, and the answer that comes of it. All
/// of it is kept, or nothing.
pub trait RoundWork {
    type Output: Drop;

    // What all machines before, the answer and all machines after are to one another.
    ghost gives: { Self → Tenants → Self.Output → Tenants → Type 0 };

    /// Does it, on ledgers at the beginning of a round. After `Unavailable` whoever lent the
    /// ledgers takes them back to that beginning.
    fn run<L: Ledgers>(self, ledgers: &mut L) -> Result<Self::Output, Unavailable>
        ensures gives { L.means.is_live ledgers.new → IfOk result (λ output.
            gives self (L.means.tenants ledgers.old) output (L.means.tenants ledgers.new)) }
        ensures follows { L.means.follows ledgers.old ledgers.new };
}

/// Ledgers that keep the work of several tenants at once.
pub trait Rounds: Ledgers {
    /// Runs the work of a round, and keeps all of it or nothing. Only where the disk failed may the
    /// next opening find it though it was not kept here.
    fn in_round<W: RoundWork + Drop>(&mut self, work: W) -> Result<W::Output, Unavailable>
        ensures { RunsRound Self.means (W.gives work) self.old self.new result };
}
