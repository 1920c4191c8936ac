ghost use Rattle.std.specs.Prelude.{IfOk};
ghost use Rattle.records.specs.Machine.{Machine};
ghost use Rattle.chain.specs.Tables.{IsFresh};
ghost use Rattle.chain.specs.Ledgers.{IsWorkOver};

use crate::Tables;
use records::Unavailable;

/// What is done with one tenant's tables in one batch, and the answer that comes of it.
pub trait Work {
    type Output: Drop;

    // What the machine before, the answer and the machine after are to one another.
    ghost gives: { Self → Machine → Self.Output → Machine → Type 0 };

    /// Does it, on tables at the beginning of a batch. After `Unavailable` whoever lent the tables
    /// takes them back to that beginning.
    fn run<T: Tables>(self, tables: &mut T) -> Result<Self::Output, Unavailable>
        requires usable { T.means.is_usable tables.old }
        requires fresh { T.means.is_live tables.old → IsFresh (T.means.state tables.old) }
        ensures gives { T.means.is_live tables.new → IfOk result (λ output.
            gives self (T.means.state tables.old).now output (T.means.state tables.new).now) }
        ensures over { IsWorkOver T.means tables.old tables.new result };
}
