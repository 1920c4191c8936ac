//! What keeps the ledgers of many tenants, and the ledgers while it may be called.
ghost use Rattle.std.specs.Prelude.{◌≡◌, true};
ghost use Rattle.chain.specs.Backends.{BackendMeaning};
ghost use Rattle.chain.specs.Ledgers.{AreValid, RunsBatch, Knows, RunsRound};

use crate::{BatchFault, RoundWork, Work};
use records::Unavailable;

/// What keeps the ledgers of many tenants. They may be called where it is usable, and each call
/// leaves it so.
///
/// The calls are those of `Ledgers`, which `InUse` makes of it.
pub trait Backend {
    // What it keeps, and whether it may be called.
    ghost means: { BackendMeaning Self };

    /// Whether what the ledgers stand on has failed.
    fn has_failed(&self) -> bool
        ensures { result ≡ means.ledgers.has_failed self.now };

    /// Runs a batch of work on one tenant's tables, and keeps all of it or nothing.
    fn in_batch<W: Work + Drop>(
        &mut self,
        digest: &[u8; 32],
        work: W,
    ) -> Result<W::Output, BatchFault>
        requires { means.is_usable self.old }
        ensures batch { RunsBatch means.ledgers (W.gives work) digest.now self.old self.new result }
        ensures usable { means.is_usable self.new };

    /// Whether a tenant has this digest. Nothing changes.
    fn knows(&mut self, digest: &[u8; 32]) -> Result<bool, Unavailable>
        requires { means.is_usable self.old }
        ensures knows { Knows means.ledgers digest.now self.old self.new result }
        ensures usable { means.is_usable self.new };

    /// No call at all is a run of calls.
    ghost stays: { (a : Self) → means.ledgers.follows a a };

    /// A run of calls behind another is a run of calls.
    ghost then: { (a b c : Self) → means.ledgers.follows a b → means.ledgers.follows b c
        → means.ledgers.follows a c };

    /// Ledgers that are no longer live stay so.
    ghost lived: { (a b : Self) → means.ledgers.follows a b → means.ledgers.is_live b
        → means.ledgers.is_live a };

    /// Ledgers that have failed stay so.
    ghost fails: { (a b : Self) → means.ledgers.follows a b → means.ledgers.has_failed a ≡ true
        → means.ledgers.has_failed b ≡ true };

    /// In live ledgers that may be called every tenant's machine is valid.
    ghost valid: { (a : Self) → means.ledgers.is_live a → means.is_usable a
        → AreValid (means.ledgers.tenants a) };
}

/// A backend that keeps the work of several tenants at once.
pub trait RoundBackend: Backend {
    /// Runs the work of a round, and keeps all of it or nothing. Only where the disk failed may the
    /// next opening find it though it was not kept here.
    fn in_round<W: RoundWork + Drop>(&mut self, work: W) -> Result<W::Output, Unavailable>
        requires { Self.means.is_usable self.old }
        ensures round { RunsRound Self.means.ledgers (W.gives work) self.old self.new result }
        ensures usable { Self.means.is_usable self.new };
}
