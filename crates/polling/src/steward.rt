//! Who sees to the ledgers.
ghost use Rattle.std.specs.Prelude.{[], ℕ, List, Option, IfSome, IsTrue};
ghost use Rattle.parts.specs.Parts.{IsPart};
ghost use Rattle.polling.specs.Serving.{HasAttended};
ghost use Rattle.service.specs.Openings.{run_meaning, IsSettled};

use chain::Ledgers;
use parts::{Part, Rest};
use service::Moments;
use std::alloc::Global;

/// Who sees to the ledgers between turns: opens them again where they have failed, does what an
/// operator asks for, and does a piece of what is due.
pub trait Steward<L: Ledgers> {
    // What it may make of ledgers, where it asked for this moment, or for none.
    ghost renews: { Option ℕ → L → L → Type 0 };

    // Which messages it puts off. One that says nothing of it puts off none.
    ghost waits: { List ℕ → Type 0 } = { λ message. ⊥ };

    /// A law: while ledgers are live, an opening finds what is there.
    fn is_settled(ledgers: &L)
        ensures { IsSettled (run_meaning L.means) ledgers.now };

    /// Does what is to be done: opens again what has failed, where it is time to, or one deed that
    /// an operator asks for or that is due. What is due by now is so by a moment that it asks for.
    fn attend<C: Moments>(&mut self, ledgers: &mut L, moments: &mut C)
        ensures { HasAttended C.gives renews ledgers.old moments.old ledgers.new moments.new };

    /// Reads the part of a statement that comes next, where it can be read.
    fn reads(alloc: Global, ledgers: &mut L, rest: &Rest) -> Option<Part>
        ensures renewed { renews None ledgers.old ledgers.new }
        ensures told { IfSome result (λ part. L.means.is_live ledgers.new
            → IsPart [] (L.means.tenants ledgers.new rest.now.digest) rest.now part) };

    /// Whether a client's next message, which is a batch, waits for the client's next turn, since
    /// more is to be done for its tenant first.
    fn puts_off(&self, _message: &[u8]) -> bool
        ensures { IsTrue result → waits _message.now }
    {
        false
    }
}
