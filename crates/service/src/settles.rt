//! What is known of where ledgers are kept.
ghost use Rattle.service.specs.Openings.{run_meaning, IsSettled};

use chain::Ledgers;

/// Whoever knows that an opening finds what is there, while the ledgers are live.
pub trait Settles<L: Ledgers> {
    /// That law.
    fn is_settled(ledgers: &L)
        ensures { IsSettled (run_meaning L.means) ledgers.now };
}
