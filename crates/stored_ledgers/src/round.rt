//! The ledgers of many tenants inside one transaction.

ghost use Rattle.std.specs.Prelude.{◌≡◌, Some, unwrap_or};
ghost use Rattle.stored_ledgers.specs.Rounds.{is_of_disk};

use crate::batches::{DueSets, UnknownKey};
use crate::working::{Past, work_here};
use chain::{Backend, BatchFault, Work};
use ledger_tables::LedgerTables;
use records::Unavailable;

/// The ledgers of tables in an open transaction.
///
/// Once a call has answered `Unavailable`, each answers so, and whoever lent the ledgers takes all
/// of the round back.
#[derive(Drop)]
pub(crate) struct Round<'a, T: LedgerTables> {
    pub(crate) tables: &'a mut T,
    pub(crate) due: &'a mut DueSets,
    pub(crate) failure: Option<Unavailable>,
    /// The clocks before the batches that were run.
    pub(crate) pasts: &'a mut Vec<Past>,
}

impl<T: LedgerTables> Backend for Round<'_, T> {
    ghost use Rattle.std.specs.Prelude.{◌≡◌, None, refl};
    ghost use Rattle.std.proofs.Common.{◌∙◌};
    ghost use Rattle.ledger_sql.specs.Frames.{Live};
    ghost use Rattle.stored_ledgers.specs.Directory.{tenants_in};
    ghost use Rattle.stored_ledgers.specs.Rounds.{CanGoOn, FindsHere, FollowsInRound, is_of_disk};
    ghost use Rattle.stored_ledgers.specs.RoundLaws.{round_itself, round_then, round_lived, valid_here};

    ghost means = { record {
      ledgers = record {
        tenants = λ r. tenants_in (T.state r.tables.now).now.trees;
        is_live = λ r. (r.failure ≡ None) × Live (T.state r.tables.now);
        has_failed = λ r. is_of_disk r.failure;
        follows = λ a b.
            (b.tables.ghost_name ≡ a.tables.ghost_name)
            × (b.due.ghost_name ≡ a.due.ghost_name)
            × (b.pasts.ghost_name ≡ a.pasts.ghost_name)
            × FollowsInRound a.due.now b.due.now a.failure b.failure
            (T.state a.tables.now) (T.state b.tables.now);
        may_find = λ r found. FindsHere (T.state r.tables.now) found;
      };
      is_usable = λ r.
          CanGoOn r.failure r.due.now r.pasts.now.items (T.state r.tables.now);
    } };

    fn has_failed(&self) -> bool {
        is_of_disk(self.failure)
    }

    fn in_batch<W: Work + Drop>(
        &mut self,
        digest: &[u8; 32],
        work: W,
    ) -> Result<W::Output, BatchFault> {
        if let Some(why) = self.failure {
            return Err(BatchFault::Unavailable(why));
        }
        match work_here(self.tables, self.due, digest, work) {
            Ok(Ok(worked)) => match self.pasts.push(worked.past) {
                Ok(()) => Ok(worked.output),
                Err(why) => Err(BatchFault::Unavailable(fail(
                    &mut self.failure,
                    Unavailable::from(why),
                ))),
            },
            Ok(Err(UnknownKey)) => Err(BatchFault::UnknownKey),
            Err(why) => Err(BatchFault::Unavailable(fail(&mut self.failure, why))),
        }
    }

    fn knows(&mut self, digest: &[u8; 32]) -> Result<bool, Unavailable> {
        if let Some(why) = self.failure {
            return Err(why);
        }
        match self.tables.find_tenant(digest) {
            Ok(number) => Ok(number.is_some()),
            Err(why) => Err(fail(&mut self.failure, why)),
        }
    }

    ghost stays = { λ a. (refl, refl, refl, round_itself _ _ _) };

    ghost then = { λ a b c f g. (
      g.0 ∙ f.0,
      g.1 ∙ f.1,
      g.2 ∙ f.2,
      round_then _ _ _ _ _ _ _ _ _ f.3 g.3,
    ) };

    ghost lived = { λ a b follows live. round_lived _ _ _ _ _ _ follows.3 live };

    ghost fails = { λ a b follows failed. follows.3.failed failed };

    ghost valid = { λ a live usable. valid_here _ _ _ _ live usable };
}

// Whether a failure is the disk's.
fn is_of_disk(failure: Option<Unavailable>) -> bool
    ensures { result ≡ is_of_disk failure }
{
    matches!(failure, Some(Unavailable::Disk))
}

/// Keeps why a round has failed: for the first reason of all.
fn fail(failure: &mut Option<Unavailable>, why: Unavailable) -> Unavailable
    ensures first { result ≡ unwrap_or failure.old why }
    ensures kept { failure.new ≡ Some result }
{
    let first = failure.unwrap_or(why);
    *failure = Some(first);
    first
}
