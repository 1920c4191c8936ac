//! Ledgers that can be closed and opened again.
ghost use Rattle.std.specs.Prelude.{◌≡◌, Err, IfOk, OnErr};
ghost use Rattle.chain.specs.Ledgers.{AreValid};
ghost use Rattle.service.specs.Deeds.{Joined};
ghost use Rattle.service.specs.Courses.{Tried};
ghost use Rattle.service.specs.Openings.{RunMeaning, Replies, Moves};
ghost use Rattle.service.specs.Responds.{RefusesEarly};
ghost use Rattle.service.specs.Turns.{MovesInRound};
ghost use Rattle.openings.specs.declared.refused.Refused.{Refused as ARefusal};
ghost use Rattle.store.specs.Deeds.{ending_of};
ghost use Rattle.whole_runs.specs.Names.{IsJoinTried, IsKeyTriedOf, LeavesNames};
ghost use Rattle.whole_runs.specs.Names.{NamesMeaning, ReopensNames};
ghost use Rattle.whole_runs.specs.Reopenings.{IsInOrder, Reopens, TellsTaken};

use ledger_http::Reply;
use service::Message;
use std::alloc::Global;
use store::{AddTenant, ChangeKey, Refused};
use tenants::TenantName;
use wire::NoMemory;

/// The ledgers of many tenants, which can be closed and opened again.
///
/// A fault of what they stand on ends them until they are opened again. The request that came to
/// the fault, or the round, may be found done then, all of it, or not: no other may. So it is with
/// the name of a tenant, and its digest.
pub trait Reopening {
    // The machine of each tenant; whether the ledgers are live; and which machines an opening may
    // find.
    ghost means: { RunMeaning Self };

    // The digest of the tenant with each name, and which names an opening may find.
    ghost names: { NamesMeaning Self };

    // They have failed: until they are opened again they stay as they are.
    ghost has_failed: { Self → Type 0 };

    // An opening was refused so: for which fault, and what is known of the ledgers then.
    ghost refuses: { ARefusal → Self → Self → Type 0 };

    /// A law: while the ledgers are live, an opening finds what is there, and each tenant has one
    /// name.
    fn is_settled(&self)
        ensures { IsInOrder means names self.now };

    /// The reply to the first message of `bytes`, at a moment in nanoseconds.
    fn reply_to(&mut self, alloc: Global, bytes: &[u8], moment: u64) -> Reply
        ensures replies { Replies means self.old bytes.now moment result self.new }
        ensures early { RefusesEarly bytes.now result }
        ensures named { LeavesNames means names self.old self.new }
        ensures failed { has_failed self.old → self.new ≡ self.old };

    /// The replies to messages, in order: they are answered in one round, and where that cannot be,
    /// one by one. Where memory lacks for the replies, nothing is done.
    fn reply_to_round(
        &mut self,
        alloc: Global,
        messages: &[Message],
    ) -> Result<Vec<Reply>, NoMemory>
        ensures moves { IfOk result (λ replies.
            MovesInRound means self.old messages.now replies.items self.new) }
        ensures undone { OnErr result (self.new ≡ self.old) }
        ensures named { LeavesNames means names self.old self.new }
        ensures failed { has_failed self.old → self.new ≡ self.old };

    /// Adds a tenant, whose machine is a new one. The name is looked up before the digest.
    fn join(&mut self, name: &TenantName, digest: &[u8; 32]) -> Result<(), AddTenant>
        ensures moves { Moves means self.old
            (Tried (Joined digest.now) (ending_of result)) self.new }
        ensures taken { TellsTaken means self.old digest.now (result ≡ Err AddTenant.DigestTaken)
            self.new }
        ensures named { IsJoinTried means names self.old name.now digest.now result self.new }
        ensures failed { has_failed self.old → self.new ≡ self.old };

    /// Gives the tenant with this name the key of this digest, under which its machine stands from
    /// then on. The same key again changes nothing.
    fn change_key(&mut self, name: &TenantName, digest: &[u8; 32]) -> Result<(), ChangeKey>
        ensures moves { IsKeyTriedOf means names self.old name.now digest.now result self.new }
        ensures taken { TellsTaken means self.old digest.now (result ≡ Err ChangeKey.DigestTaken)
            self.new }
        ensures failed { has_failed self.old → self.new ≡ self.old };

    /// Closes the ledgers and opens them again. After an error each call but a later opening
    /// answers that they are unavailable, and that opening finds what this one might have, where it
    /// is told that this stands.
    fn open_again(&mut self) -> Result<(), Refused>
        ensures opened { Reopens means refuses self.old result self.new }
        ensures named { ReopensNames means names self.old result self.new };

    /// In live ledgers every tenant's machine is valid.
    ghost valid: { (a : Self) → means.is_live a → AreValid (means.tenants a) };
}
