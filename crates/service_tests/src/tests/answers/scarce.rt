//! Memory that runs out in the midst of a batch.
ghost use Rattle.std.specs.Prelude.{Some, None, false, bytes_eq, if◌then◌else◌};
ghost use Rattle.std.proofs.Common.{refl, ◌∙◌};
ghost use Rattle.chain.specs.Ledgers.{AreValid};

use super::scripts::{Answers, are_told, exchange, messages};
use crate::tests::asserting::same;
use crate::tests::messages::FIRST;
use chain::{AccountEntry, Backend, BatchFault, InUse, RoundBackend, RoundWork, Tables, Work};
use ledger_http::Reply;
use plain::PlainTables;
use records::{Accepted, Account, AccountWithBalances, PendingState, Span, Transfer, Unavailable};
use service::{Message, Settles, respond, respond_round};
use std::alloc::{AllocError, Global};
use std::process::Abort;
use std::test::Fail;
use tenants::{Key, digest};

/// One firm's tables, which have memory for so many transfers more.
#[derive(Drop)]
struct Scarce {
    tables: PlainTables,
    room: u64,
}

impl Tables for Scarce {
    ghost use Rattle.plain.specs.PlainTables.{plain_meaning};

    ghost means = { record {
      state = λ s. plain_meaning.state s.tables;
      is_usable = λ s. plain_meaning.is_usable s.tables;
      is_live = λ s. plain_meaning.is_live s.tables;
      follows = λ a b. plain_meaning.follows a.tables b.tables;
    } };

    fn clock(&mut self) -> Result<u64, Unavailable> {
        self.tables.clock()
    }

    fn account(&mut self, id: u128) -> Result<Option<AccountWithBalances>, Unavailable> {
        self.tables.account(id)
    }

    fn transfer(&mut self, id: u128) -> Result<Option<Transfer>, Unavailable> {
        self.tables.transfer(id)
    }

    fn pending_state(&mut self, id: u128) -> Result<Option<PendingState>, Unavailable> {
        self.tables.pending_state(id)
    }

    fn failed(&mut self, id: u128) -> Result<bool, Unavailable> {
        self.tables.failed(id)
    }

    fn accounts_within(&mut self, alloc: Global, span: &Span) -> Result<Vec<Account>, Unavailable> {
        self.tables.accounts_within(alloc, span)
    }

    fn transfers_within(
        &mut self,
        alloc: Global,
        span: &Span,
    ) -> Result<Vec<Transfer>, Unavailable> {
        self.tables.transfers_within(alloc, span)
    }

    fn account_entries(
        &mut self,
        alloc: Global,
        account: u128,
        span: &Span,
    ) -> Result<Vec<AccountEntry>, Unavailable> {
        self.tables.account_entries(alloc, account, span)
    }

    fn settle(&mut self, clock: u64) -> Result<(), Unavailable> {
        self.tables.settle(clock)
    }

    fn accept_account(&mut self, account: &Account) -> Result<(), Unavailable> {
        self.tables.accept_account(account)
    }

    fn accept_transfer(&mut self, accepted: &Accepted) -> Result<(), Unavailable> {
        if self.room == 0 {
            self.tables.abandon();
            return Err(Unavailable::Memory);
        }
        self.room -= 1;
        self.tables.accept_transfer(accepted)
    }

    fn record_failed(&mut self, id: u128) -> Result<(), Unavailable> {
        self.tables.record_failed(id)
    }

    fn mark(&mut self) -> Result<(), Unavailable> {
        self.tables.mark()
    }

    fn back_to_mark(&mut self) -> Result<(), Unavailable> {
        self.tables.back_to_mark()
    }

    fn release_mark(&mut self) -> Result<(), Unavailable> {
        self.tables.release_mark()
    }

    ghost stays = { λ a. refl };

    ghost then = { λ a b c first second. second ∙ first };

    ghost lived = { λ a b follows live. tt };

    ghost valid = { λ a live usable. usable };
}

/// The ledger of one firm over such tables.
#[derive(Drop)]
struct ScarceLedger {
    digest: [u8; 32],
    scarce: Scarce,
}

impl Backend for ScarceLedger {
    ghost means = { record {
      ledgers = record {
        tenants = λ l digest.
            if bytes_eq digest l.digest then Some l.scarce.tables.now else None;
        is_live = λ l. Unit {0};
        has_failed = λ l. false;
        follows = λ a b. Unit {0};
        may_find = λ l found. ⊥;
      };
      is_usable = λ l.
          AreValid
          (λ digest. if bytes_eq digest l.digest then Some l.scarce.tables.now else None);
    } };

    fn has_failed(&self) -> bool {
        false
    }

    fn in_batch<W: Work + Drop>(
        &mut self,
        digest: &[u8; 32],
        work: W,
    ) -> Result<W::Output, BatchFault> {
        if *digest != self.digest {
            return Err(BatchFault::UnknownKey);
        }
        self.scarce.tables.begin();
        match work.run(&mut self.scarce) {
            Ok(output) => Ok(output),
            Err(why) => {
                self.scarce.tables.abandon();
                Err(BatchFault::Unavailable(why))
            }
        }
    }

    fn knows(&mut self, digest: &[u8; 32]) -> Result<bool, Unavailable> {
        Ok(*digest == self.digest)
    }

    ghost stays = { λ a. tt };

    ghost then = { λ a b c f g. tt };

    ghost lived = { λ a b f live. tt };

    ghost fails = { λ a b f failed. failed };

    ghost valid = { λ a live usable. usable };
}

// It refuses all rounds, so that each message is answered by itself.
impl RoundBackend for ScarceLedger {
    fn in_round<W: RoundWork + Drop>(&mut self, _work: W) -> Result<W::Output, Unavailable> {
        Err(Unavailable::Memory)
    }
}

/// Such a ledger, of which an opening finds nothing.
struct Unkept;

impl Settles<InUse<ScarceLedger>> for Unkept {
    fn is_settled(_ledgers: &InUse<ScarceLedger>) {}
}

/// A firm with such a ledger.
struct ScarceFirm {
    ledger: InUse<ScarceLedger>,
}

// It is written out, so that who lets a firm go does not prove again how each part is dropped.
impl Drop for ScarceFirm {
    fn drop(self) {
        let ScarceFirm { ledger: _ } = self;
    }
}

impl Answers for ScarceFirm {
    fn answer(&mut self, alloc: Global, bytes: &[u8], moment: u64) -> Reply {
        respond(alloc, &mut self.ledger, bytes, moment)
    }
}

impl ScarceFirm {
    /// The base, with memory for one transfer.
    fn base(rt: &impl Abort, alloc: Global) -> Result<ScarceFirm, Fail> {
        let digest = digest(&Key::read(FIRST.as_bytes()).ok_or("no key")?);
        let tables = PlainTables::new(alloc);
        let scarce = Scarce { tables, room: 1 };
        let backend = ScarceLedger { digest, scarce };
        let ledger = InUse { backend };
        let mut firm = ScarceFirm { ledger };
        exchange(
            rt,
            alloc,
            &mut firm,
            "North base => clock 4: 0@1 0@2 0@3 0@4",
        )?;
        Ok(firm)
    }

    fn give(&mut self, room: u64) {
        self.ledger.backend.scarce.room = room;
    }

    /// The replies to the messages of one round.
    fn round(&mut self, alloc: Global, messages: &[Message]) -> Result<Vec<Reply>, AllocError> {
        respond_round::<InUse<ScarceLedger>, Unkept>(alloc, &mut self.ledger, messages)
    }

    /// Looks whether it has its accounts alone.
    fn is_base(&mut self, rt: &impl Abort) {
        let tables = &mut self.ledger.backend.scarce.tables;
        tables.begin();
        same(rt, "the clock", tables.clock(), Ok(4));
        let lengths = (
            tables.accounts().len(),
            tables.transfers().len(),
            tables.failed_ids().len(),
        );
        same(rt, "what is kept", lengths, (4, 0, 0));
    }
}

const TOO_LITTLE: &str = "North transfers 100: 1>2 70 flags=3; 101: post=100 MAX \
=> unavailable 503 Service Unavailable";

const ENOUGH: &str = "North transfers 100: 1>2 70 flags=3; 101: post=100 MAX \
=> clock 6: 0@5 0@6";

#[test]
fn keeps_nothing_of_a_batch_that_ran_out_of_memory(rt: HostRuntime) -> Result<(), Fail> {
    let mut firm = ScarceFirm::base(&rt, rt.alloc())?;
    exchange(&rt, rt.alloc(), &mut firm, TOO_LITTLE)?;
    firm.is_base(&rt);
    firm.give(2);
    exchange(&rt, rt.alloc(), &mut firm, ENOUGH)?;
    Ok(())
}

/// What a firm sends in a round, of which memory suffices for all but the second, and what it is
/// told.
const TOO_MUCH: &str = "North@7 transfers 200: 1>2 10 => clock 8: 0@8
North@7 transfers 100: 1>2 70 flags=3; 101: post=100 MAX => unavailable 503 Service Unavailable
North@7 transfers => clock 8:";

#[test]
fn a_message_that_fails_takes_no_other_with_it(rt: HostRuntime) -> Result<(), Fail> {
    let messages = messages(rt.alloc(), TOO_MUCH)?;
    let replies = ScarceFirm::base(&rt, rt.alloc())?.round(rt.alloc(), &messages)?;
    are_told(&rt, rt.alloc(), TOO_MUCH, &replies)?;
    Ok(())
}
