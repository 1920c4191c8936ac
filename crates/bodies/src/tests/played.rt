//! Worked examples as tables, and how they are played.
use super::ledger::Ledger;
use records::{AccountEvent, TransferEvent};
use samples::{KEEPS_HISTORY, LIMITS_DEBITS, account, post, transfer, void, with};
use std::alloc::{AllocError, Global};
use std::process::Abort;
use std::test::Fail;

/// The greatest amount.
pub(super) const MAX: u128 = u128::MAX;

/// An account as an example opens it: its id, its flags and its ledger.
pub(super) type Opened = (u128, u16, u32);

/// A transfer as an example sends it.
pub(super) enum Sent {
    /// Its id, its accounts and its amount.
    New(u128, (u128, u128), u128),
    /// One with these flags.
    With(u16, u128, (u128, u128), u128),
    /// One with these flags and a timeout of a second.
    Timed(u16, u128, (u128, u128), u128),
    /// Its id, the pending transfer that it posts, and its amount.
    Post(u128, u128, u128),
    /// A post that names a debit account, which comes first.
    PostFrom(u128, u128, u128, u128),
    Void(u128, u128, u128),
}

/// What an example does, or looks at.
pub(super) enum Act {
    /// A batch of accounts at a moment.
    Open(u64, &'static [Opened]),
    /// A batch of transfers at a moment.
    Send(u64, &'static [Sent]),
    /// The sums of an account that are not 0.
    Balances(u128),
    /// The ids of all transfers and their amounts.
    Amounts,
    /// The ids that failed for good, and the clock.
    Failed,
}

/// What is done, and what is told of it.
pub(super) type Step = (Act, &'static str);

/// A worked example: its name, and its steps in turn.
pub(super) type Example = (&'static str, &'static [Step]);

/// Accounts 1 to 4, of which 3 keeps history and limits its debits.
const BASE: &[Step] = &[(
    Act::Open(
        0,
        &[
            (1, 0, 7),
            (2, 0, 7),
            (3, LIMITS_DEBITS + KEEPS_HISTORY, 7),
            (4, 0, 7),
        ],
    ),
    "0@1, 0@2, 0@3, 0@4, clock 4",
)];

/// A ledger with the accounts of the base.
pub(super) fn base(rt: &impl Abort, alloc: Global) -> Result<Ledger, Fail> {
    let mut ledger = Ledger::new(alloc);
    play(rt, alloc, &mut ledger, &("the base", BASE))?;
    Ok(ledger)
}

/// Plays an example.
pub(super) fn play(
    rt: &impl Abort,
    alloc: Global,
    ledger: &mut Ledger,
    example: &Example,
) -> Result<(), Fail> {
    let (name, steps) = example;
    for (act, want) in steps.iter() {
        let told = done(alloc, ledger, act)?;
        assert_eq!(rt; told.as_str(), *want, "{name}");
    }
    Ok(())
}

/// Plays each example on a base of its own.
pub(super) fn play_all(rt: &impl Abort, alloc: Global, examples: &[Example]) -> Result<(), Fail> {
    for example in examples {
        play(rt, alloc, &mut base(rt, alloc)?, example)?;
    }
    Ok(())
}

fn done(alloc: Global, ledger: &mut Ledger, act: &Act) -> Result<String, Fail> {
    match act {
        Act::Open(moment, accounts) => ledger.open(*moment, &opened(alloc, accounts)?),
        Act::Send(moment, transfers) => ledger.send(*moment, &events(alloc, transfers)?),
        Act::Balances(id) => ledger.balances(*id),
        Act::Amounts => ledger.amounts(),
        Act::Failed => ledger.failed(),
    }
}

fn opened(alloc: Global, accounts: &[Opened]) -> Result<Vec<AccountEvent>, AllocError> {
    let mut events = Vec::new(alloc);
    for (id, flags, ledger) in accounts {
        events.push(AccountEvent {
            ledger: *ledger,
            ..account(*id, *flags)
        })?;
    }
    Ok(events)
}

fn events(alloc: Global, transfers: &[Sent]) -> Result<Vec<TransferEvent>, AllocError> {
    let mut events = Vec::new(alloc);
    for sent in transfers {
        events.push(event(sent))?;
    }
    Ok(events)
}

fn event(sent: &Sent) -> TransferEvent {
    match sent {
        Sent::New(id, accounts, amount) => transfer(*id, *accounts, *amount),
        Sent::With(flags, id, accounts, amount) => {
            with(*flags, transfer(*id, *accounts, *amount))
        }
        Sent::Timed(flags, id, accounts, amount) => TransferEvent {
            timeout: 1,
            ..with(*flags, transfer(*id, *accounts, *amount))
        },
        Sent::Post(id, pending, amount) => post(*id, *pending, *amount),
        Sent::PostFrom(debit, id, pending, amount) => TransferEvent {
            debit_account_id: *debit,
            ..post(*id, *pending, *amount)
        },
        Sent::Void(id, pending, amount) => void(*id, *pending, *amount),
    }
}
