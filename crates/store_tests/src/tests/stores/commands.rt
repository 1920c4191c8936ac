//! What a store answers to commands, in words.

use super::driven::Driven;
use super::events::{accounts, number, ones, transfers};
use super::reads::read;
use super::rounds::send_both;
use super::tables::{directory, table};
use crate::tests::works::{Failing, Looking, Opening, Sending};
use audit::AuditFault;
use chain::{BatchFault, BatchReply};
use records::{AccountFilter, AccountResult, EventResult, FilterFlags, TransferResult};
use rows::AllRows;
use sqlite_disk::Disk;
use std::alloc::{AllocError, Global};
use std::fmt::Debug;
use store::{Audit, FullAudit};
use tenants::TenantName;

/// A text, if there is memory for it.
pub type Text = Result<String, AllocError>;

/// What a tenant asks.
#[derive(Clone, Copy)]
pub struct Command<'a> {
    pub alloc: Global,
    pub who: &'a str,
    pub verb: &'a str,
    pub rest: &'a str,
}

impl<'a> Command<'a> {
    /// Reads who asks, a verb and the rest.
    pub fn read(alloc: Global, text: &'a str) -> Command<'a> {
        let (who, rest) = text.split_once(' ').unwrap_or((text, ""));
        let (verb, rest) = rest.split_once(' ').unwrap_or((rest, ""));
        Command {
            alloc,
            who,
            verb,
            rest,
        }
    }

    /// The digest of the tenant.
    pub fn digest(&self) -> [u8; 32] {
        match self.who {
            "North" => [1; 32],
            "South" => [2; 32],
            _ => [3; 32],
        }
    }

    /// A moment, and the events behind it.
    pub fn batch(&self) -> (u64, &str) {
        match self.rest.strip_prefix("at ") {
            None => (0, self.rest),
            Some(rest) => {
                let (moment, events) = rest.split_once(' ').unwrap_or((rest, ""));
                (moment.parse().unwrap_or(0), events)
            }
        }
    }

    /// The ids that are asked for.
    pub fn ids(&self) -> Result<Vec<u128>, AllocError> {
        self.rest.split_whitespace().map(number).collect(self.alloc)
    }

    /// What a filter asks for: an account, flags, a limit and two times.
    pub fn filter(&self) -> AccountFilter {
        let mut numbers = [0; 5];
        for (place, word) in numbers.iter_mut().zip(self.rest.split_whitespace()) {
            *place = word.parse().unwrap_or(u64::MAX);
        }
        let [account, flags, limit, timestamp_min, timestamp_max] = numbers;
        AccountFilter {
            account_id: u128::from(account),
            timestamp_min,
            timestamp_max,
            limit: u32::try_from(limit).unwrap_or(1000),
            flags: FilterFlags(u16::try_from(flags).unwrap_or(7)),
        }
    }
}

/// An audit that has no memory to look at the rows.
pub struct NoMemory;

impl Audit for NoMemory {
    fn audit(&self, _alloc: Global, _rows: &AllRows) -> Result<(), AuditFault> {
        Err(AuditFault::Memory)
    }
}

/// A text that is told.
pub fn said(alloc: Global, text: &str) -> Text {
    format!(in alloc; "{text}")
}

/// A value as it is printed for those who look for faults.
pub fn shown<T: Debug>(alloc: Global, value: &T) -> Text {
    format!(in alloc; "{value:?}")
}

/// Puts a word behind a text.
pub fn put_word(text: &mut String, word: String) -> Result<(), AllocError> {
    text.push(' ')?;
    text.push_str(word.as_str())
}

/// What a store answers.
pub fn answer<D: Disk + Drop>(store: &mut Driven<D>, command: &Command<'_>) -> Text {
    match command.verb {
        "accounts" => open(store, command),
        "transfers" | "ones" | "fail" => send(store, command),
        "both" => send_both(store, command),
        "see" => see(store, command),
        "add" | "key" | "digest" => of_name(store, command),
        _ => of_all(store, command),
    }
}

/// What is answered about the rows and the store.
fn of_all<D: Disk + Drop>(store: &mut Driven<D>, command: &Command<'_>) -> Text {
    let alloc = command.alloc;
    match command.verb {
        "rows" => table(
            alloc,
            store.ledgers.backend.rows_of(&command.digest()),
            command.rest,
        ),
        "directory" => directory(alloc, store.ledgers.backend.all_rows()),
        "knows" => shown(alloc, &store.knows(&command.digest())),
        "ready" => shown(alloc, &store.is_ready()),
        "reopen" => shown(alloc, &store.reopen(&FullAudit)),
        "reopen-without-memory" => shown(alloc, &store.reopen(&NoMemory)),
        _ => read(store, command),
    }
}

/// An account, transfer 100 and the clock.
fn see<D: Disk + Drop>(store: &mut Driven<D>, command: &Command<'_>) -> Text {
    let account = number(command.rest);
    let seen = store.run(&command.digest(), Looking { account });
    shown(command.alloc, &seen)
}

/// What concerns a tenant's name.
fn of_name<D: Disk + Drop>(store: &mut Driven<D>, command: &Command<'_>) -> Text {
    let Some(name) = TenantName::read(command.who) else {
        return said(command.alloc, "no name");
    };
    if command.verb == "digest" {
        return shown(
            command.alloc,
            &store.ledgers.backend.digest_of(&name).map(first_byte),
        );
    }
    let digest = [command.rest.parse().unwrap_or(0); 32];
    if command.verb == "key" {
        return shown(
            command.alloc,
            &store.ledgers.backend.change_key(&name, &digest),
        );
    }
    shown(command.alloc, &store.add(&name, &digest))
}

fn first_byte(digest: Option<[u8; 32]>) -> Option<u8> {
    digest.map(|bytes| bytes[0])
}

/// Sends a batch of accounts.
fn open<D: Disk + Drop>(store: &mut Driven<D>, command: &Command<'_>) -> Text {
    let alloc = command.alloc;
    let (moment, events) = command.batch();
    let accounts = accounts(alloc, events)?;
    let opening = Opening {
        alloc,
        accounts: &accounts,
        moment,
    };
    told(alloc, store.run(&command.digest(), opening))
}

/// Sends a batch of transfers, or `ones`, of which it tells whether they were run: transfers of 1
/// with the ids from a first one, before a last. One that is to `fail` wants memory at its end.
fn send<D: Disk + Drop>(store: &mut Driven<D>, command: &Command<'_>) -> Text {
    let alloc = command.alloc;
    let (moment, events) = command.batch();
    let transfers = if command.verb == "ones" {
        let (first, last) = events.split_once(' ').unwrap_or(("", ""));
        ones(alloc, first.parse().unwrap_or(0), last.parse().unwrap_or(0))?
    } else {
        transfers(alloc, events)?
    };
    let sending = Sending {
        alloc,
        transfers: &transfers,
        moment,
    };
    match command.verb {
        "ones" => shown(alloc, &store.run(&command.digest(), sending).is_ok()),
        "fail" => shown(alloc, &store.run(&command.digest(), Failing { sending })),
        _ => told(alloc, store.run(&command.digest(), sending)),
    }
}

/// A result that has a number.
pub trait Numbered: Copy {
    fn its_number(self) -> u16;
}

impl Numbered for AccountResult {
    fn its_number(self) -> u16 {
        self.number()
    }
}

impl Numbered for TransferResult {
    fn its_number(self) -> u16 {
        self.number()
    }
}

/// The reply to a batch: the clock, and the number and timestamp of each result.
pub fn told<R: Numbered>(alloc: Global, reply: Result<BatchReply<R>, BatchFault>) -> Text {
    match reply {
        Err(fault) => shown(alloc, &fault),
        Ok(BatchReply::ClockExhausted) => said(alloc, "the clock is exhausted"),
        Ok(BatchReply::Done { clock, results }) => results_told(alloc, clock, &results),
    }
}

fn results_told<R: Numbered>(alloc: Global, clock: u64, results: &[EventResult<R>]) -> Text {
    let mut text = format!(in alloc; "clock {clock}:")?;
    for each in results {
        put_word(&mut text, result_told(alloc, each)?)?;
    }
    Ok(text)
}

fn result_told<R: Numbered>(alloc: Global, each: &EventResult<R>) -> Text {
    format!(in alloc; "{}@{}", each.result.its_number(), each.timestamp)
}
