//! What an operator asks of a store while it is served.
ghost use Rattle.std.specs.Prelude.{false};

use super::firms::{KEY, Messages, NO_TRANSFERS};
use super::homes::{Fails, Firms, InMemory, Notes, Nowhere, TestDisk};
use super::scripted::{Hand, Scripted};
use super::serving::{AT_FIRST, Thousands};
use command_texts::Fault;
use commands::{Done, Order, Orders, Served, serve_store};
use records::{Order as InTime, Span};
use sqlite_disk::Disk;
use std::alloc::{AllocError, Global};
use std::test::Fail;
use tenants::{Key, TenantName, digest};

/// Nobody, who asks for nothing.
#[derive(Drop)]
pub struct Silent;

impl Orders for Silent {
    ghost stops = { λ _. false };

    fn next(&mut self, _is_answering: bool) -> Option<Order> {
        None
    }

    fn tell(&mut self, _order: &Order, _done: Result<Done, Fault>) {}

    fn is_stopping(&self) -> bool {
        false
    }
}

/// An operator who asks for these, one at each turn, and then that it ends. What came of each is
/// noted as a line.
#[derive(Drop)]
struct Asking<'a> {
    alloc: Global,
    orders: &'a [Order],
    told: String,
    has_ended: bool,
}

impl Asking<'_> {
    fn note(&mut self, done: Result<Done, Fault>) -> Result<(), AllocError> {
        match done {
            Ok(Done::Changed) => self.told.push_str("done\n"),
            Ok(Done::Listed(tenants)) => {
                for tenant in tenants.iter() {
                    let (name, first) = (tenant.name.as_str(), tenant.digest[0]);
                    let line = format!(in self.alloc; "{name} {first} {}\n", tenant.clock)?;
                    self.told.push_str(line.as_str())?;
                }
                Ok(())
            }
            Ok(Done::Read(listed)) => {
                for entry in listed.entries.iter() {
                    let (id, sums) = (entry.transfer.id, entry.balances.debits);
                    let (pending, posted) = (sums.pending.value(), sums.posted.value());
                    let line = format!(in self.alloc; "{id} {pending} {posted}\n")?;
                    self.told.push_str(line.as_str())?;
                }
                Ok(())
            }
            Err(fault) => self.told.push_str(fault.line()),
        }
    }
}

impl Orders for Asking<'_> {
    ghost stops = { λ asking. asking.has_ended };

    fn next(&mut self, _is_answering: bool) -> Option<Order> {
        let [first, rest @ ..] = self.orders else {
            self.has_ended = true;
            return None;
        };
        self.orders = rest;
        Some(*first)
    }

    fn tell(&mut self, _order: &Order, done: Result<Done, Fault>) {
        let _ = self.note(done);
    }

    fn is_stopping(&self) -> bool {
        self.has_ended
    }
}

// A name, and a digest whose bytes are all alike.
fn named(name: &str, byte: u8) -> Option<(TenantName, [u8; 32])> {
    Some((TenantName::read(name)?, [byte; 32]))
}

fn adding(name: &str, byte: u8) -> Option<Order> {
    let (name, digest) = named(name, byte)?;
    Some(Order::AddTenant { name, digest })
}

fn changing(name: &str, byte: u8) -> Option<Order> {
    let (name, digest) = named(name, byte)?;
    Some(Order::ChangeKey { name, digest })
}

// At most so many entries of an account, whenever they were accepted.
fn reading(name: &str, account: u128, order: InTime, most: u32) -> Option<Order> {
    let tenant = TenantName::read(name)?;
    let span = Span {
        first: 0,
        last: u64::MAX,
        order,
        most,
    };
    Some(Order::Statement {
        tenant,
        account,
        span,
    })
}

// What an operator is told of these orders, behind what a client is told who sends two batches.
fn ordered_of<D: Disk + Drop, F: Firms<D>>(
    alloc: Global,
    firms: &F,
    orders: &[Order],
    messages: u64,
) -> Result<String, Fail> {
    let clock = Hand::new();
    let home = Nowhere(Notes::new(alloc, &clock));
    let Some(mut store) = firms.store(Fails::Never) else {
        return Err(Fail::new(format_args!("no store")));
    };
    Messages::PostedInPart.send(alloc, &mut store);
    let mut peers = Scripted::new(alloc, &clock, 1);
    if messages > 0 {
        peers.add(NO_TRANSFERS, messages)?;
    }
    let most = if messages > 0 { messages } else { u64::MAX };
    let mut moments = Thousands(&clock);
    let asking = Asking {
        alloc,
        orders,
        told: String::new(alloc),
        has_ended: false,
    };
    let (served, asking) = serve_store(
        alloc,
        &mut peers,
        &home,
        Some(store),
        &mut moments,
        &clock,
        asking,
        most,
    );
    let heard = peers.heard()?;
    let text = str::from_utf8(heard.as_slice())?;
    let ended = match served {
        Ok(Served::Enough) => "enough",
        Ok(Served::Stopped) => "stopped",
        Err(fault) => fault.line(),
    };
    Ok(format!(in alloc; "{text}|{}|{ended}", asking.told.as_str())?)
}

fn ordered(rt: &HostRuntime, orders: &[Option<Order>], messages: u64) -> Result<String, Fail> {
    let mut all = Vec::new(rt.alloc());
    for order in orders {
        match order {
            Some(order) => all.push(*order)?,
            None => return Err(Fail::new(format_args!("no such name"))),
        }
    }
    let firms = InMemory(rt.alloc());
    ordered_of::<TestDisk, InMemory>(rt.alloc(), &firms, all.as_slice(), messages)
}

// Names and digests are anybody's once; who is listed stands in the order of names.
#[test]
fn carries_out_orders_and_ends(rt: HostRuntime) -> Result<(), Fail> {
    let orders = [
        adding("north", 9),
        adding("east", 7),
        adding("north", 8),
        adding("west", 7),
        changing("west", 5),
        changing("east", 9),
        changing("east", 5),
        Some(Order::Tenants),
    ];
    let told = ordered(&rt, &orders, 0)?;
    let want = "|done\ndone\nledgerd: name_taken\nledgerd: digest_taken\nledgerd: no_tenant\n\
        ledgerd: digest_taken\ndone\neast 5 0\nfirm 102 6\nnorth 9 0\n|stopped";
    assert_eq!(rt; told.as_str(), want);
    Ok(())
}

// Account 1 behind a hold of 100 and its post of 40: the hold is pending, then 40 are posted.
#[test]
fn reads_pieces_of_statements(rt: HostRuntime) -> Result<(), Fail> {
    let orders = [
        reading("firm", 1, InTime::Oldest, 9),
        reading("firm", 1, InTime::Newest, 1),
        reading("firm", 5, InTime::Oldest, 9),
        reading("nobody", 1, InTime::Oldest, 9),
    ];
    let told = ordered(&rt, &orders, 0)?;
    let want = "|100 100 0\n101 0 40\n101 0 40\nledgerd: no_account\nledgerd: no_tenant\n|stopped";
    assert_eq!(rt; told.as_str(), want);
    Ok(())
}

// The digest of the firm's key of zeros begins with 0x66 = 102.
#[test]
fn lists_a_tenant_by_the_digest_of_its_key(rt: HostRuntime) -> Result<(), Fail> {
    let Some(key) = Key::read(KEY.as_bytes()) else {
        return Err(Fail::new(format_args!("no key")));
    };
    assert_eq!(rt; digest(&key)[0], 102);
    Ok(())
}

// Who asks with the key that was before is told so: `unknown_key` (RFC 9110, 15.5.2).
#[test]
fn forgets_a_key_that_was_changed(rt: HostRuntime) -> Result<(), Fail> {
    let told = ordered(&rt, &[changing("firm", 5)], 1)?;
    assert!(rt; told.as_str().starts_with("|HTTP/1.1 401 Unauthorized\r\n"));
    assert!(rt; told.as_str().ends_with("|done\n|enough"));
    Ok(())
}

// Who is known is served on, whatever is ordered of others.
#[test]
fn serves_others_on(rt: HostRuntime) -> Result<(), Fail> {
    let orders = [
        adding("north", 9),
        changing("nobody", 5),
        changing("north", 6),
    ];
    let told = ordered(&rt, &orders, 2)?;
    let want = format!(in rt.alloc(); "|{AT_FIRST}|done\nledgerd: no_tenant\ndone\n|enough")?;
    assert_eq!(rt; told.as_str(), want.as_str());
    Ok(())
}
