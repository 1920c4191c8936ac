//! What an operator asks of a store while it is served, and what is done for it.
ghost use Rattle.std.specs.Prelude.{◌≡◌, Bool};
ghost use Rattle.commands.specs.Kept.{Attends};
ghost use Rattle.commands.specs.Orders.{CarriesOut, IsToldOfOrder};

use crate::changing::TenantChange;
use crate::kept::Kept;
use crate::pieces::read_piece;
use crate::stores::may_be_called;
use chain::{AccountEntry, InUse, Listed};
use command_texts::Fault;
use records::Span;
use sqlite_disk::Disk;
use std::alloc::Global;
use store::{ListedTenant, Store};
use tenants::TenantName;

/// What an operator asks of a store.
#[derive(Clone, Copy, Debug, PartialEq, Eq)]
pub enum Order {
    /// Which tenants there are.
    Tenants,
    /// A new tenant, known by a key with this digest.
    AddTenant {
        name: TenantName,
        digest: [u8; 32],
    },
    /// Another key for a tenant.
    ChangeKey {
        name: TenantName,
        digest: [u8; 32],
    },
    /// The entries of a tenant's account within a span of time.
    Statement {
        tenant: TenantName,
        account: u128,
        span: Span,
    },
}

/// What an order came to, where it was carried out.
#[derive(Drop)]
pub enum Done {
    /// These are the tenants.
    Listed(Vec<ListedTenant>),
    /// The tenant was added, or has another key.
    Changed,
    /// These are the account's entries, by the tenant's clock.
    Read(Listed<AccountEntry>),
}

/// Where an operator asks for something, and is told what became of it.
pub trait Orders {
    ghost use Rattle.std.specs.Prelude.{Result};
    ghost use Rattle.command_texts.specs.declared.fault.Fault.{Fault};
    ghost use Rattle.commands.specs.declared.orders.Done.{Done};
    ghost use Rattle.commands.specs.declared.orders.Order.{Order};

    // Whether it was asked to end.
    ghost stops: { Self → Bool };

    // What telling it what an order came to makes of it.
    ghost tells: { Self → Order → Result Done Fault → Self → Type 0 } = { λ _ _ _ _. Unit {0} };

    /// What is asked of the store next, if anything is. Is told whether a store is there that
    /// answers calls.
    fn next(&mut self, is_answering: bool) -> Option<Order>;

    /// Tells what the order that was given last came to.
    fn tell(&mut self, order: &Order, done: Result<Done, Fault>)
        ensures { tells self.old order.now done self.new };

    /// Whether it was asked to end.
    fn is_stopping(&self) -> bool
        ensures { result ≡ stops self.now };
}

// Carries out an order on a store.
fn carry_out_on<D: Disk + Drop>(
    alloc: Global,
    store: &mut InUse<Store<D>>,
    order: &Order,
) -> Result<Done, Fault>
    ensures { CarriesOut order.now store.old result store.new }
{
    match order {
        Order::Tenants => {
            let listed = store.backend.tenants();
            may_be_called(store);
            match listed {
                Ok(tenants) => Ok(Done::Listed(tenants)),
                Err(_) => Err(Fault::Unavailable),
            }
        }
        Order::AddTenant { name, digest } => {
            TenantChange::Adding.make(store, name, digest)?;
            Ok(Done::Changed)
        }
        Order::ChangeKey { name, digest } => {
            TenantChange::Keying.make(store, name, digest)?;
            Ok(Done::Changed)
        }
        Order::Statement {
            tenant,
            account,
            span,
        } => read_piece(alloc, store, tenant, *account, span),
    }
}

/// Carries out an order, and tells what it came to. Where no store is there, that is `Unavailable`.
pub(crate) fn carry_out<D: Disk + Drop, O: Orders>(
    alloc: Global,
    kept: &mut Kept<InUse<Store<D>>>,
    orders: &mut O,
    order: &Order,
)
    ensures told { IsToldOfOrder O.tells order.now orders.old kept.old orders.new kept.new }
    ensures renews { Attends None kept.old kept.new }
{
    match kept {
        Kept::Open(store) => {
            let done = carry_out_on(alloc, store, order);
            orders.tell(order, done);
        }
        Kept::Closed => orders.tell(order, Err(Fault::Unavailable)),
    }
}
