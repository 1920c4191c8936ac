//! Serves a store to many clients at once, and to an operator.
ghost use Rattle.std.specs.Prelude.{◌≡◌, IfErr, IfOk, IsTrue, Ok};
ghost use Rattle.commands.specs.Kept.{kept_of};
ghost use Rattle.commands.specs.Leaving.{HasFailedServing, HasServedStore};
ghost use Rattle.commands.specs.Serving.{ServesKept, ServesStore};

use crate::desk::HostDesk;
use crate::kept::{Kept, may_be_called};
use crate::orders::Orders;
use crate::renewing::{Home, Renewing};
use crate::serving::{Served, serve_clients};
use chain::InUse;
use command_texts::Fault;
use polling::Peers;
use service::Moments;
use sqlite_disk::Disk;
use std::alloc::Global;
use std::time::Clock;
use store::Store;

/// What has served, where that has ended without a fault. Only `serve_to_end` makes one.
#[derive(Drop)]
pub struct EndedService<D: Disk + Drop, P, C, O> {
    why: Served,
    kept: Kept<InUse<Store<D>>>,
    peers: P,
    moments: C,
    orders: O,
}

impl<D: Disk + Drop, P: Drop, C: Drop> EndedService<D, P, C, HostDesk<'_>> {
    /// Writes the log back and lets go of the files, and then tells whoever asked for the end. Says
    /// why it has ended.
    pub fn close(self) -> Served
        ensures { result ≡ self.entry.why }
    {
        let EndedService {
            why,
            kept,
            peers: _peers,
            moments: _moments,
            orders,
        } = self;
        orders.leave(kept);
        orders.close();
        why
    }
}

/// Serves a store as `serve_store` does, and hands back what has served; with a fault whose orders
/// were carried out.
pub(crate) fn serve_to_end<
    D: Disk + Drop,
    P: Peers + Drop,
    H: Home<D>,
    C: Moments + Drop,
    K: Clock,
    O: Orders,
>(
    alloc: Global,
    mut peers: P,
    home: &H,
    store: Option<InUse<Store<D>>>,
    mut moments: C,
    clock: &K,
    orders: O,
    most: u64,
) -> Result<EndedService<D, P, C, O>, (Fault, O)>
    ensures served { IfOk result
        (HasServedStore H.opens C.gives P.does (kept_of store) moments peers most) }
    ensures stopped { IfOk result
        (λ ended. ended.why ≡ Served.Stopped → IsTrue (O.stops ended.orders)) }
    ensures fault { IfErr result (λ error. error.0 ≡ Fault.Socket) }
    ensures failed { IfErr result (λ error.
        HasFailedServing H.opens C.gives P.does (kept_of store) moments peers most error.0) }
{
    let mut kept = Kept::of(store);
    let (served, orders) = serve_kept(
        alloc,
        &mut peers,
        home,
        &mut kept,
        &mut moments,
        clock,
        orders,
        most,
    );
    match served {
        Ok(why) => Ok(EndedService {
            why,
            kept,
            peers,
            moments,
            orders,
        }),
        Err(fault) => Err((fault, orders)),
    }
}

/// Serves a store to those who are connected, until `most` messages were replied to, or an operator
/// asks that it ends.
///
/// Between turns an operator's orders are carried out, one at a time, and who asks for them is
/// given back. Where there are none holds are released that are due by the clock, some 200 of a
/// tenant at a time, and a batch of a tenant that has more of them waits. Without a store one is
/// opened first, likewise.
///
/// Where the store's disk has failed, the store is opened again, over the same files or else anew,
/// before anything else is done: at once, and while that is refused, after a second, and then after
/// twice the time that was waited for, up to a minute. Between these attempts each message is
/// answered that the service is unavailable. `home` is told why, the first time, and that the store
/// answers again, once it does.
pub fn serve_store<D: Disk + Drop, P: Peers, H: Home<D>, C: Moments, K: Clock, O: Orders>(
    alloc: Global,
    peers: &mut P,
    home: &H,
    store: Option<InUse<Store<D>>>,
    moments: &mut C,
    clock: &K,
    orders: O,
    most: u64,
) -> (Result<Served, Fault>, O)
    ensures served { ServesStore H.opens C.gives P.does (kept_of store) moments.old peers.old most
        moments.new peers.new result.0 }
    ensures stopped { result.0 ≡ Ok Served.Stopped → IsTrue (O.stops result.1) }
    ensures fault { IfErr result.0 (λ fault. fault ≡ Fault.Socket) }
{
    let mut kept = Kept::of(store);
    serve_kept(alloc, peers, home, &mut kept, moments, clock, orders, most)
}

// Serves a store, or what stands in its place.
fn serve_kept<D: Disk + Drop, P: Peers, H: Home<D>, C: Moments, K: Clock, O: Orders>(
    alloc: Global,
    peers: &mut P,
    home: &H,
    kept: &mut Kept<InUse<Store<D>>>,
    moments: &mut C,
    clock: &K,
    orders: O,
    most: u64,
) -> (Result<Served, Fault>, O)
    ensures served { ServesKept H.opens C.gives P.does kept.old moments.old peers.old most
        kept.new moments.new peers.new result.0 }
    ensures stopped { result.0 ≡ Ok Served.Stopped → IsTrue (O.stops result.1) }
    ensures fault { IfErr result.0 (λ fault. fault ≡ Fault.Socket) }
{
    let mut renewing = Renewing::new(alloc, home, clock, orders);
    may_be_called(kept);
    let served = serve_clients(alloc, peers, kept, &mut renewing, moments, most);
    may_be_called(kept);
    (served, renewing.into_orders())
}
