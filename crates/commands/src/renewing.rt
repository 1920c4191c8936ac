//! A store that is seen to between turns: opened again where its disk fails, an operator's orders
//! are carried out on it, and holds that are due are released.
ghost use Rattle.std.specs.Prelude.{◌≡◌, ◌*◌, min, false, IfErr, IfOk, IsTrue, OnErr, OnOk};
ghost use Rattle.chain.specs.Backends.{in_use};
ghost use Rattle.polling.specs.Serving.{HasAttended};
ghost use Rattle.service.specs.Openings.{run_meaning, IsSettled, IsOpened};
ghost use Rattle.store.specs.Stores.{AnswersCalls};
ghost use Rattle.store.specs.StoreLaws.{store_meaning};
ghost use Rattle.commands.specs.Behind.{MayWait};
ghost use Rattle.commands.specs.Kept.{answers, kept_store, IsLiveKept};
ghost use Rattle.commands.specs.Kept.{Attends, GivesFiles, IsGivenUp, IsOpenedAnew};
ghost use Rattle.commands.specs.Kept.{IsRefusedAgain, Renews};
ghost use Rattle.commands.specs.Openings.{IsOpeningFault};

use crate::kept::Kept;
use crate::opening::open_fault;
use crate::orders::{Orders, carry_out};
use crate::pieces::next_part;
use crate::serving::Stops;
use crate::settling::Settler;
use crate::stores::is_settled;
use chain::InUse;
use command_texts::Fault;
use parts::{Part, Rest};
use polling::Steward;
use records::Unavailable;
use service::Moments;
use sqlite::Files;
use sqlite_disk::Disk;
use std::alloc::Global;
use std::mem;
use std::time::{Clock, Duration};
use store::{FullAudit, OpenFault, Store};

/// For how many seconds a store that is refused is not opened, the first time.
const FIRST_PAUSE: u64 = 1;

/// For how many at most.
const LONGEST_PAUSE: u64 = 60;

/// Where a store is opened anew.
pub trait Home<D: Disk + Drop> {
    ghost use Rattle.std.specs.Prelude.{Err, IfErr, IfOk, Ok, Option, Result};
    ghost use Rattle.sqlite_disk.specs.declared.Files.{Files};
    ghost use Rattle.chain.specs.Ledgers.{Tenants};
    ghost use Rattle.store.specs.Stores.{AnswersCalls, tenants_of};
    ghost use Rattle.command_texts.specs.declared.fault.Fault.{Fault};
    ghost use Rattle.commands.specs.Openings.{IsOpeningFault, RefusesSome};

    // Which tenants a store may have that it opens in the place of one that gave these files back, and
    // with which fault it may refuse that.
    ghost opens: { Option (Files D) → Result Tenants Fault → Type 0 } = { λ _ _. Unit {0} };

    /// Opens a store in the place of one that gave these files back, if there was one, and first
    /// lets go of them.
    fn open_store(&self, left: &mut Option<Files<D>>) -> Result<InUse<Store<D>>, Fault>
        ensures opens { IfOk result (λ store. opens left.old (Ok (tenants_of store))) }
        ensures refuses { IfErr result (λ fault. opens left.old (Err fault)) }
        ensures ready { IfOk result AnswersCalls }
        ensures fault { IfErr result (RefusesSome D.Disk) };

    /// Is told why a store could not be opened again: once, until it is told that a store answers.
    fn tell(&self, fault: Fault)
        requires { IsOpeningFault fault };

    /// Is told of each time that it was tried to open a store again: one is open now, or this is
    /// why none is.
    fn tried(&self, _refused: Option<Fault>) {}

    /// Is told whether holds are being released, so that it is to be gone on soon.
    fn settles(&self, _is_busy: bool) {}

    /// Is told that a store answers calls again.
    fn tell_answers(&self, store: &InUse<Store<D>>)
        requires { AnswersCalls store.now };
}

/// A time in which a store that was refused is not opened.
#[derive(Clone, Copy)]
struct Pause {
    /// The moment of the clock at which it is over.
    until: Duration,
    /// How many seconds it lasts.
    seconds: u64,
}

/// Carries out an operator's orders, and opens a store again where its disk has failed: at once,
/// and then, while that is refused, after a second, and after twice the time that was waited for,
/// up to a minute. A store that answers has the holds released that are due.
pub(crate) struct Renewing<'a, H, K: Clock, O> {
    alloc: Global,
    home: &'a H,
    clock: &'a K,
    orders: O,
    /// Since the last attempt, where that was refused.
    pause: Option<Pause>,
    settler: Settler,
}

impl<'a, H, K: Clock, O> Renewing<'a, H, K, O> {
    pub(crate) fn new(alloc: Global, home: &'a H, clock: &'a K, orders: O) -> Self {
        Renewing {
            alloc,
            home,
            clock,
            orders,
            pause: None,
            settler: Settler::new(alloc),
        }
    }

    /// Gives back whose orders are carried out.
    pub(crate) fn into_orders(self) -> O
        ensures { result ≡ self.entry.orders }
    {
        let Renewing {
            alloc: _,
            home: _,
            clock: _,
            orders,
            pause: _,
            settler: _settler,
        } = self;
        orders
    }
}

// How long the next pause is.
fn twice(seconds: u64) -> u64
    ensures { result ≡ min (2 * seconds) 60 }
{
    seconds.saturating_mul(2).min(LONGEST_PAUSE)
}

impl<H, K: Clock, O: Orders> Stops for Renewing<'_, H, K, O> {
    ghost stops = { λ renewing. O.stops renewing.orders };

    fn is_stopping(&self) -> bool {
        self.orders.is_stopping()
    }
}

impl<D: Disk + Drop, H: Home<D>, K: Clock, O: Orders> Steward<Kept<InUse<Store<D>>>>
    for Renewing<'_, H, K, O> {
    ghost renews = { λ given old new. Renews H.opens given old new };

    ghost waits = { MayWait };

    fn is_settled(kept: &Kept<InUse<Store<D>>>) {
        match kept {
            Kept::Open(store) => is_settled(store),
            Kept::Closed => {}
        }
    }

    fn attend<C: Moments>(&mut self, kept: &mut Kept<InUse<Store<D>>>, moments: &mut C) {
        match self.orders.next(is_answering(kept)) {
            Some(order) => carry_out(self.alloc, kept, &mut self.orders, &order),
            None => {
                if is_answering(kept) {
                    settle(self.home, self.clock, moments, &mut self.settler, kept);
                } else {
                    self.settler.begin();
                    renew(self.home, self.clock, &mut self.pause, kept);
                }
            }
        }
    }

    fn reads(alloc: Global, kept: &mut Kept<InUse<Store<D>>>, rest: &Rest) -> Option<Part> {
        match kept {
            Kept::Open(store) => next_part(alloc, store, rest),
            Kept::Closed => None,
        }
    }

    fn puts_off(&self, message: &[u8]) -> bool {
        self.settler.puts_off(message)
    }
}

// Releases a piece of what is due, unless it is rested from the last one.
fn settle<D: Disk + Drop, H: Home<D>, K: Clock, C: Moments>(
    home: &H,
    clock: &K,
    moments: &mut C,
    settler: &mut Settler,
    kept: &mut Kept<InUse<Store<D>>>,
)
    ensures { HasAttended C.gives Attends kept.old moments.old kept.new moments.new }
{
    if settler.rests(clock) {
        return;
    }
    if let Kept::Open(store) = kept {
        settler.settle(clock, moments, store);
        home.settles(settler.is_busy());
    }
}

// Opens a store again that does not answer, where it is time to.
fn renew<D: Disk + Drop, H: Home<D>, K: Clock>(
    home: &H,
    clock: &K,
    pause: &mut Option<Pause>,
    kept: &mut Kept<InUse<Store<D>>>,
)
    requires { answers kept.old ≡ false }
    ensures { Renews H.opens None kept.old kept.new }
{
    if !is_time(clock, *pause) {
        return;
    }
    let opened = opened_again(home, kept);
    home.tried(opened.err());
    match opened {
        Ok(()) => {
            if pause.is_some() {
                tell_answers(home, kept);
            }
            *pause = None;
        }
        Err(fault) => {
            if pause.is_none() {
                home.tell(fault);
            }
            *pause = Some(next_pause(clock, *pause, fault));
        }
    }
}

// Whether a pause is over. Where the clock cannot be read it is.
fn is_time<K: Clock>(clock: &K, pause: Option<Pause>) -> bool {
    match (pause, clock.monotonic()) {
        (Some(pause), Ok(now)) => now >= pause.until,
        _ => true,
    }
}

// How long no attempt is made behind one that was refused, and behind the pause before it. Another
// process that has the file may let go of it at any time, and to look for that costs nothing.
fn next_pause<K: Clock>(clock: &K, before: Option<Pause>, fault: Fault) -> Pause {
    let seconds = match before {
        Some(pause) if fault != Fault::InUse => twice(pause.seconds),
        _ => FIRST_PAUSE,
    };
    let now = clock.monotonic().unwrap_or(Duration::ZERO);
    let until = now.saturating_add(Duration::from_secs(seconds));
    Pause { until, seconds }
}

// Whether a store is there that answers calls.
fn is_answering<D: Disk + Drop>(kept: &Kept<InUse<Store<D>>>) -> bool
    ensures { result ≡ answers kept.now }
{
    match kept {
        Kept::Open(store) => store.backend.is_ready(),
        Kept::Closed => false,
    }
}

fn tell_answers<D: Disk + Drop, H: Home<D>>(home: &H, kept: &Kept<InUse<Store<D>>>)
    requires { IsTrue (answers kept.now) }
{
    if let Kept::Open(store) = kept {
        home.tell_answers(store);
    }
}

// Opens a store again over its own files.
fn reopened<D: Disk + Drop>(store: &mut InUse<Store<D>>) -> Result<(), OpenFault>
    ensures ready { OnOk result (AnswersCalls store.new) }
    ensures opened { OnOk result (IsOpened (run_meaning (in_use store_meaning)) store.old
        store.new) }
    ensures refused { IfErr result (λ fault. IsRefusedAgain fault store.old store.new) }
{
    let opened = store.backend.reopen(&FullAudit);
    is_settled(store);
    match opened {
        Ok(()) => Ok(()),
        Err(refused) => Err(refused.fault),
    }
}

// Takes a store away, if there is one, which gives its files back.
fn take_files<D: Disk + Drop>(kept: &mut Kept<InUse<Store<D>>>) -> Option<Files<D>>
    ensures files { GivesFiles kept.old result }
    ensures gone { kept.new ≡ Kept.Closed }
{
    match mem::replace(kept, Kept::Closed) {
        Kept::Open(store) => Some(store.into_backend().close()),
        Kept::Closed => None,
    }
}

// Opens a store anew, where there is none or its files were refused: these go to the home as they
// are.
fn open_anew<D: Disk + Drop, H: Home<D>>(
    home: &H,
    kept: &mut Kept<InUse<Store<D>>>,
) -> Result<(), Fault>
    requires { IsLiveKept store_meaning.ledgers kept.old → ⊥ }
    ensures answers { OnOk result (IsTrue (answers kept.new)) }
    ensures anew { OnOk result (IsOpenedAnew H.opens kept.old kept.new) }
    ensures settled { OnOk result (IsSettled kept_store kept.new) }
    ensures given_up { OnErr result (IsGivenUp H.opens kept.old) }
    ensures refused { OnErr result (kept.new ≡ Kept.Closed) }
    ensures fault { IfErr result IsOpeningFault }
{
    let mut left = take_files(kept);
    match home.open_store(&mut left) {
        Ok(store) => {
            is_settled(&store);
            *kept = Kept::Open(store);
            Ok(())
        }
        Err(fault) => Err(fault),
    }
}

// Opens the store again over its files. Where their disk fails that too, the store is opened anew;
// any other refusal leaves it to be tried again.
fn opened_again<D: Disk + Drop, H: Home<D>>(
    home: &H,
    kept: &mut Kept<InUse<Store<D>>>,
) -> Result<(), Fault>
    requires { answers kept.old ≡ false }
    ensures answers { OnOk result (IsTrue (answers kept.new)) }
    ensures renews { Renews H.opens None kept.old kept.new }
    ensures fault { IfErr result IsOpeningFault }
{
    match kept {
        Kept::Open(store) => match reopened(store) {
            Ok(()) => Ok(()),
            Err(OpenFault::Unavailable(Unavailable::Disk)) => open_anew(home, kept),
            Err(fault) => Err(open_fault(fault)),
        },
        Kept::Closed => open_anew(home, kept),
    }
}
