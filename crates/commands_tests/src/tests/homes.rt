//! Stores in memory whose disks fail, and homes that open others in their place.
ghost use Rattle.std.specs.Prelude.{IfSome};
ghost use Rattle.store.specs.Stores.{AnswersCalls};

use super::firms::KEY;
use super::scripted::Hand;
use chain::InUse;
use command_texts::Fault;
use commands::Home;
use failing_disk::OnceFailing;
use sqlite::{Files, Options};
use sqlite_disk::{Disk, Fuse, Memory};
use std::alloc::Global;
use std::cell::{Cell, RefCell};
use store::Store;
use tenants::{Key, TenantName, digest};

/// The disk of a store in memory: one type, since each further one is one more database to prove.
pub type TestDisk = OnceFailing<Fuse<Memory>>;

/// Behind how many calls the disk of a store's log fails.
#[derive(Clone, Copy)]
pub enum Fails {
    Never,
    /// It fails one call.
    Once(u64),
    /// It fails from then on.
    FromThen(u64),
}

// No test makes so many calls.
const NEVER: u64 = 1_000_000;

impl Fails {
    fn disk(self, alloc: Global) -> TestDisk {
        let (once, from_then) = match self {
            Fails::Never => (NEVER, NEVER),
            Fails::Once(calls) => (calls, NEVER),
            Fails::FromThen(calls) => (NEVER, calls),
        };
        OnceFailing::new(Fuse::new(Memory::new(alloc), from_then), once)
    }
}

/// Makes new firms, each with ledgers of its own.
pub trait Firms<D: Disk + Drop> {
    /// The ledgers of a new firm, if its disk lets it be made.
    fn store(&self, fails: Fails) -> Option<InUse<Store<D>>>
        ensures { IfSome result AnswersCalls };
}

/// Makes them in memory.
#[derive(Clone, Copy)]
pub struct InMemory(pub Global);

impl Firms<TestDisk> for InMemory {
    fn store(&self, fails: Fails) -> Option<InUse<Store<TestDisk>>> {
        let files = Files {
            log: fails.disk(self.0),
            db: Fails::Never.disk(self.0),
        };
        if !(files.log.may_be_used() && files.db.may_be_used()) {
            return None;
        }
        match Store::create(self.0, files, Options::new(7)) {
            Ok(store) => with_firm(InUse { backend: store }),
            Err(_) => None,
        }
    }
}

// The ledgers with the firm, if it can be added.
fn with_firm<D: Disk + Drop>(mut store: InUse<Store<D>>) -> Option<InUse<Store<D>>>
    ensures { IfSome result AnswersCalls }
{
    let name = TenantName::read("firm")?;
    let key = Key::read(KEY.as_bytes())?;
    let joined = store.backend.add_tenant(&name, &digest(&key));
    if joined.is_err() || !store.backend.is_ready() {
        return None;
    }
    Some(store)
}

/// What a home is told.
#[derive(Clone, Copy, Debug, PartialEq, Eq)]
pub enum Notice {
    /// A store is not opened, for this reason.
    Refused(Fault),
    /// A store answers calls again.
    Answers,
}

/// What a home was told, and at which seconds it was asked for a store.
#[derive(Drop)]
pub struct Notes<'a> {
    clock: &'a Hand,
    told: RefCell<Vec<Notice>>,
    asked: RefCell<Vec<u64>>,
}

impl<'a> Notes<'a> {
    pub fn new(alloc: Global, clock: &'a Hand) -> Notes<'a> {
        Notes {
            clock,
            told: RefCell::new(Vec::new(alloc)),
            asked: RefCell::new(Vec::new(alloc)),
        }
    }

    fn add(&self, notice: Notice) {
        if let Ok(mut told) = self.told.try_borrow_mut() {
            let _ = told.push(notice);
        }
    }

    fn ask(&self) {
        if let Ok(mut asked) = self.asked.try_borrow_mut() {
            let _ = asked.push(self.clock.seconds());
        }
    }

    /// Whether it was told these, in this order.
    pub fn are(&self, want: &[Notice]) -> bool {
        match self.told.try_borrow() {
            Ok(told) => told.as_slice() == want,
            Err(_) => false,
        }
    }

    /// Whether it was asked at these seconds.
    pub fn were_asked(&self, want: &[u64]) -> bool {
        match self.asked.try_borrow() {
            Ok(asked) => asked.as_slice() == want,
            Err(_) => false,
        }
    }
}

/// Opens no store.
#[derive(Drop)]
pub struct Nowhere<'a>(pub Notes<'a>);

impl<D: Disk + Drop> Home<D> for Nowhere<'_> {
    fn open_store(&self, left: &mut Option<Files<D>>) -> Result<InUse<Store<D>>, Fault> {
        *left = None;
        self.0.ask();
        Err(Fault::NotALedger)
    }

    fn tell(&self, fault: Fault) {
        self.0.add(Notice::Refused(fault));
    }

    fn tell_answers(&self, _store: &InUse<Store<D>>) {
        self.0.add(Notice::Answers);
    }
}

/// Refuses so many openings. Then it opens the store of another new firm.
#[derive(Drop)]
pub struct Refusing<'a, F> {
    firms: &'a F,
    left: Cell<u64>,
    pub notes: Notes<'a>,
}

impl<'a, F> Refusing<'a, F> {
    pub fn new(firms: &'a F, refusals: u64, notes: Notes<'a>) -> Refusing<'a, F> {
        Refusing {
            firms,
            left: Cell::new(refusals),
            notes,
        }
    }
}

impl<D: Disk + Drop, F: Firms<D>> Home<D> for Refusing<'_, F> {
    fn open_store(&self, left: &mut Option<Files<D>>) -> Result<InUse<Store<D>>, Fault> {
        *left = None;
        self.notes.ask();
        let left = self.left.get();
        if left != 0 {
            self.left.set(left - 1);
            return Err(Fault::Unreadable);
        }
        match self.firms.store(Fails::Never) {
            Some(store) => Ok(store),
            None => Err(Fault::Unreadable),
        }
    }

    fn tell(&self, fault: Fault) {
        self.notes.add(Notice::Refused(fault));
    }

    fn tell_answers(&self, _store: &InUse<Store<D>>) {
        self.notes.add(Notice::Answers);
    }
}
