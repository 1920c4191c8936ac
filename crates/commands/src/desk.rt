//! The desk at which the operator of a service on this machine asks.
ghost use Rattle.std.specs.Prelude.{◌≡◌, IfOk};
ghost use Rattle.commands.specs.Desk.{IsBodyOf, order_of};

use crate::copied::{Progress, begin_copy, copy_on};
use crate::kept::Kept;
use crate::leaving::leave_served;
use crate::listing::listed;
use crate::orders::{Done, Order, Orders};
use crate::status::status_body;
use admin_client::desk_path;
use chain::InUse;
use command_texts::Fault;
use control::{
    Desk, Order as Asked, PieceAsked, added_body, changed_body, copied_body, entries_body,
};
use copies::Copying;
use listener::{Bell, Site};
use metered_disk::Meter;
use records::{Order as InTime, Span};
use reply_marks::Marks;
use sockets::Watcher;
use sqlite_disk::Disk;
use std::alloc::Global;
use std::os::unix::fs::MetadataExt;
use std::time::{Clock, Duration};
use std::{fs, io};
use store::Store;

/// How many calls that ask nothing of the store are answered in a row.
const MOST_IN_A_ROW: u32 = 8;

/// The most entries of one piece of a statement, which is read in one turn.
const MOST_ENTRIES: u32 = 1_000;

/// The desk of a service, if it has one.
#[derive(Drop)]
pub struct HostDesk<'a> {
    rt: &'a HostRuntime,
    bell: &'a Bell,
    meter: &'a Meter,
    marks: &'a Marks<'a>,
    /// The path of the ledger's file.
    db: &'a str,
    watcher: Option<Watcher>,
    desk: Option<Desk>,
    /// The number of the socket's file, where there is a desk.
    socket: Option<u64>,
    /// Whether a store was there that answers calls, when it was asked last.
    was_answering: bool,
    /// A copy that is being made.
    copying: Option<Copying>,
    /// Until when it rests: as long as its last piece took, so that clients have half of the time.
    rests_until: Duration,
    /// When the service began, by the machine's clock.
    began: Duration,
    is_stopping: bool,
}

/// What was found at a desk.
enum Found {
    /// Nobody asks for anything.
    Nothing,
    /// Something was answered that asks nothing of the store.
    Answered,
    /// It is asked to end.
    Stop,
    /// Something is asked of the store.
    Asked(Order),
}

// The body that tells what an order came to.
fn body_of(alloc: Global, order: &Order, done: Result<Done, Fault>) -> Result<Vec<u8>, Fault>
    ensures { IfOk result (λ body. IsBodyOf order.now done body.items) }
{
    match (order, done?) {
        (_, Done::Listed(tenants)) => Ok(listed(alloc, tenants.as_slice())?),
        (Order::ChangeKey { name, .. }, Done::Changed) => Ok(changed_body(alloc, name)?),
        (Order::AddTenant { name, .. }, Done::Changed) => Ok(added_body(alloc, name)?),
        (_, Done::Read(piece)) => Ok(entries_body(alloc, piece.clock, piece.entries.as_slice())?),
        (Order::Tenants | Order::Statement { .. }, Done::Changed) => Err(Fault::Unavailable),
    }
}

// What is asked of the store for a piece of a statement.
fn order_of(piece: &PieceAsked) -> Order
    ensures { result ≡ order_of piece.now }
{
    Order::Statement {
        tenant: piece.tenant,
        account: piece.account,
        span: Span {
            first: piece.from,
            last: piece.to,
            order: if piece.is_reversed {
                InTime::Newest
            } else {
                InTime::Oldest
            },
            most: MOST_ENTRIES,
        },
    }
}

// The number by which the system knows the file at a path, if there is one.
fn file_number(rt: &HostRuntime, path: &str) -> Option<u64> {
    match fs::symlink_metadata(rt, path) {
        Ok(found) => Some(found.ino()),
        Err(_) => None,
    }
}

impl<'a> HostDesk<'a> {
    pub(crate) fn new(site: &'a Site<'a>, db: &'a str, watcher: Option<Watcher>) -> Self {
        let rt = site.rt;
        HostDesk {
            rt,
            bell: &site.bell,
            meter: &site.meter,
            marks: &site.marks,
            db,
            watcher,
            desk: None,
            socket: None,
            was_answering: false,
            copying: None,
            rests_until: Duration::ZERO,
            began: rt.monotonic().unwrap_or(Duration::ZERO),
            is_stopping: false,
        }
    }

    /// No more replies go out: their marks are let go of, and then the file is.
    pub(crate) fn leave<D: Disk + Drop>(&self, kept: Kept<InUse<Store<D>>>) {
        self.marks.end();
        leave_served(self.rt, self.db, kept);
    }

    /// The service has ended: who asked for that is told, and the desk is gone.
    pub(crate) fn close(self) {
        let HostDesk {
            rt,
            bell: _,
            meter: _,
            marks: _,
            db: _,
            watcher: _,
            desk,
            socket: _,
            was_answering: _,
            copying,
            rests_until: _,
            began: _,
            is_stopping: _,
        } = self;
        if let Some(copying) = copying {
            copying.abandon(rt);
        }
        if let Some(desk) = desk {
            desk.close(rt);
        }
    }

    fn now(&self) -> Duration {
        self.rt.monotonic().unwrap_or(self.began)
    }

    /// Listens beside the file, which is open, unless its socket is still there: another process
    /// that had the file meanwhile has taken it away. Where it cannot be it is told, and all else
    /// goes on.
    pub(crate) fn open(&mut self) {
        self.was_answering = true;
        let Ok(Some(path)) = desk_path(self.rt, self.db) else {
            return;
        };
        let path = path.as_str();
        if self.socket.is_some() && file_number(self.rt, path) == self.socket {
            return;
        }
        match self.open_at(path) {
            Ok(desk) => {
                self.desk = Some(desk);
                self.socket = file_number(self.rt, path);
            }
            Err(error) => {
                let _ = self.rt.eprintln(format_args!(
                    "no commands while it is served: {path}: {error}"
                ));
            }
        }
    }

    fn open_at(&self, path: &str) -> io::Result<Desk> {
        let mut desk = Desk::open(self.rt, path)?;
        if let Some(watcher) = &self.watcher {
            watcher.watch(desk.listener())?;
        }
        Ok(desk)
    }

    // Tells the answer to what was asked last.
    fn answer(&mut self, told: Result<Vec<u8>, Fault>) {
        let now = self.now();
        if let Some(desk) = &mut self.desk {
            match told {
                Ok(text) => desk.answer(now, Ok(text.as_slice())),
                Err(fault) => desk.answer(now, Err(fault)),
            }
        }
        self.note_busy();
    }

    // Whether somebody at the desk is to be looked at soon again.
    fn note_busy(&self) {
        let is_busy = match &self.desk {
            Some(desk) => desk.is_busy() || self.copying.is_some(),
            None => false,
        };
        self.bell.set_busy(is_busy);
    }

    // Tells whoever asked for a copy what it came to.
    fn answer_copy(&mut self, told: Result<u64, Fault>) {
        let now = self.now();
        let body = match told {
            Ok(bytes) => copied_body(self.rt.alloc(), bytes).map_err(Fault::from),
            Err(fault) => Err(fault),
        };
        if let Some(desk) = &mut self.desk {
            match body {
                Ok(body) => desk.answer_copy(now, Ok(body.as_slice())),
                Err(fault) => desk.answer_copy(now, Err(fault)),
            }
        }
        self.note_busy();
    }

    fn begin_copy(&mut self, to: &str) {
        match begin_copy(self.rt, self.db, to) {
            Ok(copying) => {
                self.copying = Some(copying);
                self.note_busy();
            }
            Err(fault) => self.answer_copy(Err(fault)),
        }
    }

    // Goes on with a copy, if one is being made that does not rest.
    fn go_on(&mut self) {
        let begun = self.now();
        if begun < self.rests_until {
            return;
        }
        let Some(copying) = self.copying.take() else {
            return;
        };
        match copy_on(self.rt, copying) {
            Ok(Progress::More(copying)) => {
                self.copying = Some(copying);
                let ended = self.now();
                self.rests_until = ended.saturating_add(ended.saturating_sub(begun));
            }
            Ok(Progress::Whole(bytes)) => self.answer_copy(Ok(bytes)),
            Err(fault) => self.answer_copy(Err(fault)),
        }
    }

    // What is asked at the desk next.
    fn asked(&mut self) -> Option<Asked> {
        let now = self.now();
        let asked = match &mut self.desk {
            Some(desk) => desk.next(now),
            None => None,
        };
        self.note_busy();
        asked
    }

    fn look(&mut self) -> Found {
        match self.asked() {
            Some(asked) => self.judge(&asked),
            None => Found::Nothing,
        }
    }

    // Answers what asks nothing of the store.
    fn judge(&mut self, asked: &Asked) -> Found {
        match asked {
            Asked::Tenants => Found::Asked(Order::Tenants),
            Asked::AddTenant { name, digest } => Found::Asked(Order::AddTenant {
                name: *name,
                digest: *digest,
            }),
            Asked::ChangeKey { name, digest } => Found::Asked(Order::ChangeKey {
                name: *name,
                digest: *digest,
            }),
            Asked::Statement(piece) => Found::Asked(order_of(piece)),
            Asked::Status => {
                let age = self.now().saturating_sub(self.began);
                let disk = self.meter.reading();
                self.answer(status_body(self.rt, self.db, self.bell, &disk, age));
                Found::Answered
            }
            Asked::Copy { to } => {
                self.begin_copy(to.as_str());
                Found::Answered
            }
            Asked::Stop => Found::Stop,
        }
    }
}

impl Orders for HostDesk<'_> {
    ghost stops = { λ desk. desk.is_stopping };

    fn next(&mut self, is_answering: bool) -> Option<Order> {
        if is_answering && !self.was_answering {
            self.open();
        }
        self.was_answering = is_answering;
        self.marks.catch_up();
        if !self.bell.calls() {
            return None;
        }
        self.go_on();
        for _ in 0..MOST_IN_A_ROW {
            match self.look() {
                Found::Nothing => return None,
                Found::Answered => {}
                Found::Stop => {
                    self.is_stopping = true;
                    self.bell.stop();
                    return None;
                }
                Found::Asked(order) => return Some(order),
            }
        }
        self.bell.ring();
        None
    }

    fn tell(&mut self, order: &Order, done: Result<Done, Fault>) {
        let told = body_of(self.rt.alloc(), order, done);
        self.answer(told);
    }

    fn is_stopping(&self) -> bool {
        self.is_stopping
    }
}
