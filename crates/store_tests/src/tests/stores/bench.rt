//! A ledger in two files, and what is done to both in words.

use super::commands::{Command, NoMemory, Text, answer, said, shown};
use super::driven::Driven;
use super::on_files::{changed, noise};
use crate::tests::disks::{Calls, Faulty};
use sqlite::{Files, Options};
use sqlite_disk::Disk;
use std::alloc::Global;
use std::mem;
use store::{Audit, FullAudit, OpenFault};

/// Where the two files of a ledger are.
#[derive(Drop)]
enum Ledger<D: Disk + Drop> {
    Opened(Driven<D>),
    Closed(Files<D>),
    Lost,
}

impl<D: Disk + Drop> Ledger<D> {
    /// Lets the ledger go.
    fn end(self) {
        match self {
            Ledger::Opened(store) => store.end(),
            Ledger::Closed(_files) => {}
            Ledger::Lost => {}
        }
    }
}

/// A ledger, and what is done to it in words.
#[derive(Drop)]
pub struct Bench<D: Disk + Drop> {
    alloc: Global,
    options: Options,
    ledger: Ledger<D>,
}

impl<D: Faulty> Bench<D> {
    /// New files, of which so many calls come through to each.
    pub fn new(alloc: Global, options: Options, log: Calls, db: Calls) -> Bench<D> {
        let files = Files {
            log: D::made(alloc, log),
            db: D::made(alloc, db),
        };
        Bench {
            alloc,
            options,
            ledger: Ledger::Closed(files),
        }
    }

    /// What is answered to a command: who asks, a verb and the rest.
    pub fn answer(&mut self, command: &str) -> Text {
        let command = Command::read(self.alloc, command);
        if command.who == "File" {
            return self.on_files(command.verb, command.rest);
        }
        match &mut self.ledger {
            Ledger::Opened(store) => answer(store, &command),
            _ => said(self.alloc, "no store"),
        }
    }

    /// Whether a store has the files.
    pub fn is_open(&self) -> bool {
        matches!(self.ledger, Ledger::Opened(_))
    }

    /// Lets the ledger go.
    pub fn end(self) {
        self.ledger.end();
    }

    /// What is answered to a command about the files.
    fn on_files(&mut self, verb: &str, rest: &str) -> Text {
        match closed(mem::replace(&mut self.ledger, Ledger::Lost)) {
            Some(files) => {
                let (ledger, text) = self.done(files, verb, rest);
                mem::replace(&mut self.ledger, ledger).end();
                text
            }
            None => said(self.alloc, "no files"),
        }
    }

    /// What a command makes of the files, and its answer.
    fn done(&self, files: Files<D>, verb: &str, rest: &str) -> (Ledger<D>, Text) {
        match verb {
            "create" => made(self.alloc, files, self.options),
            "open" => opened(self.alloc, files, self.options, &FullAudit),
            "audit-without-memory" => opened(self.alloc, files, self.options, &NoMemory),
            "sql" => {
                let (files, told) = changed(self.alloc, files, rest);
                (Ledger::Closed(files), shown(self.alloc, &told))
            }
            _ => shut(self.alloc, files, verb),
        }
    }
}

/// The files of a ledger.
fn closed<D: Disk + Drop>(ledger: Ledger<D>) -> Option<Files<D>> {
    match ledger {
        Ledger::Opened(store) => Some(store.close()),
        Ledger::Closed(files) => Some(files),
        Ledger::Lost => None,
    }
}

fn made<D: Disk + Drop>(alloc: Global, files: Files<D>, options: Options) -> (Ledger<D>, Text) {
    match Driven::make(alloc, files, options) {
        Ok(store) => (Ledger::Opened(store), said(alloc, "made")),
        Err((fault, files)) => (Ledger::Closed(files), fault_shown(alloc, fault)),
    }
}

fn opened<D: Disk + Drop, A: Audit>(
    alloc: Global,
    files: Files<D>,
    options: Options,
    audit: &A,
) -> (Ledger<D>, Text) {
    match Driven::open(alloc, files, options, audit) {
        Ok(store) => (Ledger::Opened(store), said(alloc, "opened")),
        Err((fault, files)) => (Ledger::Closed(files), fault_shown(alloc, fault)),
    }
}

/// Files that are closed: as they were, after a crash, or those of a stranger.
fn shut<D: Faulty>(alloc: Global, files: Files<D>, verb: &str) -> (Ledger<D>, Text) {
    let mut files = files;
    match verb {
        "crash" => {
            files.log.crash();
            files.db.crash();
        }
        "noise" => files = noise(alloc),
        _ => {}
    }
    (Ledger::Closed(files), said(alloc, "closed"))
}

/// Why files are refused. Of damage, the number of its kind, whose it is, and its place.
pub fn fault_shown(alloc: Global, fault: OpenFault) -> Text {
    match fault {
        OpenFault::Damaged(damage) => {
            let tenant = damage.digest[0];
            let kind = damage.kind.number();
            format!(in alloc; "damage {kind} of {tenant} at {}", damage.place)
        }
        _ => shown(alloc, &fault),
    }
}
