//! The marks of a file that is served.

use crate::beside::Beside;
use crate::finding::{Found, find_beside};
use crate::trouble::Trouble;
use std::cell::{Cell, RefCell};
use std::io;

/// FILE-sums of a file that is served, once that is open. Where it cannot be made or written, that is
/// reported once, and the service goes on. It is tried again each second.
#[derive(Drop)]
pub struct Marks<'a> {
    rt: &'a HostRuntime,
    beside: RefCell<Option<Beside>>,
    is_failing: Cell<bool>,
}

impl<'a> Marks<'a> {
    /// Those of no file yet.
    pub fn new(rt: &'a HostRuntime) -> Marks<'a> {
        Marks {
            rt,
            beside: RefCell::new(None),
            is_failing: Cell::new(false),
        }
    }

    /// What the FILE-sums of a file says, by the file's path without links, and FILE-sums itself
    /// where it can be appended to. `WouldBlock` where another process has it. Replies are not
    /// marked yet.
    pub fn find(&self, path: &str) -> io::Result<Found> {
        find_beside(self.rt, path)
    }

    /// Marks the replies from now on, beside a file whose latest clock is this one. FILE-sums is made
    /// where there is none, or what stands there is none. One that cannot be read is left alone.
    pub fn begin(&self, path: &str, found: Found, clock: u64) {
        match Beside::new(self.rt, path, clock) {
            Ok(mut beside) => {
                let begun = beside.take_up(self.rt, found);
                self.report(path, begun);
                if let Ok(mut place) = self.beside.try_borrow_mut() {
                    *place = Some(beside);
                }
            }
            Err(error) => self.report(path, Err(Trouble::Unwritable(error.into()))),
        }
    }

    /// Marks what was put off, syncs FILE-sums, and lets go of it.
    pub fn end(&self) {
        if let Ok(mut beside) = self.beside.try_borrow_mut() {
            if let Some(beside) = &mut *beside {
                let marked = beside.mark_late(self.rt);
                self.report(beside.path(), marked);
                let _ = beside.sync();
            }
            *beside = None;
        }
    }

    /// Marks the clock of a reply to a batch, which is still to go out. On a slow volume, or where
    /// that has failed, it may be put off: until the first reply after that time, or until
    /// `catch_up`.
    pub fn note(&self, reply: &[u8]) {
        if let Ok(mut beside) = self.beside.try_borrow_mut()
            && let Some(beside) = &mut *beside
        {
            let noted = beside.note(self.rt, reply);
            self.report(beside.path(), noted);
        }
    }

    /// Marks what was put off, where it is time to: to be called every second or so.
    pub fn catch_up(&self) {
        if let Ok(mut beside) = self.beside.try_borrow_mut()
            && let Some(beside) = &mut *beside
        {
            let marked = beside.catch_up(self.rt);
            self.report(beside.path(), marked);
        }
    }

    // Reports the first failure, and that something was written after it.
    fn report(&self, path: &str, outcome: Result<bool, Trouble>) {
        match outcome {
            Ok(true) => {
                if self.is_failing.replace(false) {
                    let _ = self
                        .rt
                        .eprintln(format_args!("{path}-sums is written again"));
                }
            }
            Ok(false) => {}
            Err(trouble) => {
                if !self.is_failing.replace(true) {
                    trouble.report(self.rt, path);
                }
            }
        }
    }
}
