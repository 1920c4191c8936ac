//! FILE-sums beside a file that is served.

use crate::finding::{Found, Standing, find_beside, make_marked};
use crate::pace::Pace;
use crate::trouble::Trouble;
use crate::{latest_told, mark_clock, mark_reply};
use kept_sums::KeptSums;
use std::alloc::{AllocError, Global};
use std::fs::File;
use std::io;
use std::time::{Clock, Duration};

/// How much is appended before FILE-sums is made anew.
const MOST_APPENDED: u64 = 1 << 20;

/// FILE-sums, beside the file at a path.
#[derive(Drop)]
pub(crate) struct Beside {
    path: String,
    /// None as long as there is none that can be appended to.
    kept: Option<KeptSums<File>>,
    /// How long it gets before it is made anew.
    most: u64,
    pace: Pace,
    /// The latest clock that may not be marked yet.
    late: u64,
}

impl Beside {
    /// That of a file whose latest clock is this one. Nothing is appended to it yet.
    pub(crate) fn new(rt: &HostRuntime, path: &str, clock: u64) -> Result<Beside, AllocError> {
        Ok(Beside {
            path: String::from_str(rt.alloc(), path)?,
            kept: None,
            most: 0,
            pace: Pace::new(),
            late: clock,
        })
    }

    pub(crate) fn path(&self) -> &str {
        self.path.as_str()
    }

    /// Appends to what was found from now on, or to another one that is made in its place. Returns
    /// whether anything was written.
    pub(crate) fn take_up(&mut self, rt: &HostRuntime, found: Found) -> Result<bool, Trouble> {
        self.late = self.late.max(found.noted.mark);
        match found.sums {
            Standing::Kept(kept) => {
                self.keep(kept);
                Ok(false)
            }
            Standing::Replaceable => match make_marked(rt, self.path.as_str(), self.late) {
                Ok(kept) => {
                    self.keep(kept);
                    Ok(true)
                }
                Err(error) => self.failed(rt, Trouble::Unwritable(error)),
            },
            Standing::Unreadable(error) => self.failed(rt, Trouble::Unreadable(error)),
        }
    }

    /// Marks the clock of a reply, or puts that off. Returns whether anything was written.
    pub(crate) fn note(&mut self, rt: &HostRuntime, reply: &[u8]) -> Result<bool, Trouble> {
        let began = now(rt);
        match &mut self.kept {
            Some(kept) if !self.pace.rests(began) => {
                let marked = mark_all(kept, rt.alloc(), self.late, reply);
                if marked.is_err() {
                    self.late = latest_told(self.late, reply);
                }
                self.appended(rt, began, marked)
            }
            _ => {
                self.late = latest_told(self.late, reply);
                Ok(false)
            }
        }
    }

    /// Marks what was put off, where it is time to. Returns whether anything was written.
    pub(crate) fn catch_up(&mut self, rt: &HostRuntime) -> Result<bool, Trouble> {
        let is_late = match &self.kept {
            Some(kept) => self.late > kept.noted().mark,
            None => true,
        };
        if is_late && !self.pace.rests(now(rt)) {
            self.mark_late(rt)
        } else {
            Ok(false)
        }
    }

    /// Marks what was put off. Where there is nothing to append to, looks for it again. Returns
    /// whether anything was written.
    pub(crate) fn mark_late(&mut self, rt: &HostRuntime) -> Result<bool, Trouble> {
        let began = now(rt);
        match &mut self.kept {
            Some(kept) => {
                let marked = mark_clock(kept, rt.alloc(), self.late);
                self.appended(rt, began, marked)
            }
            None => match find_beside(rt, self.path.as_str()) {
                Ok(found) => self.take_up(rt, found),
                Err(error) => self.failed(rt, Trouble::Unwritable(error)),
            },
        }
    }

    /// Syncs what was appended.
    pub(crate) fn sync(&mut self) -> io::Result<()> {
        match &mut self.kept {
            Some(kept) => kept.sync(),
            None => Ok(()),
        }
    }

    fn keep(&mut self, kept: KeptSums<File>) {
        self.most = kept.len().saturating_add(MOST_APPENDED);
        self.kept = Some(kept);
    }

    // What has come of an append that began at this moment.
    fn appended(
        &mut self,
        rt: &HostRuntime,
        began: Duration,
        marked: io::Result<bool>,
    ) -> Result<bool, Trouble> {
        match marked {
            Ok(true) => {
                self.pace.took(began, now(rt));
                self.renew_if_long(rt);
                Ok(true)
            }
            Ok(false) => Ok(false),
            Err(error) => self.failed(rt, Trouble::Unwritable(error)),
        }
    }

    // Nothing is tried again for a while.
    fn failed(&mut self, rt: &HostRuntime, trouble: Trouble) -> Result<bool, Trouble> {
        self.pace.failed(now(rt));
        Err(trouble)
    }

    // Makes a long one anew with the last mark. Where that fails, it is appended to.
    fn renew_if_long(&mut self, rt: &HostRuntime) {
        let Some(kept) = &self.kept else {
            return;
        };
        let (len, mark) = (kept.len(), kept.noted().mark);
        if len > self.most {
            self.most = len.saturating_add(MOST_APPENDED);
            if let Ok(made) = make_marked(rt, self.path.as_str(), mark) {
                self.keep(made);
            }
        }
    }
}

// Marks the clock of a reply, and this one.
fn mark_all(kept: &mut KeptSums<File>, alloc: Global, late: u64, reply: &[u8]) -> io::Result<bool> {
    let is_new = mark_reply(kept, alloc, reply)?;
    let was_late = mark_clock(kept, alloc, late)?;
    Ok(is_new || was_late)
}

// The moment by the machine's clock.
fn now(rt: &HostRuntime) -> Duration {
    rt.monotonic().unwrap_or(Duration::ZERO)
}
