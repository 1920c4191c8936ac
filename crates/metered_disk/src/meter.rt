//! What disks are measured by.

use crate::Reading;
use std::cell::Cell;
use std::time::Duration;

/// One for the disks of a file, each of which adds to it. It may be read while they are used.
#[derive(Drop)]
pub struct Meter {
    reading: Cell<Reading>,
}

impl Meter {
    /// One that shows nothing yet.
    pub fn new() -> Meter {
        Meter {
            reading: Cell::new(Reading::new()),
        }
    }

    /// What it shows now.
    pub fn reading(&self) -> Reading {
        self.reading.get()
    }

    /// Adds a sync that has taken so long.
    pub(crate) fn note_sync(&self, took: Duration) {
        let mut reading = self.reading.get();
        reading.synced(took);
        self.reading.set(reading);
    }

    /// Adds a call, which counts if it has failed.
    pub(crate) fn note_call(&self, is_done: bool) {
        if is_done {
            return;
        }
        let mut reading = self.reading.get();
        reading.failed();
        self.reading.set(reading);
    }
}
