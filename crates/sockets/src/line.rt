//! Clients in the order of moments.
use std::alloc::{AllocError, Global};
use std::collections::BTreeSet;
use std::time::Duration;

/// Clients, each with a moment, the earliest first.
#[derive(Drop)]
pub(crate) struct Line {
    stands: BTreeSet<(Duration, u64)>,
}

impl Line {
    pub(crate) fn new(alloc: Global) -> Line {
        Line {
            stands: BTreeSet::new(alloc),
        }
    }

    pub(crate) fn add(&mut self, moment: Duration, number: u64) -> Result<(), AllocError> {
        match self.stands.insert((moment, number)) {
            Ok(_) => Ok(()),
            Err(_) => Err(AllocError),
        }
    }

    pub(crate) fn remove(&mut self, moment: Duration, number: u64) {
        let _ = self.stands.remove(&(moment, number));
    }

    /// The first moment of all.
    pub(crate) fn first(&self) -> Option<(Duration, u64)> {
        match self.stands.first() {
            Some(first) => Some(*first),
            None => None,
        }
    }

    /// Whose moment has come, if anybody's.
    pub(crate) fn due(&self, now: Duration) -> Option<u64> {
        match self.first() {
            Some((moment, number)) => { if moment <= now { Some(number) } else { None } }
            None => None,
        }
    }

    pub(crate) fn len(&self) -> usize {
        self.stands.len()
    }
}
