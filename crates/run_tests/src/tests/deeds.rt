//! Single steps that change the ledgers, done or not.

use super::messages::{Unmade, step, wanted};
use super::scripts::{answers, told};
use std::alloc::Global;
use whole_runs::{Answer, Reopening, Step};

/// A step, and what it is told: where it is done, where it has been done before, and where the
/// ledgers are unavailable.
pub struct Deed {
    step: &'static str,
    done: &'static str,
    done_before: &'static str,
    unavailable: &'static str,
}

/// 'Pending and post in one chain', of tenant 0 with its accounts.
pub const CHAIN: Deed = Deed {
    step: "0@0 transfers 100 1 2 70 3; 101 0 0 MAX 4 100",
    done: "0@5 0@6",
    done_before: "18@7 2@8",
    unavailable: "unavailable 503 Service Unavailable",
};

/// A third tenant.
pub const JOINING: Deed = Deed {
    step: "tenant 2",
    done: "added",
    done_before: "name_taken",
    unavailable: "unavailable",
};

/// What a deed is told.
#[derive(Clone, Copy, Debug, PartialEq, Eq)]
pub enum Told {
    Done,
    DoneBefore,
    /// Of memory for an answer too.
    Unavailable,
    Other,
}

/// A deed as it is sent and answered.
#[derive(Drop)]
pub struct Spelled {
    steps: Vec<Step>,
    done: String,
    done_before: String,
    unavailable: String,
}

impl Deed {
    pub fn spelled(&self, alloc: Global) -> Result<Spelled, Unmade> {
        Ok(Spelled {
            steps: vec![in alloc; step(alloc, self.step)?]?,
            done: wanted(alloc, self.done)?,
            done_before: wanted(alloc, self.done_before)?,
            unavailable: wanted(alloc, self.unavailable)?,
        })
    }
}

impl Spelled {
    /// Runs the step, and tells what it is told.
    pub fn told<L: Reopening>(&self, alloc: Global, ledgers: &mut L) -> Told {
        match answers(alloc, ledgers, &self.steps) {
            Ok(answers) => self.meaning(&answers),
            Err(_) => Told::Unavailable,
        }
    }

    /// What answers to the step tell.
    fn meaning(&self, answers: &[Answer]) -> Told {
        let [answer] = answers else {
            return Told::Other;
        };
        let text = told(answer);
        if text == self.done.as_bytes() {
            Told::Done
        } else if text == self.done_before.as_bytes() {
            Told::DoneBefore
        } else if text == self.unavailable.as_bytes() {
            Told::Unavailable
        } else {
            Told::Other
        }
    }
}
