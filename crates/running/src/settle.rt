ghost use Rattle.std.specs.Prelude.{◌≡◌, ℕ, ◌+◌, ◌≤◌, List, [], ◌∷◌, ◌++◌, IfOk, OnOk};
ghost use Rattle.std.specs.Bool.{OnTrue, OnFalse};
ghost use Rattle.std.specs.BTreeSet as sorted;
ghost use Rattle.records.specs.Machine.{Machine};
ghost use Rattle.records.specs.Step.{at_clock, max_clock};
ghost use Rattle.rows.specs.Settling.{rows_released, due_ids};
ghost use Rattle.running.specs.Running.{IsRunning};
ghost use Rattle.running.specs.Releasing.{IsReleasing};

use crate::Running;
use crate::accounts::release_from;
use rows::clock_rows;
use std::alloc::AllocError;

impl Running {
    /// The clock goes on, in nanoseconds: the open transfers whose due time has come expire.
    pub fn settle_to(&mut self, clock: u64) -> Result<(), AllocError>
        requires { (m : Machine) × IsRunning m self.old × (m.clock ≤ clock) × (clock ≤ max_clock) }
        ensures { OnOk result
            ((m : Machine) → IsRunning m self.old → IsRunning (at_clock m clock) self.new) }
    {
        clock_rows();
        while self.expire_next(clock)? {}
        self.clock = clock;
        Ok(())
    }

    // The open transfer that is due first expires, if it is due at the clock.
    fn expire_next(&mut self, clock: u64) -> Result<bool, AllocError>
        requires { (m : Machine) × (done : List ℕ) × IsReleasing m clock done self.old }
        ensures more { IfOk result
            (λ went. OnTrue went
            ((m : Machine) (done : List ℕ) →
            IsReleasing m clock done self.old →
            (id : ℕ) × IsReleasing m clock (done ++ id ∷ []) self.new)) }
        ensures fewer { IfOk result
            (λ went. OnTrue went
            (sorted.btree_set_len self.new.statuses.due + 1
            ≡ sorted.btree_set_len self.old.statuses.due)) }
        ensures all { IfOk result
            (λ went. OnFalse went
            ((m : Machine) (done : List ℕ) →
            IsReleasing m clock done self.old →
            IsReleasing m clock done self.new × (due_ids clock (rows_released m done) ≡ []))) }
    {
        clock_rows();
        let Some(id) = self.statuses.expire_next(clock)? else {
            return Ok(false);
        };
        let transfer = self.transfers.get(id).unwrap();
        release_from(&mut self.accounts, &transfer)?;
        Ok(true)
    }
}
