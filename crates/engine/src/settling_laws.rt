ghost use Rattle.std.specs.Prelude.{◌≡◌, ◌≤◌, ℕ, []};
ghost use Rattle.records.specs.Machine.{Machine};
ghost use Rattle.records.specs.Step.{account_rules, at_clock, max_clock, step_machine, transfer_rules};
ghost use Rattle.engine.specs.Settling.{SettlesFirst};

/// A machine may be settled in pieces, in time before a batch: each piece is a batch of no events,
/// which sets the clock; pieces come to what one comes to; and every later batch is told and leaves
/// what it would without them. It does nothing, as the other laws.
pub fn settling_first_changes_nothing()
    ensures piece { (m : Machine) (time : ℕ) → m.clock ≤ time → time ≤ max_clock →
        step_machine transfer_rules m [] time ≡ at_clock m time }
    ensures pieces { (m : Machine) (time clock : ℕ) → time ≤ clock →
        at_clock (at_clock m time) clock ≡ at_clock m clock }
    ensures accounts { SettlesFirst account_rules }
    ensures transfers { SettlesFirst transfer_rules }
{}
