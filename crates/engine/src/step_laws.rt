ghost use Rattle.records.specs.Machine.{Machine};
ghost use Rattle.records.specs.Later.{IsLater};
ghost use Rattle.records.specs.Step.{account_rules, transfer_rules};
ghost use Rattle.records.specs.Widths.{IsAccountEventInWidth, IsTransferEventInWidth};
ghost use Rattle.engine.specs.StepLaws.{LeadsToLater, StaysValid};

/// Every batch leads to a later machine: what the old one holds is kept in place, and the clock
/// does not fall. It does nothing, as the other laws.
pub fn steps_lead_to_later()
    ensures accounts { LeadsToLater account_rules }
    ensures transfers { LeadsToLater transfer_rules }
{}

/// A batch of at most 1,000 events leads from a valid machine to a valid one, at any moment.
pub fn steps_stay_valid()
    ensures accounts { StaysValid account_rules IsAccountEventInWidth }
    ensures transfers { StaysValid transfer_rules IsTransferEventInWidth }
{}

/// Steps add up: a machine is later than itself, and one later than a later one is later.
pub fn later_of_later_is_later()
    ensures itself { (m : Machine) → IsLater m m }
    ensures onward { (m next last : Machine) → IsLater m next → IsLater next last → IsLater m last }
{}
