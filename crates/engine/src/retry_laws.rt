ghost use Rattle.records.specs.declared.account_result.AccountResult.TheVariants as for_account;
ghost use Rattle.records.specs.declared.transfer_result.TransferResult.TheVariants as for_transfer;
ghost use Rattle.records.specs.Step.{account_rules, transfer_rules};
ghost use Rattle.engine.specs.RetryLaws.{RetryAddsNothing};
ghost use Rattle.engine.specs.FailedLaws.{IsToldOfRuns, FailedStaysFailed};

/// A batch whose every event was accepted, sent again to any later machine, adds nothing. Unless
/// the clock is exhausted the first event of each chain answers `exists` and every other
/// `linked_event_failed`. It does nothing, as the other laws.
pub fn retry_adds_nothing()
    ensures accounts { RetryAddsNothing account_rules for_account.Exists }
    ensures transfers { RetryAddsNothing transfer_rules for_transfer.Exists }
{}

/// A transfer event that failed because an account, a pending transfer or the funds were missing,
/// in whatever chain, stays failed: sent again to any later machine as the first event of a closed
/// chain it answers `id_already_failed`, and its chain changes nothing. A batch is told the results
/// of its chains, unless the clock is exhausted.
pub fn failed_stays_failed()
    ensures failed { FailedStaysFailed }
    ensures told { IsToldOfRuns transfer_rules }
{}
