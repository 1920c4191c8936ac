ghost use Rattle.records.specs.Machine.{Machine};
ghost use Rattle.records.specs.Step.{account_rules, transfer_rules};
ghost use Rattle.engine.specs.Follower.{FollowersBegin, FollowersGoOn, FollowersArrive};
ghost use Rattle.engine.specs.Following.{ContinuesAfter, StepsContinue, StepsTellClock, SpansStay, PagesStay};

/// Every batch leads to a machine that continues the one before it: what was there stays in place,
/// and what is new is later than the old clock. It does nothing, as the other laws.
pub fn steps_continue()
    ensures accounts { StepsContinue account_rules }
    ensures transfers { StepsContinue transfer_rules }
{}

/// The clock that a batch is told is that of the machine after it, so what comes later is later than
/// the clock of any reply before it.
pub fn steps_tell_their_clock()
    ensures accounts { StepsTellClock account_rules }
    ensures transfers { StepsTellClock transfer_rules }
{}

/// Steps add up: a machine continues itself, and one that continues a continued one continues the
/// first.
pub fn continued_of_continued_continues()
    ensures itself { (m : Machine) → ContinuesAfter m m }
    ensures onward { (m next last : Machine)
        → ContinuesAfter m next → ContinuesAfter next last → ContinuesAfter m last }
{}

/// What was told of a time up to the clock is told again, whatever came since: the records of a
/// span of time, and a page of transfers with a bound.
pub fn what_was_told_stays()
    ensures spans { SpansStay }
    ensures pages { PagesStay }
{}

/// A follower begins with the number 0 and nothing. Page by page, each asked from its number on,
/// it gets each transfer that it asks for once, in order, while the ledger goes on. Behind a page
/// without a `next` it has got all there is.
pub fn followers_get_each_once()
    ensures begin { FollowersBegin }
    ensures onward { FollowersGoOn }
    ensures all { FollowersArrive }
{}
