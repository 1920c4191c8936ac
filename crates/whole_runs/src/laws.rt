//! Laws of whole runs. The functions do nothing; their contracts are the laws.
ghost use Rattle.service.specs.Following.{ToldStays};
ghost use Rattle.service.specs.Retries.{RetriesAddNothing, StaysFailedOnceAsked};
ghost use Rattle.whole_runs.specs.Courses.{RunsServeEachAlone};
ghost use Rattle.whole_runs.specs.NameCourses.{DigestsStay, NamesStay};
ghost use Rattle.whole_runs.specs.Reopenings.{NothingLaterIsFound};
ghost use Rattle.whole_runs.specs.Retries.{HasAskedInRun, StaysFailedIn};
ghost use Rattle.records.specs.Step.{account_rules, transfer_rules};
ghost use Rattle.records.specs.declared.account_result.AccountResult.TheVariants as for_account;
ghost use Rattle.records.specs.declared.transfer_result.TransferResult.TheVariants as for_transfer;
ghost use Rattle.wire.specs.declared.request.Request.TheVariants.{Accounts, Transfers};

use crate::Reopening;
use service::{
    each_tenant_sees_itself, failed_in_course_stays_failed, retried_in_course_adds_nothing,
    told_in_course_stays,
};

/// In the course of any run, what a tenant is told and the machine that it is left with are those
/// of its own requests alone. What was answered `unavailable` counts as never asked, unless the
/// next opening found it done.
pub fn runs_serve_each_alone()
    ensures { RunsServeEachAlone }
{
    each_tenant_sees_itself();
}

/// What is asked after a fault is never found done. Whatever the next opening finds comes of a course
/// of the steps up to the fault alone. So it is with names.
pub fn nothing_later_is_found<L: Reopening>()
    ensures { NothingLaterIsFound L.means L.names L.has_failed L.refuses }
{}

/// A batch whose every event was accepted in the course of a run adds nothing when it is sent
/// again, however often, whenever, and whatever any tenant did between, stops and reopenings
/// included. So it is whether the batch was answered, or answered `unavailable` and found done.
pub fn retries_add_nothing()
    ensures accounts { RetriesAddNothing HasAskedInRun account_rules for_account.Exists Accounts }
    ensures transfers { RetriesAddNothing HasAskedInRun transfer_rules
        for_transfer.Exists Transfers }
{
    retried_in_course_adds_nothing();
}

/// A transfer event that failed for good in the course of a run stays failed: sent again, however
/// often and whenever, as the first event of a closed chain it answers `id_already_failed`, and its
/// chain changes nothing. The tenant's machine has to be valid by then, as it is in live ledgers.
pub fn stays_failed<L: Reopening>()
    ensures valid { StaysFailedOnceAsked HasAskedInRun }
    ensures live { StaysFailedIn L.means }
{
    failed_in_course_stays_failed();
}

/// What a tenant was told in the course of a run up to a clock stays, whatever any tenant did
/// since, stops and reopenings included: its entries are kept in place, those that came since are
/// later than the clock that it was told, and what lies in a span of time up to it is told again.
pub fn told_stays()
    ensures { ToldStays HasAskedInRun }
{
    told_in_course_stays();
}

/// In the course of any run no name of a tenant goes away, and each keeps its digest as long as no
/// other key is asked for it, whatever faults of the disk there were; unless an opening was refused
/// so that nothing stands.
pub fn names_stay()
    ensures there { NamesStay }
    ensures digests { DigestsStay }
{}
