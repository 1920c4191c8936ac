//! Laws of responses. The functions do nothing; their contracts are the laws.
ghost use Rattle.service.specs.Attending.{ServiceBooksNothing};
ghost use Rattle.service.specs.ConnectionEvents.{ExchangesLeadOn, ConnectionsAreCourses};
ghost use Rattle.service.specs.ConnectionEvents.{ServesEachAlone};
ghost use Rattle.service.specs.Courses.{ResponsesHappen};
ghost use Rattle.service.specs.Following.{LeftStays, ToldStays};
ghost use Rattle.service.specs.Openings.{ResponsesMove};
ghost use Rattle.service.specs.OwnDeeds.{EachSeesItself};
ghost use Rattle.service.specs.Responds.{Isolates, PageTellsNothing, HealthTellsNothing, MessagesStandAlone};
ghost use Rattle.service.specs.Retries.{HasAsked, RetriesAddNothing, StaysFailedOnceAsked};
ghost use Rattle.service.specs.Seen.{seen};
ghost use Rattle.service.specs.Sound.{EachIsSound};
ghost use Rattle.service.specs.StepLaws.{StepLaws};
ghost use Rattle.service.specs.Turns.{EachHearsItsOwn};
ghost use Rattle.engine.specs.Following.{ContinuesAfter};
ghost use Rattle.records.specs.Later.{IsLater};
ghost use Rattle.records.specs.Step.{account_rules, transfer_rules};
ghost use Rattle.records.specs.declared.account_result.AccountResult.TheVariants as for_account;
ghost use Rattle.records.specs.declared.transfer_result.TransferResult.TheVariants as for_transfer;
ghost use Rattle.wire.specs.declared.request.Request.TheVariants.{Accounts, Transfers};

use crate::Moments;
use chain::Ledgers;
use engine::{
    books_balance, continued_of_continued_continues, ends_once, failed_ids_hold,
    failed_stays_failed, later_of_later_is_later, limits_hold, retry_adds_nothing, steps_continue,
    steps_lead_to_later, steps_tell_their_clock, sums_fit, what_was_told_stays,
};
use ledger_http::{meanings_are_unique, messages_stand_alone};
use parts::rests_stay;

/// For any two ledgers that agree on the caller's machine, the same bytes at the same moment give
/// the same reply and leave the same machine of the caller, and every other tenant's stays, unless
/// one of them answers that it is unavailable, which changes nothing.
pub fn tenants_are_isolated()
    ensures { Isolates }
{
    meanings_are_unique();
}

/// Whoever asks for the console's page is told the same bytes, with a key or without one, whatever
/// the ledgers hold, and nothing changes.
pub fn page_tells_nothing()
    ensures { PageTellsNothing }
{
    meanings_are_unique();
}

/// Whoever asks for health of ledgers that serve is told the same bytes, with a key or without one,
/// whatever they hold, and nothing changes.
pub fn health_tells_nothing()
    ensures { HealthTellsNothing }
{
    meanings_are_unique();
}

/// What stands behind a message does not matter to its answer.
pub fn messages_answered_alone()
    ensures { MessagesStandAlone }
{
    meanings_are_unique();
    messages_stand_alone();
}

/// In any course, what a tenant is told and the machine that it is left with are those of its own
/// requests alone, and of its own joining. What was answered `unavailable` counts as never asked,
/// unless a reopening found it done.
pub fn each_tenant_sees_itself()
    ensures { EachSeesItself }
{}

/// The response to a message is the event of that message and its reply.
pub fn responses_happen()
    ensures { ResponsesHappen }
{
    meanings_are_unique();
}

/// Of ledgers of which an opening finds what is there while they are live, a response makes what the
/// event of its message does, also of what an opening may find.
pub fn responses_move<L: Ledgers>()
    ensures { ResponsesMove L.means }
{
    meanings_are_unique();
}

/// So it is at each point of a round.
pub fn responses_move_within<L: Ledgers>()
    ensures { ResponsesMove (seen L.means) }
{
    meanings_are_unique();
}

/// What a service does for a tenant between messages books nothing: no account and no transfer is
/// added, and no id fails.
pub fn service_books_nothing()
    ensures { ServiceBooksNothing }
{}

/// In a round each message gets one reply, the one in its place: it is the response to that message
/// alone, over the ledgers as those before it left them.
pub fn rounds_answer_each()
    ensures { EachHearsItsOwn }
{}

/// The exchanges of a connection are a course, as long as the ledgers are live, and so are those of
/// several connections, one exchange after the other.
pub fn connections_are_courses<L: Ledgers, C: Moments>()
    ensures exchanges { ExchangesLeadOn L.means C.gives }
    ensures connections { ConnectionsAreCourses L.means C.gives }
{
    meanings_are_unique();
}

/// What a tenant is told on a connection and the machine that it is left with are those of its own
/// requests alone, as long as the ledgers are live.
pub fn connections_serve_each_alone<L: Ledgers, C: Moments>()
    ensures { ServesEachAlone L.means C.gives }
{
    connections_are_courses::<L, C>();
    each_tenant_sees_itself();
}

// Whatever a tenant asks leads to a later machine.
fn requests_lead_to_later()
    ensures { StepLaws IsLater }
{
    steps_lead_to_later();
    later_of_later_is_later();
}

// That machine continues the one before it.
fn requests_continue()
    ensures { StepLaws ContinuesAfter }
{
    steps_continue();
    continued_of_continued_continues();
}

/// A batch whose every event was accepted in a course adds nothing when it is sent again, however
/// often, whenever, and whatever any tenant did between. So it is whether the batch was answered,
/// or answered `unavailable` and found done.
pub fn retried_in_course_adds_nothing()
    ensures accounts { RetriesAddNothing HasAsked account_rules for_account.Exists Accounts }
    ensures transfers { RetriesAddNothing HasAsked transfer_rules for_transfer.Exists Transfers }
{
    requests_lead_to_later();
    retry_adds_nothing();
}

/// A transfer event that failed for good in a course stays failed: sent again, however often and
/// whenever, as the first event of a closed chain it answers `id_already_failed`, and its chain
/// changes nothing.
pub fn failed_in_course_stays_failed()
    ensures { StaysFailedOnceAsked HasAsked }
{
    requests_lead_to_later();
    failed_stays_failed();
}

/// What a tenant was told in a course up to a clock stays, whatever any tenant did since: its entries
/// are kept in place, those that came since are later than the clock that it was told, and what lies
/// in a span of time up to it is told again.
pub fn told_in_course_stays()
    ensures { ToldStays HasAsked }
{
    requests_continue();
    steps_tell_their_clock();
    what_was_told_stays();
}

/// What is left of a statement stays in any course, whatever any tenant does, as long as its own
/// tenant has the key that it had: each later part tells what the first ledger would have told.
pub fn left_in_course_stays()
    ensures { LeftStays }
{
    requests_continue();
    rests_stay();
}

/// Of live ledgers each tenant's books balance, its limits hold and its pending transfers end once at
/// most.
pub fn ledgers_are_sound<L: Ledgers>()
    ensures { (ledgers : L) → L.means.is_live ledgers
        → EachIsSound (L.means.tenants ledgers) }
{
    sums_fit();
    books_balance();
    limits_hold();
    ends_once();
    failed_ids_hold();
}
