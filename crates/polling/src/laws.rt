//! Laws of serving many clients. The functions do nothing; their contracts are the laws.
ghost use Rattle.polling.specs.Courses.{IsCourse, CoursesServeEachAlone, BooksOnlyWhatIsAsked, MomentsRise};
ghost use Rattle.polling.specs.Laws.{EachIsServed, AreCalls, AreLives, BeginsEmpty, GivesOn, IsRunOfCalls, ServingGoesOn, EndsTold};
ghost use Rattle.polling.specs.Ring.{TurnsGoRound};
ghost use Rattle.polling.specs.Serving.{rules};

use crate::{Peers, Steward};
use chain::Ledgers;
use clients::clients_are_served_in_rounds;
use service::{Moments, each_tenant_sees_itself, responses_move_within, service_books_nothing};

/// In whatever pieces messages come, whatever others ask between, and whatever the steward does to
/// the ledgers, what is written to a client is a beginning of the replies to its own messages, in
/// order, one a message.
pub fn each_is_served<L: Ledgers, H: Steward<L>, C: Moments, P: Peers>()
    ensures { EachIsServed (rules L.means C.gives H.renews H.waits P.does) }
{
    clients_are_served_in_rounds::<L, C>();
}

/// Where the steward changes nothing and no messages share a round, all that was done is a run of
/// deeds of the same ledgers.
pub fn serving_is_a_run<L: Ledgers, H: Steward<L>, C: Moments, P: Peers>()
    ensures { AreLives (rules L.means C.gives H.renews H.waits P.does) }
{}

/// As long as the supervisor opens no ledgers, all that is done is one run of calls, rounds included.
/// So ledgers that have failed stay so, and it keeps what each run of calls keeps.
pub fn serving_is_a_run_of_calls<L: Ledgers, H: Steward<L>, C: Moments, P: Peers>()
    ensures each { AreCalls (rules L.means C.gives H.renews H.waits P.does) }
    ensures all { IsRunOfCalls (rules L.means C.gives H.renews H.waits P.does) }
{}

/// All that is done over live ledgers, whenever they are opened again and whatever an operator asks
/// for, is a course of what happens to them, with what an opening finds done. It begins anew where
/// they are opened anew, or where that is refused. In it a tenant's replies and its machine are
/// those of its own deeds alone.
pub fn serving_is_a_course<L: Ledgers, H: Steward<L>, C: Moments, P: Peers>()
    ensures course { IsCourse (rules L.means C.gives H.renews H.waits P.does) }
    ensures alone { CoursesServeEachAlone (rules L.means C.gives H.renews H.waits P.does) }
{
    responses_move_within::<L>();
    each_tenant_sees_itself();
}

/// Whatever is booked for a tenant was asked for by a message of its own. Each other deed in such a
/// course is one that a service may do for a tenant, and books nothing.
pub fn only_what_is_asked_is_booked<L: Ledgers, H: Steward<L>, C: Moments, P: Peers>()
    ensures { BooksOnlyWhatIsAsked (rules L.means C.gives H.renews H.waits P.does) }
{
    service_books_nothing();
}

/// Where the moments that are given do not fall, neither do those of such a course. No tenant is
/// settled to a time that is later than the last moment that was given.
pub fn moments_rise<L: Ledgers, H: Steward<L>, C: Moments, P: Peers>()
    ensures { MomentsRise (rules L.means C.gives H.renews H.waits P.does) }
{}

/// Before anybody has come, all that is held is of a hall in which nobody has sent anything.
pub fn serving_begins_empty<L: Ledgers, C: Moments, P: Peers>()
    ensures { BeginsEmpty L C P }
{}

/// What is done behind what was done leads on from the hall in which that began. Where nobody was
/// owed a turn, nobody is behind turns that are given. Where it ended though not enough was done,
/// those who are connected told something in it.
pub fn serving_goes_on<L: Ledgers, H: Steward<L>, C: Moments, P: Peers>()
    ensures served { ServingGoesOn (rules L.means C.gives H.renews H.waits P.does) }
    ensures turns { GivesOn (rules L.means C.gives H.renews H.waits P.does) }
    ensures told { EndsTold (rules L.means C.gives H.renews H.waits P.does) }
{}

/// After a turn of one tenant, each other tenant that waits has a turn before that one has its
/// next. This holds for any number of clients of each, whichever messages arrive meanwhile.
pub fn turns_go_round()
    ensures { TurnsGoRound }
{}
