//! Laws of many clients. The functions do nothing; their contracts are the laws.
ghost use Rattle.clients.specs.Answering.{TellsGivenUp};
ghost use Rattle.clients.specs.Deeds.{MightCome, AreExchanges, AreWritten, AreServed};
ghost use Rattle.clients.specs.Turns.{TurnsLeadOn, ServeEachAlone, HearTheirOwn};
ghost use Rattle.clients.specs.Within.{AreSeen, AnswersLeave, RepliesWithin, TellsUnavailable};
ghost use Rattle.service.specs.Seen.{seen};

use chain::Ledgers;
use ledger_http::{later_bytes_change_nothing, meanings_are_unique};
use service::{Moments, connections_are_courses, each_tenant_sees_itself};

/// Turns of many clients are a course of the service, as long as the ledgers are live. They go on
/// where any course has ended, so that reopenings may lie between turns.
pub fn clients_are_courses<L: Ledgers, C: Moments>()
    ensures { TurnsLeadOn L.means C.gives }
{
    connections_are_courses::<L, C>();
}

/// Whichever clients its requests come from, and whatever others ask between, what a tenant is told
/// and the machine that it is left with are those of its own requests alone, as long as the ledgers
/// are live.
pub fn clients_serve_each_alone<L: Ledgers, C: Moments>()
    ensures { ServeEachAlone L.means C.gives }
{
    clients_are_courses::<L, C>();
    each_tenant_sees_itself();
}

/// Whatever others ask between, the messages of a client get one reply each, in order, and it gets
/// no others.
pub fn clients_hear_their_own<L: Ledgers, C: Moments>()
    ensures { HearTheirOwn L.means C.gives }
{}

/// In whatever pieces messages come, their replies are those to all that came, one message at a
/// time. What is written to a client is a beginning of the replies to its own messages, in order,
/// one a message.
pub fn clients_are_served<L: Ledgers, C: Moments>()
    ensures come { MightCome L.means C.gives }
    ensures exchanges { AreExchanges L.means C.gives }
    ensures written { AreWritten L.means C.gives }
    ensures served { AreServed L.means C.gives }
{
    clients_hear_their_own::<L, C>();
}

/// It is so where messages are answered in rounds.
pub fn clients_are_served_in_rounds<L: Ledgers, C: Moments>()
    ensures come { MightCome (seen L.means) C.gives }
    ensures hear { HearTheirOwn (seen L.means) C.gives }
    ensures exchanges { AreExchanges (seen L.means) C.gives }
    ensures written { AreWritten (seen L.means) C.gives }
{}

/// A client that gives up has replied to the message whose body is due, whatever comes later.
pub fn giving_up_replies<L: Ledgers, C: Moments>()
    ensures { TellsGivenUp L.means C.gives }
{
    later_bytes_change_nothing();
}

/// What is replied to between transactions is so at points of rounds as well.
pub fn whole_ledgers_are_seen<L: Ledgers, C: Moments>()
    ensures { AreSeen L.means C.gives }
{}

/// Replies that the messages of a round get are replies to the next messages of their clients. Each
/// leaves the machines that its question leaves. Of a round that was not kept each may be told that
/// the ledgers are unavailable.
pub fn rounds_reply<L: Ledgers, C: Moments>()
    ensures leave { AnswersLeave }
    ensures reply { RepliesWithin L.means C.gives }
    ensures unavailable { TellsUnavailable (seen L.means) C.gives }
{
    later_bytes_change_nothing();
    meanings_are_unique();
}
