//! The limits of a service, as the command line gives them.
ghost use Rattle.std.specs.Prelude.{◌≡◌, option_map, unwrap_or};
ghost use Rattle.std.specs.Duration.{as_nanos};
ghost use Rattle.listener.specs.GivenLimits.{AreLimitsGiven, in_nanos};

use command_line::{LEAST_ROOM, LimitWords};
use ledger_http::LONGEST_MESSAGE;
use sockets::Limits;
use std::time::Duration;

/// A megabyte of the room for long messages.
const MEGABYTE: u64 = 1024 * 1024;

// The least room that the command line takes holds the longest message.
const _: () = prove!(LEAST_ROOM * MEGABYTE >= LONGEST_MESSAGE as u64);

// So many seconds where they were given, else what is usual.
fn seconds_or(given: Option<u64>, usual: Duration) -> Duration
    ensures { as_nanos result ≡ unwrap_or (option_map in_nanos given) (as_nanos usual) }
{
    match given {
        Some(seconds) => Duration::from_secs(seconds),
        None => usual,
    }
}

/// The limits that were given, and the usual one for each that was not.
pub fn limits_of(words: &LimitWords) -> Limits
    ensures { AreLimitsGiven words.now result }
{
    let usual = Limits::usual();
    Limits {
        clients: match words.clients {
            Some(clients) => clients as usize,
            None => usual.clients,
        },
        room: match words.room {
            Some(megabytes) => megabytes.saturating_mul(MEGABYTE) as usize,
            None => usual.room,
        },
        idle: seconds_or(words.idle, usual.idle),
        message: seconds_or(words.message, usual.message),
        reply: seconds_or(words.reply, usual.reply),
    }
}
