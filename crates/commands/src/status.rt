//! What a service tells of itself.
ghost use Rattle.std.specs.Prelude.{◌≡◌, ◌/◌, ◌-◌, ◌^◌, min};
ghost use Rattle.std.specs.Duration.{as_nanos};

use command_texts::Fault;
use control::{Count, counts_body};
use listener::Bell;
use metered_disk::Reading;
use openings::versions::CURRENT_VERSION;
use std::fs;
use std::time::Duration;

// How many bytes a file has: 0 where it is not found.
fn length(rt: &HostRuntime, path: &str) -> u64 {
    match fs::metadata(rt, path) {
        Ok(found) => found.len(),
        Err(_) => 0,
    }
}

// How many microseconds a time has, up to the greatest number.
fn microseconds(time: Duration) -> u64
    ensures { result ≡ min (as_nanos time / 1000) (2 ^ 64 - 1) }
{
    u64::try_from(time.as_micros()).unwrap_or(u64::MAX)
}

/// The body that tells which version of the schema a service has and for how long it has run, how
/// many clients it has had, what it has done for them, what its disk has done, and how long the
/// files are of the ledger at a path.
pub(crate) fn status_body(
    rt: &HostRuntime,
    db: &str,
    bell: &Bell,
    disk: &Reading,
    age: Duration,
) -> Result<Vec<u8>, Fault> {
    let log = format!(in rt.alloc(); "{db}-wal")?;
    let (counts, tally) = (bell.counts(), bell.tally());
    let count = |name, value: u64| Count {
        name,
        value: u128::from(value),
    };
    let all = [
        count("schema", u64::from(CURRENT_VERSION)),
        count("seconds", age.as_secs()),
        count("clients", counts.connected),
        count("most_clients", counts.most_connected),
        count("clients_accepted", counts.accepted),
        count("clients_late", counts.late),
        count("replies_2xx", tally.told),
        count("replies_4xx", tally.refused),
        count("replies_5xx", tally.failed),
        count("accounts_accepted", tally.accounts.accepted),
        count("accounts_refused", tally.accounts.refused),
        count("transfers_accepted", tally.transfers.accepted),
        count("transfers_refused", tally.transfers.refused),
        count("rounds", tally.rounds),
        count("round_messages", tally.shared),
        count("turn_microseconds", microseconds(tally.busy)),
        count("longest_turn_microseconds", microseconds(tally.longest)),
        count("reopenings", tally.reopened),
        count("refused_reopenings", tally.closed),
        count("last_refused_opening", u64::from(tally.last_refusal)),
        count("syncs", disk.syncs),
        count("sync_microseconds", microseconds(disk.busy)),
        count("longest_sync_microseconds", microseconds(disk.longest)),
        count("disk_faults", disk.faults),
        count("file_bytes", length(rt, db)),
        count("log_bytes", length(rt, log.as_str())),
    ];
    Ok(counts_body(rt.alloc(), all.as_slice())?)
}
