ghost use Rattle.std.specs.Prelude.{◌≡◌, ◌≤◌, ◌-◌, ◌^◌, min, max};
ghost use Rattle.std.specs.Duration.{as_nanos};
ghost use Rattle.listener.specs.Moments.{moment_at};

use service::Moments;
use std::io;
use std::time::{Clock, Duration};

/// Moments of the machine's clock, in nanoseconds since 1970, which do not fall. Where the clock is
/// set back, or cannot be read, the last one is given again, which is 0 at first. Where it stands
/// beyond the latest moment, that is given.
#[derive(Drop)]
pub struct SystemMoments<'a, R: Clock> {
    clock: &'a R,
    /// The one that was given last.
    told: u64,
}

impl<'a, R: Clock> SystemMoments<'a, R> {
    /// Moments of this clock, of which none was given yet.
    pub fn new(clock: &'a R) -> Self
        ensures { result.told ≡ 0 }
    {
        SystemMoments { clock, told: 0 }
    }

    // The moment of a time that the clock has told, or the last one, whichever is later.
    fn advance(&mut self, told: io::Result<Duration>) -> u64
        ensures later { result ≡ max self.old.told (moment_at told) }
        ensures told { self.new.told ≡ result }
    {
        self.told = self.told.max(moment_at(told));
        self.told
    }
}

// The nanoseconds, up to the greatest number that a moment can be.
fn nanoseconds(time: Duration) -> u64
    ensures { result ≡ min (as_nanos time) (2 ^ 64 - 1) }
{
    u64::try_from(time.as_nanos()).unwrap_or(u64::MAX)
}

// The moment of a time since 1970, 0 where the clock could not be read.
fn moment_at(told: io::Result<Duration>) -> u64
    ensures { result ≡ moment_at told }
{
    match told {
        Ok(time) => nanoseconds(time),
        Err(_) => 0,
    }
}

impl<R: Clock> Moments for SystemMoments<'_, R> {
    // Each is told from then on, and none is before the last.
    ghost gives = { λ old moment new. (moment ≡ new.told) × (old.told ≤ new.told) };

    fn moment(&mut self) -> u64 {
        let told = self.clock.since_1970();
        self.advance(told)
    }
}
