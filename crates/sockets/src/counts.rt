//! How many clients there are, and were.
ghost use Rattle.std.specs.Prelude.{◌≡◌, ◌+◌, ◌-◌, ◌^◌, min, max, true, false};

/// How many clients there are, and how many there were since it was listened first. No number goes
/// beyond 2^64 - 1.
#[derive(Clone, Copy, Debug, PartialEq, Eq)]
pub struct Counts {
    /// Who is connected now.
    pub connected: u64,
    /// The most at once so far.
    pub most_connected: u64,
    /// Who was taken in so far.
    pub accepted: u64,
    /// Who was let go so far because they had had their time, or were silent for longest where
    /// there were as many as there may be.
    pub late: u64,
}

impl Counts {
    /// Nobody has come.
    pub fn new() -> Counts
        ensures { result
            ≡ record { connected = 0; most_connected = 0; accepted = 0; late = 0 } }
    {
        Counts {
            connected: 0,
            most_connected: 0,
            accepted: 0,
            late: 0,
        }
    }

    /// Somebody was taken in.
    pub(crate) fn joined(&mut self)
        ensures connected { self.new.connected ≡ min (self.old.connected + 1) (2 ^ 64 - 1) }
        ensures most { self.new.most_connected
            ≡ max self.old.most_connected self.new.connected }
        ensures accepted { self.new.accepted ≡ min (self.old.accepted + 1) (2 ^ 64 - 1) }
        ensures late { self.new.late ≡ self.old.late }
    {
        self.connected = self.connected.saturating_add(1);
        self.most_connected = self.most_connected.max(self.connected);
        self.accepted = self.accepted.saturating_add(1);
    }

    /// Somebody went, who was late or not.
    pub(crate) fn left(&mut self, is_late: bool)
        ensures late { is_late ≡ true → self.new
            ≡ record self.old {
              connected = self.old.connected - 1;
              late = min (self.old.late + 1) (2 ^ 64 - 1);
            } }
        ensures other { is_late ≡ false → self.new
            ≡ record self.old { connected = self.old.connected - 1 } }
    {
        self.connected = self.connected.saturating_sub(1);
        if is_late {
            self.late = self.late.saturating_add(1);
        }
    }
}
