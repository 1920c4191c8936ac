ghost use Rattle.std.specs.Prelude.{ℕ};

/// Where the moments of messages come from. It is asked once a message, after the message was read.
pub trait Moments {
    // What giving a moment makes of it.
    ghost gives: { Self → ℕ → Self → Type 0 };

    /// The moment now, in nanoseconds.
    fn moment(&mut self) -> u64
        ensures { gives self.old result self.new };
}
