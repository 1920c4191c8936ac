//! That nobody is accepted for want of descriptors or memory, and when that is told.
ghost use Rattle.std.specs.Prelude.{◌≡◌, false};
ghost use Rattle.sockets.specs.Shortage.{told_behind, tidings};

/// What there is to tell.
#[derive(Clone, Copy, Debug, PartialEq, Eq)]
pub(crate) enum Tidings {
    /// Nobody is accepted.
    Short,
    /// All who waited are accepted again.
    Accepting,
    /// Nothing that was not told.
    Nothing,
}

/// Whether it was told last that nobody is accepted.
#[derive(Clone, Copy, Debug)]
pub(crate) struct Shortage {
    is_told: bool,
}

impl Shortage {
    pub(crate) fn new() -> Shortage
        ensures { result ≡ record { is_told = false } }
    {
        Shortage { is_told: false }
    }

    /// What there is to tell, where nobody is accepted, or nobody waits to be.
    pub(crate) fn learns(&mut self, is_closed: bool, is_anybody_waiting: bool) -> Tidings
        ensures tells { result ≡ tidings self.old.is_told is_closed is_anybody_waiting }
        ensures told { self.new.is_told ≡ told_behind self.old.is_told result }
    {
        if is_closed && !self.is_told {
            self.is_told = true;
            return Tidings::Short;
        }
        if self.is_told && !is_closed && !is_anybody_waiting {
            self.is_told = false;
            return Tidings::Accepting;
        }
        Tidings::Nothing
    }
}
