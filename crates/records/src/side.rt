ghost use Rattle.std.specs.Prelude.{◌≡◌};
ghost use Rattle.records.specs.Sides.{other_side};

/// Which side of a transfer an account is: what is debited to it, or what is credited.
#[derive(Clone, Copy, Debug, PartialEq, Eq)]
pub enum Side {
    Debit,
    Credit,
}

impl Side {
    /// The other of the two sides.
    pub fn other(self) -> Side
        ensures { result ≡ other_side self }
    {
        match self {
            Side::Debit => Side::Credit,
            Side::Credit => Side::Debit,
        }
    }
}
