ghost use Rattle.std.specs.Prelude.{◌≡◌};
ghost use Rattle.ledger_http.specs.declared.early.Early.TheVariants as early;

use crate::Refusal;

/// What is told before any tenant is looked up.
#[derive(Clone, Copy, Debug, PartialEq, Eq)]
pub enum Early {
    /// The console's page.
    Page,
    /// That the ledgers serve.
    Health,
    Refused(Refusal),
}

impl From<Refusal> for Early {
    ghost from_gives = { λ refusal told. told ≡ early.Refused refusal };

    fn from(refusal: Refusal) -> Early {
        Early::Refused(refusal)
    }
}
