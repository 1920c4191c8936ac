ghost use Rattle.std.specs.Prelude.{◌≡◌};
ghost use Rattle.service.specs.Begun.{whole};

use ledger_http::Reply;
use parts::Rest;

/// A reply that is begun: its first bytes, and what of a statement is left to be read for the others.
#[derive(Drop)]
pub struct Begun {
    pub front: Reply,
    pub rest: Option<Rest>,
}

impl Begun {
    /// A reply that is whole.
    pub fn whole(reply: Reply) -> Begun
        ensures { result ≡ whole reply }
    {
        Begun {
            front: reply,
            rest: None,
        }
    }
}
