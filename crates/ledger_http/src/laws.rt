//! Laws of what a message means. The functions do nothing; their contracts are the laws.
ghost use Rattle.std.specs.Prelude.{◌≡◌, ◌≢◌, ◌++◌, ℕ, List, Option, Some};
ghost use Rattle.httparse.specs.Grammar.{RequestHead};
ghost use Rattle.ledger_http.specs.declared.refusal.Refusal.{Refusal};
ghost use Rattle.ledger_http.specs.declared.refusal.Refusal.TheVariants.{Truncated};
ghost use Rattle.ledger_http.specs.Message.{HasHead, Begins, IsRefused, IsAnnounced};
ghost use Rattle.ledger_http.specs.Question.{asked_of};
ghost use Rattle.ledger_http.specs.Alone.{StandsAlone};

/// Bytes have one head or none, and so ask one thing.
pub fn meanings_are_unique()
    ensures head { (bytes : List ℕ) (h k : Option RequestHead)
        → HasHead bytes h → HasHead bytes k → h ≡ k }
    ensures asked { (bytes : List ℕ) (h k : Option RequestHead)
        → HasHead bytes h → HasHead bytes k → asked_of bytes h ≡ asked_of bytes k }
{}

/// What stands behind a message does not matter to what it asks.
pub fn messages_stand_alone()
    ensures { (unread message : List ℕ) (left : Option (List ℕ))
        → Begins unread message left → StandsAlone unread message }
{}

/// What comes later changes nothing of the first message, nor of why it is refused, but for one
/// that is cut short so far.
pub fn later_bytes_change_nothing()
    ensures begins { (unread message rest later : List ℕ) → Begins unread message (Some rest)
        → Begins (unread ++ later) message (Some (rest ++ later)) }
    ensures refused { (unread later : List ℕ) (refusal : Refusal) → IsRefused unread refusal
        → refusal ≢ Truncated → IsRefused (unread ++ later) refusal }
    ensures announced { (unread later : List ℕ) → IsAnnounced unread
        → IsAnnounced (unread ++ later) }
{}
