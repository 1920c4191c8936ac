//! What a reply says of the events of a batch.
ghost use Rattle.std.specs.Prelude.{◌≡◌};
ghost use Rattle.listener.specs.Tally.{together};

/// Events of batches that were answered.
#[derive(Clone, Copy, Debug, PartialEq, Eq)]
pub struct Events {
    /// Those whose result is `ok`.
    pub accepted: u64,
    /// Those with any other result.
    pub refused: u64,
}

impl Events {
    /// No event.
    pub(crate) fn none() -> Events {
        Events {
            accepted: 0,
            refused: 0,
        }
    }

    /// These and others.
    pub(crate) fn with(self, other: Events) -> Events
        ensures { result ≡ together self other }
    {
        Events {
            accepted: self.accepted.saturating_add(other.accepted),
            refused: self.refused.saturating_add(other.refused),
        }
    }

    /// Those that a reply to a batch has results of, each in `"result":"NAME"`. There are none
    /// where the whole batch is refused.
    pub(crate) fn told_in(reply: &[u8]) -> Events {
        let mut events = Events::none();
        for at in 0..reply.len() {
            if reply[at] == b'r' {
                events.tell(&reply[at..]);
            }
        }
        events
    }

    // Counts a result, where a text begins with one behind its first quotation mark.
    fn tell(&mut self, text: &[u8]) {
        if text.starts_with(b"result\":\"ok\"") {
            self.accepted = self.accepted.saturating_add(1);
        } else if text.starts_with(b"result\":\"") {
            self.refused = self.refused.saturating_add(1);
        }
    }
}
