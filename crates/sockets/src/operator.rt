//! Who runs the service.
use crate::counts::Counts;
use polling::Batch;
use std::time::Duration;

/// Who runs the service: is told what becomes of it, and may call while it is served.
pub trait Operator {
    /// Nobody is accepted for the moment, since descriptors or memory are wanting.
    fn tell_short(&self);

    /// All who waited are accepted again.
    fn tell_accepting(&self);

    /// Something may have come at what a `Watcher` was given.
    fn rings(&self) {}

    /// Whether a call of the operator's is being read or written. Then nobody is waited for longer
    /// than a hundredth of a second.
    fn is_busy(&self) -> bool {
        false
    }

    /// Whether no more is to be begun. What is told from then on says `Sockets`.
    fn is_stopping(&self) -> bool {
        false
    }

    /// How many clients there are, told where that or another of these numbers has changed.
    fn notes(&self, _counts: &Counts) {}

    /// A reply is to be written to a client, whose first bytes are these.
    fn replies(&self, _reply: &[u8]) {}

    /// A message was answered by this reply, of which nothing is written yet: so its clock can be
    /// marked first. If the reply is a statement, this is its first part.
    fn mark(&self, _reply: &[u8]) {}

    /// A batch was answered by this reply.
    fn answered(&self, _batch: Batch, _reply: &[u8]) {}

    /// So many messages were answered in one round.
    fn shared(&self, _messages: u64) {}

    /// A turn has taken so long: from when something was told until more is asked for.
    fn turned(&self, _took: Duration) {}
}
