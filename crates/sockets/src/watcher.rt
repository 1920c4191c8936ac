//! What has a source of the operator's own watched.
use crate::tokens::BELL;
use mio::event::Source;
use mio::{Interest, Registry};
use std::io;

/// Has a source of the operator's own watched beside the clients' sockets, such as a listener.
/// Where something may be read of it, `Operator::rings` is called. It is told at a change, so the
/// operator goes on until it would wait. There is one such source at most.
#[derive(Drop)]
pub struct Watcher {
    registry: Registry,
}

impl Watcher {
    pub(crate) fn new(registry: &Registry) -> io::Result<Watcher> {
        Ok(Watcher {
            registry: registry.try_clone()?,
        })
    }

    /// Watches a source from now on.
    pub fn watch<S: Source>(&self, source: &mut S) -> io::Result<()>
        ensures kept { S.keeps source.old source.new }
    {
        self.registry.register(source, BELL, Interest::READABLE)
    }
}
