//! Room for long messages.
ghost use Rattle.std.specs.Prelude.{◌≡◌, ◌+◌, ◌-◌, ◌^◌, ◌++◌, ◌∷◌, [], min, filter, not, nat_eq, MatchOption, OnOk, OnErr};
ghost use Rattle.sockets.specs.Room.{IsFull, IsLetIn, IsTaken, KeepsRoom, LetsNobodyIn, share};

use std::alloc::{AllocError, Global};
use std::collections::VecDeque;

/// A client that waits for room, and for how many bytes.
#[derive(Clone, Copy, Debug, PartialEq, Eq)]
pub(crate) struct Asked {
    pub(crate) number: u64,
    pub(crate) bytes: usize,
}

/// Room for all messages of more than 64 kB together. Each has its whole length of it, or none. Of
/// one that is longer than all room no more than that is reserved, so that it keeps nobody waiting
/// for ever.
#[derive(Drop)]
pub(crate) struct Room {
    /// So many bytes there are.
    all: usize,
    /// So many of them are free.
    free: usize,
    /// Those who wait, in the order in which their heads came.
    waiting: VecDeque<Asked>,
}

impl Room {
    pub(crate) fn new(alloc: Global, all: usize) -> Room
        ensures all { result.all ≡ all }
        ensures free { result.free ≡ all }
        ensures nobody { result.waiting.items ≡ [] }
    {
        Room {
            all,
            free: all,
            waiting: VecDeque::new(alloc),
        }
    }

    // How much of the room a message takes.
    fn share(&self, bytes: usize) -> usize
        ensures { result ≡ share self.now bytes }
    {
        bytes.min(self.all)
    }

    /// Takes room for a message, where nobody waits and there is as much. Says how much was taken.
    pub(crate) fn take(&mut self, bytes: usize) -> Option<usize>
        ensures { MatchOption result (IsFull self.old bytes × (self.new ≡ self.old))
            (IsTaken self.old self.new bytes) }
    {
        let share = self.share(bytes);
        if !self.waiting.is_empty() || self.free < share {
            return None;
        }
        self.free -= share;
        Some(share)
    }

    /// A client waits for room, behind all who do.
    pub(crate) fn wait(&mut self, asked: Asked) -> Result<(), AllocError>
        ensures last { OnOk result (self.new.waiting.items ≡ self.old.waiting.items ++ asked ∷ []) }
        ensures none { OnErr result (self.new.waiting.items ≡ self.old.waiting.items) }
        ensures room { KeepsRoom self.old self.new }
    {
        match self.waiting.push_back(asked) {
            Ok(()) => Ok(()),
            Err(_) => Err(AllocError),
        }
    }

    /// Whoever has waited for longest takes its room, where there is as much. Says who, and how
    /// much. Where all room is free nobody is left to wait.
    pub(crate) fn admit(&mut self) -> Option<Asked>
        ensures { MatchOption result (LetsNobodyIn self.old self.new)
            (IsLetIn self.old self.new) }
    {
        let first = match self.waiting.front() {
            Some(first) => *first,
            None => return None,
        };
        let bytes = self.share(first.bytes);
        if self.free < bytes {
            return None;
        }
        self.free -= bytes;
        let _ = self.waiting.pop_front();
        Some(Asked {
            number: first.number,
            bytes,
        })
    }

    /// Gives room back.
    pub(crate) fn give_back(&mut self, bytes: usize)
        ensures { self.new ≡ record self.old { free = min (self.old.free + bytes) (2 ^ 64 - 1) } }
    {
        self.free = self.free.saturating_add(bytes);
    }

    /// A client waits no more.
    pub(crate) fn leave(&mut self, number: u64)
        ensures gone { self.new.waiting.items
            ≡ filter (λ asked. not (nat_eq asked.number number)) self.old.waiting.items }
        ensures room { KeepsRoom self.old self.new }
    {
        self.waiting.retain(|asked| asked.number != number);
    }
}
