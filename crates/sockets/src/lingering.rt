//! Clients that were written their last reply. A connection that is closed while something is
//! unread may lose what was written, so what they still send is read for a moment, and dropped.
use crate::line::Line;
use crate::peer::read_from;
use mio::net::TcpStream;
use polling::Read;
use std::alloc::{AllocError, Global};
use std::collections::BTreeMap;
use std::net::Shutdown;
use std::time::Duration;

/// For how many seconds they are read.
const SECONDS: u64 = 1;

/// How much is read of each.
const BYTES: usize = 16 * 1024 * 1024;

/// How much is read at once.
const PIECE: usize = 65_536;

#[derive(Drop)]
struct Leaving {
    stream: TcpStream,
    is_queued: bool,
    /// How much more is read.
    left: usize,
    until: Duration,
}

/// All of them.
#[derive(Drop)]
pub(crate) struct Lingering {
    leaving: BTreeMap<u64, Leaving>,
    by_time: Line,
    piece: Vec<u8>,
}

impl Lingering {
    pub(crate) fn new(alloc: Global) -> Result<Lingering, AllocError> {
        Ok(Lingering {
            leaving: BTreeMap::new(alloc),
            by_time: Line::new(alloc),
            piece: Vec::from_elem(alloc, 0, PIECE)?,
        })
    }

    pub(crate) fn len(&self) -> usize {
        self.leaving.len()
    }

    /// The first moment at which one of them has had its time.
    pub(crate) fn next_due(&self) -> Option<Duration> {
        match self.by_time.first() {
            Some((until, _)) => Some(until),
            None => None,
        }
    }

    /// A client is lingered for from now on, in place of the oldest where they are so many. Where
    /// memory is wanting it is dropped. Says whether it is to be queued.
    pub(crate) fn begin(
        &mut self,
        number: u64,
        stream: TcpStream,
        is_queued: bool,
        now: Duration,
        most: usize,
    ) -> bool {
        if stream.shutdown(Shutdown::Write).is_err() {
            return false;
        }
        if self.leaving.len() >= most {
            self.drop_first();
        }
        let until = now.saturating_add(Duration::from_secs(SECONDS));
        let leaving = Leaving {
            stream,
            is_queued: true,
            left: BYTES,
            until,
        };
        if self.by_time.add(until, number).is_err() {
            return false;
        }
        match self.leaving.insert(number, leaving) {
            Ok(_) => !is_queued,
            Err(_) => {
                self.by_time.remove(until, number);
                false
            }
        }
    }

    fn drop_one(&mut self, number: u64) {
        if let Some(leaving) = self.leaving.remove(&number) {
            self.by_time.remove(leaving.until, number);
        }
    }

    fn drop_first(&mut self) {
        if let Some((until, number)) = self.by_time.first() {
            self.by_time.remove(until, number);
            let _ = self.leaving.remove(&number);
        }
    }

    /// Drops those who have had their time.
    pub(crate) fn drop_due(&mut self, now: Duration) {
        for _ in 0..self.by_time.len() {
            if self.by_time.due(now).is_none() {
                return;
            }
            self.drop_first();
        }
    }

    /// Something has come of one of them, or it has ended. Says whether it is to be queued.
    pub(crate) fn wake(&mut self, number: u64) -> bool {
        match self.leaving.get_mut(&number) {
            Some(leaving) => {
                let is_new = !leaving.is_queued;
                leaving.is_queued = true;
                is_new
            }
            None => false,
        }
    }

    /// Reads a piece of one of them, where it is one of them, and drops it. Says whether it is to
    /// be queued again.
    pub(crate) fn drain(&mut self, number: u64) -> bool {
        let more = match self.leaving.get_mut(&number) {
            Some(leaving) => match read_from(&mut leaving.stream, &mut self.piece) {
                Read::Gave(count) => {
                    leaving.left = leaving.left.saturating_sub(count);
                    leaving.left > 0
                }
                Read::Waits => {
                    leaving.is_queued = false;
                    return false;
                }
                Read::Ended | Read::Broken => false,
            },
            None => return false,
        };
        if !more {
            self.drop_one(number);
        }
        more
    }
}
