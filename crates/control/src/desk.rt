//! Where an operator's calls come in.
use crate::Order;
use crate::body::stopped_body;
use crate::caller::Caller;
use crate::refusal::Refusal;
use crate::socket_file::{FileId, listen, remove};
use crate::stage::Stage;
use command_texts::Fault;
use mio::net::UnixListener;
use std::alloc::{AllocGlobal, Global};
use std::fs::Files;
use std::io::{self, ErrorKind};
use std::net::Net;
use std::time::{Clock, Duration};

/// So many are connected at once.
const MOST: usize = 8;

/// So many milliseconds those who have a reply at the end are waited for at most.
const LAST_WAIT: u64 = 2_000;

/// So many of them those whose message is not whole.
const LAST_READ: u64 = 200;

/// So many milliseconds pass between two looks at them.
const PAUSE: u64 = 10;

/// Where an operator's calls come in: from eight at once, in the order in which they came. Each has
/// ten seconds for its message, and ten to take its reply.
#[derive(Drop)]
pub struct Desk {
    alloc: Global,
    listener: UnixListener,
    path: String,
    file: FileId,
    callers: Vec<Caller>,
    /// Whether somebody may wait to be accepted.
    is_knocked: bool,
}

impl Desk {
    /// Listens at a path, at which nothing is but a socket that a service before has left. The path
    /// is shorter than 108 bytes, or it is an error.
    pub fn open<R: Files + Net + AllocGlobal>(rt: &R, path: &str) -> io::Result<Desk> {
        let path = String::from_str(rt.alloc(), path)?;
        let (listener, file) = listen(rt, path.as_str())?;
        Ok(Desk {
            alloc: rt.alloc(),
            listener,
            path,
            file,
            callers: Vec::with_capacity(rt.alloc(), MOST)?,
            is_knocked: true,
        })
    }

    /// What is to be watched: where it is readable somebody has come.
    pub fn listener(&mut self) -> &mut UnixListener {
        &mut self.listener
    }

    /// Whether a call is being read or a reply written, so that `next` is to be called again soon
    /// though nobody has come.
    pub fn is_busy(&self) -> bool {
        self.is_knocked || self.is_busy_with_callers()
    }

    /// The next order, if the message of one is whole. Who is not answered by `answer` before the
    /// next call is let go, but for one who asked for a copy, whom `answer_copy` answers, and those
    /// who asked for the end: they are answered by `close`. While one waits for a copy, any other
    /// who asks for one is refused here.
    pub fn next(&mut self, now: Duration) -> Option<Order> {
        self.callers.retain(|caller| caller.stage != Stage::Waits);
        self.accept(now);
        let order = self.first_order(now);
        self.let_go();
        order
    }

    // The order of the first whose message is whole and good, and of whom none was given yet.
    fn first_order(&mut self, now: Duration) -> Option<Order> {
        let is_copying = self.has(Stage::Copies);
        for caller in self.callers.iter_mut() {
            match caller.serve(self.alloc, now) {
                Some(Order::Copy { .. }) if is_copying => {
                    caller.refuse(self.alloc, Refusal::from(Fault::Unavailable), now);
                }
                Some(order) => return Some(order),
                None => {}
            }
        }
        None
    }

    // Whether somebody is waited for in this way.
    fn has(&self, stage: Stage) -> bool {
        self.callers.iter().any(|caller| caller.stage == stage)
    }

    // Accepts those who wait, as far as there is room.
    fn accept(&mut self, now: Duration) {
        for _ in self.callers.len()..MOST {
            match self.listener.accept() {
                Ok((stream, _)) => {
                    let caller = Caller::new(self.alloc, stream, now);
                    if self.callers.push(caller).is_err() {
                        break;
                    }
                }
                Err(error) => {
                    self.is_knocked = error.kind() != ErrorKind::WouldBlock;
                    return;
                }
            }
        }
        self.is_knocked = true;
    }

    // Lets go who was told all, or was late.
    fn let_go(&mut self) {
        self.callers.retain(|caller| caller.stage != Stage::Over);
    }

    /// Answers the order that `next` gave last, by the body of the reply or a fault. A copy is not
    /// answered so.
    pub fn answer(&mut self, now: Duration, told: Result<&[u8], Fault>) {
        self.answer_those(Stage::Waits, now, told);
    }

    /// Answers who waits for a copy, as `answer` does.
    pub fn answer_copy(&mut self, now: Duration, told: Result<&[u8], Fault>) {
        self.answer_those(Stage::Copies, now, told);
    }

    // Answers those who are waited for in this way.
    fn answer_those(&mut self, stage: Stage, now: Duration, told: Result<&[u8], Fault>) {
        for caller in self.callers.iter_mut() {
            if caller.stage == stage {
                match told {
                    Ok(body) => caller.tell(self.alloc, body, now),
                    Err(fault) => caller.refuse(self.alloc, Refusal::from(fault), now),
                }
            }
        }
        self.let_go();
    }

    /// Ends: the socket is removed, who asked for the end is told, and who waits for a copy is
    /// refused. So is whoever asks for anything else by now, within a fifth of a second. What is
    /// left of replies is written for two seconds at most.
    pub fn close<R: Files + Clock>(mut self, rt: &R) {
        remove(rt, self.path.as_str(), self.file);
        let begin = rt.monotonic().unwrap_or(Duration::ZERO);
        self.accept(begin);
        for turn in 0..LAST_WAIT / PAUSE {
            self.end_all(begin, turn < LAST_READ / PAUSE);
            if !self.is_busy_with_callers() {
                break;
            }
            rt.sleep(Duration::from_millis(PAUSE));
        }
    }

    // Goes on with each caller, and tells those whose message is whole that the end has come. Whose
    // message is not is let go where no more is read.
    fn end_all(&mut self, now: Duration, reads: bool) {
        for caller in self.callers.iter_mut() {
            let _ = caller.serve(self.alloc, now);
            match caller.stage {
                Stage::Stops => caller.tell(self.alloc, stopped_body().as_bytes(), now),
                Stage::Copies | Stage::Waits => {
                    caller.refuse(self.alloc, Refusal::from(Fault::Unavailable), now);
                }
                Stage::Reads(_) if !reads => caller.stage = Stage::Over,
                Stage::Reads(_) | Stage::Writes(_) | Stage::Over => {}
            }
        }
    }

    // Whether a call is being read or a reply written.
    fn is_busy_with_callers(&self) -> bool {
        self.callers.iter().any(|caller| caller.stage.is_busy())
    }
}
