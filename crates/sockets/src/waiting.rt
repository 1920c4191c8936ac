//! What happens to clients.
ghost use Rattle.std.specs.Prelude.{⊤};

use crate::closing::Phase;
use crate::operator::Operator;
use crate::shortage::Tidings;
use crate::sockets::{EVENTS, Sockets};
use crate::tokens::{Owner, owner_of, token_of};
use mio::Interest;
use mio::net::TcpStream;
use polling::{Batch, Peers, Read, Told, Written};
use std::io;
use std::time::{Clock, Duration};

/// For how many seconds it is waited at most.
const LONGEST: u64 = 1;

/// For how many milliseconds at most while a call of the operator's is read or written.
const BUSY: u64 = 10;

/// For how many milliseconds it is waited where waiting for all fails.
const PAUSE: u64 = 100;

/// How often all who are ready have their turn, behind a waiting, before it is waited again. A
/// client is read in one of these turns and may share a round from the next one on.
const LOOKS: u8 = 2;

// Registers a client's connection.
fn register(poll: &mio::Registry, stream: &mut TcpStream, number: u64) -> io::Result<()> {
    let Some(token) = token_of(number) else {
        return Err(io::Error::from(io::ErrorKind::InvalidInput));
    };
    // A connection that is gone already is found out by reading.
    let _ = stream.set_nodelay(true);
    let both = Interest::READABLE | Interest::WRITABLE;
    poll.register(stream, token, both)
}

// The earlier one, where both are.
fn earlier(one: Option<Duration>, other: Option<Duration>) -> Option<Duration> {
    match (one, other) {
        (Some(one), Some(other)) => Some(one.min(other)),
        (Some(one), None) => Some(one),
        (None, other) => other,
    }
}

impl<K: Clock, O: Operator> Sockets<'_, K, O> {
    // The moment of the machine's clock, or where it cannot be read the last one.
    fn seen(&self) -> Duration {
        self.clock.monotonic().unwrap_or(self.time.seen)
    }

    // How long it is waited at most, whatever is waited for.
    fn longest(&self) -> Duration {
        if self.operator.is_busy() {
            return Duration::from_millis(BUSY);
        }
        Duration::from_secs(LONGEST)
    }

    // How long it may be waited.
    fn patience(&self) -> Duration {
        if self.guests.is_anybody_ready() || self.door.is_open() {
            return Duration::ZERO;
        }
        let due = earlier(
            earlier(
                self.guests.stages.next_due(),
                self.guests.lingering.next_due(),
            ),
            self.door.closed_until(),
        );
        match due {
            Some(due) => due.saturating_sub(self.time.now).min(self.longest()),
            None => self.longest(),
        }
    }

    // Waits until something happens, for so long at most. All to whom it did are queued.
    fn look(&mut self, most: Duration) {
        if self.poll.poll(&mut self.events, Some(most)).is_err() {
            self.clock.sleep(Duration::from_millis(PAUSE));
        }
        let seen = self.seen();
        self.time.waited(seen, most);
        let mut left = EVENTS;
        for event in &self.events {
            left = left.saturating_sub(1);
            match owner_of(event.token()) {
                Owner::Door => self.door.knock(),
                Owner::Operator => self.operator.rings(),
                Owner::Client(number) if event.is_error() => self.guests.reset(number),
                Owner::Client(number) => self.guests.wake(number, event.is_read_closed()),
            }
        }
        self.guests.lingering.drop_due(self.time.now);
        self.guests.begin_turns(left > 0);
    }

    // Waits until something happens, where it may be waited. All to whom it did have their turn.
    fn wait(&mut self, may_wait: bool) {
        let most = if may_wait {
            self.patience()
        } else {
            Duration::ZERO
        };
        self.look(most);
        self.door.begin_turns(self.time.now);
    }

    // Takes in who was accepted. Where descriptors or memory are wanting it is dropped.
    fn join(&mut self, fresh: u64) -> bool {
        let now = self.time.now;
        let Some(mut stream) = self.door.take() else {
            return false;
        };
        if register(self.poll.registry(), &mut stream, fresh).is_err()
            || self.guests.join(fresh, stream, now).is_err()
        {
            self.door.pause(now);
            return false;
        }
        self.operator.notes(&self.guests.counts);
        true
    }

    // Somebody new, where there is one. Where there are as many as there may be, who has been
    // silent for longest is late.
    fn greeted(&mut self, fresh: u64) -> Told {
        if !self.door.is_anybody_there(self.time.now) {
            return Told::Nothing;
        }
        if self.guests.are_many() {
            return match self.guests.longest_idle() {
                Some(number) => Told::Late(number),
                None => Told::Nothing,
            };
        }
        if self.join(fresh) {
            Told::Joined
        } else {
            Told::Nothing
        }
    }

    // Tells once that nobody is accepted, and once that all who waited are again.
    fn tell(&mut self) {
        let is_anybody_waiting = self.door.is_knocked();
        match self
            .shortage
            .learns(self.door.is_closed(), is_anybody_waiting)
        {
            Tidings::Short => self.operator.tell_short(),
            Tidings::Accepting => self.operator.tell_accepting(),
            Tidings::Nothing => {}
        }
    }

    // What has happened and was not told.
    fn next(&mut self, fresh: u64) -> Told {
        if let Some(number) = self.guests.next_reset() {
            return Told::Late(number);
        }
        if let Some(number) = self.guests.late(self.time.now) {
            return Told::Late(number);
        }
        let greeted = self.greeted(fresh);
        self.tell();
        if greeted != Told::Nothing {
            return greeted;
        }
        match self.guests.next_ready() {
            Some(number) => Told::Ready(number),
            None => Told::Nothing,
        }
    }

    // Looks without waiting who has sent something. All of them may be more than are told at once.
    fn look_once_more(&mut self) {
        for _ in 0..self.guests.peers.len() / EVENTS + 1 {
            self.look(Duration::ZERO);
        }
        self.guests.begin_closing();
    }

    // Waits for those who have not taken all of a reply, if there is anybody and time is left. Says
    // whether it has.
    fn waits_for_written(&mut self) -> bool {
        let left = self.closing.left(self.time.seen);
        if left.is_zero() || !self.guests.is_anybody_written_to() {
            return false;
        }
        self.look(left);
        true
    }

    // Who is ready, where no more is to be begun; or that nobody is left to be served.
    fn told_at_end(&mut self, may_wait: bool) -> Told {
        for _ in 0..u64::MAX {
            if let Some(number) = self.guests.next_at_end() {
                return Told::Ready(number);
            }
            if !may_wait {
                return Told::Nothing;
            }
            if !self.waits_for_written() {
                break;
            }
        }
        self.closing.end();
        Told::Nothing
    }

    // All time is over: clients that wait for their turns go.
    fn told_in_vain(&mut self, may_wait: bool) -> Told {
        self.is_letting_go = false;
        if may_wait {
            return Told::Nothing;
        }
        match self.guests.let_waiting_go() {
            Some(number) => {
                self.is_letting_go = true;
                Told::Late(number)
            }
            None => Told::Nothing,
        }
    }

    // What has happened, where no more is to be begun or not.
    fn told_now(&mut self, fresh: u64, may_wait: bool) -> Told {
        let seen = self.seen();
        self.operator.turned(seen.saturating_sub(self.time.seen));
        self.time.turned(seen);
        match self.closing.learns(self.operator.is_stopping(), seen) {
            Phase::Serves => self.told_next(fresh, may_wait),
            Phase::Begins => {
                self.look_once_more();
                self.told_at_end(may_wait)
            }
            Phase::Closes => self.told_at_end(may_wait),
            Phase::Ends => self.told_in_vain(may_wait),
        }
    }

    // Whether somebody is ready, and it is to be looked who else is before it is waited again.
    fn looks_again(&self) -> bool {
        self.looks > 0 && self.guests.is_anybody_ready()
    }

    // What has happened since it was told last, or what happens now.
    fn told_next(&mut self, fresh: u64, may_wait: bool) -> Told {
        let had_turns = self.guests.has_turns();
        let told = self.next(fresh);
        // Where turns were left `has_more` has said that it is not waited.
        if told != Told::Nothing || had_turns {
            return told;
        }
        if self.looks_again() {
            self.looks = self.looks.saturating_sub(1);
            self.look(Duration::ZERO);
        } else {
            self.wait(may_wait);
            self.looks = LOOKS;
        }
        self.next(fresh)
    }
}

impl<K: Clock, O: Operator> Peers for Sockets<'_, K, O> {
    // Nothing is known of what a client does, nor of what the system does of it.
    ghost does = { λ _ _ _. ⊤ };

    fn told(&mut self, fresh: u64) -> Told {
        self.told_now(fresh, true)
    }

    fn told_at_once(&mut self, fresh: u64) -> Told {
        self.told_now(fresh, false)
    }

    // Who asks for another turn is told behind the next look, and is waited for by nobody once it
    // was looked often enough.
    fn has_more(&self) -> bool {
        self.guests.has_turns()
            || self.guests.is_anybody_reset()
            || self.is_letting_go
            || self.looks_again()
    }

    fn shared(&self, messages: u64) {
        self.operator.shared(messages);
    }

    fn answered(&mut self, _client: u64, batch: Option<Batch>, reply: &[u8]) {
        self.operator.mark(reply);
        if let Some(batch) = batch {
            self.operator.answered(batch, reply);
        }
    }

    fn wants(&mut self, client: u64, bytes: u64) {
        self.guests.wants(client, bytes);
    }

    fn read(&mut self, client: u64, piece: &mut [u8]) -> Read {
        self.guests.read(client, piece, self.time.now)
    }

    fn write(&mut self, client: u64, bytes: &[u8]) -> Written {
        // A further part of a reply begins with the size of a chunk.
        if self.guests.begins_reply(client) && bytes.starts_with(b"HTTP/") {
            self.operator.replies(bytes);
        }
        self.guests.write(client, bytes, self.time.now)
    }

    fn again(&mut self, client: u64) {
        self.guests.again(client);
    }

    fn close(&mut self, client: u64) {
        let before = self.guests.counts;
        self.guests.close(client, self.time.now);
        if self.guests.counts != before {
            self.operator.notes(&self.guests.counts);
        }
    }
}
