//! The reply that is being written to a client.
ghost use Rattle.std.specs.Prelude.{◌≡◌, ◌≤◌, [], length, drop};
ghost use Rattle.ledger_http.specs.ReplyText.{reply_text};
ghost use Rattle.clients.specs.Talk.{is_empty};

use ledger_http::Reply;
use std::marker::Model;

/// One reply, of which a part may be written, or none.
#[derive(Drop)]
pub(crate) struct Outbox {
    reply: Option<Reply>,
    // So many of its last bytes are not written.
    left: usize,
}

impl Model for Outbox {
    ghost use Rattle.std.specs.Prelude.{◌≤◌, ℕ, List, length};
    ghost use Rattle.clients.specs.Talk.{bytes_of, last_bytes};

    ghost Value = { List ℕ };

    ghost view = { λ outbox. last_bytes outbox.left (bytes_of outbox.reply) };

    ghost invariant = { λ outbox. outbox.left ≤ length (bytes_of outbox.reply) };
}

impl Outbox {
    pub(crate) fn new() -> Outbox
        ensures { result ≡ [] }
    {
        Outbox {
            reply: None,
            left: 0,
        }
    }

    /// Whether all is written.
    pub(crate) fn is_empty(&self) -> bool
        ensures { result ≡ is_empty self.now }
    {
        self.left == 0
    }

    /// Puts a reply in the place of what is there.
    pub(crate) fn put(&mut self, reply: Reply)
        ensures { self.new ≡ reply_text reply }
    {
        self.left = reply.bytes().len();
        self.reply = Some(reply);
    }

    /// The bytes that are not written.
    pub(crate) fn unsent(&self) -> &[u8]
        ensures { result.now ≡ self.now }
    {
        match &self.reply {
            None => &[],
            Some(reply) => {
                let bytes = reply.bytes();
                &bytes[bytes.len() - self.left..]
            }
        }
    }

    /// So many bytes more are written. A reply that is written whole is let go.
    pub(crate) fn wrote(&mut self, count: usize)
        requires { count ≤ length self.old }
        ensures { self.new ≡ drop count self.old }
    {
        self.left -= count;
        if self.left == 0 {
            self.reply = None;
        }
    }
}
