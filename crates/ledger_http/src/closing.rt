//! Whether a message is the last of its connection.
ghost use Rattle.ledger_http.specs.Message.{IsClosing};

use crate::ends::head_length;
use crate::head::head_of;

/// Whether the connection ends after the reply to the first message of `bytes`: a `connection`
/// header of its head has the option `close` (RFC 9112, 9.6).
pub fn is_closing(bytes: &[u8]) -> bool
    ensures { IsClosing bytes.now result }
{
    let Ok(size) = head_length(bytes) else {
        return false;
    };
    match head_of(&bytes[..size]) {
        Ok(head) => head.has_close,
        Err(_) => false,
    }
}
