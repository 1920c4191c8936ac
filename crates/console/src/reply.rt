ghost use Rattle.std.specs.Prelude.{◌≡◌, length};
ghost use Rattle.console.specs.Page.{page_length, page_text};
ghost use Rattle.console.specs.Reply.{reply_text};

use crate::page::REPLY;

/// The reply to whoever asks for the page, from its status line on. It needs no memory, and is the
/// same bytes each time.
pub fn page_reply() -> &'static str
    ensures text { result.now ≡ reply_text }
    ensures length { length page_text ≡ page_length }
{
    REPLY
}
