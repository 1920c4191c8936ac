ghost use Rattle.std.specs.Prelude.{◌≡◌, [], ◌∷◌, ◌++◌, Some, IfOk};
ghost use Rattle.bodies.specs.Answer.{plain_answer, text_of};
ghost use Rattle.bodies.specs.SampleBook.{opened};

use crate::plain_reply::PlainReply;
use crate::responding::respond_plain;
use crate::sample_book::{FIRST, two_tenants};
use records::Unavailable;
use std::alloc::Global;
use wire::refusal_text;

/// The line that the program prints for a body of the first tenant at moment 0: the reply's body,
/// or the refusal as an object, and a line feed.
pub fn printed(alloc: Global, body: &[u8]) -> Result<Vec<u8>, Unavailable>
    ensures { IfOk result (λ line.
        line.items ≡ text_of (plain_answer (Some opened) body.now 0) ++ 10 ∷ []) }
{
    let mut book = two_tenants(alloc)?;
    let mut line = match respond_plain(alloc, &mut book, &FIRST, body, 0) {
        PlainReply::Body(text) => text,
        PlainReply::Refused(refusal) => refusal_text(alloc, refusal.name())?,
        PlainReply::Unavailable => return Err(Unavailable::Memory),
    };
    line.push(b'\n')?;
    Ok(line)
}
