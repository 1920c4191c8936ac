//! How far the first message of some bytes has been looked at, so that no byte is looked at twice.
ghost use Rattle.std.specs.Prelude.{◌≢◌, IfOk, IfErr};
ghost use Rattle.ledger_http.specs.declared.refusal.Refusal.TheVariants.{Truncated};
ghost use Rattle.ledger_http.specs.Message.{IsRefused};
ghost use Rattle.ledger_http.specs.Progress.{IsOpen, IsProgress, IsLooked};

use crate::Refusal;
use crate::ends::head_length_from;
use crate::message::announced;

/// What is known of the first message of some bytes.
#[derive(Clone, Copy)]
pub(crate) enum Progress {
    /// Its head does not end within so many bytes.
    Head(usize),
    /// It has a good head of so many bytes, behind which a body of so many bytes is due.
    Body(usize, usize),
}

/// Looks at the bytes behind those that were looked at.
pub(crate) fn look_on(bytes: &[u8], looked: usize) -> Result<Progress, Refusal>
    requires { IsOpen bytes.now looked }
    ensures progress { IfOk result (IsProgress bytes.now) }
    ensures looked { IfOk result (IsLooked bytes.now) }
    ensures refused { IfErr result (IsRefused bytes.now) }
    ensures for_good { IfErr result (λ refusal. refusal ≢ Truncated) }
{
    match head_length_from(bytes, looked) {
        Ok(head) => match announced(&bytes[..head]) {
            Ok(size) => Ok(Progress::Body(head, size)),
            Err(refusal) => Err(refusal),
        },
        Err(refusal) => {
            if refusal == Refusal::Truncated {
                Ok(Progress::Head(bytes.len()))
            } else {
                Err(refusal)
            }
        }
    }
}
