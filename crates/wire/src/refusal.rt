ghost use Rattle.std.specs.Prelude.{◌≡◌, IfOk};
ghost use Rattle.serde_json.specs.Written.{compact_text};
ghost use Rattle.wire.specs.Reply.{refusal_data};

use crate::members::{Member, object_text};
use std::alloc::{AllocError, Global};

/// The reply's body to a request that is refused under this name, as compact JSON.
pub fn refusal_text(alloc: Global, name: &str) -> Result<Vec<u8>, AllocError>
    ensures { IfOk result (λ text. text.items ≡ compact_text (refusal_data name.now)) }
{
    object_text(alloc, &[Member::text("error", name)])
}
