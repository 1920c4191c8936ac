//! JSON in a body.
ghost use Rattle.std.specs.Prelude.{◌≡◌, option_map};
ghost use Rattle.serde_json.specs.View.{view};
ghost use Rattle.command_texts.specs.Answered.{TellsIfAvailable};
ghost use Rattle.wire.specs.Body.{json_of};

use command_texts::Fault;
use serde_json::Value;
use std::alloc::Global;

/// The value that a body is, if it is JSON.
pub(crate) fn value_in(alloc: Global, body: &[u8]) -> Result<Option<Value>, Fault>
    ensures { TellsIfAvailable result (λ value. option_map view value ≡ json_of body.now) }
{
    match Value::from_slice(alloc, body) {
        Ok(value) => Ok(Some(value)),
        Err(error) if error.is_memory() => Err(Fault::Unavailable),
        Err(_) => Ok(None),
    }
}
