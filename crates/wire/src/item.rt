ghost use Rattle.std.specs.Prelude.{◌≡◌, IfErr, Option};
ghost use Rattle.std.specs.Result.{result_ok};
ghost use Rattle.serde_json.specs.Data.{Data};
ghost use Rattle.wire.specs.Body.{id_of};
ghost use Rattle.wire.specs.Fields.{known_names, object_of};
ghost use Rattle.wire.specs.Misfits.{Expected, IsMisfit, an_id, an_object};
ghost use Rattle.wire.specs.Trees.{tree_data};

use crate::Wanted;
use crate::fields::read_number;
use crate::misfit::Misfit;
use crate::object::{Object, read_object};
use crate::tree::text;
use json::Value;

/// What a list in a body is made of.
pub(crate) trait Item: Drop {
    ghost means: { Data → Option Self };

    ghost expected: { Expected };

    fn read<'a>(value: &Value<'a>) -> Result<Self, Misfit<'a>>
        ensures value { result_ok result ≡ means (tree_data value.now) }
        ensures misfit { IfErr result (IsMisfit expected (tree_data value.now)) };
}

/// An event is an object of known fields.
impl<O: Object> Item for O {
    ghost means = { object_of (known_names O.fields) O.from_fields };

    ghost expected = { an_object O.fields };

    fn read<'a>(value: &Value<'a>) -> Result<O, Misfit<'a>> {
        read_object(value)
    }
}

/// The id of an account or a transfer that is looked up.
impl Item for u128 {
    ghost means = { id_of };

    ghost expected = { an_id };

    fn read<'a>(value: &Value<'a>) -> Result<u128, Misfit<'a>> {
        id_in(value).ok_or(Misfit::of_value(Wanted::Digits128))
    }
}

fn id_in(value: &Value<'_>) -> Option<u128>
    ensures { result ≡ id_of (tree_data value.now) }
{
    read_number(text(value)?)
}
