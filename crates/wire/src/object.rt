ghost use Rattle.std.specs.Prelude.{◌≡◌, Option, is_none, IfSome, IfErr, Some, not, option_map};
ghost use Rattle.std.specs.Prelude.{if◌then◌else◌};
ghost use Rattle.std.specs.List.{find};
ghost use Rattle.std.specs.Result.{result_ok};
ghost use Rattle.serde_json.specs.Data.{Data};
ghost use Rattle.wire.specs.Fields.{KnownFields, has_only, is_among, known_names, names_of};
ghost use Rattle.wire.specs.Fields.{object_of};
ghost use Rattle.wire.specs.Misfits.{IsBadNumber, IsMisfit, an_object, no_known_object, told_by};
ghost use Rattle.wire.specs.Trees.{least, members_data, tree_data};

use crate::Wanted;
use crate::misfit::Misfit;
use crate::tree::members;
use json::Value;
use std::cmp::Ordering;

/// What is sent as a JSON object of known fields.
pub(crate) trait Object: Drop {
    ghost fields: { KnownFields };

    ghost from_fields: { Data → Option Self };

    /// Whether an object may have a field of this name.
    fn has_field(name: &str) -> bool
        ensures { result ≡ is_among (known_names fields) name.now };

    /// What the fields of an object tell, whatever other fields it has.
    fn read_fields(object: &Value<'_>) -> Result<Self, Misfit<'static>>
        ensures value { result_ok result ≡ from_fields (tree_data object.now) }
        ensures misfit { IfErr result (IsBadNumber fields (tree_data object.now)) };
}

pub(crate) fn read_object<'a, O: Object>(value: &Value<'a>) -> Result<O, Misfit<'a>>
    ensures value { result_ok result
        ≡ object_of (known_names O.fields) O.from_fields (tree_data value.now) }
    ensures misfit { IfErr result (IsMisfit (an_object O.fields) (tree_data value.now)) }
{
    match stranger::<O>(value) {
        None => O::read_fields(value),
        Some(misfit) => Err(misfit),
    }
}

// Why a value is no object of known fields, if it is none: the first field that nobody knows.
fn stranger<'a, O: Object>(value: &Value<'a>) -> Option<Misfit<'a>>
    ensures none { is_none result ≡ has_only (known_names O.fields) (tree_data value.now) }
    ensures some { IfSome result (λ misfit.
        no_known_object (known_names O.fields) (tree_data value.now) ≡ told_by misfit) }
{
    let Some(members) = members(value) else {
        return Some(Misfit::of_value(Wanted::Object));
    };
    match first_stranger::<O>(members) {
        Some(name) => Some(Misfit::of_field(name, Wanted::KnownName)),
        None => None,
    }
}

// The first name, in the order of their bytes, that nobody knows.
fn first_stranger<'a, O: Object>(members: &[(&'a str, Value<'a>)]) -> Option<&'a str>
    ensures { option_map (λ name. name.now) result
        ≡ find (λ name. not (is_among (known_names O.fields) name))
        (names_of (members_data members.now)) }
{
    let mut first = None;
    for member in members {
        first = noted::<O>(first, member.0);
    }
    first
}

// The first stranger, once a name more is known.
fn noted<'a, O: Object>(first: Option<&'a str>, name: &'a str) -> Option<&'a str>
    ensures { option_map (λ other. other.now) result
        ≡ (if not (is_among (known_names O.fields) name.now)
        then Some (least (option_map (λ other. other.now) first.entry) name.now)
        else option_map (λ other. other.now) first.entry) }
{
    if O::has_field(name) {
        first
    } else {
        Some(earlier(first, name))
    }
}

fn earlier<'a>(first: Option<&'a str>, name: &'a str) -> &'a str
    ensures { result.now ≡ least (option_map (λ other. other.now) first.entry) name.now }
{
    match first {
        Some(other) => if name.cmp(other) == Ordering::Less {
            name
        } else {
            other
        },
        None => name,
    }
}
