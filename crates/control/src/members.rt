//! The members of an object in a body.
ghost use Rattle.std.specs.Prelude.{◌≡◌, option_map};
ghost use Rattle.serde_json.specs.View.{view};
ghost use Rattle.control.specs.Members.{members_in, text_at};

use serde_json::Value;

/// How many members a value has, if it is an object.
pub(crate) fn members(value: &Value) -> Option<usize>
    ensures { result ≡ members_in (view value.now) }
{
    Some(value.as_object()?.len())
}

/// The text of a member.
pub(crate) fn text<'a>(value: &'a Value, member: &str) -> Option<&'a str>
    ensures { option_map (λ text. text.now) result ≡ text_at member.now (view value.now) }
{
    value.get(member)?.as_str()
}
