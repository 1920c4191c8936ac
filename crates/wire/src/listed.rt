ghost use Rattle.std.specs.Prelude.{◌≡◌, ◌∷◌, ◌++◌, IfOk, map};
ghost use Rattle.json.specs.Token.{key};
ghost use Rattle.json.specs.Tree.{json_tokens};
ghost use Rattle.serde_json.specs.Written.{compact_text, outline};
ghost use Rattle.wire.specs.Reply.{list_data, member_of, object_with};
ghost use Rattle.wire.specs.Writing.{AddsTokens};

use crate::members::{Member, write_members};
use crate::shown::Form;
use json::Writer;
use std::alloc::{AllocError, Global};

/// An object that has a list under a name, between other members, as compact JSON.
pub fn list_text<T, F: Form<T>>(
    alloc: Global,
    front: &[Member<'_>],
    name: &str,
    list: &[T],
    behind: &[Member<'_>],
) -> Result<Vec<u8>, AllocError>
    ensures { IfOk result (λ text. text.items ≡ compact_text (object_with (map member_of front.now
        ++ (name.now, list_data F.shows list.now) ∷ map member_of behind.now))) }
{
    let mut writer = Writer::new(Vec::new(alloc));
    writer.begin_object()?;
    write_members(&mut writer, front)?;
    write_list::<T, F>(&mut writer, name, list)?;
    write_members(&mut writer, behind)?;
    writer.end_object()?;
    Ok(writer.into_inner())
}

fn write_list<T, F: Form<T>>(writer: &mut Writer, name: &str, list: &[T]) -> Result<(), AllocError>
    ensures { AddsTokens (key name.now ∷ json_tokens (outline (list_data F.shows list.now)))
        writer.old writer.new result }
{
    writer.key(name)?;
    writer.begin_array()?;
    for shown in list {
        F::write(shown, writer)?;
    }
    writer.end_array()
}
