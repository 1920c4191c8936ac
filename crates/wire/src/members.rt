//! The members of an object in a message.

ghost use Rattle.std.specs.Prelude.{◌≡◌, ◌∷◌, [], IfOk, decimal, map};
ghost use Rattle.json.specs.Token.{string};
ghost use Rattle.serde_json.specs.Data as json;
ghost use Rattle.serde_json.specs.Written.{compact_text};
ghost use Rattle.wire.specs.Reply.{member_of, object_with, whole_data, wide_data};
ghost use Rattle.wire.specs.Writing.{AddsData, AddsTokens, member_tokens};

use amount::{Amount, MAX_DIGITS};
use json::Writer;
use std::alloc::{AllocError, Global};

/// A member of an object that is written.
#[derive(Clone, Copy, Debug, PartialEq, Eq)]
pub struct Member<'a> {
    name: &'a str,
    value: Told<'a>,
}

// What a member tells.
#[derive(Clone, Copy, Debug, PartialEq, Eq)]
pub(crate) enum Told<'a> {
    Whole(u64),
    U64(u64),
    U128(u128),
    Text(&'a str),
    Flag(bool),
}

impl<'a> Member<'a> {
    /// A number that is written as a JSON number.
    pub(crate) fn whole(name: &'a str, value: u32) -> Member<'a>
        ensures { member_of result ≡ (name.now, whole_data value) }
    {
        Member::number(name, u64::from(value))
    }

    /// The same of 64 bits.
    pub(crate) fn number(name: &'a str, value: u64) -> Member<'a>
        ensures { member_of result ≡ (name.now, whole_data value) }
    {
        let value = Told::Whole(value);
        Member { name, value }
    }

    /// A number that is written as a text.
    pub fn u64(name: &'a str, value: u64) -> Member<'a>
        ensures { member_of result ≡ (name.now, wide_data value) }
    {
        let value = Told::U64(value);
        Member { name, value }
    }

    /// The same of 128 bits.
    pub fn u128(name: &'a str, value: u128) -> Member<'a>
        ensures { member_of result ≡ (name.now, wide_data value) }
    {
        let value = Told::U128(value);
        Member { name, value }
    }

    pub fn text(name: &'a str, text: &'a str) -> Member<'a>
        ensures { member_of result ≡ (name.now, json.string text.now) }
    {
        let value = Told::Text(text);
        Member { name, value }
    }

    pub fn flag(name: &'a str, flag: bool) -> Member<'a>
        ensures { member_of result ≡ (name.now, json.boolean flag) }
    {
        let value = Told::Flag(flag);
        Member { name, value }
    }
}

/// An object of these members, as compact JSON.
pub fn object_text(alloc: Global, members: &[Member<'_>]) -> Result<Vec<u8>, AllocError>
    ensures { IfOk result (λ text.
        text.items ≡ compact_text (object_with (map member_of members.now))) }
{
    let mut writer = Writer::new(Vec::new(alloc));
    write_object(&mut writer, members)?;
    Ok(writer.into_inner())
}

/// Writes such an object.
pub fn write_object(writer: &mut Writer, members: &[Member<'_>]) -> Result<(), AllocError>
    ensures { AddsData (object_with (map member_of members.now)) writer.old writer.new result }
{
    writer.begin_object()?;
    write_members(writer, members)?;
    writer.end_object()
}

pub(crate) fn write_members(writer: &mut Writer, members: &[Member<'_>]) -> Result<(), AllocError>
    ensures { AddsTokens (member_tokens (map member_of members.now)) writer.old writer.new result }
{
    for member in members {
        write_member(writer, member)?;
    }
    Ok(())
}

/// Writes a member, in an object that has begun.
pub fn write_member(writer: &mut Writer, member: &Member<'_>) -> Result<(), AllocError>
    ensures { AddsTokens (member_tokens (member_of member.now ∷ [])) writer.old writer.new result }
{
    writer.key(member.name)?;
    match member.value {
        Told::Whole(value) => writer.u64(value),
        Told::U64(value) => writer.quoted_u64(value),
        Told::U128(value) => write_u128(writer, value),
        Told::Text(text) => writer.string(text),
        Told::Flag(flag) => writer.boolean(flag),
    }
}

// A number in a string.
fn write_u128(writer: &mut Writer, value: u128) -> Result<(), AllocError>
    ensures { AddsTokens (string (decimal value) ∷ []) writer.old writer.new result }
{
    let mut digits = [0; MAX_DIGITS];
    let len = Amount::new(value).write_decimal(&mut digits);
    match str::from_utf8(&digits[..len]) {
        Ok(text) => writer.string(text),
        Err(_) => unreachable!(),
    }
}
