//! A tenant's key as a command has it: given, read from standard input, or drawn.
ghost use Rattle.std.specs.Prelude.{◌≡◌, codes, None, Some, IfErr, IfOk, MatchResult, OnOk};
ghost use Rattle.command_line.specs.Values.{text_in};
ghost use Rattle.admin_client.specs.GivenKeys.{IsGivenKey, IsKeyTold, IsUnread, key_text};

use command_texts::{Fault, put_key};
use records::Drain;
use std::io::{ErrorKind, Input};
use std::random::RandomSource;

/// The word for a key that is read from standard input.
const FROM_INPUT: &str = "-";

/// A key's text.
#[derive(Drop)]
pub enum GivenKey<'a> {
    /// As it was given on the command line.
    Word(&'a str),
    /// A line of standard input, without white space behind it.
    Input(String),
    /// 64 hexadecimal digits that were drawn.
    Drawn(String),
}

impl<'a> GivenKey<'a> {
    /// The key that a word means: one that is drawn without a word, and for `-` a line of standard
    /// input.
    pub fn read(rt: &HostRuntime, word: Option<&'a str>) -> Result<GivenKey<'a>, Fault>
        ensures given { IfOk result (IsGivenKey (text_in word.entry)) }
        ensures fault { IfErr result (IsUnread (text_in word.entry)) }
    {
        match word {
            None => draw(rt),
            Some(text) => given(rt, text),
        }
    }

    /// Its text.
    pub fn as_str(&self) -> &str
        ensures { result.now ≡ key_text self.now }
    {
        match self {
            GivenKey::Word(text) => text,
            GivenKey::Input(text) | GivenKey::Drawn(text) => text.as_str(),
        }
    }

    /// Tells a key that was drawn, which nobody has seen.
    pub fn tell<O: Drain>(&self, out: &mut O) -> Result<(), Fault>
        ensures told { OnOk result (IsKeyTold (O.written out.old) (O.written out.new) self.now) }
        ensures fault { IfErr result (λ fault. fault ≡ Fault.Output) }
    {
        match self {
            GivenKey::Drawn(text) => put_key(out, text.as_str()),
            GivenKey::Word(_) | GivenKey::Input(_) => Ok(()),
        }
    }
}

// The key that a word gives.
fn given<'a>(rt: &HostRuntime, word: &'a str) -> Result<GivenKey<'a>, Fault>
    ensures given { IfOk result (IsGivenKey (Some word.entry.now)) }
    ensures fault { IfErr result (IsUnread (Some word.entry.now)) }
{
    if word == FROM_INPUT {
        read_input(rt)
    } else {
        Ok(GivenKey::Word(word))
    }
}

// A key that nobody has.
fn draw<'a>(rt: &HostRuntime) -> Result<GivenKey<'a>, Fault>
    ensures { MatchResult result (IsGivenKey None) (λ fault. fault ≡ Fault.Unavailable) }
{
    let mut bytes = [0; 32];
    if rt.fill_bytes(&mut bytes).is_err() {
        return Err(Fault::Unavailable);
    }
    Ok(GivenKey::Drawn(hex::encode(rt.alloc(), bytes.as_slice())?))
}

// A line of standard input as a key. What is no text is none.
fn read_input<'a>(rt: &HostRuntime) -> Result<GivenKey<'a>, Fault>
    ensures { MatchResult result (IsGivenKey (Some (codes "-")))
        (λ fault. fault ≡ Fault.Unavailable) }
{
    let mut line = String::new(rt.alloc());
    match rt.read_line(&mut line) {
        Ok(_) => Ok(GivenKey::Input(String::from_str(rt.alloc(), line.trim_ascii_end())?)),
        Err(error) if error.kind() == ErrorKind::InvalidData => {
            Ok(GivenKey::Input(String::new(rt.alloc())))
        }
        Err(_) => Err(Fault::Unavailable),
    }
}
