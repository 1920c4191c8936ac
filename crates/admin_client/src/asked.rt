ghost use Rattle.std.specs.Prelude.{◌≡◌, IfErr, IfOk};
ghost use Rattle.command_line.specs.Values.{text_in};
ghost use Rattle.admin_client.specs.Asking.{IsAskedInWords, IsUnasked, ReadsFrom, ReadsTo};
ghost use Rattle.admin_client.specs.Asking.{is_whole, read_form};

use command_line::StatementWords;
use command_texts::{Fault, first_moment, last_moment};
use records::Order;
use statement::{Form, Layout, Period};

/// What of a statement is asked for, and how it is to be written.
#[derive(Clone, Copy, Debug, PartialEq, Eq)]
pub struct Asked {
    /// The entries in this period.
    pub period: Period,
    /// The oldest entry first, or the newest.
    pub order: Order,
    /// How they are written.
    pub layout: Layout,
}

impl Asked {
    /// Reads the words: first the bounds, then the form.
    pub fn read(words: &StatementWords<'_>) -> Result<Asked, Fault>
        ensures ok { IfOk result (IsAskedInWords words.now) }
        ensures err { IfErr result (IsUnasked words.now) }
    {
        let from = from_moment(words.from)?;
        let to = to_moment(words.to)?;
        let form = form_of(words.format)?;
        Ok(Asked {
            period: Period { from, to },
            order: if words.reversed {
                Order::Newest
            } else {
                Order::Oldest
            },
            layout: Layout {
                form,
                is_wide: words.wide,
                with_sums: words.balances,
            },
        })
    }

    /// Whether the whole statement is asked for, as the service tells it.
    pub(crate) fn is_whole(&self) -> bool
        ensures { result ≡ is_whole self.now }
    {
        self.period == Period::ALWAYS
            && matches!(self.layout.form, Form::Csv)
            && !self.layout.is_wide
            && !self.layout.with_sums
    }
}

// The moment from which entries are asked for.
fn from_moment(word: Option<&str>) -> Result<u64, Fault>
    ensures { ReadsFrom (text_in word.entry) result }
{
    match word {
        Some(text) => first_moment(text),
        None => Ok(0),
    }
}

// The moment up to which they are.
fn to_moment(word: Option<&str>) -> Result<u64, Fault>
    ensures { ReadsTo (text_in word.entry) result }
{
    match word {
        Some(text) => last_moment(text),
        None => Ok(u64::MAX),
    }
}

// The form in which they are written.
fn form_of(word: Option<&str>) -> Result<Form, Fault>
    ensures is { result ≡ read_form (text_in word.entry) }
    ensures err { IfErr result (λ fault. fault ≡ Fault.BadFormat) }
{
    match word {
        Some(name) => Form::read(name).ok_or(Fault::BadFormat),
        None => Ok(Form::Csv),
    }
}
