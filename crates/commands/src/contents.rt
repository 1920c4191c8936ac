//! What is in a ledger file.
ghost use Rattle.std.specs.String.{string_bytes};
ghost use Rattle.std.specs.Prelude.{◌≡◌};
ghost use Rattle.command_texts.specs.Answered.{TellsIfAvailable};
ghost use Rattle.commands.specs.Contents.{contents_line};

use command_texts::Fault;
use std::alloc::Global;

/// What is in a ledger file.
#[derive(Clone, Copy, Debug, Default, PartialEq, Eq)]
pub(crate) struct Contents {
    pub(crate) tenants: u64,
    pub(crate) accounts: u64,
    pub(crate) transfers: u64,
    /// The latest clock of the tenants, in nanoseconds since 1970. 0 where there is none.
    pub(crate) clock: u64,
}

/// The line that says what is in a file.
pub(crate) fn contents_line(alloc: Global, contents: &Contents) -> Result<String, Fault>
    ensures { TellsIfAvailable result (λ line. string_bytes line ≡ contents_line contents.now) }
{
    let Contents {
        tenants,
        accounts,
        transfers,
        clock,
    } = *contents;
    Ok(format!(in alloc;
        "tenants {tenants} accounts {accounts} transfers {transfers} clock {clock}\n"
    )?)
}
