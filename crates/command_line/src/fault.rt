ghost use Rattle.std.specs.Prelude.{◌≡◌};
ghost use Rattle.command_line.specs.Refusal.{IsFaultBy};
ghost use Rattle.command_line.specs.declared.fault.LineFault.TheVariants.{Memory};

use crate::version_text;
use clap::error::ErrorKind;
use std::alloc::AllocError;
use std::error::Error;
use std::fmt;

/// Why a command line is no command.
#[derive(Debug, Drop)]
pub enum LineFault {
    /// `clap` refuses the words, or was asked for help or shows it: its error has the text.
    Refused(clap::Error),
    /// `--version` was asked for.
    Version,
    /// Memory ran out.
    Memory,
}

impl fmt::Display for LineFault {
    fn fmt<W: fmt::Write>(&self, f: &mut fmt::Formatter<W>) -> fmt::Result {
        match self {
            LineFault::Refused(error) => write!(f, "{error}"),
            LineFault::Version => f.write_str(version_text()),
            LineFault::Memory => f.write_str("unavailable"),
        }
    }
}

impl Error for LineFault {}

impl From<AllocError> for LineFault {
    ghost from_gives = { λ _ fault. fault ≡ Memory };

    fn from(_error: AllocError) -> LineFault {
        LineFault::Memory
    }
}

impl From<clap::Error> for LineFault {
    ghost from_gives = { IsFaultBy };

    fn from(error: clap::Error) -> LineFault {
        match error.kind() {
            ErrorKind::OutOfMemory => LineFault::Memory,
            ErrorKind::DisplayVersion => LineFault::Version,
            _ => LineFault::Refused(error),
        }
    }
}
