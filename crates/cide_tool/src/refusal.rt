//! Why a command isn't done.
ghost use Rattle.std.specs.Prelude.{◌≡◌};
ghost use Rattle.cide_tool.specs.Refusals.{line_of, status_of};

use cide_io::{Failed, ReadAll};
use command_words::WordsFault;
use std::alloc::AllocError;

/// Why a command isn't done.
#[derive(Drop)]
pub enum Refusal {
    /// The project's text isn't in the grammar; the line says where.
    NoText(String),
    /// A name is no feature, or was named before; the line says which.
    BadName(String),
    /// The words aren't a command's.
    Usage,
    /// The project can't be opened or read.
    ReadFault,
    /// The output can't be written.
    WriteFault,
    /// There is no memory.
    NoMemory,
    /// A constraint is false under the selection; the line says which.
    Invalid(String),
    /// The project's text is longer than a text may be.
    TooLong,
}

impl Refusal {
    /// The status that the program ends with.
    pub fn status(&self) -> u8
        ensures { result ≡ status_of self.now }
    {
        match self {
            Refusal::NoText(_) => 3,
            Refusal::BadName(_) => 3,
            Refusal::Usage => 4,
            Refusal::ReadFault => 5,
            Refusal::WriteFault => 6,
            Refusal::NoMemory => 7,
            Refusal::Invalid(_) => 8,
            Refusal::TooLong => 11,
        }
    }

    /// The line that tells it.
    pub fn line(&self) -> &str
        ensures { result.now ≡ line_of self.now }
    {
        match self {
            Refusal::NoText(line) => line.as_str(),
            Refusal::BadName(line) => line.as_str(),
            Refusal::Usage => {
                "usage: cide check|export|view|script|serve|audit|certify|verify|sample\n"
            }
            Refusal::ReadFault => "read fault\n",
            Refusal::WriteFault => "write fault\n",
            Refusal::NoMemory => "no memory\n",
            Refusal::Invalid(line) => line.as_str(),
            Refusal::TooLong => "limit\n",
        }
    }
}

impl From<AllocError> for Refusal {
    ghost use Rattle.std.specs.Prelude.{◌≡◌};
    ghost use Rattle.cide_tool.specs.declared.refusal.Refusal.TheVariants.{NoMemory};

    ghost from_gives = { λ _ refusal. refusal ≡ NoMemory };

    fn from(_error: AllocError) -> Refusal {
        Refusal::NoMemory
    }
}

impl From<Failed> for Refusal {
    ghost use Rattle.std.specs.Prelude.{◌≡◌};
    ghost use Rattle.cide_tool.specs.declared.refusal.Refusal.TheVariants.{WriteFault};

    ghost from_gives = { λ _ refusal. refusal ≡ WriteFault };

    fn from(_fault: Failed) -> Refusal {
        Refusal::WriteFault
    }
}

impl From<ReadAll> for Refusal {
    ghost use Rattle.std.specs.Prelude.{◌≡◌};
    ghost use Rattle.cide_tool.specs.Refusals.{unread};

    ghost from_gives = { λ fault refusal. refusal ≡ unread fault };

    fn from(fault: ReadAll) -> Refusal {
        match fault {
            ReadAll::TooLong => Refusal::TooLong,
            ReadAll::ReadFault => Refusal::ReadFault,
            ReadAll::NoMemory => Refusal::NoMemory,
        }
    }
}

impl From<WordsFault> for Refusal {
    ghost use Rattle.std.specs.Prelude.{◌≡◌};
    ghost use Rattle.cide_tool.specs.Refusals.{unasked};

    ghost from_gives = { λ fault refusal. refusal ≡ unasked fault };

    fn from(fault: WordsFault) -> Refusal {
        match fault {
            WordsFault::NoCommand => Refusal::Usage,
            WordsFault::NoMemory => Refusal::NoMemory,
        }
    }
}
