//! Why words give no job.
ghost use Rattle.std.specs.Prelude.{◌≡◌, option_map};
ghost use Rattle.review_desk_work.specs.Jobs.{fault_text};

use clap::error::ErrorKind;
use std::alloc::AllocError;

/// Why words give no job.
#[derive(Clone, Copy, PartialEq, Eq)]
pub enum WordsFault {
    /// They ask for help.
    Help,
    /// One is not UTF-8. `job_of` never gives it, since its words are read.
    NotUtf8,
    /// There is none.
    NoCommand,
    /// The first is no command.
    UnknownCommand,
    /// One is no option of the command, or one too many for it.
    UnknownWord,
    /// An option has no value.
    NoValue,
    /// An option is given twice.
    RepeatedOption,
    /// The file is missing.
    File,
    /// `--port` is missing, or no port.
    Port,
    /// `--count` is missing, or no count of connections.
    Count,
    /// `--change` is missing, or no number of a change.
    Change,
    /// `--project` is missing, or no name of a project.
    Project,
    /// `--branch` is missing, or no name of a branch.
    Branch,
    /// There was no memory to read them.
    Memory,
}

impl WordsFault {
    /// What standard error is told of it before the usage, behind the program's name. A call for help is told nothing but the usage.
    pub fn text(self) -> Option<&'static str>
        ensures { option_map (λ text. text.now) result ≡ fault_text self }
    {
        match self {
            WordsFault::Help => None,
            WordsFault::NotUtf8 => Some("a word is not UTF-8"),
            WordsFault::NoCommand => Some("a command is missing"),
            WordsFault::UnknownCommand => Some("no such command"),
            WordsFault::UnknownWord => Some("no such option, or a word too many"),
            WordsFault::NoValue => Some("an option has no value"),
            WordsFault::RepeatedOption => Some("an option is given twice"),
            WordsFault::File => Some("FILE is missing"),
            WordsFault::Port => Some("--port wants a number from 1 to 65535"),
            WordsFault::Count => Some("--count wants a number from 0 to 4294967295"),
            WordsFault::Change => Some("--change wants a number from 1 to 1000000000"),
            WordsFault::Project => Some("--project wants the name of a project"),
            WordsFault::Branch => Some("--branch wants the name of a branch"),
            WordsFault::Memory => Some("out of memory"),
        }
    }
}

impl From<ErrorKind> for WordsFault {
    ghost use Rattle.std.specs.Prelude.{◌≡◌};
    ghost use Rattle.review_desk_work.specs.Jobs.{fault_of_kind};

    ghost from_gives = { λ kind e. e ≡ fault_of_kind kind };

    fn from(kind: ErrorKind) -> WordsFault {
        match kind {
            ErrorKind::DisplayHelp => WordsFault::Help,
            ErrorKind::InvalidValue => WordsFault::NoValue,
            ErrorKind::ArgumentConflict => WordsFault::RepeatedOption,
            ErrorKind::OutOfMemory => WordsFault::Memory,
            _ => WordsFault::UnknownWord,
        }
    }
}

impl From<AllocError> for WordsFault {
    ghost use Rattle.std.specs.Prelude.{◌≡◌};
    ghost use Rattle.review_desk_work.specs.declared.words_fault.WordsFault.TheVariants.{Memory};

    ghost from_gives = { λ _ e. e ≡ Memory };

    fn from(_error: AllocError) -> WordsFault {
        WordsFault::Memory
    }
}
