//! Why the program ends with status 1.
ghost use Rattle.std.specs.Prelude.{◌≡◌, ◌⊎◌};
ghost use Rattle.review_desk_work.specs.Faults.{fault_text};

use crate::ShowFault;
use review_http::ConnectionsFault;
use review_json_lines::Fault;
use review_sql::faults::DeskFault;
use sqlite::Error;
use std::fmt;
use std::fmt::{Display, Formatter};

/// What ends a job early, by the text that standard error gets.
#[derive(Clone, Copy, PartialEq, Eq)]
pub enum ProgramFault {
    /// The tables of the file are not those of a desk.
    NotADesk,
    /// They are those of another version.
    WrongVersion,
    /// The file doesn't open, or the store refused a call.
    Store,
    /// The store refused a call while connections were served, of which so many are left.
    ServedInPart { left: u32 },
    /// A desk is to be made where tables of one are.
    NotEmpty,
    /// There was no memory for it.
    Memory,
    /// Standard input failed, or had no end.
    Input,
    /// Standard output failed.
    Output,
    /// Listening for connections or accepting one failed.
    Network,
    /// The tables are those of no history.
    Damaged,
    /// The pattern engine refused a pattern.
    Pattern,
    NoChange,
    NoProject,
    NoBranch,
}

impl ProgramFault {
    /// The fault of an error of the store.
    pub fn of_store(error: Error) -> ProgramFault
        ensures { (result ≡ ProgramFault.Store) ⊎ (result ≡ ProgramFault.Memory) }
    {
        ProgramFault::from(DeskFault::of(error))
    }

    /// What standard error is told of it, behind the program's name.
    pub fn text(self) -> &'static str
        ensures { result.now ≡ fault_text self }
    {
        match self {
            ProgramFault::NotADesk => "not a desk",
            ProgramFault::WrongVersion => "wrong version",
            ProgramFault::Store | ProgramFault::ServedInPart { .. } => "store fault",
            ProgramFault::NotEmpty => "not empty",
            ProgramFault::Memory => "out of memory",
            ProgramFault::Input => "input fault",
            ProgramFault::Output => "output fault",
            ProgramFault::Network => "network fault",
            ProgramFault::Damaged => "damaged",
            ProgramFault::Pattern => "pattern",
            ProgramFault::NoChange => "no such change",
            ProgramFault::NoProject => "no such project",
            ProgramFault::NoBranch => "no such branch",
        }
    }
}

impl From<DeskFault> for ProgramFault {
    ghost use Rattle.std.specs.Prelude.{◌≡◌};
    ghost use Rattle.review_desk_work.specs.Faults.{desk_fault};

    ghost from_gives = { λ fault e. e ≡ desk_fault fault };

    fn from(fault: DeskFault) -> ProgramFault {
        match fault {
            DeskFault::NotADesk | DeskFault::NotOurs => ProgramFault::NotADesk,
            DeskFault::WrongVersion => ProgramFault::WrongVersion,
            DeskFault::Store => ProgramFault::Store,
            DeskFault::NotEmpty => ProgramFault::NotEmpty,
            DeskFault::Memory => ProgramFault::Memory,
        }
    }
}

impl From<Fault> for ProgramFault {
    ghost use Rattle.std.specs.Prelude.{◌≡◌};
    ghost use Rattle.review_desk_work.specs.Faults.{line_fault};

    ghost from_gives = { λ fault e. e ≡ line_fault fault };

    fn from(fault: Fault) -> ProgramFault {
        match fault {
            Fault::Memory => ProgramFault::Memory,
            Fault::Input => ProgramFault::Input,
            Fault::Output => ProgramFault::Output,
        }
    }
}

impl From<ConnectionsFault> for ProgramFault {
    ghost use Rattle.std.specs.Prelude.{◌≡◌};
    ghost use Rattle.review_desk_work.specs.Faults.{connections_fault};

    ghost from_gives = { λ fault e. e ≡ connections_fault fault };

    fn from(fault: ConnectionsFault) -> ProgramFault {
        match fault {
            ConnectionsFault::Network => ProgramFault::Network,
            ConnectionsFault::Output => ProgramFault::Output,
        }
    }
}

impl From<ShowFault> for ProgramFault {
    ghost use Rattle.std.specs.Prelude.{◌≡◌};
    ghost use Rattle.review_desk_work.specs.Faults.{show_fault};

    ghost from_gives = { λ fault e. e ≡ show_fault fault };

    fn from(fault: ShowFault) -> ProgramFault {
        match fault {
            ShowFault::Memory => ProgramFault::Memory,
            ShowFault::Store => ProgramFault::Store,
            ShowFault::Damaged => ProgramFault::Damaged,
            ShowFault::Pattern => ProgramFault::Pattern,
            ShowFault::NoChange => ProgramFault::NoChange,
            ShowFault::NoProject => ProgramFault::NoProject,
            ShowFault::NoBranch => ProgramFault::NoBranch,
            ShowFault::Output => ProgramFault::Output,
        }
    }
}

impl Display for ProgramFault {
    fn fmt<W: fmt::Write>(&self, f: &mut Formatter<W>) -> fmt::Result {
        f.write_str(self.text())
    }
}
