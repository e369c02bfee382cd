//! How the program ends.

ghost use Rattle.std.specs.Prelude.{◌≡◌};
ghost use Rattle.command_files.specs.Ending.{status_after};
ghost use Rattle.audit_program.specs.Statuses.{number_of, put_statuses};

use command_files::wire_io::PutFault;

/// How the program ended, with one number each for the system.
#[derive(Clone, Copy, Debug, PartialEq, Eq)]
pub enum AuditStatus {
    /// The audit was made, and both of its lines were put.
    Done,
    /// The words ask for no audit.
    Usage,
    /// The data file isn't accepted.
    BadData,
    /// A file could not be read, or the shelf knows its files and has none of this name.
    ShelfFault,
    /// The sink could not write.
    SinkFault,
    /// There was no memory, or a connection was cut while the script was replayed.
    NoMemory,
    /// The script isn't in its form, or the file is too long.
    BadScript,
}

impl AuditStatus {
    /// The number that the program exits with.
    pub fn number(&self) -> u8
        ensures exact { result ≡ number_of self.now }
    {
        match self {
            AuditStatus::Done => 0,
            AuditStatus::Usage => 2,
            AuditStatus::BadData => 3,
            AuditStatus::ShelfFault => 4,
            AuditStatus::SinkFault => 5,
            AuditStatus::NoMemory => 8,
            AuditStatus::BadScript => 9,
        }
    }

    /// This status where all was put, and otherwise that of the sink's refusal.
    pub(crate) fn after(self, put: Result<(), PutFault>) -> AuditStatus
        ensures exact { result ≡ status_after put_statuses put self }
    {
        match put {
            Ok(()) => self,
            Err(PutFault::Failed) => AuditStatus::SinkFault,
            Err(PutFault::NoMemory) => AuditStatus::NoMemory,
        }
    }
}
