//! How the program ends.

ghost use Rattle.std.specs.Prelude.{◌≡◌, Ok, Err};
ghost use Rattle.acl_program.specs.Outcomes.{number_of, settled};

use command_files::wire_io::PutFault;

/// How the program ended, with one number each for the system.
#[derive(Clone, Copy, Debug, PartialEq, Eq)]
pub enum Status {
    /// The command's work ended, and all of its text was put.
    Done,
    /// The words are no command.
    Usage,
    /// The data file isn't accepted, or the file of changes isn't.
    BadData,
    /// A file could not be read, or the shelf knows its files and has none of this name.
    ShelfFault,
    /// The sink could not write.
    SinkFault,
    /// The link could not open, or failed at an event.
    LinkFault,
    /// As many events were heard as the words allow, and none was Stop.
    TurnsSpent,
    /// There was no memory, or a connection was cut while it was served.
    NoMemory,
    /// The script, the requests or the certificate aren't in their form, or the file is too long.
    BadScript,
    /// The certificate isn't that of the loaded tree.
    NotProved,
    /// The file of changes could not be opened, cut or written.
    StoreFault,
}

impl Status {
    /// The number that the program exits with.
    pub fn number(&self) -> u8
        ensures exact { result ≡ number_of self.now }
    {
        match self {
            Status::Done => 0,
            Status::Usage => 2,
            Status::BadData => 3,
            Status::ShelfFault => 4,
            Status::SinkFault => 5,
            Status::LinkFault => 6,
            Status::TurnsSpent => 7,
            Status::NoMemory => 8,
            Status::BadScript => 9,
            Status::NotProved => 10,
            Status::StoreFault => 11,
        }
    }

    /// This status where all was put, and otherwise that of the sink's refusal.
    pub(crate) fn after(self, put: Result<(), PutFault>) -> Status
        ensures exact { result ≡ settled put self }
    {
        match put {
            Ok(()) => self,
            Err(PutFault::Failed) => Status::SinkFault,
            Err(PutFault::NoMemory) => Status::NoMemory,
        }
    }
}
